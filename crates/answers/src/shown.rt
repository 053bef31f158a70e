// Waits, rows, cells, claims, status, counters, edges and stages.
ghost use Rattle.std.specs.Prelude.{◌+◌, ◌≤◌, length, map, option_map};
ghost use Rattle.model.specs.Calls.{shown_flag, shown_number, shown_status, shown_stats, shown_stages, shown_edges, shown_trace, shown_cell, shown_rename};
ghost use Rattle.traces.specs.Texts.{Laid};
ghost use Rattle.registers.specs.View.{view_owed};
ghost use Rattle.timeline.specs.View.{view_row, row_answer};
ghost use Rattle.timeline.specs.Cells.{view_cell, cell_answer};
ghost use Rattle.stalls.specs.View.{view_stats};
ghost use Rattle.inspect.specs.View.{view_trace};
ghost use Rattle.views.specs.View.{view_status, view_edge};
ghost use Rattle.answers.specs.Bytes.{edge_bytes, wait_bytes, row_bytes, cell_bytes, claim_bytes};
ghost use Rattle.answers.specs.Encode.{encode};
ghost use Rattle.answers.specs.Shown.{wait_shown, row_shown, cell_shown, claim_shown};

use super::parts::{Put, Shown, class_byte, put_all, put_shown};
use capability::{PipelineEdge, PipelineStats, PipelineStatus, Refusal};
use inspect::waits::PipelineTraceView;
use registers::Owed;
use timeline::PipelineTimelineRow;
use timeline::cells::PipelineTimelineCell;
use traces::texts;
use views::stages::EdgeList;

#[tactic(auto, unfolding(crate::specs::Bytes::flag_byte, crate::specs::Encode::encode))]
pub fn put_flag_answer(out: &mut [u8], at: usize, flag: bool) -> usize
    requires { at + 2 ≤ length out.old }
    ensures { Laid at (encode (shown_flag flag)) out.old out.new result }
{
    texts::put(out, at, &[0, u8::from(flag)])
}

pub fn put_number_answer(out: &mut [u8], at: usize, n: u64) -> usize
    requires { at + 9 ≤ length out.old }
    ensures { Laid at (encode (shown_number n)) out.old out.new result }
{
    let next = texts::put(out, at, &[0]);
    n.put(out, next)
}

#[tactic(auto, unfolding(crate::specs::Bytes::flag_byte, crate::specs::Bytes::status_bytes, crate::specs::Encode::encode, views::specs::View::view_status))]
pub fn put_status(out: &mut [u8], at: usize, v: PipelineStatus) -> usize
    requires { at + 5 ≤ length out.old }
    ensures { Laid at (encode (shown_status (view_status v))) out.old out.new result }
{
    texts::put(
        out,
        at,
        &[
            0,
            u8::from(v.enabled),
            u8::from(v.sequential),
            u8::from(v.halted),
            u8::from(v.faulted),
        ],
    )
}

pub fn put_stats(out: &mut [u8], at: usize, s: PipelineStats) -> usize
    requires { at + 97 ≤ length out.old }
    ensures { Laid at (encode (shown_stats (view_stats s))) out.old out.new result }
{
    let next = texts::put(out, at, &[0]);
    put_all(
        out,
        next,
        &[
            s.cycles,
            s.committed,
            s.stalls,
            s.raw_stalls,
            s.load_use_stalls,
            s.branch_stalls,
            s.functional_unit_stalls,
            s.memory_stalls,
            s.waw_stalls,
            s.war_stalls,
            s.flushes,
            s.branches,
        ],
    )
}

pub fn put_edges(out: &mut [u8], at: usize, list: EdgeList) -> usize
    requires { at + 16 ≤ length out.old }
    ensures { Laid at (encode (shown_edges (map view_edge list.items))) out.old out.new result }
{
    let next = texts::put(out, at, &[0]);
    put_all(out, next, &list.items)
}

#[tactic(auto, unfolding(crate::specs::Bytes::edge_bytes, views::specs::View::view_edge))]
impl Put for PipelineEdge {
    const SIZE: usize = 3;

    ghost SIZE = { 3 };

    ghost bytes = { λ e. edge_bytes (view_edge e) };

    fn put(self, out: &mut [u8], at: usize) -> usize {
        texts::put(out, at, &[self.from, self.to, u8::from(self.kind)])
    }
}

pub fn put_stages(out: &mut [u8], at: usize, stages: &[u8]) -> usize
    requires { at + (1 + length stages.now) ≤ length out.old }
    ensures { Laid at (encode (shown_stages stages.now)) out.old out.new result }
{
    let next = texts::put(out, at, &[0]);
    texts::put(out, next, stages)
}

#[tactic(auto, unfolding(crate::specs::Bytes::wait_bytes, inspect::specs::View::view_trace))]
impl Put for PipelineTraceView {
    const SIZE: usize = 3;

    ghost SIZE = { 3 };

    ghost bytes = { λ v. wait_bytes (view_trace v) };

    fn put(self, out: &mut [u8], at: usize) -> usize {
        texts::put(
            out,
            at,
            &[u8::from(self.kind), self.from_stage, self.to_stage],
        )
    }
}

impl Shown for PipelineTraceView {
    ghost shown = { λ o. shown_trace (option_map view_trace o) };

    ghost laws = { wait_shown };
}

impl Put for PipelineTimelineRow {
    const SIZE: usize = 27;

    ghost SIZE = { 27 };

    ghost bytes = { λ v. row_bytes (view_row v) };

    fn put(self, out: &mut [u8], at: usize) -> usize {
        let a = self.id.put(out, at);
        let b = self.address.put(out, a);
        let c = class_byte(self.class).put(out, b);
        let d = self.first_cycle.put(out, c);
        texts::put(out, d, &[self.cells, u8::from(self.atomic)])
    }
}

impl Shown for PipelineTimelineRow {
    ghost shown = { row_answer };

    ghost laws = { row_shown };
}

#[tactic(auto, unfolding(crate::specs::Bytes::cell_bytes, timeline::specs::Cells::view_cell))]
impl Put for PipelineTimelineCell {
    const SIZE: usize = 3;

    ghost SIZE = { 3 };

    ghost bytes = { λ v. cell_bytes (view_cell v) };

    fn put(self, out: &mut [u8], at: usize) -> usize {
        texts::put(
            out,
            at,
            &[self.label, u8::from(self.state), u8::from(self.role)],
        )
    }
}

impl Shown for PipelineTimelineCell {
    ghost shown = { λ o. shown_cell (option_map view_cell o) };

    ghost laws = { cell_shown };
}

#[tactic(auto, unfolding(crate::specs::Encode::encode, timeline::specs::Cells::cell_answer))]
pub fn put_cell_answer(
    out: &mut [u8],
    at: usize,
    cell: Result<Option<PipelineTimelineCell>, Refusal>,
) -> usize
    requires { at + 5 ≤ length out.old }
    ensures { Laid at (encode (cell_answer cell)) out.old out.new result }
{
    match cell {
        Ok(shown) => put_shown(out, at, shown),
        Err(refusal) => texts::put(out, at, &[u8::from(refusal)]),
    }
}

#[tactic(auto, unfolding(crate::specs::Bytes::claim_bytes, registers::specs::View::view_owed))]
impl Put for Owed {
    const SIZE: usize = 2;

    ghost SIZE = { 2 };

    ghost bytes = { λ o. claim_bytes (view_owed o) };

    fn put(self, out: &mut [u8], at: usize) -> usize {
        texts::put(out, at, &[self.register, self.unit])
    }
}

impl Shown for Owed {
    ghost shown = { λ o. shown_rename (option_map view_owed o) };

    ghost laws = { claim_shown };
}
