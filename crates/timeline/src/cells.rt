// The lent cell memory, 200 bytes a row, and what a cell's byte shows.
ghost use Rattle.std.specs.Prelude.{◌≡◌, ◌*◌, ◌<◌, ◌≤◌, length};
ghost use Rattle.model.specs.Timeline.{write_all, clear_writes, cell_at};
ghost use Rattle.model.specs.Views.{cell_view, cell_state, label_role};
ghost use Rattle.timeline.specs.View.{WindowOk};
ghost use Rattle.timeline.specs.Cells.{view_cell, bare, cell_reply, cell_answer};

use crate::{PipelineTimelineRow, Window};
use capability::{PipelineStageRole, PipelineTimelineState, Refusal};

// PipelineTimelineCell: the label by its number.
#[derive(Drop)]
pub struct PipelineTimelineCell {
    pub label: u8,
    pub state: PipelineTimelineState,
    pub role: PipelineStageRole,
}

// Timeline::new and Timeline::clear: the bytes of every row are 255.
pub fn clear(cells: &mut [u8], history: usize)
    requires { history * 200 ≤ length cells.old }
    ensures { cells.new ≡ write_all (clear_writes history) cells.old }
{
    cells[..history * 200].fill(255);
}

// The byte's upper three bits. A byte that the engine never sets shows as Empty.
#[tactic(auto, unfolding(model::specs::Views::cell_state))]
fn state_of(byte: u8) -> PipelineTimelineState
    ensures { result ≡ cell_state byte }
{
    match byte / 32 {
        0 => PipelineTimelineState::Active,
        1 => PipelineTimelineState::Stalled,
        2 => PipelineTimelineState::Flushed,
        _ => PipelineTimelineState::Empty,
    }
}

// IF, IS, RO, WR; 8 to 23 the kinds.
#[tactic(auto, unfolding(model::specs::Views::label_role))]
fn role_of(label: u8) -> PipelineStageRole
    ensures { result ≡ label_role label }
{
    match label {
        0 => PipelineStageRole::Fetch,
        1 => PipelineStageRole::Issue,
        2 => PipelineStageRole::Decode,
        3 => PipelineStageRole::Writeback,
        8..=23 => PipelineStageRole::Execute,
        _ => PipelineStageRole::Other,
    }
}

// What a byte shows, whatever byte it is.
#[tactic(auto, unfolding(crate::specs::Cells::view_cell, model::specs::Views::cell_view))]
pub fn cell_view(byte: u8) -> PipelineTimelineCell
    ensures { view_cell result ≡ cell_view byte }
{
    let label = byte % 32;
    PipelineTimelineCell {
        label,
        state: state_of(byte),
        role: role_of(label),
    }
}

// The byte of a cell of the row that a view shows, counted from the oldest.
#[tactic(auto, using(crate::proofs::Shows::byte_at))]
fn cell_byte(row: PipelineTimelineRow, window: Window, cells: &[u8], index: usize) -> u8
    requires window_ok { WindowOk window }
    requires index_lt_cells { index < row.cells }
    requires history_in_bounds { window.history * 200 ≤ length cells.now }
    ensures { cell_at window.history (bare row) cells.now index ≡ Some result }
{
    let s = window.slot(row.id);
    let at = s * 200 + (row.oldest as usize + index) % 200;
    cells[at]
}

// Timeline::cell, of the row that a view shows: none past its cells, then a refusal where the memory is short.
pub fn cell(
    row: PipelineTimelineRow,
    window: Window,
    cells: &[u8],
    index: usize,
) -> Result<Option<PipelineTimelineCell>, Refusal>
    requires { WindowOk window }
    ensures { cell_answer result ≡ cell_reply window.history (bare row) cells.now index }
{
    if row.cells as usize <= index {
        return Ok(None);
    }
    if cells.len() < window.history * 200 {
        return Err(Refusal::ShortMemory);
    }
    Ok(Some(cell_view(cell_byte(row, window, cells, index))))
}
