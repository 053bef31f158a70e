// What the program `forecast` prints, laid down in a lent page: a line for each held row, and the totals; or a refused line. Each function
// writes from a place on and hands back the next place.
#![tactic(auto)]

ghost use Rattle.std.specs.Prelude.{◌≡◌, [], ◌++◌, ◌+◌, ◌*◌, ◌≤◌, length};
ghost use Rattle.laws.specs.Optional.{value_or, when_some};
ghost use Rattle.laws.specs.Texts.{decimal};
ghost use Rattle.model.specs.Timeline.{cell_at};
ghost use Rattle.model.specs.Requests.{label_text};
ghost use Rattle.model.specs.State.{State};
ghost use Rattle.model.specs.Forecast.{lent_of, cell_text, cells_text, row_text, rows_text, totals_text, refused_text};
ghost use Rattle.config.specs.View.{view_machine};
ghost use Rattle.config.specs.Kept.{MachineOk};
ghost use Rattle.timeline.specs.View.{view_rows, WindowOk, TracksOk, RowTextsOk};
ghost use Rattle.timeline.specs.Cells.{view_cell, bare};
ghost use Rattle.traces.specs.Texts.{Laid};
ghost use Rattle.stalls.specs.View.{view_stats};
ghost use Rattle.pages.specs.Shown.{shown_text, FewCells, shown_row_text};

use capability::{PipelineStats, PipelineTimelineState};
use config::Machine;
use timeline::cells::PipelineTimelineCell;
use timeline::{PipelineTimelineRow, RowTexts, Tracks, Window};
use traces::texts::{digits_of, put};

// The digits of a number.
fn put_number(page: &mut [u8], at: usize, n: u64) -> usize
    requires { at + 20 ≤ length page.old }
    ensures { Laid at (decimal n) page.old page.new result }
{
    let digits = digits_of(n, 10);
    put(page, at, &digits.bytes[digits.at..])
}

// A text and a number behind it.
fn put_after(page: &mut [u8], at: usize, text: &[u8], n: u64) -> usize
    requires { at + (length text.now + 20) ≤ length page.old }
    ensures { Laid at (text.now ++ decimal n) page.old page.new result }
{
    let next = put(page, at, text);
    put_number(page, next, n)
}

// The name of a label; nothing where it has none.
fn put_label(page: &mut [u8], at: usize, machine: &Machine, label: u8) -> usize
    requires machine_ok { MachineOk machine.now }
    requires at_in_bounds { at + 8 ≤ length page.old }
    ensures { Laid at (value_or [] (label_text (view_machine machine.now).specs label)) page.old page.new result }
{
    let mut name = [0u8; 8];
    let size = words::write_cell_label(machine, label as usize, &mut name)
        .unwrap_or(None)
        .unwrap_or(0);
    put(page, at, &name[..size])
}

// A cell: a space, the label, and `*` where it is stalled.
// model: Forecast.cell_text
fn put_cell(page: &mut [u8], at: usize, machine: &Machine, cell: PipelineTimelineCell) -> usize
    requires machine_ok { MachineOk machine.now }
    requires at_in_bounds { at + 10 ≤ length page.old }
    ensures { Laid at (shown_text (view_machine machine.now).specs (view_cell cell)) page.old page.new result }
{
    let a = put(page, at, b" ");
    let b = put_label(page, a, machine, cell.label);
    if cell.state == PipelineTimelineState::Stalled {
        put(page, b, b"*")
    } else {
        b
    }
}

// The cell of a row at an index, if it is there.
fn put_nth_cell(
    page: &mut [u8],
    at: usize,
    machine: &Machine,
    row: PipelineTimelineRow,
    window: Window,
    cells: &[u8],
    index: usize,
) -> usize
    requires machine_ok { MachineOk machine.now }
    requires window_ok { WindowOk window }
    requires history_in_bounds { window.history * 200 ≤ length cells.now }
    requires at_in_bounds { at + 10 ≤ length page.old }
    ensures { Laid at (when_some (cell_at window.history (bare row) cells.now index) [] (cell_text (view_machine machine.now).specs)) page.old page.new result }
{
    match timeline::cells::cell(row, window, cells, index).unwrap_or(None) {
        Some(cell) => put_cell(page, at, machine, cell),
        None => at,
    }
}

// model: Forecast.cells_text
fn put_cells(
    page: &mut [u8],
    at: usize,
    machine: &Machine,
    row: PipelineTimelineRow,
    window: Window,
    cells: &[u8],
) -> usize
    requires machine_ok { MachineOk machine.now }
    requires window_ok { WindowOk window }
    requires history_value { window.history ≡ machine.now.history }
    requires history_in_bounds { window.history * 200 ≤ length cells.now }
    requires cells_in_bounds { at + row.cells * 10 ≤ length page.old }
    ensures { (s : State) → s.machine ≡ view_machine machine.now → Laid at (cells_text (lent_of s cells.now) (bare row) row.cells) page.old page.new result }
{
    let mut next = at;
    for i in 0..row.cells as usize {
        next = put_nth_cell(page, next, machine, row, window, cells, i);
    }
    next
}

// model: Forecast.row_text
fn put_row(
    page: &mut [u8],
    at: usize,
    machine: &Machine,
    row: PipelineTimelineRow,
    window: Window,
    cells: &[u8],
) -> usize
    requires machine_ok { MachineOk machine.now }
    requires window_ok { WindowOk window }
    requires history_value { window.history ≡ machine.now.history }
    requires history_in_bounds { window.history * 200 ≤ length cells.now }
    requires cells_bound { row.cells ≤ 200 }
    requires at_in_bounds { at + 2042 ≤ length page.old }
    ensures { (s : State) → s.machine ≡ view_machine machine.now → Laid at (row_text (lent_of s cells.now) (bare row)) page.old page.new result }
{
    let a = put_number(page, at, row.id);
    let b = put_after(page, a, b" ", row.first_cycle);
    let c = put_cells(page, b, machine, row, window, cells);
    put(page, c, b"\n")
}

// The row at an index, if it is held.
fn put_nth_row(
    page: &mut [u8],
    at: usize,
    machine: &Machine,
    shown: Option<PipelineTimelineRow>,
    window: Window,
    cells: &[u8],
) -> usize
    requires machine_ok { MachineOk machine.now }
    requires window_ok { WindowOk window }
    requires history_value { window.history ≡ machine.now.history }
    requires history_in_bounds { window.history * 200 ≤ length cells.now }
    requires few_cells { FewCells shown }
    requires at_in_bounds { at + 2042 ≤ length page.old }
    ensures { (s : State) → s.machine ≡ view_machine machine.now → Laid at (shown_row_text (lent_of s cells.now) shown) page.old page.new result }
{
    match shown {
        Some(row) => put_row(page, at, machine, row, window, cells),
        None => at,
    }
}

// model: Forecast.rows_text
pub fn put_rows(
    page: &mut [u8],
    at: usize,
    machine: &Machine,
    window: Window,
    tracks: &Tracks,
    texts: &RowTexts,
    cells: &[u8],
) -> usize
    requires machine_ok { MachineOk machine.now }
    requires window_ok { WindowOk window }
    requires tracks_ok { TracksOk tracks.now }
    requires row_texts_ok { RowTextsOk texts.now }
    requires history_value { window.history ≡ machine.now.history }
    requires history_in_bounds { window.history * 200 ≤ length cells.now }
    requires held_in_bounds { at + window.held * 2042 ≤ length page.old }
    ensures text { (s : State) → s.machine ≡ view_machine machine.now → Laid at (rows_text (lent_of s cells.now) (view_rows window tracks.now texts.now)) page.old page.new result }
    ensures most { result ≤ at + window.held * 2042 }
{
    let mut next = at;
    for i in 0..window.held {
        let shown = timeline::row(window, tracks, texts, i);
        next = put_nth_row(page, next, machine, shown, window, cells);
    }
    next
}

// model: Forecast.totals_text
pub fn put_totals(page: &mut [u8], at: usize, stats: PipelineStats) -> usize
    requires { at + 87 ≤ length page.old }
    ensures { Laid at (totals_text (view_stats stats)) page.old page.new result }
{
    let a = put_after(page, at, b"cycles ", stats.cycles);
    let b = put_after(page, a, b" committed ", stats.committed);
    let c = put_after(page, b, b" stalls ", stats.stalls);
    put(page, c, b"\n")
}

// model: Forecast.refused_text
pub fn put_refused(page: &mut [u8], at: usize, line: u64, number: u8) -> usize
    requires { at + 55 ≤ length page.old }
    ensures { Laid at (refused_text line number) page.old page.new result }
{
    let a = put_after(page, at, b"line ", line);
    let b = put_after(page, a, b" refused ", number as u64);
    put(page, b, b"\n")
}
