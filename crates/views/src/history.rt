// The timeline. A screen takes a row's view once, and each of its cells from that view beside the lent memory (timeline::cells::cell).
ghost use Rattle.std.specs.Prelude.{◌≡◌, length, slice_get};
ghost use Rattle.model.specs.Calls.{cell, answer};
ghost use Rattle.timeline.specs.View.{ShowsRow};
ghost use Rattle.timeline.specs.Cells.{cell_answer};
ghost use Rattle.scoreboard.specs.View.{view_engine};
ghost use Rattle.scoreboard.specs.Valid.{Valid};

use capability::Refusal;
use scoreboard::ScoreboardPipeline;
use timeline::PipelineTimelineRow;
use timeline::cells::PipelineTimelineCell;

// PipelineInspect::timeline_len
#[tactic(auto, using(crate::proofs::Shows::rows_counted), unfolding(engine::specs::View::view_engine, board::specs::View::view_board, stalls::specs::View::view_log))]
pub fn timeline_len(engine: &ScoreboardPipeline) -> usize
    requires { Valid engine.now }
    ensures { result ≡ length (view_engine engine.now).log.rows }
{
    engine.window.held
}

// PipelineInspect::timeline_row
pub fn timeline_row(engine: &ScoreboardPipeline, index: usize) -> Option<PipelineTimelineRow>
    requires { Valid engine.now }
    ensures { ShowsRow (slice_get (view_engine engine.now).log.rows index) result }
{
    timeline::row(engine.window, &engine.tracks, &engine.rows, index)
}

// PipelineInspect::timeline_cell: none past the end, then 13 where the memory is short.
pub fn timeline_cell(
    engine: &ScoreboardPipeline,
    row: usize,
    index: usize,
    cells: &[u8],
) -> Result<Option<PipelineTimelineCell>, Refusal>
    requires { Valid engine.now }
    ensures { cell_answer result ≡ answer (view_engine engine.now) cells.now (cell row index (length cells.now)) }
{
    match timeline_row(engine, row) {
        Some(r) => timeline::cells::cell(r, engine.window, cells, index),
        None => Ok(None),
    }
}
