// The waits of a cycle.
ghost use Rattle.std.specs.Prelude.{◌≡◌, length, option_map, slice_get};
ghost use Rattle.model.specs.Views.{trace_view};
ghost use Rattle.inspect.specs.View.{view_trace};
ghost use Rattle.scoreboard.specs.View.{view_engine};
ghost use Rattle.scoreboard.specs.Valid.{Valid};

use inspect::waits::{PipelineTraceView, trace_view};
use scoreboard::ScoreboardPipeline;

// PipelineInspect::trace_count
#[tactic(auto, using(crate::proofs::Shows::traces_counted), unfolding(engine::specs::View::view_engine, board::specs::View::view_board, stalls::specs::View::view_log))]
pub fn trace_count(engine: &ScoreboardPipeline) -> usize
    requires { Valid engine.now }
    ensures { result ≡ length (view_engine engine.now).log.traces }
{
    engine.board.log.traces.len
}

// PipelineInspect::trace
pub fn trace(engine: &ScoreboardPipeline, index: usize) -> Option<PipelineTraceView>
    requires { Valid engine.now }
    ensures { option_map view_trace result ≡ option_map trace_view (slice_get (view_engine engine.now).log.traces index) }
{
    trace_view(&engine.board.log.traces, index)
}
