// The kinds of unit.
ghost use Rattle.std.specs.Prelude.{◌≡◌, length, option_map};
ghost use Rattle.model.specs.Views.{unit_view};
ghost use Rattle.inspect.specs.View.{view_kind};
ghost use Rattle.scoreboard.specs.View.{view_engine};
ghost use Rattle.scoreboard.specs.Valid.{Valid};

use inspect::kinds::{PipelineUnitView, unit_view};
use scoreboard::ScoreboardPipeline;

// PipelineInspect::unit_count
#[tactic(auto, using(crate::proofs::Shows::kinds_counted), unfolding(engine::specs::View::view_engine, board::specs::View::view_board))]
pub fn unit_count(engine: &ScoreboardPipeline) -> usize
    requires { Valid engine.now }
    ensures { result ≡ length (view_engine engine.now).machine.specs }
{
    engine.machine.specs_len
}

// PipelineInspect::unit
pub fn unit(engine: &ScoreboardPipeline, index: usize) -> Option<PipelineUnitView>
    requires { Valid engine.now }
    ensures { option_map view_kind result ≡ unit_view (view_engine engine.now) index }
{
    unit_view(&engine.board.units, &engine.machine, &engine.decoded, index)
}
