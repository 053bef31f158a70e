// The units, each a station.
ghost use Rattle.std.specs.Prelude.{◌≡◌, length, option_map, slice_get};
ghost use Rattle.model.specs.Views.{station_view};
ghost use Rattle.inspect.specs.View.{view_station};
ghost use Rattle.scoreboard.specs.View.{view_engine};
ghost use Rattle.scoreboard.specs.Valid.{Valid};

use inspect::stations::{PipelineStationView, station_view};
use scoreboard::ScoreboardPipeline;

// PipelineDynamicInspect::station_count
#[tactic(auto, using(crate::proofs::Shows::units_counted), unfolding(engine::specs::View::view_engine, board::specs::View::view_board))]
pub fn station_count(engine: &ScoreboardPipeline) -> usize
    requires { Valid engine.now }
    ensures { result ≡ length (view_engine engine.now).units }
{
    engine.board.units.len
}

// PipelineDynamicInspect::station
pub fn station(engine: &ScoreboardPipeline, index: usize) -> Option<PipelineStationView>
    requires { Valid engine.now }
    ensures { option_map view_station result ≡ option_map (station_view index) (slice_get (view_engine engine.now).units index) }
{
    station_view(&engine.board.units, &engine.decoded, index)
}
