// Where the engine fetches, where another would resume, and what is in flight.
ghost use Rattle.std.specs.Prelude.{◌≡◌};
ghost use Rattle.model.specs.Scoreboard.{resume_pc, in_flight_before};
ghost use Rattle.scoreboard.specs.View.{view_engine};
ghost use Rattle.scoreboard.specs.Valid.{Valid};

use occupants::in_flight;
use scoreboard::ScoreboardPipeline;

// ScoreboardPipeline::enabled
pub fn enabled(engine: &ScoreboardPipeline) -> bool
    requires { Valid engine.now }
    ensures { result ≡ (view_engine engine.now).front.enabled }
{
    engine.board.front.enabled
}

// ScoreboardPipeline::fetch_pc
pub fn fetch_pc(engine: &ScoreboardPipeline) -> u64
    requires { Valid engine.now }
    ensures { result ≡ (view_engine engine.now).front.fetch_pc }
{
    engine.board.fetch_pc
}

// ScoreboardPipeline::resume_pc: the address of the oldest operation in flight, or else where to fetch.
#[tactic(auto, unfolding(engine::specs::View::view_engine, board::specs::View::view_board, model::specs::Scoreboard::in_flight, model::specs::Scoreboard::resume_pc))]
pub fn resume_pc(engine: &ScoreboardPipeline) -> u64
    requires { Valid engine.now }
    ensures { result ≡ resume_pc (view_engine engine.now) }
{
    let found = in_flight::oldest_in_flight(&engine.board.units, &engine.board.queue);
    in_flight::address_or(found, &engine.decoded, engine.board.fetch_pc)
}

// ScoreboardPipeline::in_flight_before: is one in flight that is older than a number?
#[tactic(auto, using(crate::proofs::Shows::any_append), unfolding(engine::specs::View::view_engine, board::specs::View::view_board, model::specs::Scoreboard::in_flight, model::specs::Scoreboard::in_flight_before))]
pub fn in_flight_before(engine: &ScoreboardPipeline, seq: u64) -> bool
    requires { Valid engine.now }
    ensures { result ≡ in_flight_before seq (view_engine engine.now) }
{
    in_flight::unit_before(&engine.board.units, seq)
        || in_flight::queued_before(&engine.board.queue, seq)
}
