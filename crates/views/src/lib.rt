// What a host sees of the engine (ooo/scoreboard.rs, the impls PipelineInspect and PipelineDynamicInspect): numbers by value, texts into a lent
// buffer. A view of an engine hands the parts that it needs to a function on them.
#![tactic(auto, unfolding(engine::specs::View::view_engine, board::specs::View::view_board, stalls::specs::View::view_log))]

use capability::{PipelineStats, PipelineStatus};
use scoreboard::ScoreboardPipeline;

// The five stages, and the edges between them.
pub mod stages;
// The kinds of unit.
pub mod kinds;
// The units, each a station.
pub mod stations;
// Claims, the queue, and the buffer that this model has none of.
pub mod claims;
// The waits of a cycle.
pub mod waits;
// The timeline.
pub mod history;
// Where to fetch, where to resume, and what is in flight.
pub mod questions;
// Text requests.
pub mod texts;

ghost use Rattle.std.specs.Prelude.{◌≡◌};
ghost use Rattle.model.specs.Views.{status_view};
ghost use Rattle.stalls.specs.View.{view_stats};
ghost use Rattle.scoreboard.specs.View.{view_engine};
ghost use Rattle.scoreboard.specs.Valid.{Valid};
ghost use Rattle.views.specs.View.{view_status};

// PipelineInspect::status
#[tactic(auto, unfolding(engine::specs::View::view_engine, board::specs::View::view_board, model::specs::Views::status_view, crate::specs::View::view_status))]
pub fn status(engine: &ScoreboardPipeline) -> PipelineStatus
    requires { Valid engine.now }
    ensures { view_status result ≡ status_view (view_engine engine.now) }
{
    PipelineStatus {
        enabled: engine.board.front.enabled,
        sequential: !engine.board.front.enabled,
        halted: engine.board.front.halted,
        faulted: engine.board.front.faulted,
    }
}

// PipelineInspect::stats
pub fn stats(engine: &ScoreboardPipeline) -> PipelineStats
    requires { Valid engine.now }
    ensures { view_stats result ≡ (view_engine engine.now).log.stats }
{
    engine.board.log.stats
}
