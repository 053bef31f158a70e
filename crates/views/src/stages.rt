// The stages, each with its oldest occupant, and the edges between them (SCOREBOARD_PHASES).
ghost use Rattle.std.specs.Prelude.{◌≡◌, map, length, option_map};
ghost use Rattle.model.specs.Views.{stage_view, stages as all-stages, edges, entry_stages, stage_order};
ghost use Rattle.inspect.specs.View.{view_stage};
ghost use Rattle.scoreboard.specs.View.{view_engine};
ghost use Rattle.scoreboard.specs.Valid.{Valid};
ghost use Rattle.views.specs.View.{view_edge};

use capability::{PipelineEdge, PipelineEdgeKind};
use inspect::stages::{PipelineStageView, stage_view};
use scoreboard::ScoreboardPipeline;

#[derive(Drop)]
pub struct EdgeList {
    pub items: [PipelineEdge; 5],
}

// PipelineInspect::stage_count
pub fn stage_count() -> usize
    ensures { result ≡ length all-stages }
{
    5
}

// PipelineInspect::stage
pub fn stage(engine: &ScoreboardPipeline, index: usize) -> Option<PipelineStageView>
    requires { Valid engine.now }
    ensures { option_map view_stage result ≡ stage_view (view_engine engine.now) index }
{
    stage_view(
        &engine.board.units,
        &engine.board.queue,
        &engine.decoded,
        index,
    )
}

// PipelineInspect::edges
#[tactic(auto, using(crate::proofs::Shows::edges_shown))]
pub fn edges() -> EdgeList
    ensures { map view_edge result.items ≡ edges }
{
    let a = PipelineEdge::sequential(0, 1);
    let b = PipelineEdge::sequential(1, 2);
    let c = PipelineEdge::sequential(2, 3);
    let d = PipelineEdge::sequential(3, 4);
    let e = PipelineEdge {
        from: 4,
        to: 0,
        kind: PipelineEdgeKind::Feedback,
    };
    EdgeList {
        items: [a, b, c, d, e],
    }
}

// PipelineInspect::entry_stages: those that no sequential edge leads to.
#[tactic(auto, using(crate::proofs::Shows::entries_shown))]
pub fn entry_stages() -> [u8; 1]
    ensures { result ≡ entry_stages }
{
    [0]
}

// PipelineInspect::stage_order: breadth-first from the entry stages along sequential edges.
#[tactic(auto, using(crate::proofs::Shows::order_shown))]
pub fn stage_order() -> [u8; 5]
    ensures { result ≡ stage_order }
{
    [0, 1, 2, 3, 4]
}
