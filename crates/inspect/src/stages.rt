// The stages, each with its oldest occupant (SCOREBOARD_PHASES).
ghost use Rattle.std.specs.Prelude.{◌≡◌, List, option_map, slice_get};
ghost use Rattle.laws.specs.Texts.{Text};
ghost use Rattle.model.specs.Config.{Machine};
ghost use Rattle.model.specs.Views.{stage_roles, stage_view};
ghost use Rattle.flight.specs.declared.pool.TextPool.{TextPool};
ghost use Rattle.flight.specs.View.{view_queue, QueueOk};
ghost use Rattle.flight.specs.Pool.{legend, DecodedPoolOk};
ghost use Rattle.bank.specs.View.{view_units, UnitsOk};
ghost use Rattle.occupants.specs.View.{of_parts};
ghost use Rattle.inspect.specs.View.{view_stage};

use bank::Units;
use capability::PipelineStageRole;
use flight::Queue;
use flight::pool::DecodedPool;
use occupants::oldest::stage_op;
use occupants::{PipelineSlotView, slot};

#[derive(Clone, Copy)]
pub struct PipelineStageView {
    pub role: PipelineStageRole,
    pub slot: Option<PipelineSlotView>,
}

fn role_at(index: usize) -> Option<PipelineStageRole>
    ensures { result ≡ slice_get stage_roles index }
{
    match index {
        0 => Some(PipelineStageRole::Fetch),
        1 => Some(PipelineStageRole::Issue),
        2 => Some(PipelineStageRole::Decode),
        3 => Some(PipelineStageRole::Execute),
        4 => Some(PipelineStageRole::Writeback),
        _ => None,
    }
}

// model: Views.stage_view
pub fn stage_view(
    units: &Units,
    queue: &Queue,
    decoded: &DecodedPool,
    index: usize,
) -> Option<PipelineStageView>
    requires units_ok { UnitsOk units.now }
    requires queue_ok { QueueOk queue.now }
    requires decoded_pool_ok { DecodedPoolOk decoded.now }
    ensures { (m : Machine) (ts : TextPool) (ns : List Text) → option_map view_stage result ≡ stage_view (of_parts m (view_units (legend decoded.now ts ns) units.now) (view_queue (legend decoded.now ts ns) queue.now)) index }
{
    let role = role_at(index)?;
    let slot = slot(stage_op(units, queue, index), decoded);
    Some(PipelineStageView { role, slot })
}
