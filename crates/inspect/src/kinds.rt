// The kinds of unit.
ghost use Rattle.std.specs.Prelude.{◌≡◌, List, [], option_map};
ghost use Rattle.laws.specs.Texts.{Text};
ghost use Rattle.model.specs.Views.{shown_class, unit_view};
ghost use Rattle.config.specs.View.{view_spec, view_machine};
ghost use Rattle.config.specs.Kept.{MachineOk};
ghost use Rattle.flight.specs.declared.pool.TextPool.{TextPool};
ghost use Rattle.flight.specs.View.{Legend};
ghost use Rattle.flight.specs.Pool.{legend, DecodedPoolOk};
ghost use Rattle.bank.specs.View.{view_units, UnitsOk};
ghost use Rattle.occupants.specs.View.{of_parts, view_maybe_unit};
ghost use Rattle.inspect.specs.View.{view_kind};

use bank::Units;
use capability::PipelineInstructionClass;
use config::{Machine, Spec};
use flight::pool::DecodedPool;
use occupants::{PipelineSlotView, held, oldest, slot};
use units::Unit;

// PipelineUnitView. The capacity is the noted one.
#[derive(Clone, Copy)]
pub struct PipelineUnitView {
    pub capacity: u8,
    pub active: usize,
    pub first: Option<PipelineSlotView>,
    pub latency_class: PipelineInstructionClass,
    pub latency: u8,
}

// The class of the oldest unit at work, or else the kind's own.
// model: Views.shown_class
#[tactic(auto, unfolding(config::specs::View::view_spec, units::specs::View::view_unit, model::specs::Views::shown_class))]
fn shown_class(working: Option<Unit>, spec: &Spec) -> PipelineInstructionClass
    ensures { (g : Legend) → result ≡ shown_class (view_maybe_unit g working) (view_spec spec.now) }
{
    working.map_or(spec.latency_class, |u| u.class)
}

// model: Views.unit_view
pub fn unit_view(
    units: &Units,
    machine: &Machine,
    decoded: &DecodedPool,
    index: usize,
) -> Option<PipelineUnitView>
    requires units_ok { UnitsOk units.now }
    requires machine_ok { MachineOk machine.now }
    requires decoded_pool_ok { DecodedPoolOk decoded.now }
    ensures { (ts : TextPool) (ns : List Text) → option_map view_kind result ≡ unit_view (of_parts (view_machine machine.now) (view_units (legend decoded.now ts ns) units.now) []) index }
{
    if machine.specs_len <= index {
        return None;
    }
    let spec = &machine.specs[index];
    let working = oldest::of_kind(units, index);
    let class = shown_class(working, spec);
    Some(PipelineUnitView {
        capacity: spec.capacity,
        active: oldest::active(units, index),
        first: slot(held(working), decoded),
        latency_class: class,
        latency: machine.latency(class),
    })
}
