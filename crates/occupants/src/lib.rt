// Operations in flight, as views look at them: one in a unit as the queue would keep it (PipelineSlotView).
#![tactic(auto)]

use bank::Units;
use capability::{PipelineHazardKind, PipelineInstructionClass};
use flight::pool::DecodedPool;
use flight::{Queue, Queued};
use units::Unit;

// The oldest unit of those that pass, and the occupant of a stage.
pub mod oldest;
// The oldest operation in flight, and whether one is older than a number.
pub mod in_flight;

ghost use Rattle.std.specs.Prelude.{◌≡◌, List, ℕ, ◌<◌, IfSome, option_map, slice_get};
ghost use Rattle.laws.specs.Optional.{when_some};
ghost use Rattle.laws.specs.Means.{MeansFor};
ghost use Rattle.laws.specs.Texts.{Text};
ghost use Rattle.model.specs.Units.{unit_op, unit_at};
ghost use Rattle.model.specs.Views.{slot_view, station_op};
ghost use Rattle.flight.specs.declared.pool.TextPool.{TextPool};
ghost use Rattle.flight.specs.View.{view_queued, view_queue, QueuedOk, QueueOk};
ghost use Rattle.flight.specs.Pool.{legend, DecodedPoolOk};
ghost use Rattle.units.specs.View.{view_unit, UnitOk};
ghost use Rattle.bank.specs.View.{view_units, UnitsOk};
ghost use Rattle.occupants.specs.View.{view_slot, view_maybe_op, view_maybe_unit, MaybeOpOk, MaybeUnitOk};

// PipelineSlotView. The scoreboard never sets the three flags that follow the class.
#[derive(Clone, Copy)]
pub struct PipelineSlotView {
    pub address: u64,
    pub class: PipelineInstructionClass,
    pub bubble: bool,
    pub speculative: bool,
    pub predicted_taken: bool,
    pub hazard: Option<PipelineHazardKind>,
    pub atomic: bool,
    pub cycles_remaining: u8,
}

// The operation of a unit.
// model: Units.unit_op
#[tactic(auto, unfolding(flight::specs::View::op_with, flight::specs::View::view_queued, units::specs::View::view_unit, model::specs::Units::unit_op))]
pub fn op_of(u: &Unit) -> Queued
    requires { UnitOk u.now }
    ensures { MeansFor view_queued QueuedOk result (λ g. unit_op (view_unit g u.now)) }
{
    Queued {
        seq: u.seq,
        operands: u.operands,
        class: u.class,
        branch: u.redirects,
        hazard: u.progress.hazard,
        latency: u.progress.cycles_left,
        place: u.place,
    }
}

// Of a unit that may not be there.
pub fn held(unit: Option<Unit>) -> Option<Queued>
    requires { MaybeUnitOk unit }
    ensures { MeansFor view_maybe_op MaybeOpOk result (λ g. option_map unit_op (view_maybe_unit g unit)) }
{
    unit.map(|u| op_of(&u))
}

// model: Views.slot_view
#[tactic(auto, unfolding(flight::specs::Pool::decoded_at, flight::specs::Pool::held_at, flight::specs::View::carried_at, flight::specs::View::op_with, flight::specs::View::view_queued, crate::specs::View::view_slot, model::specs::Views::slot_view))]
pub fn slot_view(op: &Queued, decoded: &DecodedPool) -> PipelineSlotView
    requires { DecodedPoolOk decoded.now }
    ensures { (ts : TextPool) (ns : List Text) → view_slot result ≡ slot_view (view_queued (legend decoded.now ts ns) op.now) }
{
    let d = decoded.at(op.place);
    PipelineSlotView {
        address: d.address,
        class: op.class,
        bubble: false,
        speculative: false,
        predicted_taken: false,
        hazard: op.hazard,
        atomic: d.atomic,
        cycles_remaining: op.latency,
    }
}

// Of an operation that may not be there.
pub fn slot(op: Option<Queued>, decoded: &DecodedPool) -> Option<PipelineSlotView>
    requires { DecodedPoolOk decoded.now }
    ensures { (ts : TextPool) (ns : List Text) → option_map view_slot result ≡ option_map slot_view (view_maybe_op (legend decoded.now ts ns) op) }
{
    op.map(|op| slot_view(&op, decoded))
}

// model: nth units
pub fn unit_at(units: &Units, index: usize) -> Option<Unit>
    requires { UnitsOk units.now }
    ensures { MeansFor view_maybe_unit MaybeUnitOk result (λ g. slice_get (view_units g units.now) index) }
{
    units.as_slice().get(index).copied()
}

// model: nth queue
pub fn queued_op(queue: &Queue, index: usize) -> Option<Queued>
    requires { QueueOk queue.now }
    ensures { MeansFor view_maybe_op MaybeOpOk result (λ g. slice_get (view_queue g queue.now) index) }
{
    queue.as_slice().get(index).copied()
}

// The operation in a station: none while it is on offer.
// model: Views.station_op
pub fn station_op(units: &Units, index: usize) -> Option<Queued>
    requires { UnitsOk units.now }
    ensures { MeansFor view_maybe_op MaybeOpOk result (λ g. when_some (slice_get (view_units g units.now) index) None station_op) }
{
    shown_op(&unit_at(units, index)?)
}

// The operation that a unit shows: none while it is on offer.
// model: Views.station_op
#[tactic(auto, unfolding(units::specs::View::view_unit, model::specs::Views::station_op, model::specs::Units::unit_op))]
pub fn shown_op(u: &Unit) -> Option<Queued>
    requires { UnitOk u.now }
    ensures { MeansFor view_maybe_op MaybeOpOk result (λ g. station_op (view_unit g u.now)) }
{
    if u.busy { Some(op_of(u)) } else { None }
}

// The operation on offer, of the unit `writing`.
// model: Write.offered_op
#[tactic(auto, using(crate::proofs::Seen::unit_read), unfolding(model::specs::Units::unit_op))]
pub fn offered_op(units: &Units, writing: Option<usize>) -> Option<Queued>
    requires units_ok { UnitsOk units.now }
    requires writing_lt_len { IfSome writing (λ (i : ℕ). i < units.now.len) }
    ensures { MeansFor view_maybe_op MaybeOpOk result (λ g. option_map (λ (i : ℕ). (unit_at (view_units g units.now) i).op) writing) }
{
    writing.map(|at| op_of(&units.items[at]))
}
