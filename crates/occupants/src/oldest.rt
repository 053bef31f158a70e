// The oldest unit of those that pass (min_by_key of the number), the first of equals, and so the occupant of a stage.
ghost use Rattle.std.specs.Prelude.{◌≡◌};
ghost use Rattle.laws.specs.Lists.{count};
ghost use Rattle.laws.specs.Means.{MeansFor};
ghost use Rattle.model.specs.Config.{Machine};
ghost use Rattle.model.specs.Units.{in_phase};
ghost use Rattle.model.specs.Views.{oldest, in_kind, stage_op};
ghost use Rattle.flight.specs.View.{Legend, view_queue, QueueOk};
ghost use Rattle.units.specs.View.{view_unit};
ghost use Rattle.bank.specs.View.{view_units, UnitsOk};
ghost use Rattle.occupants.specs.View.{of_parts, view_maybe_op, MaybeOpOk, view_maybe_unit, MaybeUnitOk};

use crate::{held, queued_op};
use bank::Units;
use capability::Phase;
use flight::{Queue, Queued};
use units::Unit;

// Busy, and of that kind.
// model: Views.in_kind
#[tactic(auto, unfolding(units::specs::View::view_unit, model::specs::Views::in_kind))]
fn in_kind(u: &Unit, kind: usize) -> bool
    ensures { (g : Legend) → result ≡ in_kind kind (view_unit g u.now) }
{
    u.busy && u.spec as usize == kind
}

// The oldest that is busy and in a phase.
pub fn in_phase(units: &Units, phase: Phase) -> Option<Unit>
    requires { UnitsOk units.now }
    ensures { MeansFor view_maybe_unit MaybeUnitOk result (λ g. oldest (in_phase phase) (view_units g units.now)) }
{
    units
        .as_slice()
        .iter()
        .filter(|u| u.in_phase(phase))
        .min_by_key(|u| u.seq_of())
        .copied()
}

// The oldest that is busy and of a kind.
// model: Views.working
pub fn of_kind(units: &Units, kind: usize) -> Option<Unit>
    requires { UnitsOk units.now }
    ensures { MeansFor view_maybe_unit MaybeUnitOk result (λ g. oldest (in_kind kind) (view_units g units.now)) }
{
    units
        .as_slice()
        .iter()
        .filter(|u| in_kind(u, kind))
        .min_by_key(|u| u.seq_of())
        .copied()
}

// How many units of a kind are busy.
pub fn active(units: &Units, kind: usize) -> usize
    requires { UnitsOk units.now }
    ensures { (g : Legend) → result ≡ count (in_kind kind) (view_units g units.now) }
{
    units.as_slice().iter().filter(|u| in_kind(u, kind)).count()
}

// The oldest occupant of a stage.
// model: Views.stage_op
pub fn stage_op(units: &Units, queue: &Queue, index: usize) -> Option<Queued>
    requires units_ok { UnitsOk units.now }
    requires queue_ok { QueueOk queue.now }
    ensures { (m : Machine) → MeansFor view_maybe_op MaybeOpOk result (λ g. stage_op (of_parts m (view_units g units.now) (view_queue g queue.now)) index) }
{
    match index {
        0 => queued_op(queue, 0),
        1 => held(in_phase(units, Phase::Wait)),
        2 => held(in_phase(units, Phase::Read)),
        3 => held(in_phase(units, Phase::Execute)),
        4 => held(in_phase(units, Phase::Write)),
        _ => None,
    }
}
