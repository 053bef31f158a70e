// The oldest operation in flight, and whether one is older than a number.
ghost use Rattle.std.specs.Prelude.{◌≡◌, List, ◌++◌, map, ◌&&◌, nat_lt};
ghost use Rattle.std.specs.List.{list_any};
ghost use Rattle.laws.specs.Lists.{keep};
ghost use Rattle.laws.specs.Means.{MeansFor};
ghost use Rattle.laws.specs.Texts.{Text};
ghost use Rattle.model.specs.Units.{is_busy, unit_op};
ghost use Rattle.model.specs.Scoreboard.{older_op, oldest_op};
ghost use Rattle.flight.specs.declared.pool.TextPool.{TextPool};
ghost use Rattle.flight.specs.View.{Legend, view_queued, view_queue, QueuedOk, QueueOk};
ghost use Rattle.flight.specs.Pool.{legend, DecodedPoolOk};
ghost use Rattle.bank.specs.View.{view_units, UnitsOk};
ghost use Rattle.occupants.specs.View.{view_maybe_op, MaybeOpOk, is_before, address_or};

use crate::op_of;
use bank::Units;
use flight::pool::DecodedPool;
use flight::{Queue, Queued};
use units::Unit;

// The older of an operation and the oldest behind it; the first of equals.
// model: Scoreboard.older_op
#[tactic(auto, unfolding(flight::specs::View::op_with, flight::specs::View::view_queued, model::specs::Scoreboard::older_op))]
fn older_op(op: Queued, behind: Option<Queued>) -> Option<Queued>
    requires queued_ok { QueuedOk op }
    requires maybe_op_ok { MaybeOpOk behind }
    ensures { MeansFor view_maybe_op MaybeOpOk result (λ g. older_op (view_queued g op) (view_maybe_op g behind)) }
{
    match behind {
        Some(other) if other.seq < op.seq => behind,
        _ => Some(op),
    }
}

// The oldest queued operation.
// model: Scoreboard.oldest_op
fn oldest_queued(queue: &Queue) -> Option<Queued>
    requires { QueueOk queue.now }
    ensures { MeansFor view_maybe_op MaybeOpOk result (λ g. oldest_op (view_queue g queue.now)) }
{
    queue.as_slice().iter().min_by_key(|op| op.seq).copied()
}

// The oldest of the operations in units and of the oldest queued one.
// model: Scoreboard.oldest_op, of in-flight
pub fn oldest_in_flight(units: &Units, queue: &Queue) -> Option<Queued>
    requires units_ok { UnitsOk units.now }
    requires queue_ok { QueueOk queue.now }
    ensures { MeansFor view_maybe_op MaybeOpOk result (λ g. oldest_op (map unit_op (keep is_busy (view_units g units.now)) ++ view_queue g queue.now)) }
{
    let queued = oldest_queued(queue);
    let items = units.as_slice();
    match units::lent::oldest_busy(items) {
        Some(i) => older_op(op_of(&items[i]), queued),
        None => queued,
    }
}

// The address of an operation, or another where there is none.
#[tactic(auto, unfolding(flight::specs::Pool::decoded_at, flight::specs::Pool::held_at, flight::specs::View::carried_at, flight::specs::View::op_with, flight::specs::View::view_queued))]
pub fn address_or(op: Option<Queued>, decoded: &DecodedPool, other: u64) -> u64
    requires { DecodedPoolOk decoded.now }
    ensures { (ts : TextPool) (ns : List Text) → result ≡ address_or other (view_maybe_op (legend decoded.now ts ns) op) }
{
    op.map_or(other, |op| decoded.at(op.place).address)
}

// Is a busy one of these older than a number?
fn any_busy_before(units: &[Unit], seq: u64) -> bool
    ensures { result ≡ list_any (λ u. u.busy && nat_lt u.seq seq) units.now }
{
    units.iter().any(|u| u.busy && u.seq < seq)
}

// Is the operation of a busy unit older than a number?
#[tactic(auto, using(crate::proofs::Seen::units_before))]
pub fn unit_before(units: &Units, seq: u64) -> bool
    requires { UnitsOk units.now }
    ensures { (g : Legend) → result ≡ list_any (is_before seq) (map unit_op (keep is_busy (view_units g units.now))) }
{
    any_busy_before(units.as_slice(), seq)
}

// Is one of these?
fn any_before(queue: &[Queued], seq: u64) -> bool
    ensures { result ≡ list_any (λ x. nat_lt x.seq seq) queue.now }
{
    queue.iter().any(|op| op.seq < seq)
}

// Is a queued operation?
#[tactic(auto, using(crate::proofs::Seen::queue_before))]
pub fn queued_before(queue: &Queue, seq: u64) -> bool
    requires { QueueOk queue.now }
    ensures { (g : Legend) → result ≡ list_any (is_before seq) (view_queue g queue.now) }
{
    any_before(queue.as_slice(), seq)
}
