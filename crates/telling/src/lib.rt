// The waits that units tell: of a unit whose source is owed.
#![tactic(auto)]

ghost use Rattle.std.specs.Prelude.{◌+◌, ◌≤◌};
ghost use Rattle.stalls.specs.View.{LogOk};
ghost use Rattle.units.specs.View.{UnitOk};
ghost use Rattle.bank.specs.View.{UnitsOk};
ghost use Rattle.telling.specs.Telling.{PlaceOf, Heard, Tells, source_waits};

use bank::Units;
use stalls::{Log, Trace};
use timeline::WaitForm;
use units::{Unit, waits};

// The place in the pool of a unit's operation; 80 for none.
pub fn place_of(units: &Units, unit: u8) -> u8
    requires { UnitsOk units.now }
    ensures { PlaceOf units.now unit result }
{
    match units.as_slice().get(unit as usize) {
        Some(u) => u.place,
        None => 80,
    }
}

// What unit u waits for first.
// model: Issue.wait_trace
fn wait_trace(units: &Units, u: &Unit) -> Trace
    requires units_ok { UnitsOk units.now }
    requires unit_ok { UnitOk u.now }
    ensures { Heard units.now u.now result }
{
    let wait = waits::first(&u.pending);
    match units.as_slice().get(wait.unit as usize) {
        Some(producer) if producer.busy => Trace {
            form: WaitForm::WaitsFor,
            mine: u.place,
            other: producer.place,
            number: wait.register,
        },
        _ => Trace {
            form: WaitForm::WaitsForOlder,
            mine: u.place,
            other: 80,
            number: wait.register,
        },
    }
}

// The waits of the units that wait for a source, in order.
// model: stall_all (map wait_trace (keep waits units))
pub fn list_waits(units: &Units, log: &mut Log)
    requires units_ok { UnitsOk units.now }
    requires log_ok { LogOk log.old }
    requires len_bound { log.old.traces.len + units.now.len ≤ 130 }
    ensures { Tells units.now log.old log.new (source_waits units.now) }
{
    for u in units.as_slice() {
        if u.waits() {
            log.stall(wait_trace(units, u));
        }
    }
}
