// The waits of finished units that may not write.
#![tactic(auto)]

ghost use Rattle.std.specs.Prelude.{◌+◌, ◌≤◌};
ghost use Rattle.stalls.specs.View.{LogOk};
ghost use Rattle.bank.specs.View.{UnitsOk};
ghost use Rattle.writing.specs.View.{TurnedOk, TriedOk};
ghost use Rattle.telling.specs.Telling.{Tells};
ghost use Rattle.blocking.specs.Told.{Told, blocked_waits};

use bank::Units;
use stalls::{Log, Trace};
use telling::place_of;
use timeline::WaitForm;
use writing::{Blocked, Tried, Turned};

// model: Write.blocked_trace
fn blocked_trace(units: &Units, turned: Turned) -> Trace
    requires units_ok { UnitsOk units.now }
    requires turned_ok { TurnedOk units.now turned }
    ensures { Told units.now turned result }
{
    let mine = place_of(units, turned.unit);
    match turned.blocked {
        Blocked::War(register, j) => Trace {
            form: WaitForm::Overwrites,
            mine,
            other: place_of(units, j),
            number: register,
        },
        Blocked::Memory(j) => Trace {
            form: WaitForm::MemoryOrder,
            mine,
            other: place_of(units, j),
            number: 0,
        },
        Blocked::Drain => Trace {
            form: WaitForm::Drains,
            mine,
            other: 80,
            number: 0,
        },
    }
}

// model: stall_all (map blocked_trace (turned_away))
pub fn list_blocked(units: &Units, tried: &Tried, log: &mut Log)
    requires units_ok { UnitsOk units.now }
    requires tried_ok { TriedOk units.now tried.now }
    requires log_ok { LogOk log.old }
    requires len_bound { log.old.traces.len + units.now.len ≤ 130 }
    ensures { Tells units.now log.old log.new (blocked_waits units.now tried.now) }
{
    for turned in tried.as_slice() {
        log.stall(blocked_trace(units, *turned));
    }
}
