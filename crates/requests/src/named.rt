// The label of a station, and the names of claimed registers and of operands.
ghost use Rattle.std.specs.Prelude.{ℕ, take, option_map, slice_get};
ghost use Rattle.laws.specs.Optional.{when_some};
ghost use Rattle.laws.specs.Lists.{All};
ghost use Rattle.model.specs.Registers.{name_of, outstanding};
ghost use Rattle.model.specs.Units.{FunctionalUnit};
ghost use Rattle.model.specs.Requests.{station_text};
ghost use Rattle.config.specs.View.{view_machine};
ghost use Rattle.config.specs.Kept.{MachineOk};
ghost use Rattle.registers.specs.View.{view_held, TableOk, view_claims, ClaimsOk};
ghost use Rattle.flight.specs.View.{Legend};
ghost use Rattle.traces.specs.Texts.{Wrote};
ghost use Rattle.bank.specs.View.{view_units, slots, UnitsOk, UnitKnows};

use bank::Units;
use capability::Refusal;
use config::Machine;
use registers::{Claims, RegisterTable};
use traces::texts::write_label;

// model: Requests.station_text
pub fn write_station_label(
    units: &Units,
    machine: &Machine,
    index: usize,
    out: &mut [u8],
) -> Result<Option<usize>, Refusal>
    requires units_ok { UnitsOk units.now }
    requires machine_ok { MachineOk machine.now }
    ensures { (g : Legend) → Wrote (option_map (station_text (view_machine machine.now).specs) (slice_get (view_units g units.now) index)) out.old out.new result }
{
    let Some(u) = units.as_slice().get(index) else {
        return Ok(None);
    };
    let name = words::spec_name(machine, u.spec as usize);
    write_label(&name.bytes[..name.len as usize], u.instance as usize, out)
}

// The name of a claimed register, one of those known.
pub fn write_claim(
    claims: &Claims,
    table: &RegisterTable,
    index: usize,
    out: &mut [u8],
) -> Result<Option<usize>, Refusal>
    requires claims_ok { ClaimsOk claims.now }
    requires table_ok { TableOk table.now }
    ensures { Wrote (option_map (λ (p : ℕ × ℕ). name_of (take claims.now.len (view_held table.now)) p.0) (slice_get (outstanding 0 (view_claims claims.now)) index)) out.old out.new result }
{
    match claims.outstanding(index) {
        Some(owed) => words::write_register(table, owed.register, out),
        None => Ok(None),
    }
}

// A station shows its first two sources. Registers of units are known: the first n.
// model: Requests.operand_text
pub fn write_operand(
    units: &Units,
    table: &RegisterTable,
    station: usize,
    slot: usize,
    out: &mut [u8],
) -> Result<Option<usize>, Refusal>
    requires units_ok { UnitsOk units.now }
    requires table_ok { TableOk table.now }
    ensures { (g : Legend) (n : ℕ) → All (UnitKnows n) (slots units.now) → Wrote (when_some (slice_get (view_units g units.now) station) None (λ (u : FunctionalUnit). option_map (name_of (take n (view_held table.now))) (slice_get (take 2 u.sources) slot))) out.old out.new result }
{
    if 2 <= slot {
        return Ok(None);
    }
    let Some(u) = units.as_slice().get(station) else {
        return Ok(None);
    };
    words::write_nth(table, u.operands.reads(), slot, out)
}
