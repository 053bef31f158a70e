// The units, each a station: its operation, its phase, and the first two of its sources.
ghost use Rattle.std.specs.Prelude.{◌≡◌, cond, List, map, ◌<◌, option_map, slice_get};
ghost use Rattle.laws.specs.Lists.{is_empty};
ghost use Rattle.laws.specs.Texts.{Text};
ghost use Rattle.model.specs.Views.{owed, operand_view, entry_phase, station_view};
ghost use Rattle.registers.specs.View.{view_owed, view_waits};
ghost use Rattle.flight.specs.declared.pool.TextPool.{TextPool};
ghost use Rattle.flight.specs.View.{Legend};
ghost use Rattle.flight.specs.Pool.{legend, DecodedPoolOk};
ghost use Rattle.units.specs.View.{view_unit, UnitOk};
ghost use Rattle.bank.specs.View.{view_units, UnitsOk};
ghost use Rattle.inspect.specs.View.{view_operand, view_station};

use bank::Units;
use capability::{Phase, PipelineEntryPhase};
use flight::pool::DecodedPool;
use occupants::{PipelineSlotView, shown_op, slot};
use registers::Owed;
use units::Unit;

// PipelineOperandView: a register by its number, and the unit that owes it, if one does.
#[derive(Drop)]
pub struct PipelineOperandView {
    pub register: u8,
    pub producer: Option<u8>,
}

// PipelineStationView. `unit` is the kind.
#[derive(Drop)]
pub struct PipelineStationView {
    pub unit: u8,
    pub tag: Option<u8>,
    pub slot: Option<PipelineSlotView>,
    pub phase: PipelineEntryPhase,
    pub operand_0: Option<PipelineOperandView>,
    pub operand_1: Option<PipelineOperandView>,
}

// The unit that owes a register, if one does.
// model: Views.owed
fn owed(pending: &[Owed], register: u8) -> Option<u8>
    ensures { result ≡ owed (map view_owed pending.now) register }
{
    pending
        .iter()
        .find(|p| p.register == register)
        .map(|p| p.unit)
}

// model: Views.operand_view
fn operand_view(u: &Unit, slot: usize) -> Option<PipelineOperandView>
    requires { UnitOk u.now }
    ensures { (g : Legend) → option_map view_operand result ≡ operand_view (view_unit g u.now) slot }
{
    let register = *u.operands.reads().get(slot)?;
    Some(PipelineOperandView {
        register,
        producer: owed(u.pending.as_slice(), register),
    })
}

// model: Views.entry_phase
fn entry_phase(u: &Unit) -> PipelineEntryPhase
    requires { UnitOk u.now }
    ensures { result ≡ entry_phase u.now.busy u.now.progress.phase (is_empty (view_waits u.now.pending)) }
{
    if !u.busy {
        return PipelineEntryPhase::Free;
    }
    match u.progress.phase {
        Phase::Wait if u.pending.len != 0 => PipelineEntryPhase::Waiting,
        Phase::Wait => PipelineEntryPhase::Armed,
        Phase::Read => PipelineEntryPhase::Armed,
        Phase::Execute => PipelineEntryPhase::Executing,
        Phase::Write => PipelineEntryPhase::Finished,
    }
}

// A busy unit is its own tag.
fn tag_of(u: &Unit, index: usize) -> Option<u8>
    requires { index < 64 }
    ensures { result ≡ cond u.now.busy (Some index) None }
{
    if u.busy { Some(index as u8) } else { None }
}

// model: Views.station_view, of a unit
fn unit_station(u: &Unit, decoded: &DecodedPool, index: usize) -> PipelineStationView
    requires unit_ok { UnitOk u.now }
    requires index_bound { index < 64 }
    requires decoded_pool_ok { DecodedPoolOk decoded.now }
    ensures { (ts : TextPool) (ns : List Text) → view_station result ≡ station_view index (view_unit (legend decoded.now ts ns) u.now) }
{
    PipelineStationView {
        unit: u.spec,
        tag: tag_of(u, index),
        slot: slot(shown_op(u), decoded),
        phase: entry_phase(u),
        operand_0: operand_view(u, 0),
        operand_1: operand_view(u, 1),
    }
}

// model: Views.station_view
pub fn station_view(
    units: &Units,
    decoded: &DecodedPool,
    index: usize,
) -> Option<PipelineStationView>
    requires units_ok { UnitsOk units.now }
    requires decoded_pool_ok { DecodedPoolOk decoded.now }
    ensures { (ts : TextPool) (ns : List Text) → option_map view_station result ≡ option_map (station_view index) (slice_get (view_units (legend decoded.now ts ns) units.now) index) }
{
    let u = units.as_slice().get(index)?;
    Some(unit_station(u, decoded, index))
}
