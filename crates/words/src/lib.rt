// The words that texts are made of, written to a lent buffer.
#![tactic(auto)]

ghost use Rattle.std.specs.Prelude.{◌≡◌, List, map, ◌≤◌, slice_get, option_map};
ghost use Rattle.laws.specs.Texts.{Text as Bytes};
ghost use Rattle.model.specs.Config.{spec_name};
ghost use Rattle.model.specs.Registers.{name_of};
ghost use Rattle.model.specs.Requests.{spec_names, label_text};
ghost use Rattle.op.specs.Chars.{view_text, Fits};
ghost use Rattle.config.specs.View.{view_machine};
ghost use Rattle.config.specs.Kept.{MachineOk};
ghost use Rattle.registers.specs.View.{view_held, TableOk};
ghost use Rattle.flight.specs.declared.pool.DecodedPool.{DecodedPool};
ghost use Rattle.flight.specs.View.{carried_at};
ghost use Rattle.flight.specs.Pool.{legend, TextPoolOk};
ghost use Rattle.traces.specs.Texts.{Wrote};

use capability::Refusal;
use config::{KindName, Machine};
use flight::pool::TextPool;
use op::{Chars, Name, Text};
use registers::RegisterTable;
use traces::texts::write_text;

// ── Each to a lent buffer ───────────────────────────────────────────────────

pub fn write_bytes<const N: usize>(
    text: &Chars<N>,
    out: &mut [u8],
) -> Result<Option<usize>, Refusal>
    requires { text.now.len ≤ N }
    ensures { Wrote (Some (view_text text.now)) out.old out.new result }
{
    write_text(&text.bytes[..text.len as usize], out)
}

pub fn write_maybe_text<const N: usize>(
    text: &Option<Chars<N>>,
    out: &mut [u8],
) -> Result<Option<usize>, Refusal>
    requires { Fits text.now }
    ensures { Wrote (option_map view_text text.now) out.old out.new result }
{
    match text {
        Some(text) => write_bytes(text, out),
        None => Ok(None),
    }
}

// ── Kinds and registers ─────────────────────────────────────────────────────

// The name of a kind; empty where there is no such kind.
// model: Config.spec_name
#[tactic(auto, using(crate::proofs::Labels::kind_named, crate::proofs::Labels::kind_fits, crate::proofs::Labels::kind_unnamed), unfolding(op::specs::Chars::shown, op::specs::Chars::view_text))]
pub fn spec_name(machine: &Machine, kind: usize) -> KindName
    requires { MachineOk machine.now }
    ensures is { view_text result ≡ spec_name (view_machine machine.now).specs kind }
    ensures fits { result.len ≤ 8 }
{
    if kind < machine.specs_len {
        machine.specs[kind].name
    } else {
        KindName {
            bytes: [0; 8],
            len: 0,
        }
    }
}

// model: Requests.spec_names
pub fn write_spec_name(
    machine: &Machine,
    index: usize,
    out: &mut [u8],
) -> Result<Option<usize>, Refusal>
    requires { MachineOk machine.now }
    ensures { Wrote (spec_names (view_machine machine.now).specs index) out.old out.new result }
{
    if machine.specs_len <= index {
        return Ok(None);
    }
    write_bytes(&spec_name(machine, index), out)
}

// Labels 0 IF, 1 IS, 2 RO, 3 WR, 4 FL, 8 + k the name of kind k.
// model: Requests.label_text
pub fn write_cell_label(
    machine: &Machine,
    label: usize,
    out: &mut [u8],
) -> Result<Option<usize>, Refusal>
    requires { MachineOk machine.now }
    ensures { Wrote (label_text (view_machine machine.now).specs label) out.old out.new result }
{
    match label {
        0 => write_text(b"IF", out),
        1 => write_text(b"IS", out),
        2 => write_text(b"RO", out),
        3 => write_text(b"WR", out),
        4 => write_text(b"FL", out),
        5..=7 => Ok(None),
        _ => write_spec_name(machine, label - 8, out),
    }
}

#[tactic(auto, using(crate::proofs::Shown::name_fits))]
pub fn write_register(
    table: &RegisterTable,
    register: u8,
    out: &mut [u8],
) -> Result<Option<usize>, Refusal>
    requires { TableOk table.now }
    ensures { Wrote (Some (name_of (view_held table.now) register)) out.old out.new result }
{
    write_bytes(&table.name(register as usize), out)
}

// The name of the register at a place of a list.
#[tactic(auto, using(crate::proofs::Shown::wrote_nth))]
pub fn write_nth(
    table: &RegisterTable,
    registers: &[u8],
    index: usize,
    out: &mut [u8],
) -> Result<Option<usize>, Refusal>
    requires { TableOk table.now }
    ensures { Wrote (slice_get (map (name_of (view_held table.now)) registers.now) index) out.old out.new result }
{
    match registers.get(index) {
        Some(register) => write_register(table, *register, out),
        None => Ok(None),
    }
}

// ── At a place of the pool: place 80 is that of no operation ────────────────

#[tactic(auto, unfolding(flight::specs::View::carried_at, flight::specs::Pool::held_at, op::specs::Chars::shown, op::specs::Chars::view_text))]
pub fn text_at(texts: &TextPool, place: u8) -> Text
    requires { TextPoolOk texts.now }
    ensures is { (ds : DecodedPool) (ns : List Bytes) → view_text result ≡ (carried_at (legend ds texts.now ns) place).disassembly }
    ensures fits { result.len ≤ 64 }
{
    let at = place as usize;
    if at < 80 {
        texts.items[at].disassembly
    } else {
        Text {
            bytes: [0; 64],
            len: 0,
        }
    }
}

#[tactic(auto, unfolding(flight::specs::View::carried_at, flight::specs::Pool::held_at))]
pub fn fault_at(texts: &TextPool, place: u8) -> Option<Text>
    requires { TextPoolOk texts.now }
    ensures is { (ds : DecodedPool) (ns : List Bytes) → option_map view_text result ≡ (carried_at (legend ds texts.now ns) place).fault }
    ensures fits { Fits result }
{
    let at = place as usize;
    if at < 80 { texts.items[at].fault } else { None }
}

#[tactic(auto, unfolding(flight::specs::View::carried_at, flight::specs::Pool::held_at))]
pub fn destination_at(texts: &TextPool, place: u8) -> Option<Name>
    requires { TextPoolOk texts.now }
    ensures is { (ds : DecodedPool) (ns : List Bytes) → option_map view_text result ≡ (carried_at (legend ds texts.now ns) place).destination }
    ensures fits { Fits result }
{
    let at = place as usize;
    if at < 80 {
        texts.items[at].destination
    } else {
        None
    }
}
