// Text requests, each from the parts that it reads: the texts of an operation, wherever it is shown, and the text of a wait. None where the index
// is past the end, before any check of the buffer; else 13 where the buffer is short, with nothing written.
#![tactic(auto)]

use bank::Units;
use capability::Refusal;
use config::{KindName, Machine};
use flight::pool::TextPool;
use flight::{Queue, Queued};
use occupants::oldest::{of_kind, stage_op};
use occupants::{held, offered_op, queued_op, station_op};
use op::Name;
use registers::RegisterTable;
use stalls::TraceList;
use timeline::WaitForm;

// The label of a station, and the names of claimed registers and of operands.
pub mod named;

ghost use Rattle.std.specs.Prelude.{ℕ, ◌<◌, ◌≤◌, IfSome, option_map, slice_get};
ghost use Rattle.laws.specs.Optional.{when_some};
ghost use Rattle.laws.specs.Lists.{All};
ghost use Rattle.laws.specs.Means.{Means, MeansFor};
ghost use Rattle.model.specs.Config.{Machine as ModelMachine};
ghost use Rattle.model.specs.Op.{Op};
ghost use Rattle.model.specs.Traces.{Trace as ModelTrace, render};
ghost use Rattle.model.specs.Requests.{op_at, field};
ghost use Rattle.op.specs.Chars.{view_text};
ghost use Rattle.config.specs.View.{view_machine};
ghost use Rattle.config.specs.Kept.{MachineOk};
ghost use Rattle.registers.specs.View.{view_held, NameOk, TableOk};
ghost use Rattle.flight.specs.declared.pool.DecodedPool.{DecodedPool};
ghost use Rattle.flight.specs.View.{view_queued, view_queue, QueuedOk, QueueOk};
ghost use Rattle.flight.specs.Pool.{legend, TextPoolOk};
ghost use Rattle.traces.specs.Texts.{Wrote};
ghost use Rattle.stalls.specs.View.{number_word, listed, view_traces, TraceListOk};
ghost use Rattle.stalls.specs.Promises.{Known};
ghost use Rattle.bank.specs.View.{view_units, UnitsOk};
ghost use Rattle.occupants.specs.View.{with_offered, view_maybe_op, MaybeOpOk};
ghost use Rattle.requests.specs.View.{view_place, view_field, wait_frame};

// Where an operation is shown: in the queue, a station, a stage, a kind (its first), or handed out by start.
#[derive(Clone, Copy)]
pub enum Place {
    Queue(usize),
    Station(usize),
    Stage(usize),
    Kind(usize),
    Offer,
}

// A text of an operation; sources and writes by their place in the list.
#[derive(Clone, Copy)]
pub enum Field {
    Disassembly,
    Destination,
    Fault,
    Source(usize),
    Write(usize),
}

// model: Requests.op_at
pub fn op_at(units: &Units, queue: &Queue, writing: Option<usize>, place: Place) -> Option<Queued>
    requires units_ok { UnitsOk units.now }
    requires queue_ok { QueueOk queue.now }
    requires writing_lt_len { IfSome writing (λ (i : ℕ). i < units.now.len) }
    ensures { (m : ModelMachine) → MeansFor view_maybe_op MaybeOpOk result (λ g. op_at (with_offered writing m (view_units g units.now) (view_queue g queue.now)) (view_place place)) }
{
    match place {
        Place::Queue(i) => queued_op(queue, i),
        Place::Station(i) => station_op(units, i),
        Place::Stage(i) => stage_op(units, queue, i),
        Place::Kind(i) => held(of_kind(units, i)),
        Place::Offer => offered_op(units, writing),
    }
}

// model: Requests.field
fn write_op_field(
    op: &Queued,
    texts: &TextPool,
    table: &RegisterTable,
    wanted: Field,
    out: &mut [u8],
) -> Result<Option<usize>, Refusal>
    requires queued_ok { QueuedOk op.now }
    requires text_pool_ok { TextPoolOk texts.now }
    requires table_ok { TableOk table.now }
    ensures { (ds : DecodedPool) → Wrote (field (view_queued (legend ds texts.now (view_held table.now)) op.now).info (view_field wanted)) out.old out.new result }
{
    match wanted {
        Field::Disassembly => words::write_bytes(&words::text_at(texts, op.place), out),
        Field::Destination => words::write_maybe_text(&words::destination_at(texts, op.place), out),
        Field::Fault => words::write_maybe_text(&words::fault_at(texts, op.place), out),
        Field::Source(i) => words::write_nth(table, op.operands.reads(), i, out),
        Field::Write(i) => words::write_nth(table, op.operands.writes(), i, out),
    }
}

// Of an operation that may not be there.
pub fn write_field(
    op: &Option<Queued>,
    texts: &TextPool,
    table: &RegisterTable,
    wanted: Field,
    out: &mut [u8],
) -> Result<Option<usize>, Refusal>
    requires maybe_op_ok { MaybeOpOk op.now }
    requires text_pool_ok { TextPoolOk texts.now }
    requires table_ok { TableOk table.now }
    ensures { (ds : DecodedPool) → Wrote (when_some (view_maybe_op (legend ds texts.now (view_held table.now)) op.now) None (λ (o : Op). field o.info (view_field wanted))) out.old out.new result }
{
    match op {
        Some(op) => write_op_field(op, texts, table, wanted, out),
        None => Ok(None),
    }
}

// A kind's name as a name.
fn as_name(kind: &KindName) -> Name
    requires { kind.now.len ≤ 8 }
    ensures { Means view_text NameOk result (view_text kind.now) }
{
    Name::from_slice(&kind.bytes[..kind.len as usize])
}

// The word that the number of a wait stands for: a kind's name for AllBusy, else a register's.
fn number_word(form: WaitForm, number: u8, machine: &Machine, table: &RegisterTable) -> Name
    requires machine_ok { MachineOk machine.now }
    requires table_ok { TableOk table.now }
    ensures { Means view_text NameOk result (number_word form (view_machine machine.now).specs (view_held table.now) number) }
{
    let at = number as usize;
    if let WaitForm::AllBusy = form {
        return as_name(&words::spec_name(machine, at));
    }
    table.name(at)
}

// The text of a wait. Its register, where the text has one, is known: one of the first n.
#[tactic(auto, using(words::proofs::Shown::name_fits))]
pub fn write_detail(
    list: &TraceList,
    texts: &TextPool,
    table: &RegisterTable,
    machine: &Machine,
    index: usize,
    out: &mut [u8],
) -> Result<Option<usize>, Refusal>
    requires trace_list_ok { TraceListOk list.now }
    requires text_pool_ok { TextPoolOk texts.now }
    requires table_ok { TableOk table.now }
    requires machine_ok { MachineOk machine.now }
    ensures { (ds : DecodedPool) (n : ℕ) → All (Known n) (listed list.now) → Wrote (option_map (λ (t : ModelTrace). render t.detail) (slice_get (view_traces (wait_frame ds texts.now table.now machine.now n) list.now) index)) out.old out.new result }
{
    let Some(t) = list.as_slice().get(index) else {
        return Ok(None);
    };
    let mine = words::text_at(texts, t.mine);
    let other = words::text_at(texts, t.other);
    let word = number_word(t.form, t.number, machine, table);
    traces::write_wait(
        t.form,
        &mine.bytes[..mine.len as usize],
        &word.bytes[..word.len as usize],
        &other.bytes[..other.len as usize],
        list.target,
        out,
    )
}
