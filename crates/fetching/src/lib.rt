// A fetch by parts: the operation's names become numbers, and it goes into the queue with a place in the pool.
#![tactic(auto)]

ghost use Rattle.std.specs.Prelude.{◌≡◌, length, false, ◌<◌, ◌≤◌};
ghost use Rattle.laws.specs.Means.{Means};
ghost use Rattle.model.specs.Calls.{bad_info, too_many};
ghost use Rattle.registers.specs.View.{OperandsOk, TableOk};
ghost use Rattle.timeline.specs.View.{RowTextOk};
ghost use Rattle.op.specs.View.{view_op};
ghost use Rattle.fetching.specs.Fetching.{row_text, Queueing};
ghost use Rattle.fetching.specs.Taking.{NamesTo, Admissible, Admits, AdmitWrites};

use board::Board;
use capability::Refusal;
use config::Machine;
use flight::Queued;
use op::PipelineOp;
use registers::{Operands, RegisterTable};
use timeline::{RowText, Tracks, Window};

// model: Scoreboard.fetched_op
fn queued(operands: Operands, op: &PipelineOp, seq: u64, latency: u8, place: usize) -> Queued
    requires operands_ok { OperandsOk operands }
    requires place_bound { place < 80 }
    ensures { Queueing operands op.now seq latency place result }
{
    Queued {
        seq,
        operands,
        class: op.class,
        branch: op.branch,
        hazard: None,
        latency,
        place: place as u8,
    }
}

// model: Timeline.row_of, what stays
pub fn row_of(op: &PipelineOp) -> RowText
    requires { bad_info (view_op op.now).info ≡ false }
    ensures { Means (λ (x : RowText). x) RowTextOk result (row_text op.now) }
{
    RowText {
        address: op.address,
        class: op.class,
        atomic: op.atomic,
        disassembly: op.disassembly.whole(),
    }
}

// The numbers of an operation's registers: refused where the names would be over 256, or else where memory is short; then the table is as it was.
#[tactic(auto, using(crate::proofs::Naming::names_full, crate::proofs::Naming::names_short, crate::proofs::Naming::names_tried))]
fn resolve(
    table: &mut RegisterTable,
    op: &PipelineOp,
    lent: usize,
    history: usize,
) -> Result<Operands, Refusal>
    requires table_ok { TableOk table.old }
    requires op_value { bad_info (view_op op.now).info ≡ false }
    requires op_value_2 { too_many (view_op op.now).info ≡ false }
    requires history_bound { history ≤ 256 }
    ensures { NamesTo table.old (view_op op.now).info lent history result table.new }
{
    if let Err(short) = checks::short(lent, history) {
        let mut names = *table;
        names.resolve(op).ok_or(Refusal::NamesFull)?;
        return Err(short);
    }
    table.resolve(op).ok_or(Refusal::NamesFull)
}

// A proof knows the length of an array behind a reference, but not of one within a struct there, as a row's text in its operation.
fn has_64_bytes(text: &[u8; 64])
    ensures { length text.now ≡ 64 }
{}

// A fetch, but for what stands at its place in the pool, and the row of its number, which the caller sets.
// model: Calls.refusal, Calls.memory_after, of fetch; Scoreboard.fetched
pub fn fetch(
    board: &mut Board,
    window: Window,
    tracks: &mut Tracks,
    machine: &Machine,
    table: &mut RegisterTable,
    op: &PipelineOp,
    cells: &mut [u8],
) -> Result<usize, Refusal>
    requires { Admissible board.old window tracks.old machine.now table.old }
    ensures done { Admits board.old window tracks.old machine.now table.old op.now (length cells.old) result board.new tracks.new table.new }
    ensures memory { AdmitWrites board.old window tracks.old machine.now table.old op.now cells.old cells.new }
{
    checks::fetch(board.front.in_cycle, board.front.invited, op, window.next)?;
    let operands = resolve(table, op, cells.len(), window.history)?;
    has_64_bytes(&op.disassembly.bytes);
    let place = places::free_place(&board.units, &board.queue, board.gone);
    let latency = machine.latency(op.class);
    board
        .queue
        .push_back(queued(operands, op, window.next, latency, place));
    tracks.open(window, board.log.stats.cycles, cells);
    board.fetch_pc = op.sequential_address(machine.instruction_bytes);
    board.front.invited = false;
    Ok(place)
}
