// One operation a cycle, in program order (ooo/scoreboard.rs, issue and block_issue).
#![tactic(auto)]

ghost use Rattle.std.specs.Prelude.{◌≡◌, true, ℕ, ◌<◌};
ghost use Rattle.laws.specs.Lists.{All, rest};
ghost use Rattle.model.specs.Registers.{resolve};
ghost use Rattle.model.specs.Issue.{issue_looked};
ghost use Rattle.config.specs.Kept.{MachineOk};
ghost use Rattle.registers.specs.View.{OperandsOk};
ghost use Rattle.flight.specs.View.{view_queued, QueuedOk};
ghost use Rattle.stalls.specs.Promises.{names_register};
ghost use Rattle.board.specs.View.{BoardOk};
ghost use Rattle.issuing.specs.Issues.{Issues};
ghost use Rattle.issuing.specs.Steps.{Fronts, numbers, blocked_of, Learns, Chooses, Blocks, Places, Goes};

use board::Board;
use config::Machine;
use flight::Queued;
use registers::Operands;
use stalls::Trace;
use timeline::WaitForm;
use units::is_system;

// Why the front waits, with a register's number or a kind's.
#[derive(Clone, Copy)]
pub struct Blocked {
    pub form: WaitForm,
    pub number: u8,
}

impl Blocked {
    // For an operation before it, whatever its registers.
    fn behind(form: WaitForm) -> Blocked
        ensures { result ≡ blocked_of form 0 }
    {
        Blocked { form, number: 0 }
    }
}

// The front is looked at: its names are known from now on.
// model: Issue.learn
fn look(board: &mut Board, operands: Operands)
    requires board_ok { BoardOk board.old }
    requires operands_ok { OperandsOk operands }
    ensures { Learns board.old operands board.new }
{
    board.claims.pad(operands.through());
}

// WAW, then a free unit: the one that takes the operation, or the wait.
// model: Issue.issue_to, its choice
fn choose(board: &Board, front: &Queued, machine: &Machine) -> Result<usize, Blocked>
    requires board_ok { BoardOk board.now }
    requires queued_ok { QueuedOk front.now }
    requires machine_ok { MachineOk machine.now }
    ensures { Chooses board.now front.now machine.now result }
{
    if let Some(number) = board.claims.taken(front.operands.writes()) {
        return Err(Blocked {
            form: WaitForm::StillWrites,
            number,
        });
    }
    let number = machine.spec_index(front.class) as u8;
    board.units.free_unit(number).ok_or(Blocked {
        form: WaitForm::AllBusy,
        number,
    })
}

// model: Issue.place
fn place(board: &mut Board, front: &Queued, at: usize)
    requires board_ok { BoardOk board.old }
    requires queued_ok { QueuedOk front.now }
    requires at_lt_len { at < board.old.units.len }
    requires all { All (λ (r : ℕ). r < board.old.claims.len) (numbers front.now.operands) }
    ensures { Places board.old front.now at board.new }
{
    let pending = board.claims.waits_on(front.operands.reads());
    board.units.occupy(at, front, pending);
    board.claims.claim_all(front.operands.writes(), at as u8);
    board.queue.pop_front();
    board.marks.branch = front.branch || board.marks.branch;
    board.marks.system = is_system(front.class) || board.marks.system;
}

// model: Issue.block_issue
fn block(board: &mut Board, blocked: Blocked)
    requires board_ok { BoardOk board.old }
    requires len_bound { board.old.log.traces.len < 130 }
    requires number_lt_len { names_register blocked.form ≡ true → blocked.number < board.old.claims.len }
    ensures { Blocks board.old blocked.form blocked.number board.new }
{
    let mine = board.queue.items[0].place;
    board.queue.block_front(stalls::kind_of(blocked.form));
    board.log.stall(Trace {
        form: blocked.form,
        mine,
        other: 80,
        number: blocked.number,
    });
}

// model: Issue.issue_looked
fn issue_looked(board: &mut Board, front: &Queued, machine: &Machine)
    requires board_ok { BoardOk board.old }
    requires machine_ok { MachineOk machine.now }
    requires len_bound { board.old.log.traces.len < 130 }
    requires fronts { Fronts front.now board.old }
    ensures { Goes board.old machine.now (λ x s. issue_looked (view_queued x.legend front.now) (rest s.queue) (resolve s.names (view_queued x.legend front.now).info) s) board.new }
{
    look(board, front.operands);
    match choose(board, front, machine) {
        Ok(at) => place(board, front, at),
        Err(blocked) => block(board, blocked),
    }
}

// model: Issue.issue
#[tactic(auto, unfolding(stalls::specs::Promises::names_register))]
pub fn issue(board: &mut Board, machine: &Machine)
    requires board_ok { BoardOk board.old }
    requires machine_ok { MachineOk machine.now }
    requires len_bound { board.old.log.traces.len < 130 }
    ensures { Issues board.old machine.now board.new }
{
    if board.queue.len == 0 {
        return;
    }
    if board.marks.branch {
        return block(board, Blocked::behind(WaitForm::BehindBranch));
    }
    if board.marks.system {
        return block(board, Blocked::behind(WaitForm::BehindSystem));
    }
    let front = board.queue.items[0];
    issue_looked(board, &front, machine);
}
