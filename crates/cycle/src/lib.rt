// The two halves of a cycle that units tell of: the start, which offers a result, and the work between the write and the issue.
#![tactic(auto)]

ghost use Rattle.std.specs.Prelude.{◌≡◌, ℕ, [], ◌≤◌, ◌<◌};
ghost use Rattle.std.specs.Option.{IfSome};
ghost use Rattle.model.specs.Write.{take_out, offer_found, start_cycle};
ghost use Rattle.stalls.specs.View.{listed};
ghost use Rattle.bank.specs.View.{view_units, places, UnitsOk, UnitsAre};
ghost use Rattle.writing.specs.View.{view_tried, TriedOk};
ghost use Rattle.board.specs.View.{BoardOk};
ghost use Rattle.board.specs.Promises.{Starts, Works};

use bank::Units;
use board::{Board, Offer};
use writing::Tried;

// model: Write.take_out
#[tactic(auto, unfolding(model::specs::Write::take_out))]
fn take_out(units: &mut Units, found: Option<usize>)
    requires units_ok { UnitsOk units.old }
    requires found_lt_len { IfSome found (λ (at : ℕ). at < units.old.len) }
    ensures { UnitsAre units.new (λ g. take_out found (view_units g units.old)) (places units.old) }
{
    if let Some(at) = found {
        units.set_busy(at, false);
    }
}

// model: Write.offer_found
#[tactic(auto, using(crate::proofs::Halves::none_listed))]
fn offer_found(board: &mut Board, tried: &Tried)
    requires board_ok { BoardOk board.old }
    requires tried_ok { TriedOk board.old.units tried.now }
    requires traces_value { listed board.old.log.traces ≡ [] }
    requires gone_value { board.old.gone ≡ 80 }
    ensures { Starts board.old board.new (offer_found (view_tried tried.now)) }
{
    blocking::list_blocked(&board.units, tried, &mut board.log);
    writing::mark_blocked(&mut board.units, tried);
    take_out(&mut board.units, tried.found);
    board.offer = Offer {
        writing: tried.found,
        retired: false,
    };
}

// model: Write.start_cycle
#[tactic(auto, unfolding(board::specs::View::view_board, model::specs::Write::start_cycle))]
pub fn start(board: &mut Board)
    requires { BoardOk board.old }
    ensures { Starts board.old board.new start_cycle }
{
    board.open();
    let tried = writing::writable_unit(&board.units);
    offer_found(board, &tried);
}

// model: Issue.tick_execute, start_ready, read_operands
pub fn step(board: &mut Board)
    requires board_ok { BoardOk board.old }
    requires len_bound { board.old.log.traces.len ≤ 65 }
    ensures { Works board.old board.new }
{
    board.units.step();
    telling::list_waits(&board.units, &mut board.log);
}
