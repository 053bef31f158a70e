// The result on offer: start, retire, retry and resolve, by parts.
#![tactic(auto)]

ghost use Rattle.std.specs.Prelude.{◌≡◌, ℕ, ◌<◌, IfSome};
ghost use Rattle.op.specs.Chars.{view_text};
ghost use Rattle.flight.specs.Pool.{DecodedPoolOk};
ghost use Rattle.bank.specs.View.{UnitsOk};
ghost use Rattle.board.specs.View.{BoardOk};
ghost use Rattle.engine.specs.View.{view_offer, done_answer, offer_answer, target_answer};
ghost use Rattle.offering.specs.Answers.{offer_with, Offers, ResolvesOffer};
ghost use Rattle.offering.specs.Results.{StartsCycle, Retires, Retries, Resolves};

use board::Board;
use capability::Refusal;
use engine::OfferView;
use flight::pool::{Decoded, DecodedPool};
use op::Text;
use units::Unit;

// model: Views.offer_view
#[tactic(auto, unfolding(engine::specs::View::view_offer))]
fn offer_view(u: &Unit, d: &Decoded) -> OfferView
    ensures { view_offer result ≡ offer_with u.now d.now }
{
    OfferView {
        seq: u.seq,
        address: d.address,
        length: d.length,
        class: u.class,
        branch: u.redirects,
        atomic: d.atomic,
        predicted_next: d.predicted_next,
        payload: d.payload,
    }
}

// What the unit on offer offers, if there is one.
fn offered(board: &Board, decoded: &DecodedPool) -> Option<OfferView>
    requires units_ok { UnitsOk board.now.units }
    requires decoded_pool_ok { DecodedPoolOk decoded.now }
    requires offer_inside { IfSome board.now.offer.writing (λ (at : ℕ). at < board.now.units.len) }
    ensures { Offers board.now decoded.now result }
{
    let u = &board.units.items[board.offer.writing?];
    Some(offer_view(u, &decoded.at(u.place)))
}

// model: Calls.reply, of start; Write.start_cycle
pub fn start(board: &mut Board, decoded: &DecodedPool) -> Result<Option<OfferView>, Refusal>
    requires board_ok { BoardOk board.old }
    requires decoded_pool_ok { DecodedPoolOk decoded.now }
    ensures { StartsCycle board.old decoded.now (offer_answer result) board.new }
{
    checks::start(board.front.in_cycle)?;
    cycle::start(board);
    Ok(offered(board, decoded))
}

// model: Write.retire
pub fn retire(board: &mut Board) -> Result<(), Refusal>
    requires { BoardOk board.old }
    ensures { Retires board.old (done_answer result) board.new }
{
    let offer = board.offer;
    let at = checks::retire(board.front.in_cycle, offer.writing, offer.retired)?;
    board.retire(at);
    Ok(())
}

// model: Write.retry
pub fn retry(board: &mut Board, reason: Text) -> Result<(), Refusal>
    requires { BoardOk board.old }
    ensures { Retries board.old (view_text reason) (done_answer result) board.new }
{
    let offer = board.offer;
    let at = checks::retry(board.front.in_cycle, offer.writing, offer.retired, &reason)?;
    board.retry(at, reason);
    Ok(())
}

// Where the offered operation went, if not where the front end ran on to.
// model: Calls.reply, of resolve; Write.resolve_branch
pub fn resolve(
    board: &Board,
    decoded: &DecodedPool,
    actual_next: u64,
) -> Result<Option<u64>, Refusal>
    requires units_ok { UnitsOk board.now.units }
    requires decoded_pool_ok { DecodedPoolOk decoded.now }
    requires offer_inside { IfSome board.now.offer.writing (λ (at : ℕ). at < board.now.units.len) }
    ensures done { Resolves board.now decoded.now actual_next (target_answer result) }
    ensures offer { ResolvesOffer board.now decoded.now actual_next (target_answer result) }
{
    let at = checks::resolve(board.front.in_cycle, board.offer.writing)?;
    let u = &board.units.items[at];
    let d = decoded.at(u.place);
    if u.redirects && actual_next != d.predicted_next {
        Ok(Some(actual_next))
    } else {
        Ok(None)
    }
}
