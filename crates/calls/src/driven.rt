// The calls that drive the engine: 0 to 11. Each is given the very cell memory that it is lent, and lays down its answer from a place on.
ghost use Rattle.std.specs.Prelude.{◌≡◌, ◌≤◌, ◌<◌, length};
ghost use Rattle.scoreboard.specs.Valid.{Valid};
ghost use Rattle.decoding.specs.Bytes.{byte_at};
ghost use Rattle.decoding.specs.Calls.{call_at};
ghost use Rattle.calls.specs.Play.{lent_of};
ghost use Rattle.calls.specs.Steps.{Playable, Plays};

use answers::replies::{put_answer, put_done};
use decoding::operation::op_at;
use decoding::parts::{chars_at, flag_at, maybe_number_at, number_at};
use scoreboard::ScoreboardPipeline;

// 0 to 5: those of a cycle.
#[tactic(auto, using(crate::proofs::Room::size_least))]
pub fn cycle(
    engine: &mut ScoreboardPipeline,
    list: &[u8],
    at: usize,
    cells: &mut [u8],
    out: &mut [u8],
    b: usize,
)
    requires valid { Valid engine.old }
    requires playable { Playable list.now at cells.old b out.old }
    requires lent { length cells.old ≡ lent_of (call_at list.now at) }
    requires at_bound { byte_at list.now at < 6 }
    ensures { Plays (call_at list.now at) b engine.old cells.old out.old engine.new cells.new out.new }
{
    match list[at] {
        0 => {
            put_answer(out, b, engine.start_cycle());
        }
        1 => {
            put_done(out, b, engine.retire());
        }
        2 => {
            put_done(out, b, engine.retry(chars_at(list, at + 1)));
        }
        3 => {
            put_answer(out, b, engine.resolve(number_at(list, at + 1)));
        }
        4 => {
            put_answer(out, b, engine.advance(maybe_number_at(list, at + 1), cells));
        }
        _ => {
            put_done(out, b, engine.fetched(&op_at(list, at + 1), cells));
        }
    }
}

// 6 to 11: those of control.
#[tactic(auto, using(crate::proofs::Room::size_least))]
pub fn control(
    engine: &mut ScoreboardPipeline,
    list: &[u8],
    at: usize,
    cells: &mut [u8],
    out: &mut [u8],
    b: usize,
)
    requires valid { Valid engine.old }
    requires playable { Playable list.now at cells.old b out.old }
    requires lent { length cells.old ≡ lent_of (call_at list.now at) }
    requires bound { 6 ≤ byte_at list.now at }
    requires at_bound { byte_at list.now at < 12 }
    ensures { Plays (call_at list.now at) b engine.old cells.old out.old engine.new cells.new out.new }
{
    match list[at] {
        6 => {
            let kind = number_at(list, at + 1) as usize;
            put_done(out, b, engine.set_capacity(kind, number_at(list, at + 9)));
        }
        7 => {
            engine.set_enabled(flag_at(list, at + 1));
            put_done(out, b, Ok(()));
        }
        8 => {
            engine.halt();
            put_done(out, b, Ok(()));
        }
        9 => {
            put_done(out, b, engine.fault(chars_at(list, at + 1)));
        }
        10 => {
            put_done(out, b, engine.reset(number_at(list, at + 1), cells));
        }
        _ => {
            engine.redirect(number_at(list, at + 1));
            put_done(out, b, Ok(()));
        }
    }
}
