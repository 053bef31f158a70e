// A list of calls as bytes (docs/CALLS.md): a machine is made, the calls are played on it, and every answer is written.
#![tactic(auto)]

use answers::parts::Put;
use answers::replies::put_done;
use capability::Refusal;
use decoding::machine::shape_at;
use decoding::parts::number_at;
use decoding::records::{formed, size_of};
use measures::{answer_size, blank, lent_at};
use scoreboard::ScoreboardPipeline;

// How much room a call takes.
pub mod measures;
// The calls that drive the engine, one at a time.
pub mod driven;
// The views.
pub mod shown;
// The texts.
pub mod texts;
// Any call.
pub mod one;

ghost use Rattle.std.specs.Prelude.{◌≡◌, true, ◌++◌, ◌+◌, ◌≤◌, length};
ghost use Rattle.model.specs.Timeline.{splice};
ghost use Rattle.scoreboard.specs.View.{view_engine};
ghost use Rattle.scoreboard.specs.Valid.{Valid};
ghost use Rattle.decoding.specs.Machine.{machine_formed};
ghost use Rattle.decoding.specs.Script.{calls_at, all_formed, script_of, decode};
ghost use Rattle.capability.specs.Refusals.{refusal_number};
ghost use Rattle.engine.specs.View.{done_answer};
ghost use Rattle.answers.specs.Bytes.{number_bytes};
ghost use Rattle.answers.specs.Encode.{encode};
ghost use Rattle.calls.specs.Play.{all_sizes, blocks, cells_played, refused_blocks, script_answers, script_cells, play_answer, play_cells, play_out};
ghost use Rattle.calls.specs.Tally.{tally, tally_of};
ghost use Rattle.calls.specs.Steps.{AllPlayable};

// What a pass over a list of its form tells: how many calls it has, how many bytes its answers take in all, and the most bytes of cell memory that it
// lends.
#[derive(Clone, Copy)]
pub struct Tally {
    pub calls: u64,
    pub bytes: u64,
    pub lent: u64,
}

// Of a list that is not too long and starts with a machine.
fn scan_calls(list: &[u8]) -> Option<Tally>
    requires list_len_bound { length list.now ≤ 16777216 }
    requires list_value { machine_formed list.now ≡ true }
    ensures { result ≡ tally_of (decode list.now) }
{
    let mut calls: u64 = 0;
    let mut bytes: u64 = 17;
    let mut lent = number_at(list, 81);
    let mut at: usize = 555;
    // Kept: each turn passes a call of its own size.
    while at < list.len() {
        if !formed(list, at) {
            return None;
        }
        calls += 1;
        bytes += answer_size(list, at) as u64;
        lent = lent.max(lent_at(list, at));
        at += size_of(list[at]);
    }
    Some(Tally { calls, bytes, lent })
}

fn scan(list: &[u8]) -> Option<Tally>
    ensures { result ≡ tally_of (decode list.now) }
{
    if list.len() > 16777216 || !decoding::form::machine_formed(list) {
        return None;
    }
    scan_calls(list)
}

// The first 17 bytes.
fn put_header(out: &mut [u8], made: Result<(), Refusal>, t: Tally)
    requires { 17 ≤ length out.old }
    ensures { out.new ≡ splice 0 (encode (done_answer made) ++ (number_bytes t.calls ++ number_bytes t.bytes)) out.old }
{
    let a = put_done(out, 0, made);
    let b = t.calls.put(out, a);
    t.bytes.put(out, b);
}

// Where making was refused: each call answers its number.
fn refuse_calls(list: &[u8], out: &mut [u8], refusal: Refusal)
    requires list_value { all_formed (length list.now) list.now 555 ≡ true }
    requires list_in_bounds { 17 + all_sizes (calls_at (length list.now) list.now 555) ≤ length out.old }
    ensures { out.new ≡ splice 17 (refused_blocks (refusal_number refusal) (calls_at (length list.now) list.now 555)) out.old }
{
    let mut at: usize = 555;
    let mut b: usize = 17;
    // Kept: each turn passes a call of its own size.
    while at < list.len() {
        let n = answer_size(list, at);
        blank(out, b, n);
        out[b] = u8::from(refusal);
        b += n;
        at += size_of(list[at]);
    }
}

// All calls, each on the engine and the cell memory that the last one left.
fn play_calls(engine: &mut ScoreboardPipeline, list: &[u8], cells: &mut [u8], out: &mut [u8])
    requires valid { Valid engine.old }
    requires all_playable { AllPlayable list.now cells.old out.old }
    ensures valid { Valid engine.new }
    ensures memory { cells.new ≡ cells_played (view_engine engine.old) cells.old (calls_at (length list.now) list.now 555) }
    ensures answers { out.new ≡ splice 17 (blocks (view_engine engine.old) cells.old (calls_at (length list.now) list.now 555)) out.old }
{
    let mut at: usize = 555;
    let mut b: usize = 17;
    // Kept: each turn passes a call of its own size.
    while at < list.len() {
        let n = answer_size(list, at);
        blank(out, b, n);
        one::play(engine, list, at, cells, out, b);
        b += n;
        at += size_of(list[at]);
    }
}

// A list of its form, with all the room that it takes.
fn play_script(list: &[u8], cells: &mut [u8], out: &mut [u8], t: Tally)
    requires list_value { decode list.now ≡ Some (script_of list.now) }
    requires t_value { t ≡ tally (script_of list.now) }
    requires lent_in_bounds { t.lent ≤ length cells.old }
    requires bytes_in_bounds { t.bytes ≤ length out.old }
    ensures memory { cells.new ≡ script_cells (script_of list.now) cells.old }
    ensures answers { out.new ≡ splice 0 (script_answers (script_of list.now) cells.old) out.old }
{
    let shape = shape_at(list);
    let entry = number_at(list, 65);
    let n = number_at(list, 81) as usize;
    match ScoreboardPipeline::new(&shape, entry, &mut cells[..n]) {
        Err(refusal) => {
            put_header(out, Err(refusal), t);
            refuse_calls(list, out, refusal);
        }
        Ok(mut engine) => {
            put_header(out, Ok(()), t);
            play_calls(&mut engine, list, cells, out);
        }
    }
}

// 14 where the list is not of its form, 13 where cells or out is short, with nothing touched; else how many bytes of out were written.
#[unsafe(no_mangle)]
pub extern "C" fn calls_play(list: &[u8], cells: &mut [u8], out: &mut [u8]) -> u64
    ensures answer { result ≡ play_answer list.now cells.old out.old }
    ensures memory { cells.new ≡ play_cells list.now cells.old out.old }
    ensures answers { out.new ≡ play_out list.now cells.old out.old }
{
    let Some(t) = scan(list) else {
        return 14;
    };
    if (cells.len() as u64) < t.lent || (out.len() as u64) < t.bytes {
        return 13;
    }
    play_script(list, cells, out, t);
    t.bytes
}
