// How much room a call takes: the bytes of its answer, and the cell memory that it is lent.
ghost use Rattle.std.specs.Prelude.{◌≡◌, true, ◌+◌, ◌≤◌, length, replicate};
ghost use Rattle.model.specs.Timeline.{splice};
ghost use Rattle.decoding.specs.Calls.{call_at, formed_at};
ghost use Rattle.answers.specs.Size.{size};
ghost use Rattle.calls.specs.Play.{lent_of};

use decoding::parts::number_at;
use decoding::records::room_at;

// Of the calls 0 to 38; those of texts go by their room.
const ANSWERS: [usize; 39] = [
    45, 1, 1, 10, 10, 1, 1, 1, 1, 1, 1, 1, 5, 97, 2, 9, 9, 9, 16, 2, 6, 9, 9, 9, 9, 9, 9, 9, 9, 2,
    20, 37, 5, 29, 31, 4, 18, 18, 5,
];

pub fn answer_size(list: &[u8], at: usize) -> usize
    requires { formed_at list.now at ≡ true }
    ensures { result ≡ size (call_at list.now at) }
{
    let n = list[at] as usize;
    if n < 39 {
        return ANSWERS[n];
    }
    10 + room_at(list, at) as usize
}

// As many bytes of 0 from a place on: what an answer is laid over.
pub fn blank(out: &mut [u8], b: usize, n: usize)
    requires { b + n ≤ length out.old }
    ensures { out.new ≡ splice b (replicate n 0) out.old }
{
    out[b..b + n].fill(0);
}

pub fn lent_at(list: &[u8], at: usize) -> u64
    requires { formed_at list.now at ≡ true }
    ensures { result ≡ lent_of (call_at list.now at) }
{
    match list[at] {
        4 => number_at(list, at + 10),
        5 => number_at(list, at + 383),
        10 => number_at(list, at + 9),
        38 => number_at(list, at + 17),
        _ => 0,
    }
}
