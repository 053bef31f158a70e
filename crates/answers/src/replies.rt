// The answers of driving calls, and what stands before a text.
ghost use Rattle.std.specs.Prelude.{◌+◌, ◌≤◌, length, Option};
ghost use Rattle.model.specs.Calls.{Answer};
ghost use Rattle.traces.specs.Texts.{Laid};
ghost use Rattle.engine.specs.View.{view_offer, answer_by, done_answer};
ghost use Rattle.answers.specs.Bytes.{offer_bytes};
ghost use Rattle.answers.specs.Encode.{encode, answer_bytes, answer_length, written_bytes};
ghost use Rattle.answers.specs.Shown.{ShownLaws};

use super::parts::{Put, class_byte, put_optional};
use capability::Refusal;
use engine::OfferView;
use traces::texts;

impl Put for OfferView {
    const SIZE: usize = 43;

    ghost SIZE = { 43 };

    ghost bytes = { λ v. offer_bytes (view_offer v) };

    fn put(self, out: &mut [u8], at: usize) -> usize {
        let a = self.seq.put(out, at);
        let b = self.address.put(out, a);
        let c = self.length.put(out, b);
        let d = texts::put(
            out,
            c,
            &[
                class_byte(self.class),
                u8::from(self.branch),
                u8::from(self.atomic),
            ],
        );
        let e = self.predicted_next.put(out, d);
        self.payload.put(out, e)
    }
}

// What was asked for, if it is there; a refusal by its number. `f` says which of the model's answers it is.
// model: Calls.Answer
#[tactic(auto, unfolding(crate::specs::Encode::answer_bytes))]
pub fn put_answer<T: Put + Drop>(
    out: &mut [u8],
    at: usize,
    answer: Result<Option<T>, Refusal>,
) -> usize
    requires { at + answer_length T.SIZE answer ≤ length out.old }
    ensures laid { Laid at (answer_bytes T.bytes answer) out.old out.new result }
    ensures encoded { (f : Option T → Answer) → ShownLaws T.bytes f → Laid at (encode (answer_by f answer)) out.old out.new result }
{
    match answer {
        Ok(value) => put_optional(out, at, value),
        Err(refusal) => texts::put(out, at, &[u8::from(refusal)]),
    }
}

// Done, or a refusal by its number.
// model: Calls.Answer
#[tactic(auto, unfolding(crate::specs::Encode::encode, engine::specs::View::answer_by))]
pub fn put_done(out: &mut [u8], at: usize, answer: Result<(), Refusal>) -> usize
    requires { at + 1 ≤ length out.old }
    ensures { Laid at (encode (done_answer answer)) out.old out.new result }
{
    match answer {
        Ok(()) => texts::put(out, at, &[0]),
        Err(no) => texts::put(out, at, &[u8::from(no)]),
    }
}

// What stands before a text that was written behind it.
#[tactic(auto, unfolding(crate::specs::Bytes::optional, crate::specs::Encode::answer_bytes, crate::specs::Encode::written_bytes))]
pub fn put_written(out: &mut [u8], at: usize, written: Result<Option<usize>, Refusal>) -> usize
    requires { at + 10 ≤ length out.old }
    ensures { Laid at (written_bytes written) out.old out.new result }
{
    put_answer(out, at, written.map(|size| size.map(|n| n as u64)))
}
