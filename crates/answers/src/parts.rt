// What has bytes: for each type always as many, but for an optional value that stands alone.
ghost use Rattle.std.specs.Prelude.{◌≡◌, ℕ, List, [], ◌∷◌, ◌+◌, ◌*◌, ◌≤◌, length, Option};
ghost use Rattle.std.specs.List.{flat_map};
ghost use Rattle.capability.specs.Numbers.{class_number};
ghost use Rattle.model.specs.Calls.{Answer};
ghost use Rattle.traces.specs.Texts.{Laid};
ghost use Rattle.answers.specs.Bytes.{byte_of, hazard_byte, number_bytes, optional, optional_length, part};
ghost use Rattle.answers.specs.Encode.{encode};
ghost use Rattle.answers.specs.Shown.{ShownLaws};

use capability::{PipelineHazardKind, PipelineInstructionClass};
use traces::texts;

pub trait Put {
    // How many bytes.
    const SIZE: usize;

    ghost SIZE: { ℕ };

    ghost bytes: { Self → List ℕ };

    fn put(self, out: &mut [u8], at: usize) -> usize
        requires { at + SIZE ≤ length out.old }
        ensures laid { Laid at (bytes self) out.old out.new result }
        ensures next { result ≡ at + SIZE };
}

// What a call shows, where it is there.
pub trait Shown: Put {
    ghost shown: { Option Self → Answer };

    ghost laws: { ShownLaws Self.bytes shown };
}

// The lowest byte first.
#[tactic(auto, unfolding(crate::specs::Bytes::number_bytes))]
impl Put for u64 {
    const SIZE: usize = 8;

    ghost SIZE = { 8 };

    ghost bytes = { number_bytes };

    fn put(self, out: &mut [u8], at: usize) -> usize {
        texts::put(out, at, &self.to_le_bytes())
    }
}

impl Put for u8 {
    const SIZE: usize = 1;

    ghost SIZE = { 1 };

    ghost bytes = { byte_of };

    fn put(self, out: &mut [u8], at: usize) -> usize {
        texts::put(out, at, &[self])
    }
}

#[tactic(auto, unfolding(crate::specs::Bytes::hazard_byte))]
impl Put for PipelineHazardKind {
    const SIZE: usize = 1;

    ghost SIZE = { 1 };

    ghost bytes = { hazard_byte };

    fn put(self, out: &mut [u8], at: usize) -> usize {
        texts::put(out, at, &[u8::from(self)])
    }
}

#[tactic(auto, unfolding(capability::specs::Numbers::class_number))]
pub fn class_byte(class: PipelineInstructionClass) -> u8
    ensures { result ≡ class_number class }
{
    class as u8
}

// Inside a larger part: as many bytes where there is none.
pub fn put_part<T: Put + Drop>(out: &mut [u8], at: usize, value: Option<T>) -> usize
    requires { at + (1 + T.SIZE) ≤ length out.old }
    ensures laid { Laid at (part (1 + T.SIZE) T.bytes value) out.old out.new result }
    ensures next { result ≡ at + (1 + T.SIZE) }
{
    match value {
        Some(v) => {
            let next = texts::put(out, at, &[1]);
            v.put(out, next)
        }
        None => {
            let next = at + (1 + T::SIZE);
            out[at..next].fill(0);
            next
        }
    }
}

// A whole answer, which starts with 0 for a call that was not refused.
#[tactic(auto, unfolding(crate::specs::Bytes::optional))]
pub fn put_optional<T: Put + Drop>(out: &mut [u8], at: usize, value: Option<T>) -> usize
    requires { at + (1 + optional_length T.SIZE value) ≤ length out.old }
    ensures { Laid at (0 ∷ optional T.bytes value) out.old out.new result }
{
    match value {
        Some(v) => {
            let next = texts::put(out, at, &[0, 1]);
            v.put(out, next)
        }
        None => texts::put(out, at, &[0, 0]),
    }
}

pub fn put_shown<T: Shown + Drop>(out: &mut [u8], at: usize, value: Option<T>) -> usize
    requires { at + (2 + T.SIZE) ≤ length out.old }
    ensures { Laid at (encode (T.shown value)) out.old out.new result }
{
    put_optional(out, at, value)
}

// One after the other.
pub fn put_all<T: Put + Copy>(out: &mut [u8], at: usize, items: &[T]) -> usize
    requires { at + length items.now * T.SIZE ≤ length out.old }
    ensures { Laid at (flat_map T.bytes items.now) out.old out.new result }
{
    let mut next = at;
    for item in items {
        next = item.put(out, next);
    }
    next
}
