// The parts that machines, operations and calls are made of.
ghost use Rattle.std.specs.Prelude.{◌≡◌, ◌+◌, ◌≤◌, ◌<◌, length, take, drop, option_map};
ghost use Rattle.op.specs.Chars.{view_text};
ghost use Rattle.decoding.specs.Bytes.{number_at, flag_at, class_at, role_at, text_at, optional_at};

use capability::{PipelineInstructionClass, PipelineStageRole};
use op::Chars;

// N bytes.
fn bytes_at<const N: usize>(list: &[u8], at: usize) -> [u8; N]
    requires { at + N ≤ length list.now }
    ensures { result ≡ take N (drop at list.now) }
{
    let mut bytes = [0; N];
    bytes.copy_from_slice(&list[at..at + N]);
    bytes
}

// Eight bytes, the lowest first.
#[tactic(auto, using(crate::proofs::Numbers::lowest_first), unfolding(crate::specs::Bytes::number_at))]
pub fn number_at(list: &[u8], at: usize) -> u64
    requires { at + 8 ≤ length list.now }
    ensures { result ≡ number_at list.now at }
{
    u64::from_le_bytes(bytes_at(list, at))
}

#[tactic(auto, unfolding(crate::specs::Bytes::flag_at, crate::specs::Bytes::byte_at))]
pub fn flag_at(list: &[u8], at: usize) -> bool
    requires { at < length list.now }
    ensures { result ≡ flag_at list.now at }
{
    list[at] == 1
}

#[tactic(auto, unfolding(crate::specs::Bytes::class_at, crate::specs::Bytes::byte_at))]
pub fn class_at(list: &[u8], at: usize) -> PipelineInstructionClass
    requires { at < length list.now }
    ensures { result ≡ class_at list.now at }
{
    PipelineInstructionClass::try_from(list[at]).unwrap_or(PipelineInstructionClass::Unknown)
}

#[tactic(auto, unfolding(crate::specs::Bytes::role_at, crate::specs::Bytes::byte_at))]
pub fn role_at(list: &[u8], at: usize) -> PipelineStageRole
    requires { at < length list.now }
    ensures { result ≡ role_at list.now at }
{
    PipelineStageRole::try_from(list[at]).unwrap_or(PipelineStageRole::Other)
}

// A length's byte, and N bytes.
#[tactic(auto, unfolding(op::specs::Chars::view_text, crate::specs::Bytes::text_at, crate::specs::Bytes::byte_at))]
pub fn chars_at<const N: usize>(list: &[u8], at: usize) -> Chars<N>
    requires { at + N < length list.now }
    ensures { view_text result ≡ text_at N list.now at }
{
    Chars {
        bytes: bytes_at(list, at + 1),
        len: list[at],
    }
}

#[tactic(auto, unfolding(crate::specs::Bytes::optional_at))]
pub fn maybe_number_at(list: &[u8], at: usize) -> Option<u64>
    requires { at + 9 ≤ length list.now }
    ensures { result ≡ optional_at number_at list.now at }
{
    if flag_at(list, at) {
        Some(number_at(list, at + 1))
    } else {
        None
    }
}

#[tactic(auto, unfolding(crate::specs::Bytes::optional_at))]
pub fn maybe_chars_at<const N: usize>(list: &[u8], at: usize) -> Option<Chars<N>>
    requires { at + N + 1 < length list.now }
    ensures { option_map view_text result ≡ optional_at (text_at N) list.now at }
{
    if flag_at(list, at) {
        Some(chars_at(list, at + 1))
    } else {
        None
    }
}
