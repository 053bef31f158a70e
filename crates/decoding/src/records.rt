// The bytes of a call: how many, and whether they are of their form.
ghost use Rattle.std.specs.Prelude.{◌≡◌, ◌&&◌, ◌+◌, ◌≤◌, ◌<◌, length, get_or};
ghost use Rattle.decoding.specs.Bytes.{byte_at, below};
ghost use Rattle.decoding.specs.Calls.{sizes, size_at, room_at, parts_formed, formed_at};

use super::{form, parts};

const SIZES: [usize; 49] = [
    1, 1, 66, 9, 18, 391, 17, 2, 1, 66, 17, 9, 1, 1, 1, 1, 1, 1, 1, 1, 1, 1, 1, 1, 1, 1, 1, 1, 1,
    9, 9, 9, 9, 9, 9, 9, 9, 9, 25, 9, 27, 17, 17, 17, 17, 17, 17, 17, 25,
];

// 0 where there is no such call.
pub fn size_of(tag: u8) -> usize
    ensures { result ≡ get_or sizes tag 0 }
{
    SIZES.get(tag as usize).copied().unwrap_or(0)
}

// The last number of a text request.
#[tactic(auto, unfolding(crate::specs::Calls::room_at, crate::specs::Calls::size_at, crate::specs::Bytes::byte_at))]
pub fn room_at(list: &[u8], at: usize) -> u64
    requires at_in_bounds { at + size_at list.now at ≤ length list.now }
    requires bound { 8 < size_at list.now at }
    ensures { result ≡ room_at list.now at }
{
    let back = size_of(list[at]) - 8;
    parts::number_at(list, at + back)
}

// The place and the field of a request for a text of an operation.
fn place_formed(list: &[u8], at: usize) -> bool
    requires { at + 27 ≤ length list.now }
    ensures { result ≡ below 5 1 list.now (at + 1) && below 5 1 list.now (at + 10) }
{
    form::below(list, at + 1, 1, 5) && form::below(list, at + 10, 1, 5)
}

// Of a call with parts that have a form.
#[tactic(auto, using(crate::proofs::Sizes::text_size), unfolding(crate::specs::Calls::parts_formed, crate::specs::Calls::size_at))]
fn parts_formed(list: &[u8], at: usize, tag: u8) -> bool
    requires tag_value { tag ≡ byte_at list.now at }
    requires tag_bound { tag < 49 }
    requires at_in_bounds { at + size_at list.now at ≤ length list.now }
    ensures { result ≡ parts_formed tag list.now at }
{
    match tag {
        5 => form::op_formed(list, at + 1),
        4 | 7 => form::below(list, at + 1, 1, 2),
        0..=38 => true,
        _ => room_at(list, at) <= 65535 && (tag != 40 || place_formed(list, at)),
    }
}

// Is the call at a place there, whole and of its form?
#[tactic(auto, unfolding(crate::specs::Calls::formed_at, crate::specs::Calls::size_at, crate::specs::Bytes::byte_at))]
pub fn formed(list: &[u8], at: usize) -> bool
    requires { at < length list.now }
    ensures { result ≡ formed_at list.now at }
{
    let tag = list[at];
    let n = size_of(tag);
    if n == 0 {
        return false;
    }
    n <= list.len() - at && parts_formed(list, at, tag)
}
