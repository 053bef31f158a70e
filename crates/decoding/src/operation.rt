// An operation, 382 bytes.
ghost use Rattle.std.specs.Prelude.{◌≡◌, map, ◌+◌, ◌*◌, ◌≤◌, length};
ghost use Rattle.op.specs.Chars.{view_text};
ghost use Rattle.op.specs.View.{view_op};
ghost use Rattle.decoding.specs.Operation.{names_at, op_at};

use super::parts;
use op::{Name, PipelineOp};

fn names_at<const M: usize>(list: &[u8], at: usize) -> [Name; M]
    requires { at + M * 17 ≤ length list.now }
    ensures { map view_text result ≡ names_at M list.now at }
{
    let mut names = [Name::empty(); M];
    for i in 0..M {
        names[i] = parts::chars_at(list, at + i * 17);
    }
    names
}

#[tactic(auto, unfolding(op::specs::View::view_op, crate::specs::Operation::op_at, crate::specs::Bytes::byte_at))]
pub fn op_at(list: &[u8], at: usize) -> PipelineOp
    requires { at + 382 ≤ length list.now }
    ensures { view_op result ≡ op_at list.now at }
{
    PipelineOp {
        address: parts::number_at(list, at),
        length: parts::number_at(list, at + 8),
        class: parts::class_at(list, at + 16),
        branch: parts::flag_at(list, at + 17),
        atomic: parts::flag_at(list, at + 18),
        payload: parts::number_at(list, at + 19),
        disassembly: parts::chars_at(list, at + 27),
        fault: parts::maybe_chars_at(list, at + 92),
        destination: parts::maybe_chars_at(list, at + 158),
        sources_len: list[at + 176],
        sources: names_at(list, at + 177),
        writes_len: list[at + 313],
        writes: names_at(list, at + 314),
    }
}
