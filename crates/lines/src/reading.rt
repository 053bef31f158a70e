// An operation as it is read from a line, word by word.
ghost use Rattle.std.specs.Prelude.{◌≡◌, false, [], option_map};
ghost use Rattle.laws.specs.Texts.{pieces};
ghost use Rattle.model.specs.Op.{given, decoded, info_of};
ghost use Rattle.model.specs.Forecast.{class_in, size_in, list_in, branches};
ghost use Rattle.op.specs.Chars.{view_text};
ghost use Rattle.op.specs.View.{view_op};
ghost use Rattle.lines.specs.Held.{read_name, read_names, read_list, read_start};

use super::{leading, parts};
use capability::PipelineInstructionClass;
use op::{Name, PipelineOp, Text};

// An operation without operands.
fn plain_op(class: PipelineInstructionClass, size: u64, text: Text, address: u64) -> PipelineOp
    ensures { view_op result ≡ given (decoded address size class (branches class) false) (info_of (view_text text) None None [] [] 0) }
{
    let op = PipelineOp::new(address, text, class, 0).with_length(size);
    if leading::branches(class) {
        op.branching()
    } else {
        op
    }
}

// A line's class, length and text.
#[tactic(auto, unfolding(crate::specs::Held::read_start, crate::specs::Held::plain, crate::specs::Held::kept))]
pub fn start(class: &[u8], size: &[u8], text: &[u8], address: u64) -> Option<PipelineOp>
    ensures { option_map view_op result ≡ read_start (class_in class.now) (size_in size.now) text.now address }
{
    let class = leading::class_in(class)?;
    let size = leading::size_in(size)?;
    Some(plain_op(class, size, Text::from_slice(text), address))
}

// One more name that it writes, or reads. An empty one is not of the form.
#[tactic(auto, unfolding(crate::specs::Held::read_name, crate::specs::Held::with_name, crate::specs::Held::kept, laws::specs::Lists::is_empty))]
fn with_name(op: PipelineOp, name: &[u8], written: bool) -> Option<PipelineOp>
    ensures { option_map view_op result ≡ read_name written name.now (Some (view_op op)) }
{
    if name.is_empty() {
        return None;
    }
    let name = Name::from_slice(name);
    Some(if written {
        op.also_writes(name)
    } else {
        op.reading(name)
    })
}

// Each name between the commas of a list.
fn with_names(op: PipelineOp, list: &[u8], written: bool) -> Option<PipelineOp>
    ensures { option_map view_op result ≡ read_names written (pieces 44 list.now) (Some (view_op op)) }
{
    let mut op = op;
    let mut at = 0usize;
    // Kept: it goes from comma to comma, and counts no index.
    loop {
        let rest = &list[at..];
        let n = parts::place_of(rest, b',');
        op = with_name(op, &rest[..n], written)?;
        if rest.len() <= n {
            return Some(op);
        }
        at = at + n + 1;
    }
}

// A list, `-` for no names.
pub fn with_list(op: PipelineOp, list: &[u8], written: bool) -> Option<PipelineOp>
    ensures { option_map view_op result ≡ read_list written (list_in list.now) (Some (view_op op)) }
{
    if list == b"-".as_slice() {
        return Some(op);
    }
    with_names(op, list, written)
}
