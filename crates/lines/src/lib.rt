// A line of the program `forecast`, read as an operation.
#![tactic(auto)]

use op::PipelineOp;

// Texts cut at a byte.
mod parts;
// The first two words of a line.
mod leading;
// What has been read of a line.
mod reading;

ghost use Rattle.std.specs.Prelude.{◌≡◌, ◌<◌, length, option_map};
ghost use Rattle.model.specs.Forecast.{parse};
ghost use Rattle.op.specs.View.{view_op};
ghost use Rattle.lines.specs.Held.{held};
ghost use Rattle.lines.specs.Lines.{LineRead};

// What a line is read as, none where it is not of the form, and where the next one starts.
#[derive(Clone, Copy)]
pub struct Read {
    pub op: Option<PipelineOp>,
    pub next: usize,
}

// A line without its byte 10.
fn read_op(line: &[u8], address: u64) -> Option<PipelineOp>
    ensures { option_map view_op result ≡ option_map (held address) (parse line.now) }
{
    let one = parts::beyond(line, b' ');
    let two = parts::beyond(one, b' ');
    let three = parts::beyond(two, b' ');
    let end = parts::place_of(three, b' ');
    if three.len() <= end {
        return None;
    }
    let class = parts::before(line, b' ');
    let size = parts::before(one, b' ');
    let text = parts::beyond(three, b' ');
    let started = reading::start(class, size, text, address)?;
    let reads = parts::before(two, b' ');
    let op = reading::with_list(started, reads, false)?;
    reading::with_list(op, &three[..end], true)
}

// The line of the input that starts at `from`, as an operation at an address.
pub fn read_line(input: &[u8], from: usize, address: u64) -> Read
    requires { from < length input.now }
    ensures { LineRead input.now from address result }
{
    let rest = &input[from..];
    let end = parts::place_of(rest, b'\n');
    let op = read_op(&rest[..end], address);
    let next = if end < rest.len() {
        from + end + 1
    } else {
        input.len()
    };
    Read { op, next }
}
