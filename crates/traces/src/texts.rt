// Texts written to a lent buffer: put together from parts, a number's digits among them.
ghost use Rattle.std.specs.Prelude.{◌≡◌, [], ◌++◌, ◌+◌, ◌<◌, ◌≤◌, length};
ghost use Rattle.std.specs.List.{flat_map};
ghost use Rattle.laws.specs.Texts.{digit, digits_before, decimal, hexadecimal};
ghost use Rattle.traces.specs.Texts.{Laid, Wrote, IsDigits};

use capability::Refusal;

// The digits of a number, from `at` on.
#[derive(Drop)]
pub struct Digits {
    pub bytes: [u8; 20],
    pub at: usize,
}

// A slice at a place of the buffer; the next place.
#[tactic(auto, using(timeline::proofs::Memory::put_splice))]
pub fn put(out: &mut [u8], at: usize, s: &[u8]) -> usize
    requires { at + length s.now ≤ length out.old }
    ensures { Laid at s.now out.old out.new result }
{
    let end = at + s.len();
    out[at..end].copy_from_slice(s);
    end
}

// Texts, one after the other: how many bytes they are. Nothing is written where the buffer is short.
pub fn write_parts(parts: &[&[u8]], out: &mut [u8]) -> Result<Option<usize>, Refusal>
    ensures { Wrote (Some (flat_map (λ p. p.now) parts.now)) out.old out.new result }
{
    let mut room = out.len();
    for part in parts {
        if room < part.len() {
            return Err(Refusal::ShortMemory);
        }
        room -= part.len();
    }
    let mut at = 0;
    for part in parts {
        at = put(out, at, part);
    }
    Ok(Some(at))
}

// A text as it stands.
pub fn write_text(s: &[u8], out: &mut [u8]) -> Result<Option<usize>, Refusal>
    ensures { Wrote (Some s.now) out.old out.new result }
{
    write_parts(&[s], out)
}

// A digit: 0 to 9, then capitals.
#[tactic(auto, unfolding(laws::specs::Texts::digit))]
fn digit_of(d: u64) -> u8
    requires { d < 16 }
    ensures { result ≡ digit d }
{
    if d < 10 { 48 + d as u8 } else { 55 + d as u8 }
}

// The digits of a number, without leading zeros.
pub fn digits_of(n: u64, base: u64) -> Digits
    requires { (10 ≤ base) × (base ≤ 16) }
    ensures { IsDigits result (digits_before base 19 n []) }
{
    let mut bytes = [0u8; 20];
    let mut at: usize = 19;
    let mut x = n;
    // Kept: the number decides how many digits there are, so a range would need a way out and an answer past its end.
    while x >= base {
        bytes[at] = digit_of(x % base);
        x /= base;
        at -= 1;
    }
    bytes[at] = digit_of(x % base);
    Digits { bytes, at }
}

// A text and a number behind it.
fn write_number(
    name: &[u8],
    number: u64,
    base: u64,
    out: &mut [u8],
) -> Result<Option<usize>, Refusal>
    requires { (10 ≤ base) × (base ≤ 16) }
    ensures { Wrote (Some (name.now ++ digits_before base 19 number [])) out.old out.new result }
{
    let d = digits_of(number, base);
    write_parts(&[name, &d.bytes[d.at..]], out)
}

// A station's label: format!("{}{instance}", spec.name).
#[tactic(auto, unfolding(laws::specs::Texts::decimal))]
pub fn write_label(name: &[u8], number: usize, out: &mut [u8]) -> Result<Option<usize>, Refusal>
    ensures { Wrote (Some (name.now ++ decimal number)) out.old out.new result }
{
    write_number(name, number as u64, 10, out)
}

// A text and a number in hexadecimal behind it.
pub fn write_hex(name: &[u8], number: u64, out: &mut [u8]) -> Result<Option<usize>, Refusal>
    ensures { Wrote (Some (name.now ++ hexadecimal number)) out.old out.new result }
{
    write_number(name, number, 16, out)
}
