// Bytes read from an input until a buffer is full or the input ends, and buffers to read into.
#![tactic(auto)]

ghost use Rattle.std.specs.Prelude.{◌≡◌, ℕ, ◌<◌, ◌≤◌, length, get_or, take, IfOk};
ghost use Rattle.std.specs.Io.{ReadsAtMost};
ghost use Rattle.std.specs.Io.KnownBytes.{Consumes, IsAtEnd};

use std::io;
use std::io::Read;

// A buffer of N bytes, all the same. (A caller's goals count its bytes by `size`, and do not write them out.)
pub fn filled<const N: usize>(byte: u8) -> [u8; N]
    ensures size { length result ≡ N }
    ensures each { (k : ℕ) → k < N → get_or result k 0 ≡ byte }
{
    [byte; N]
}

// Reads until the buffer is full or the input ends, and returns how many bytes it put at its start.
pub fn read_full<R: Read>(input: &mut R, buf: &mut [u8]) -> io::Result<usize>
    ensures in_bounds { ReadsAtMost result buf.new }
    ensures bytes { IfOk result (λ n. Consumes (R.remaining input.old) (R.remaining input.new) (take n buf.new)) }
    ensures end { IfOk result (λ n. n < length buf.new → IsAtEnd (R.remaining input.new)) }
{
    let mut done = 0;
    // Kept: the reader says how many bytes each read brings.
    while done < buf.len() {
        let n = input.read(&mut buf[done..])?;
        if n == 0 {
            break;
        }
        done += n;
    }
    Ok(done)
}
