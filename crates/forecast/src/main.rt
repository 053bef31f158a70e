// Reads a sequence from standard input, and prints its forecast.
#![tactic(auto)]

use std::io;

fn main(rt: HostRuntime) -> io::Result<()> {
    // At most 65,536 bytes, and one more that tells excess input.
    let mut input = reading::filled::<65537>(0);
    let n = reading::read_full(&mut rt.reader(), &mut input)?;
    let mut cells = reading::filled::<51200>(255);
    let mut out = reading::filled::<524288>(0);
    let answer = forecasting::forecast(&input[..n], &mut cells, &mut out);
    let size = forecasting::printed_len(answer, &out);
    rt.write_all(&out[..size])
}
