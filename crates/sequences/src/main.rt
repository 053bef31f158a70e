// Sample sequences, each read from its file and forecast: a line with the file's name, and what `forecast` prints.
// The file stdout is the Rust's own output, made by harness/src/bin/forecasts.rs over the same files. docs/EXAMPLES.md shows them.
#![tactic(auto)]

use std::io::Read;
use std::rt::Files;
use std::{fs, io};

// Those that are forecast, then those that are refused.
const NAMES: &[&str] = &[
    "all_classes.txt",
    "branch_and_jump.txt",
    "dependent_chain.txt",
    "division.txt",
    "empty.txt",
    "limits.txt",
    "longest_rows.txt",
    "memory_order.txt",
    "most_bytes.txt",
    "no_last_newline.txt",
    "odd_names.txt",
    "reads_and_writes_one.txt",
    "rows_evicted.txt",
    "system.txt",
    "two_lines.txt",
    "write_after_read.txt",
    "write_after_write.txt",
    "refused_10_names.txt",
    "refused_14_before_2.txt",
    "refused_14_class.txt",
    "refused_14_empty_line.txt",
    "refused_14_empty_name.txt",
    "refused_14_excess.txt",
    "refused_14_later.txt",
    "refused_14_length_0.txt",
    "refused_14_length_04.txt",
    "refused_14_length_16.txt",
    "refused_14_no_text.txt",
    "refused_14_two_letters.txt",
    "refused_14_two_spaces.txt",
    "refused_2_before_14.txt",
    "refused_2_byte.txt",
    "refused_2_long_name.txt",
    "refused_2_long_text.txt",
    "refused_9_reads.txt",
    "refused_9_writes.txt",
];

// A file as `forecast` reads it.
fn forecast_file(rt: &impl Print, file: &mut impl Read) -> io::Result<()> {
    // At most 65,536 bytes, and one more that tells excess input.
    let mut input = reading::filled::<65537>(0);
    let n = reading::read_full(file, &mut input)?;
    let mut cells = reading::filled::<51200>(255);
    let mut out = reading::filled::<524288>(0);
    let answer = forecasting::forecast(&input[..n], &mut cells, &mut out);
    let size = forecasting::printed_len(answer, &out);
    rt.write_all(&out[..size])
}

fn sample<R: Files + Print>(rt: &R, name: &str) -> io::Result<()> {
    rt.write_all(name.as_bytes())?;
    rt.write_all(b"\n")?;
    let mut file = fs::open(rt, name)?;
    forecast_file(rt, &mut file)
}

fn main(rt: HostRuntime) -> io::Result<()> {
    for name in NAMES {
        sample(&rt, name)?;
    }
    Ok(())
}
