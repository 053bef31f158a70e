// Every text that `traces` writes, a line for each, on words, kinds and numbers at the ends of their limits.
// The file stdout is the Rust's own output: harness/src/bin/wait_texts.rs drives its engine into each wait and prints what its views show.
#![tactic(auto)]

use capability::Refusal;
use std::io;
use timeline::WaitForm;

const LONG: [u8; 64] = *b"abcdefghijklmnopqrstuvwxyzABCDEFGHIJKLMNOPQRSTUVWXYZ0123456789_-";

const LONG_NAME: [u8; 16] = *b"sixteen_letters_";

// What was written, and a line's end.
fn line(rt: &impl Print, w: Result<Option<usize>, Refusal>, out: &[u8]) -> io::Result<()> {
    if let Ok(Some(n)) = w {
        if n <= out.len() {
            rt.write_all(&out[..n])?;
        }
    }
    rt.write_all(b"\n")
}

fn show(
    rt: &impl Print,
    form: WaitForm,
    mine: &[u8],
    register: &[u8],
    other: &[u8],
    target: u64,
) -> io::Result<()> {
    let mut out = [0u8; 256];
    let w = traces::write_wait(form, mine, register, other, target, &mut out);
    line(rt, w, &out)
}

// The waits whose texts have words of operations.
fn words(rt: &impl Print, mine: &[u8], register: &[u8], other: &[u8]) -> io::Result<()> {
    show(rt, WaitForm::Overwrites, mine, register, other, 0)?;
    show(rt, WaitForm::MemoryOrder, mine, register, other, 0)?;
    show(rt, WaitForm::Drains, mine, register, other, 0)?;
    show(rt, WaitForm::WaitsFor, mine, register, other, 0)?;
    show(rt, WaitForm::WaitsForOlder, mine, register, other, 0)?;
    show(rt, WaitForm::BehindBranch, mine, register, other, 0)?;
    show(rt, WaitForm::BehindSystem, mine, register, other, 0)?;
    show(rt, WaitForm::StillWrites, mine, register, other, 0)
}

fn all_busy(rt: &impl Print, kind: &[u8]) -> io::Result<()> {
    show(rt, WaitForm::AllBusy, b"", kind, b"", 0)
}

fn redirect(rt: &impl Print, target: u64) -> io::Result<()> {
    show(rt, WaitForm::RedirectTo, b"", b"", b"", target)
}

fn label(rt: &impl Print, kind: &[u8], number: usize) -> io::Result<()> {
    let mut out = [0u8; 256];
    let w = traces::texts::write_label(kind, number, &mut out);
    line(rt, w, &out)
}

fn text(rt: &impl Print, s: &[u8]) -> io::Result<()> {
    let mut out = [0u8; 256];
    let w = traces::texts::write_text(s, &mut out);
    line(rt, w, &out)
}

fn waits(rt: &impl Print) -> io::Result<()> {
    words(rt, b"mul x5, x6", b"x1", b"add x1, x2")?;
    words(rt, b"  sub  x9", b"r", b"   ")?;
    words(rt, b"", &LONG_NAME, b"div")?;
    words(rt, b"?", b"", b"   st 0(x2)   ")?;
    words(rt, b"~!", b"x 1", b"")?;
    words(rt, &LONG, &LONG_NAME, &LONG)?;
    all_busy(rt, b"M")?;
    all_busy(rt, b"EX")?;
    all_busy(rt, b"LOAD/ST8")
}

fn redirects(rt: &impl Print) -> io::Result<()> {
    redirect(rt, 0)?;
    redirect(rt, 9)?;
    redirect(rt, 10)?;
    redirect(rt, 15)?;
    redirect(rt, 16)?;
    redirect(rt, 255)?;
    redirect(rt, 0x1234_5678_9ABC_DEF0)?;
    redirect(rt, 0xFFFF_FFFF_FFFF_FFFF)
}

fn labels(rt: &impl Print) -> io::Result<()> {
    label(rt, b"EX", 0)?;
    label(rt, b"EX", 9)?;
    label(rt, b"EX", 10)?;
    label(rt, b"EX", 63)?;
    label(rt, b"LOAD/ST8", 63)?;
    label(rt, b"M", 100_000)
}

fn main(rt: HostRuntime) -> io::Result<()> {
    waits(&rt)?;
    redirects(&rt)?;
    labels(&rt)?;
    text(&rt, b"")?;
    text(&rt, b"  add  x1, x2 ")?;
    text(&rt, &LONG)
}
