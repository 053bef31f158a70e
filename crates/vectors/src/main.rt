// Plays each list of data/lists by `calls_play`, and prints what it answered and left (docs/COMPARISON.md). The file stdout has the Rust's answers.
#![tactic(auto)]

ghost use Rattle.std.specs.Prelude.{◌≡◌, ◌<◌, ◌≤◌, min, length, take};
ghost use Rattle.vectors.specs.Digest.{digest};

use std::io::Read;
use std::{fs, io};

fn digest(s: &[u8]) -> u64
    ensures { result ≡ digest s.now }
{
    let mut h: u64 = 0;
    for b in s {
        h = (h * 16777619 + *b as u64) % 4294967291;
    }
    h
}

// The digest of each block, the last one perhaps shorter.
fn blocks(rt: &impl Print, out: &[u8], block: usize) -> io::Result<()>
    requires { 0 < block }
{
    for part in out.chunks(block) {
        print!(rt; " {}", digest(part))?;
    }
    Ok(())
}

// How many bytes of a slice a number counts: at most all. (`most` and `part` follow from `value`; they are what lending that part asks.)
fn within(n: u64, s: &[u8]) -> usize
    ensures most { result ≤ length s.now }
    ensures part { result ≡ length (take result s.now) }
    ensures value { result ≡ min n (length s.now) }
{
    (n as usize).min(s.len())
}

// The next 8 bytes of a file.
fn next_number(file: &mut impl Read) -> io::Result<u64> {
    let mut bytes = [0u8; 8];
    reading::read_full(file, &mut bytes)?;
    Ok(u64::from_le_bytes(bytes))
}

// Reads so many bytes.
fn read_list(file: &mut impl Read, n: u64, list: &mut [u8]) -> io::Result<()> {
    let k = within(n, list);
    reading::read_full(file, &mut list[..k])?;
    Ok(())
}

// Lends so many bytes of each.
fn play_part(list: &[u8], n: u64, cells: &mut [u8], c: u64, out: &mut [u8], o: u64) -> u64 {
    let k = within(n, list);
    let i = within(c, cells);
    let j = within(o, out);
    calls::calls_play(&list[..k], &mut cells[..i], &mut out[..j])
}

fn show(rt: &impl Print, cells: &[u8], c: u64, out: &[u8], o: u64, block: u64) -> io::Result<()> {
    let i = within(c, cells);
    print!(rt; " {}", digest(&cells[..i]))?;
    let j = within(o, out);
    if 0 < block {
        blocks(rt, &out[..j], block as usize)?;
    }
    Ok(())
}

fn one(rt: &impl Print, file: &mut impl Read) -> io::Result<()> {
    let mut name = [0u8; 16];
    reading::read_full(file, &mut name)?;
    let n = next_number(file)?;
    let c = next_number(file)?;
    let o = next_number(file)?;
    let block = next_number(file)?;
    let mut list = reading::filled::<131072>(0);
    let mut cells = reading::filled::<51328>(19);
    let mut out = reading::filled::<262144>(7);
    read_list(file, n, &mut list)?;
    let answer = play_part(&list, n, &mut cells, c, &mut out, o);
    rt.write_all(&name)?;
    print!(rt; " {answer}")?;
    show(rt, &cells, c, &out, o, block)?;
    rt.write_all(b"\n")
}

fn main(rt: HostRuntime) -> io::Result<()> {
    let mut file = fs::open(&rt, "lists")?;
    let count = next_number(&mut file)?;
    for _ in 0..count {
        one(&rt, &mut file)?;
    }
    Ok(())
}
