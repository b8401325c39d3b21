// What several programs have in common: lines and numbers read, words put into a table, text and numbers printed. For programs alone: it
// reads and prints, so no library may rest on it (tools/axioms.py).
#![tactic(auto)]

ghost use Rattle.std.specs.Prelude.{◌<◌, ◌≤◌, ◌≡◌, length, take};
ghost use Rattle.std.specs.Io.KnownBytes.{Consumes};
ghost use Rattle.base.specs.Lists.{before};

use std::io::Read;

// ---- reading

// Reads once: how many bytes stand at the buffer's start. A read that fails gives none.
fn read_some<R: Read>(input: &mut R, buf: &mut [u8]) -> usize
    ensures in_bounds { result ≤ length buf.new }
    ensures prefix_length { result ≡ length (take result buf.new) }
    ensures bytes { Consumes (R.remaining input.old) (R.remaining input.new) (take result buf.new) }
{
    match input.read(buf) {
        Ok(n) => n,
        Err(_) => 0,
    }
}

// Reads until the buffer is full, the input ends or a read fails: how many bytes stand at the buffer's start.
pub fn read_full<R: Read>(input: &mut R, buf: &mut [u8]) -> usize
    ensures in_bounds { result ≤ length buf.new }
    ensures prefix_length { result ≡ length (take result buf.new) }
    ensures bytes { Consumes (R.remaining input.old) (R.remaining input.new) (take result buf.new) }
{
    let mut done = 0;
    while done < buf.len() {
        let n = read_some(input, &mut buf[done..]);
        if n == 0 {
            break;
        }
        done += n;
    }
    done
}

// How many bytes the first line of a text has.
#[tactic(auto, using(sessions::proofs::LineLaws::length_before))]
pub fn line_length(s: &[u8]) -> usize
    ensures value { result ≡ length (before 10 s.now) }
    ensures upper_bound { result ≤ length s.now }
{
    sessions::line_end(s, 0)
}

// The number that a text's first five digits write; 0 where it is shorter. (One sum: as a fold its bound would need powers of ten.)
pub fn number(s: &[u8]) -> usize
    ensures { result < 100000 }
{
    if s.len() < 5 {
        return 0;
    }
    digit(s[0]) * 10000 + digit(s[1]) * 1000 + digit(s[2]) * 100 + digit(s[3]) * 10 + digit(s[4])
}

// A digit's value; 0 for any other byte.
pub fn digit(b: u8) -> usize
    ensures { result ≤ 9 }
{
    match b {
        b'0'..=b'9' => (b - b'0') as usize,
        _ => 0,
    }
}

// ---- tables

// One word from a place up to another.
pub fn put_run(table: &mut [u32], from: usize, to: usize, v: u32) {
    let end = to.min(table.len());
    if from < end {
        table[from..end].fill(v);
    }
}

// ---- printing

// What can't be written is lost.
pub fn print(rt: &impl Print, s: &[u8]) {
    let _ = rt.write_all(s);
}

// A text and a number behind it.
pub fn print_number(rt: &impl Print, s: &[u8], n: u64) {
    print(rt, s);
    let _ = rt.print(n);
}
