// Fresh, full and damaged tables, and names. Each line of the input is a case, written again with what the functions say of it:
//     T base k v c ..    a table with the word v at place k: whether it is sound, the members of context c, the free numbers
//     W n                the first n words of a fresh table
//     N name             a name
#![tactic(auto)]

ghost use Rattle.std.specs.Prelude.{◌≡◌, length};

use megaco::{Name, Range};
use table::{LINE, NO_LINES};

// The words of a table of eight lines, and one more.
const WORDS: usize = NO_LINES + 8 * LINE;

const ROOM: usize = WORDS + 1;

fn main(rt: HostRuntime) {
    let mut room = [0u32; ROOM];
    let mut input = [0u8; 4096];
    let n = program_io::read_full(&mut rt.stdin(), &mut input);
    run(&rt, &mut room, &input[..n]);
}

// ---- lines

fn run(rt: &impl Print, room: &mut [u32; ROOM], s: &[u8]) {
    for line in s.split_inclusive(|b| *b == b'\n') {
        let line = line.strip_suffix(b"\n").unwrap_or(line);
        program_io::print(rt, line);
        case(rt, room, line);
        program_io::print(rt, b"\n");
    }
}

fn case(rt: &impl Print, room: &mut [u32; ROOM], line: &[u8]) {
    match line {
        [] | [_] => {}
        [b'T', ..] => table_case(rt, &mut room[..WORDS], line),
        [b'W', ..] => length_case(rt, room, number(line, 1)),
        [_, _, name @ ..] => name_case(rt, name),
    }
}

// The number in field k of a line; the fields stand apart by single spaces. What is no digit does not count.
fn number(line: &[u8], k: usize) -> u32 {
    let field = line.split(|b| *b == b' ').nth(k).unwrap_or(&[]);
    let n = field.iter().fold(0, |n, b| number_on(n, *b));
    u32::try_from(n).unwrap_or(0)
}

// A number with one digit more, if the byte is one. (`parse` refuses what is passed over here.)
fn number_on(n: u64, b: u8) -> u64 {
    if n < 1000000000 && b.is_ascii_digit() {
        n * 10 + program_io::digit(b) as u64
    } else {
        n
    }
}

// ---- writing

fn print_sound(rt: &impl Print, t: &[u32]) {
    if sound::is_sound(t) {
        program_io::print(rt, b": sound");
    } else {
        program_io::print(rt, b": not sound");
    }
}

// ---- tables

// Eight terminations from a number on in each of contexts 1, 2, ..
fn put_eights(t: &mut [u32], from: usize) {
    for i in from..312 {
        table::put_word(t, i, ((i - from) / 8 + 1) as u32);
    }
}

// A termination or more in each of 128 contexts.
fn put_spread(t: &mut [u32]) {
    for i in 0..312 {
        table::put_word(t, i, (i % 128 + 1) as u32);
    }
}

// L/1/1 to L/1/3 in context 1, L/8/31 and R/1 in context 128.
fn put_busy(t: &mut [u32]) {
    program_io::put_run(t, 0, 3, 1);
    program_io::put_run(t, 247, 249, 128);
    program_io::put_run(t, 312, 315, 3);
    program_io::put_run(t, 624, 625, 1);
    program_io::put_run(t, 751, 752, 32);
    program_io::put_run(t, 752, 753, 1);
}

// 64 ephemerals in contexts of 8.
fn put_rings(t: &mut [u32]) {
    put_eights(t, 248);
    program_io::put_run(t, 624, 632, 1);
    program_io::put_run(t, 752, 754, 4294967295);
}

// 1: busy; 2: 128 contexts; 3: contexts of 8; 4: 64 ephemerals in contexts of 8; 5: the same, each word of their speech 1; else fresh.
fn start(t: &mut [u32], base: u32) {
    program_io::put_run(t, 0, WORDS, 0);
    match base {
        1 => put_busy(t),
        2 => {
            put_spread(t);
            program_io::put_run(t, 624, 752, 17);
            program_io::put_run(t, 752, 754, 4294967295);
        }
        3 => {
            put_eights(t, 0);
            program_io::put_run(t, 624, 663, 32);
            program_io::put_run(t, 752, 754, 4294967295);
        }
        4 => put_rings(t),
        5 => {
            put_rings(t);
            program_io::put_run(t, 1010, WORDS, 1);
        }
        _ => {}
    }
}

fn table_case(rt: &impl Print, t: &mut [u32], line: &[u8])
    requires { length t.old ≡ 1522 }
{
    start(t, number(line, 1));
    table::put_word(t, number(line, 2) as usize, number(line, 3));
    report(rt, t, number(line, 4));
}

fn report(rt: &impl Print, t: &[u32], c: u32)
    requires { length t.now ≡ 1522 }
{
    print_sound(rt, t);
    program_io::print_number(rt, b", members ", table::members(t, c) as u64);
    program_io::print_number(rt, b", free context ", table::free_context(t) as u64);
    program_io::print_number(rt, b", free ephemeral ", table::free_ephemeral(t) as u64);
    program_io::print_number(rt, b", ephemerals ", table::used_ephemerals(t) as u64);
}

fn length_case(rt: &impl Print, room: &mut [u32], n: u32) {
    program_io::put_run(room, 0, 1523, 0);
    let e = n as usize;
    if e <= room.len() {
        print_sound(rt, &room[0..e]);
    }
}

// ---- names

// What a name means; of a wildcard, how many its range takes in.
fn name_case(rt: &impl Print, n: &[u8]) {
    match names::name_of(8, n) {
        Name::Termination(i) => program_io::print_number(rt, b": termination ", i as u64),
        Name::Root => program_io::print(rt, b": root"),
        Name::Chosen => program_io::print(rt, b": chosen"),
        Name::Unchosen => program_io::print(rt, b": not to be chosen"),
        Name::Wildcard(w) => program_io::print_number(rt, b": wildcard over ", in_all(w)),
        Name::Unmatched => program_io::print(rt, b": matches nobody"),
        Name::Unknown => program_io::print(rt, b": unknown"),
    }
}

fn in_all(w: Range) -> u64 {
    (0..312).filter(|i| names::in_range(8, w, *i)).count() as u64
}
