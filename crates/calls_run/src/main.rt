// Recorded calls. The input has for each call a line of 72 bytes (twelve numbers of five digits: the bytes of the gateway's own mId,
// the bytes of the message, the runs of words that are not 0, the count of lines, the words of the table, the bytes of the reply buffer, the
// words and the bytes of the room, the runs put into the room's words, 1 where the room is first emptied, the runs of words of blocks, the
// words of the blocks), then the mId, the message, the runs of the table, of the room and of the blocks (21 bytes each: from, to, word) and
// a line end. The room stays from call to call. Each call has one line of output: its number, the refusal or the reply's length and its
// bytes, the sums of the table, of the blocks, of the whole buffer, of the room's words and of its bytes. tools/call_cases.py writes the
// input and the output.
#![tactic(auto)]

ghost use Rattle.std.specs.Prelude.{◌<◌};

use gateway::Refusal;
use std::io::Read;

// What the calls are lent.
#[derive(Drop)]
struct Lent {
    table: [u32; 2100],
    blocks: [u32; 300],
    reply: [u8; 20000],
    words: [u32; 80],
    bytes: [u8; 34000],
}

// A call, and how much of each slice it is lent.
#[derive(Clone, Copy)]
struct Call<'a> {
    lines: u32,
    own: &'a [u8],
    message: &'a [u8],
    table_runs: &'a [u8],
    room_runs: &'a [u8],
    block_runs: &'a [u8],
    is_emptied: bool,
    table: usize,
    blocks: usize,
    reply: usize,
    words: usize,
    bytes: usize,
}

fn main(rt: HostRuntime) {
    let mut source = rt.stdin();
    let mut input = [0u8; 65536];
    let mut lent = Lent {
        table: [0; 2100],
        blocks: [0; 300],
        reply: [0; 20000],
        words: [0; 80],
        bytes: [0; 34000],
    };
    run(&rt, &mut source, &mut input, &mut lent);
}

// Nothing says that the input ends, so the numbers of the calls end.
fn run<R: Read>(rt: &impl Print, source: &mut R, input: &mut [u8], lent: &mut Lent) {
    for k in 1..1000000 {
        if !one(rt, source, k, input, lent) {
            return;
        }
    }
}

// Reads one call and prints its line; whether there was one.
fn one<R: Read>(
    rt: &impl Print,
    source: &mut R,
    k: u64,
    input: &mut [u8],
    lent: &mut Lent,
) -> bool {
    let mut head = [0u8; 72];
    if program_io::read_full(source, &mut head) < 72 {
        return false;
    }
    let own = number_at(&head, 0);
    let message = number_at(&head, 6);
    let runs = number_at(&head, 12) * 21;
    let kept = number_at(&head, 48) * 21;
    let figures = number_at(&head, 60) * 21;
    let e = own + message + runs + kept + figures + 1;
    if input.len() < e || program_io::read_full(source, &mut input[..e]) < e {
        return false;
    }
    let (own, rest) = input.split_at(own);
    let (message, rest) = rest.split_at(message);
    let (table_runs, rest) = rest.split_at(runs);
    let (room_runs, rest) = rest.split_at(kept);
    let call = Call {
        lines: number_at(&head, 18) as u32,
        own,
        message,
        table_runs,
        room_runs,
        block_runs: &rest[..figures],
        is_emptied: number_at(&head, 54) == 1,
        table: number_at(&head, 24),
        blocks: number_at(&head, 66),
        reply: number_at(&head, 30),
        words: number_at(&head, 36),
        bytes: number_at(&head, 42),
    };
    make(
        rt,
        k,
        &call,
        &mut lent.table,
        &mut lent.blocks,
        &mut lent.reply,
        &mut lent.words,
        &mut lent.bytes,
    );
    true
}

// The number of five digits that begins at a place.
fn number_at(head: &[u8], at: usize) -> usize
    ensures { result < 100000 }
{
    program_io::number(head.get(at..).unwrap_or(&[]))
}

// Makes a call with as much of each slice as it is lent, and prints its line. The room is as the last call left it, or first emptied.
// (No method of `Lent`: parts of several fields behind one reference are not lent at once, the borrow checker doesn't cover it.)
fn make(
    rt: &impl Print,
    k: u64,
    call: &Call,
    table: &mut [u32],
    blocks: &mut [u32],
    reply: &mut [u8],
    words: &mut [u32],
    bytes: &mut [u8],
) {
    if table.len() < call.table
        || blocks.len() < call.blocks
        || reply.len() < call.reply
        || words.len() < call.words
        || bytes.len() < call.bytes
    {
        return;
    }
    let table = &mut table[..call.table];
    let blocks = &mut blocks[..call.blocks];
    let reply = &mut reply[..call.reply];
    let words = &mut words[..call.words];
    let bytes = &mut bytes[..call.bytes];
    set_words(table, call.table_runs);
    set_words(blocks, call.block_runs);
    reply.fill(170);
    if call.is_emptied {
        words.fill(0);
        bytes.fill(0);
    }
    put_runs(words, call.room_runs);
    let outcome = gateway::answer(
        call.lines,
        call.message,
        table,
        blocks,
        words,
        bytes,
        call.own,
        reply,
    );
    print_outcome(rt, k, outcome, reply);
    let _ = println!(rt;
        " {} {} {} {} {}",
        sum(table),
        sum(blocks),
        sum(reply),
        sum(words),
        sum(bytes)
    );
}

// ---- what is lent

// Zeros, and the words of the runs.
fn set_words(table: &mut [u32], runs: &[u8]) {
    table.fill(0);
    put_runs(table, runs);
}

fn put_runs(table: &mut [u32], runs: &[u8]) {
    for run in runs.chunks_exact(21) {
        program_io::put_run(
            table,
            number_at(run, 0),
            number_at(run, 5),
            word(number_at(run, 10), number_at(run, 15)),
        );
    }
}

// The word that ten digits write, five and five.
fn word(high: usize, low: usize) -> u32
    requires { (high < 100000) × (low < 100000) }
{
    ((high * 100000 + low) % 4294967296) as u32
}

// ---- sums

// The sum of some numbers: their places count.
fn sum<T: Copy + Into<u32>>(numbers: &[T]) -> u32 {
    numbers.iter().fold(
        1u32,
        |sum, n| sum.wrapping_mul(65599).wrapping_add((*n).into()),
    )
}

// ---- writing

fn print_outcome(rt: &impl Print, k: u64, a: Result<usize, Refusal>, reply: &[u8]) {
    program_io::print_number(rt, b"", k);
    match a {
        Ok(n) => print_reply(rt, reply, n),
        Err(refusal) => program_io::print_number(rt, b" refused ", refusal.number() as u64),
    }
}

fn print_reply(rt: &impl Print, reply: &[u8], n: usize) {
    program_io::print_number(rt, b" taken ", n as u64);
    program_io::print(rt, b" ");
    program_io::print(rt, reply.get(..n).unwrap_or(&[]));
}
