// The listing program: one message per line of standard input, from a fresh table, blocks that have had no packet and an empty room. For each line it prints the reply or
// `refused 1`, and at the end of the input the contexts.
#![tactic(auto)]

ghost use Rattle.std.specs.Prelude.{◌≤◌, ◌<◌, ◌≡◌, length, take};
ghost use Rattle.std.specs.Option.{unwrap_or};
ghost use Rattle.base.specs.Lists.{before};
ghost use Rattle.sessions.specs.Lines.{line_end};
ghost use Rattle.sessions.specs.Session.{Lent, lent, between, taken_in, line_room, Answers, Turned, Took, Input, Finished, answer_room};

use gateway::{LONGEST_MESSAGE, REPLY_ROOM};
use statistics::BLOCK_WORDS;
use std::io::Read;
use std::marker::Model;
use table::{LINE, NO_LINES};

// The lines fitted, and the words of their table.
const LINES: u32 = 8;

const WORDS: usize = NO_LINES + LINES as usize * LINE;

// The room of kept replies.
const ROOM_WORDS: usize = 64;

const ROOM_BYTES: usize = 33920;

// A line that is longer than a message shows by one byte more; a reply has its line end behind it.
const LINE_ROOM: usize = LONGEST_MESSAGE + 1;

const REPLY_LINE_ROOM: usize = REPLY_ROOM + 1;

// What is lent from line to line.
#[derive(Drop)]
struct Lent {
    table: [u32; WORDS],
    blocks: [u32; BLOCK_WORDS],
    words: [u32; ROOM_WORDS],
    bytes: [u8; ROOM_BYTES],
}

impl Model for Lent {
    ghost Value = { Lent };

    ghost view = { λ l. lent l.table l.blocks l.words l.bytes };
}

// The first bytes of a line that has not ended, and how many are held.
#[derive(Drop)]
struct Line {
    bytes: [u8; LINE_ROOM],
    held: usize,
    ghost within: { held ≤ line_room },
    ghost unended: { before line_end (take held bytes) ≡ take held bytes },
}

// After a turn: the place in the chunk where the next one starts, and the bytes of the answer, if the line ended.
#[derive(Clone, Copy)]
struct ChunkTurn {
    next: usize,
    answer: Option<usize>,
}

impl Lent {
    // The answer to one line, with its line end.
    fn answer_line(&mut self, message: &[u8], out: &mut [u8]) -> usize
        requires { answer_room ≤ length out.old }
        ensures { Answers message.now self.old out.old self.new out.new result }
    {
        let a = gateway::answer(
            LINES,
            message,
            &mut self.table,
            &mut self.blocks,
            &mut self.words,
            &mut self.bytes,
            b"[10.0.0.9]",
            out,
        );
        match a {
            Ok(n) => sessions::put_line_end(out, n),
            Err(refusal) => sessions::put_refused(out, 0, refusal.number()),
        }
    }
}

// Takes the line at a place of a chunk, as far as the chunk has it, and answers it if it ends there.
fn take_turn(
    chunk: &[u8],
    from: usize,
    line: &mut Line,
    lent: &mut Lent,
    out: &mut [u8],
) -> ChunkTurn
    requires from_in_bounds { from < length chunk.now }
    requires answer_fits { answer_room ≤ length out.old }
    ensures { Turned chunk.now from line.old.bytes line.old.held lent.old out.old line.new.bytes lent.new out.new result.next line.new.held (unwrap_or result.answer 0) }
{
    let e = sessions::line_end(chunk, from);
    let h = sessions::take_part(chunk, from, &mut line.bytes, line.held);
    if e < chunk.len() {
        let n = lent.answer_line(&line.bytes[..h], out);
        line.held = 0;
        return ChunkTurn {
            next: e + 1,
            answer: Some(n),
        };
    }
    line.held = h;
    ChunkTurn {
        next: e,
        answer: None,
    }
}

// Prints the answers to the lines that end in a chunk. That they are printed, and where, no promise says: the kit's `write_all` makes none.
fn take_chunk(rt: &impl Print, chunk: &[u8], line: &mut Line, lent: &mut Lent, out: &mut [u8])
    requires { answer_room ≤ length out.old }
    ensures { taken_in (take line.old.held line.old.bytes) lent.old chunk.now ≡ between (take line.new.held line.new.bytes) lent.new }
{
    let mut from = 0;
    while from < chunk.len() {
        let turn = take_turn(chunk, from, line, lent, out);
        if let Some(n) = turn.answer {
            let _ = rt.write_all(&out[..n]);
        }
        from = turn.next;
    }
}

// Reads once, and takes what came; whether the input may go on. A read that fails ends the input. What is read is whatever the reader gives:
// nothing is assumed of it.
fn take_some<R: Read>(
    rt: &impl Print,
    input: &mut R,
    line: &mut Line,
    lent: &mut Lent,
    out: &mut [u8],
) -> bool
    requires { answer_room ≤ length out.old }
    ensures { Took line.old.bytes line.old.held lent.old line.new.bytes lent.new result line.new.held }
{
    let mut chunk = [0u8; 65536];
    let n = input.read(&mut chunk).unwrap_or(0);
    take_chunk(rt, &chunk[..n], line, lent, out);
    n != 0
}

// Takes the whole input. A proved loop has to end, and nothing says that an input does: so the turns are counted, up to a number that no
// run comes to.
fn take_input<R: Read>(
    rt: &impl Print,
    input: &mut R,
    line: &mut Line,
    lent: &mut Lent,
    out: &mut [u8],
)
    requires none_held { line.old.held ≡ 0 }
    requires answer_fits { answer_room ≤ length out.old }
    ensures { Input lent.old line.new.bytes lent.new line.new.held }
{
    for _ in 0..u64::MAX {
        if !take_some(rt, input, line, lent, out) {
            return;
        }
    }
}

// Answers a last line that has no line end, if it has a byte.
fn finish_line(line: &Line, lent: &mut Lent, out: &mut [u8]) -> usize
    requires { answer_room ≤ length out.old }
    ensures { Finished line.now.bytes line.now.held lent.old out.old lent.new out.new result }
{
    if line.held == 0 {
        return 0;
    }
    lent.answer_line(&line.bytes[..line.held], out)
}

// Moves bytes: what it prints was put into `out` by the functions above and by crate sessions. Output that can't be written is lost.
fn main(rt: HostRuntime) {
    let mut lent = Lent {
        table: [0; WORDS],
        blocks: [0; BLOCK_WORDS],
        words: [0; ROOM_WORDS],
        bytes: [0; ROOM_BYTES],
    };
    let mut line = Line {
        bytes: [0; LINE_ROOM],
        held: 0,
    };
    let mut out = [0u8; REPLY_LINE_ROOM];
    take_input(&rt, &mut rt.stdin(), &mut line, &mut lent, &mut out);
    let n = finish_line(&line, &mut lent, &mut out);
    let _ = rt.write_all(&out[..n]);
    let k = sessions::put_contexts(&mut out, 0, LINES, &lent.table);
    let _ = rt.write_all(&out[..k]);
}
