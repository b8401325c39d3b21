// Running a message: its verdict, and the transactions and acknowledgements of one that reads, with the kept replies.
#![tactic(auto)]

ghost use Rattle.std.specs.Prelude.{◌≡◌, true, ◌≤◌, length, take, Ok};
ghost use Rattle.megaco.specs.Table.{sound};
ghost use Rattle.megaco.specs.State.{state};
ghost use Rattle.megaco.specs.Room.{room};
ghost use Rattle.megaco.specs.Tree.{request};
ghost use Rattle.megaco.specs.Reading.{message_r, sender_of};
ghost use Rattle.megaco.specs.Transaction.{run_transaction};
ghost use Rattle.megaco.specs.Message.{drop_all, run_part, run_parts, run_message};
ghost use Rattle.read_command.specs.Places.{acks_at};
ghost use Rattle.read_command.specs.Messages.{transaction_of, transaction_end, acknowledgement_end, acks_of, part_of, part_end, header_end, message_of, verdict_of};
ghost use Rattle.action_places.specs.ActionPlaces.{transaction_from, transaction_from_end, sender_here};
ghost use Rattle.reply.specs.Texts.{limited_from};
ghost use Rattle.run_message.specs.Serves.{Serves, Concluded, RanKept};

use action_places::TransactionPlaces;
use read_command::Fault;
use reply::TRANSACTION_ROOM;
use room::{Pair, Room};
use run_action::RanPart;

// How a part of a message was served: the place in the buffer, whether there is a reply, and where the part ends.
// Both places are told with a reply and without one, so neither is an Option's value.
#[derive(Clone, Copy)]
pub struct ServedPart {
    pub next: usize,
    pub told: bool,
    pub end: usize,
}

// The same of a whole message.
#[derive(Clone, Copy)]
pub struct ServedMessage {
    pub next: usize,
    pub told: bool,
}

// ---- a transaction

// A reply of n bytes in a scratch buffer: kept under the pair, and put into the reply buffer.
fn conclude(
    words: &mut [u32],
    bytes: &mut [u8],
    mid: &[u8],
    id: u32,
    scratch: &[u8],
    n: usize,
    out: &mut [u8],
    p: usize,
) -> usize
    ensures { Concluded mid.now id (take n scratch.now) (room words.old bytes.old) out.old p (room words.new bytes.new) out.new result }
{
    let x = room::part(scratch, 0, n);
    room::keep(words, bytes, &Pair { sender: mid, id }, x);
    room::put_whole(out, p, x)
}

// The same, or 533 in its place where it is over 2,048 bytes.
fn conclude_limited(
    words: &mut [u32],
    bytes: &mut [u8],
    mid: &[u8],
    id: u32,
    scratch: &[u8],
    n: usize,
    out: &mut [u8],
    p: usize,
) -> usize
    requires { id ≤ 4294967295 }
    ensures { Concluded mid.now id (limited_from id scratch.now n) (room words.old bytes.old) out.old p (room words.new bytes.new) out.new result }
{
    if n < TRANSACTION_ROOM {
        return conclude(words, bytes, mid, id, scratch, n, out, p);
    }
    let mut short = [0u8; 32];
    let k = reply::put_limited(&mut short, 0, id, scratch, n);
    conclude(words, bytes, mid, id, &short, k, out, p)
}

// A transaction whose parts are found: its table, and its `P=id{..}` of at most 2,048 bytes, kept and put into the reply buffer.
fn run_transaction(
    s: &[u8],
    a: TransactionPlaces,
    mid: &[u8],
    table: &mut [u32],
    blocks: &mut [u32],
    words: &mut [u32],
    bytes: &mut [u8],
    out: &mut [u8],
    p: usize,
) -> RanPart
    requires { (a.id ≤ 4294967295) × (sound table.old ≡ true) }
    ensures { RanKept mid.now a.id (run_transaction (transaction_from s.now a) (state table.old blocks.old)) (room words.old bytes.old) out.old p (state table.new blocks.new) (room words.new bytes.new) out.new result.next × (result.end ≡ transaction_from_end s.now a) }
{
    let id = a.id;
    let body = a.body;
    let mut scratch = [0u8; TRANSACTION_ROOM];
    let n = reply::put_reply_open(&mut scratch, 0, id);
    let m = run_action::run_actions(s, body, table, blocks, &mut scratch, n);
    let e = writer::put_byte(&mut scratch, m.next, 125);
    let q = conclude_limited(words, bytes, mid, id, &scratch, e, out, p);
    let t = m.end;
    RanPart {
        next: q,
        end: action_places::closing_end(s, t),
    }
}

// The request that stands at a place of the message: answered from the room, or run and its reply kept.
fn run_request(
    s: &[u8],
    i: usize,
    mid: &[u8],
    table: &mut [u32],
    blocks: &mut [u32],
    words: &mut [u32],
    bytes: &mut [u8],
    out: &mut [u8],
    p: usize,
) -> RanPart
    requires { (length mid.now ≤ 72) × (sound table.old ≡ true) }
    ensures { Serves (run_part mid.now (request (transaction_of s.now i)) (state table.old blocks.old) (room words.old bytes.old)) out.old p (state table.new blocks.new) (room words.new bytes.new) out.new result.next true × (result.end ≡ transaction_end s.now i) }
{
    let a = action_places::transaction_places(s, i);
    let id = a.id;
    let kept = Room::new(words, bytes);
    let Some(n) = kept.find(&Pair { sender: mid, id }) else {
        return run_transaction(s, a, mid, table, blocks, words, bytes, out, p);
    };
    let q = kept.put_reply(n, out, p);
    RanPart {
        next: q,
        end: action_places::transaction_end(s, i),
    }
}

// ---- an acknowledgement

// Drops what the acknowledgement that stands at a place of the message names; its end.
fn run_acks(s: &[u8], i: usize, mid: &[u8], words: &mut [u32], bytes: &[u8]) -> usize
    ensures { (room words.new bytes.now ≡ drop_all mid.now (acks_of s.now i) (room words.old bytes.now)) × (result ≡ acknowledgement_end s.now i) }
{
    let at = action_places::acks_start(s, i);
    command_places::past_closing(s, drop_acks(s, at, mid, words, bytes))
}

// Drops what is named from a place on; the place behind it.
fn drop_acks(s: &[u8], at: usize, mid: &[u8], words: &mut [u32], bytes: &[u8]) -> usize
    ensures { (room words.new bytes.now ≡ drop_all mid.now (acks_at s.now at).tree (room words.old bytes.now)) × (result ≡ (acks_at s.now at).end) }
{
    let mut i = at;
    for n in 0..s.len() + 1 {
        let a = action_places::ack_places(s, i);
        room::drop_range(words, bytes, mid, a.ack);
        let e = a.end;
        let Some(u) = command_places::next_part(s, e) else {
            return e;
        };
        i = u;
    }
    i
}

// ---- a message

// One of the eight.
fn run_part(
    s: &[u8],
    i: usize,
    mid: &[u8],
    table: &mut [u32],
    blocks: &mut [u32],
    words: &mut [u32],
    bytes: &mut [u8],
    out: &mut [u8],
    p: usize,
) -> ServedPart
    requires { (length mid.now ≤ 72) × (sound table.old ≡ true) }
    ensures { Serves (run_part mid.now (part_of s.now i) (state table.old blocks.old) (room words.old bytes.old)) out.old p (state table.new blocks.new) (room words.new bytes.new) out.new result.next result.told × (result.end ≡ part_end s.now i) }
{
    if action_places::is_acknowledgement(s, i) {
        let e = run_acks(s, i, mid, words, bytes);
        return ServedPart {
            next: p,
            told: false,
            end: e,
        };
    }
    let m = run_request(s, i, mid, table, blocks, words, bytes, out, p);
    ServedPart {
        next: m.next,
        told: true,
        end: m.end,
    }
}

// The transactions and acknowledgements of a message that reads, in order, from the header's end on.
fn run_all(
    s: &[u8],
    at: usize,
    mid: &[u8],
    table: &mut [u32],
    blocks: &mut [u32],
    words: &mut [u32],
    bytes: &mut [u8],
    out: &mut [u8],
    p: usize,
) -> ServedMessage
    requires { (at ≡ header_end s.now) × (length mid.now ≤ 72) × (sound table.old ≡ true) }
    ensures { Serves (run_parts mid.now (message_of s.now) (state table.old blocks.old) (room words.old bytes.old)) out.old p (state table.new blocks.new) (room words.new bytes.new) out.new result.next result.told }
{
    let mut i = at;
    let mut q = p;
    let mut told = false;
    for n in 0..8usize {
        let m = run_part(s, i, mid, table, blocks, words, bytes, out, q);
        q = m.next;
        told = told | m.told;
        if s.len() <= m.end {
            return ServedMessage {
                next: q,
                told: told,
            };
        }
        i = m.end;
    }
    ServedMessage {
        next: q,
        told: told,
    }
}

// A message that reads.
fn run_read(
    s: &[u8],
    table: &mut [u32],
    blocks: &mut [u32],
    words: &mut [u32],
    bytes: &mut [u8],
    out: &mut [u8],
    p: usize,
) -> ServedMessage
    requires { (verdict_of (message_r s.now) ≡ Ok tt) × (sound table.old ≡ true) }
    ensures { Serves (run_parts (sender_here s.now) (message_of s.now) (state table.old blocks.old) (room words.old bytes.old)) out.old p (state table.new blocks.new) (room words.new bytes.new) out.new result.next result.told }
{
    let m = action_places::sender_piece(s);
    let a = m.from;
    let e = m.to;
    let i = command_places::end_of(text::sep(s, e));
    run_all(s, i, &s[a..e], table, blocks, words, bytes, out, p)
}

// A message, read whole before anything runs.
#[tactic(auto, using(crate::proofs::SenderLaws::reads))]
pub fn run_message(
    s: &[u8],
    table: &mut [u32],
    blocks: &mut [u32],
    words: &mut [u32],
    bytes: &mut [u8],
    out: &mut [u8],
    p: usize,
) -> ServedMessage
    requires { sound table.old ≡ true }
    ensures { Serves (run_message (sender_of s.now) (message_r s.now) (state table.old blocks.old) (room words.old bytes.old)) out.old p (state table.new blocks.new) (room words.new bytes.new) out.new result.next result.told }
{
    match read_message::verdict(s) {
        Ok(()) => run_read(s, table, blocks, words, bytes, out, p),
        Err(Fault::Fault400) => answer_fault(report::put_error(out, p, 400)),
        Err(Fault::Fault403(id)) => answer_fault(reply::put_fault403(out, p, id)),
        Err(Fault::WrongVersion406) => answer_fault(report::put_error(out, p, 406)),
    }
}

// A reply that ends here.
fn answer_fault(p: usize) -> ServedMessage
    ensures { (result.next ≡ p) × (result.told ≡ true) }
{
    ServedMessage {
        next: p,
        told: true,
    }
}
