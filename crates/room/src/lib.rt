// The kept replies in their lent room: 64 words and 33,920 bytes (megaco/specs/Room.antt has the layout). Every function takes any
// slices: past the end stands 0, and nothing is stored there.
#![tactic(auto)]

ghost use Rattle.std.specs.Prelude.{◌≡◌, ◌≢◌, [], ◌∷◌, map, length, get_or, set, take, drop, replicate, true, false, ◌+◌, ◌-◌, ◌≤◌, MatchOption};
ghost use Rattle.base.specs.Lists.{has, every, before};
ghost use Rattle.base.specs.Bytes.{put};
ghost use Rattle.base.specs.Out.{Appended};
ghost use Rattle.megaco.specs.Kept.{under, acked};
ghost use Rattle.megaco.specs.Room.{Room, room, slot_place, slot_id, slot_sender, slot_reply, slot_of, slot_in, slot_fits, slot_good, is_zero, row_good, room_sound, lowest_free, slot_for, lined, noted, stored, drop_in};
ghost use Rattle.room.specs.Keeping.{keep_fitting};
ghost use Rattle.room.specs.Slot.{IsSlot};

use megaco::Ack;
use std::marker::Model;

// What a reply is kept under: the sender's mId and the request's identifier.
#[derive(Clone, Copy)]
pub struct Pair<'a> {
    pub sender: &'a [u8],
    pub id: u32,
}

// The lent room.
#[derive(Drop)]
pub struct Room<'a> {
    words: &'a [u32],
    bytes: &'a [u8],
}

impl<'a> Model for Room<'a> {
    ghost Value = { Room };

    ghost view = { λ r. room r.words.now r.bytes.now };
}

// ---- words and bytes

// The word at a place; past the end stands 0.
fn word_at(words: &[u32], k: usize) -> u32
    ensures { result ≡ get_or words.now k 0 }
{
    words.get(k).copied().unwrap_or(0)
}

// Sets the word at a place; past the end it changes nothing.
#[tactic(auto, using(crate::proofs::RoomLaws::store_past))]
fn set_word(words: &mut [u32], k: usize, v: u32)
    ensures { words.new ≡ set words.old k v }
{
    if k < words.len() {
        words[k] = v;
    }
}

// One more word behind those that were put.
#[tactic(auto, using(base::proofs::OutLaws::byte, base::proofs::OutLaws::full))]
fn put_word(words: &mut [u32], at: usize, v: u32) -> usize
    ensures { Appended words.old at (v ∷ []) words.new result }
{
    if at < words.len() {
        words[at] = v;
        return at + 1;
    }
    at
}

// At most n bytes from a place on.
pub fn part(bytes: &[u8], a: usize, n: usize) -> &[u8]
    ensures { result.now ≡ take n (drop a bytes.now) }
{
    let rest = bytes.get(a..).unwrap_or(&[]);
    rest.get(..n).unwrap_or(rest)
}

// The bytes of a slice into a lent buffer. Where there is room for all, no byte is tested for the buffer's end.
pub fn put_whole(out: &mut [u8], at: usize, s: &[u8]) -> usize
    ensures { Appended out.old at s.now out.new result }
{
    if at <= out.len() && s.len() <= out.len() - at {
        // (`copy_from_slice` wants the C library's memmove.)
        for i in 0..s.len() {
            out[at + i] = s[i];
        }
        return at + s.len();
    }
    writer::put_bytes(out, at, s)
}

// Whether a number stands in a row: each word is looked at, so that the compiler takes several at a time.
fn has_word(row: &[u32], n: u32) -> bool
    ensures { result ≡ has n row.now }
{
    row.iter().fold(false, |found, x| found | (*x == n))
}

// ---- a slot (in the words it is its number, and 0 is none: the layout of what C lends)

// Where the bytes of a slot begin.
#[tactic(auto, unfolding(megaco::specs::Room::slot_place))]
fn slot_place(n: u32) -> usize
    ensures { result ≡ slot_place n }
{
    2120 * n.saturating_sub(1) as usize
}

// Where its reply begins.
#[tactic(auto, unfolding(megaco::specs::Room::slot_place))]
fn reply_place(n: u32) -> usize
    ensures { result ≡ slot_place n + 72 }
{
    slot_place(n) + 72
}

// The first 16 words.
fn row(words: &[u32]) -> &[u32]
    ensures { result.now ≡ take 16 words.now }
{
    words.get(..16).unwrap_or(words)
}

// How many slots hold a reply.
fn held(row: &[u32]) -> usize
    ensures { result ≡ length (before 0 row.now) }
{
    row.iter().position(|n| *n == 0).unwrap_or(row.len())
}

// Whether all words are 0: each is looked at, so that the compiler takes several at a time.
fn all_zero(row: &[u32]) -> bool
    ensures { result ≡ every is_zero row.now }
{
    row.iter().fold(true, |good, n| good & (*n == 0))
}

fn lowest_free(row: &[u32]) -> u32
    ensures { result ≡ lowest_free 16 1 row.now }
{
    for n in 1..17 {
        if !has_word(row, n) {
            return n;
        }
    }
    17
}

impl<'a> Room<'a> {
    pub fn new(words: &'a [u32], bytes: &'a [u8]) -> Room<'a>
        ensures { result ≡ room words.now bytes.now }
    {
        Room { words, bytes }
    }

    // ---- a slot

    #[tactic(auto, unfolding(megaco::specs::Room::slot_id))]
    fn id_of(&self, n: u32) -> u32
        ensures { result ≡ slot_id self.now n }
    {
        word_at(self.words, 15 + n as usize)
    }

    #[tactic(auto, unfolding(megaco::specs::Room::slot_sender))]
    fn sender_of(&self, n: u32) -> &'a [u8]
        ensures { result.now ≡ slot_sender self.now n }
    {
        let k = word_at(self.words, 31 + n as usize);
        part(self.bytes, slot_place(n), k as usize)
    }

    #[tactic(auto, unfolding(megaco::specs::Room::slot_reply))]
    fn reply_of(&self, n: u32) -> &'a [u8]
        ensures { result.now ≡ slot_reply self.now n }
    {
        let k = word_at(self.words, 47 + n as usize);
        part(self.bytes, reply_place(n), k as usize)
    }

    // Whether a slot keeps the reply of a pair.
    #[tactic(auto, unfolding(megaco::specs::Kept::under, base::specs::Pick::pick), using(crate::proofs::RoomLaws::same_is))]
    fn is_under(&self, n: u32, pair: &Pair) -> bool
        ensures { result ≡ under pair.now.sender.now pair.now.id (slot_of self.now n) }
    {
        self.id_of(n) == pair.id && self.sender_of(n) == pair.sender
    }

    // Whether a slot keeps a reply of a sender that an acknowledgement names.
    #[tactic(auto, unfolding(megaco::specs::Kept::acked, base::specs::Pick::pick), using(crate::proofs::RoomLaws::same_is))]
    fn is_acked(&self, n: u32, sender: &[u8], ack: Ack) -> bool
        ensures { result ≡ acked sender.now ack.first ack.last (slot_of self.now n) }
    {
        let id = self.id_of(n);
        ack.first <= id && id <= ack.last && self.sender_of(n) == sender
    }

    // The slot of a row that keeps the reply of a pair.
    fn slot_in(&self, row: &[u32], pair: &Pair) -> Option<u32>
        ensures { IsSlot result (slot_in self.now pair.now.sender.now pair.now.id row.now) }
    {
        for n in row {
            if *n == 0 {
                return None;
            }
            if self.is_under(*n, pair) {
                return Some(*n);
            }
        }
        None
    }

    // ---- refusal 5

    #[tactic(auto, unfolding(megaco::specs::Room::slot_fits))]
    fn slot_fits(&self, n: u32) -> bool
        ensures { result ≡ slot_fits self.now.words n }
    {
        word_at(self.words, 31 + n as usize) <= 72 && word_at(self.words, 47 + n as usize) <= 2048
    }

    // The identifiers of a row's slots, in its order.
    fn ids_of(&self, row: &[u32]) -> [u32; 16]
        requires { length row.now ≡ 16 }
        ensures { result ≡ map (slot_id self.now) row.now }
    {
        let mut ids = [0u32; 16];
        for (i, n) in row.iter().enumerate() {
            ids[i] = self.id_of(*n);
        }
        ids
    }

    // A slot that the row tells, with the row behind it and its identifiers: only where one of these is the same are the senders compared.
    #[tactic(auto, unfolding(megaco::specs::Room::slot_good, base::specs::Pick::pick), using(crate::proofs::RoomLaws::ids_apart))]
    fn slot_good(&self, n: u32, row: &[u32], ids: &[u32]) -> bool
        requires { ids.now ≡ map (slot_id self.now) row.now }
        ensures { result ≡ slot_good self.now n row.now }
    {
        if 16 < n || !self.slot_fits(n) || has_word(row, n) {
            return false;
        }
        let id = self.id_of(n);
        if !has_word(ids, id) {
            return true;
        }
        let pair = Pair {
            sender: self.sender_of(n),
            id,
        };
        self.slot_in(row, &pair).is_none()
    }

    #[tactic(auto, unfolding(megaco::specs::Room::row_good, base::specs::Pick::pick))]
    fn row_good(&self, row: &[u32], ids: &[u32]) -> bool
        requires { ids.now ≡ map (slot_id self.now) row.now }
        ensures { result ≡ row_good self.now row.now }
    {
        let mut row = row;
        let mut ids = ids;
        while let Some((n, others)) = row.split_first() {
            if *n == 0 {
                return all_zero(others);
            }
            let other_ids = &ids[1..];
            if !self.slot_good(*n, others, other_ids) {
                return false;
            }
            row = others;
            ids = other_ids;
        }
        true
    }

    // Whether the room is sound. Where it keeps nothing, the row is 0 and nothing else is looked at.
    #[tactic(auto, unfolding(megaco::specs::Room::room_sound, base::specs::Pick::pick), using(crate::proofs::RoomLaws::row_of_zeros))]
    fn is_sound(&self) -> bool
        ensures { result ≡ room_sound self.now }
    {
        if self.words.len() != 64 || self.bytes.len() != 33920 {
            return false;
        }
        let row = row(self.words);
        if row[0] == 0 {
            return all_zero(row);
        }
        self.row_good(row, &self.ids_of(row))
    }

    // ---- look-up

    // The slot that keeps the reply of a pair.
    pub fn find(&self, pair: &Pair) -> Option<u32>
        ensures { IsSlot result (slot_in self.now pair.now.sender.now pair.now.id (take 16 self.now.words)) }
    {
        self.slot_in(row(self.words), pair)
    }

    // The reply of a slot, into a lent buffer.
    pub fn put_reply(&self, n: u32, out: &mut [u8], at: usize) -> usize
        ensures { Appended out.old at (slot_reply self.now n) out.new result }
    {
        put_whole(out, at, self.reply_of(n))
    }
}

// Whether a lent room is sound.
pub fn is_sound(words: &[u32], bytes: &[u8]) -> bool
    ensures { result ≡ room_sound (room words.now bytes.now) }
{
    Room::new(words, bytes).is_sound()
}

// ---- keep (words and bytes apart: each function but `keep` writes to one of the two)

// The slot for one more reply: the lowest that holds none, or the oldest's.
#[tactic(auto, unfolding(megaco::specs::Room::slot_for, megaco::specs::Room::held_in, base::specs::Pick::pick))]
fn slot_for(words: &[u32]) -> u32
    ensures { result ≡ slot_for words.now }
{
    let row = row(words);
    if 16 <= held(row) {
        return word_at(words, 0);
    }
    lowest_free(row)
}

// The row without its oldest: the others move up. (`copy_within` wants the C library's memmove.)
fn shift(words: &mut [u32])
    requires { 16 ≤ length words.old }
    ensures { Appended words.old 0 (drop 1 (take 16 words.old)) words.new 15 }
{
    let mut p = 0;
    for i in 0..15 {
        let v = word_at(words, i + 1);
        p = put_word(words, p, v);
    }
}

// A slot told last, as the youngest: where there are 16, the others move up.
fn line(words: &mut [u32], n: u32)
    ensures { words.new ≡ lined n words.old }
{
    let k = held(row(words));
    if k < 16 {
        put_word(words, k, n);
    } else {
        shift(words);
        put_word(words, 15, n);
    }
}

#[tactic(auto, unfolding(megaco::specs::Room::noted))]
fn note(words: &mut [u32], n: u32, id: u32, a: u32, b: u32)
    ensures { words.new ≡ noted n id a b words.old }
{
    set_word(words, 15 + n as usize, id);
    set_word(words, 31 + n as usize, a);
    set_word(words, 47 + n as usize, b);
}

#[tactic(auto, unfolding(megaco::specs::Room::stored))]
fn store(bytes: &mut [u8], n: u32, mid: &[u8], reply: &[u8])
    ensures { bytes.new ≡ stored n mid.now reply.now bytes.old }
{
    put_whole(bytes, slot_place(n), mid);
    put_whole(bytes, reply_place(n), reply);
}

// Keeps a reply under a pair; one that is too long for a slot, or whose mId is, changes nothing.
#[tactic(auto, unfolding(crate::specs::Keeping::keep_fitting, megaco::specs::Room::keep_in, megaco::specs::Room::keep_at, base::specs::Pick::pick))]
pub fn keep(words: &mut [u32], bytes: &mut [u8], pair: &Pair, reply: &[u8])
    ensures { room words.new bytes.new ≡ keep_fitting pair.now.sender.now pair.now.id reply.now (room words.old bytes.old) }
{
    if pair.sender.len() <= 72 && reply.len() <= 2048 {
        let n = slot_for(words);
        line(words, n);
        note(
            words,
            n,
            pair.id,
            pair.sender.len() as u32,
            reply.len() as u32,
        );
        store(bytes, n, pair.sender, reply);
    }
}

// ---- drop

// Zeros from a place of the row to its end.
fn clear(words: &mut [u32], at: usize)
    ensures { words.new ≡ put words.old at (replicate (16 - at) 0) }
{
    let end = words.len().min(16);
    if at < end {
        words[at..end].fill(0);
    }
}

// Drops what a sender's acknowledgement names.
pub fn drop_range(words: &mut [u32], bytes: &[u8], sender: &[u8], ack: Ack)
    ensures { room words.new bytes.now ≡ drop_in (acked sender.now ack.first ack.last) (room words.old bytes.now) }
{
    let mut p = 0;
    for i in 0..16 {
        let n = word_at(words, i);
        if n == 0 {
            break;
        }
        if !Room::new(words, bytes).is_acked(n, sender, ack) {
            p = put_word(words, p, n);
        }
    }
    clear(words, p);
}
