// RTP statistics: a block after a packet (RFC 1889 A.8, integer form), and the 64 blocks in the lent words, four a block.
#![tactic(auto)]

ghost use Rattle.std.specs.Prelude.{◌≡◌, ◌^◌, ◌≤◌, length};
ghost use Rattle.megaco.specs.Blocks.{block_at, with_block, cleared, difference, size_of, jitter_after, one_more, updated, reported, block_is_sound, sound_from, blocks_are_sound};
ghost use Rattle.megaco.specs.Attempt.{renews};
ghost use Rattle.megaco.specs.Call.{is_present};

use megaco::{Block, Op};
use table::EPHEMERALS;

// The words of all blocks.
pub const BLOCK_WORDS: usize = 4 * EPHEMERALS as usize;

// How many blocks are looked at together: so many that the loop over them stays a loop, and the test for 0 takes several words at a time.
const TOGETHER: usize = 16;

// A block that has counted no packet.
const NO_PACKETS: Block = Block {
    packets: 0,
    transit: 0,
    jitter: 0,
};

// ---- a packet

// The difference of two times, modulo 2^32.
#[tactic(auto, using(crate::proofs::BlockLaws::apart))]
fn difference(a: u32, b: u32) -> u32
    ensures { result ≡ difference a b }
{
    a.wrapping_sub(b)
}

// The size of a difference read as signed.
#[tactic(auto, using(crate::proofs::BlockLaws::size_small, crate::proofs::BlockLaws::size_large, std::proofs::Common::arith, std::proofs::Common::rules))]
fn size_of(d: u32) -> u32
    ensures { result ≡ size_of d }
{
    if d < 2147483648 {
        return d;
    }
    4294967295 - d + 1
}

// The jitter after a difference of size d.
#[tactic(auto, using(std::proofs::Common::refl, std::proofs::Common::rules), unfolding(megaco::specs::Blocks::jitter_after))]
fn jitter_after(j: u64, d: u32) -> u64
    requires { j ≤ 2 ^ 35 }
    ensures { result ≡ jitter_after j d }
{
    j + (d as u64) - (j + 8) / 16
}

// One more packet, as far as they are counted.
#[tactic(auto, using(crate::proofs::BlockLaws::one_more_held))]
fn one_more(packets: u32) -> u32
    ensures { result ≡ one_more packets }
{
    packets.saturating_add(1)
}

// The figures after a packet.
#[tactic(auto, using(crate::proofs::BlockLaws::stays, crate::proofs::BlockLaws::first, crate::proofs::BlockLaws::next))]
fn updated(x: Block, arrival: u32, stamp: u32) -> Block
    ensures { result ≡ updated x arrival stamp }
{
    if 34359738368 < x.jitter {
        return x;
    }
    let t = difference(arrival, stamp);
    if x.packets == 0 {
        return Block {
            packets: 1,
            transit: t,
            jitter: 0,
        };
    }
    let d = size_of(difference(t, x.transit));
    Block {
        packets: one_more(x.packets),
        transit: t,
        jitter: jitter_after(x.jitter, d),
    }
}

// A lent block, after a packet.
pub fn update(block: &mut Block, arrival: u32, stamp: u32)
    ensures { block.new ≡ updated block.old arrival stamp }
{
    *block = updated(*block, arrival, stamp);
}

// A block by value after a packet: it is lent to `update`.
fn after_packet(x: Block, arrival: u32, stamp: u32) -> Block
    ensures { result ≡ updated x arrival stamp }
{
    let mut y = x;
    update(&mut y, arrival, stamp);
    y
}

// ---- blocks in the lent words

// Block k; past the end all figures are 0.
#[tactic(auto, using(crate::proofs::BlockLaws::block_read, crate::proofs::BlockLaws::block_past, std::proofs::Common::rules))]
pub fn block_at(blocks: &[u32], k: usize) -> Block
    ensures { result ≡ block_at k blocks.now }
{
    if k < blocks.len() {
        let low = table::word_at(blocks, 4 * k + 2);
        let high = table::word_at(blocks, 4 * k + 3);
        return Block {
            packets: table::word_at(blocks, 4 * k),
            transit: table::word_at(blocks, 4 * k + 1),
            jitter: low as u64 + 4294967296 * high as u64,
        };
    }
    NO_PACKETS
}

// Sets block k; past the end it changes nothing.
#[tactic(auto, using(crate::proofs::BlockLaws::block_put, crate::proofs::BlockLaws::block_beyond, std::proofs::Common::rules))]
pub fn put_block(blocks: &mut [u32], k: usize, x: Block)
    ensures { blocks.new ≡ with_block k x blocks.old }
{
    if k < blocks.len() {
        table::put_word(blocks, 4 * k, x.packets);
        table::put_word(blocks, 4 * k + 1, x.transit);
        table::put_word(blocks, 4 * k + 2, (x.jitter % 4294967296) as u32);
        table::put_word(blocks, 4 * k + 3, (x.jitter / 4294967296) as u32);
    }
}

// Block k after a packet: read, lent to `update`, put back.
#[tactic(auto, using(crate::proofs::BlockLaws::packet_counted, std::proofs::Common::rules))]
pub fn count_packet(blocks: &mut [u32], k: usize, arrival: u32, stamp: u32)
    ensures { blocks.new ≡ with_block k (updated (block_at k blocks.old) arrival stamp) blocks.old }
{
    let x = block_at(blocks, k);
    let y = after_packet(x, arrival, stamp);
    put_block(blocks, k, y);
}

// A new ephemeral starts at zero: what an attempt that is done does to the blocks.
#[tactic(auto, using(crate::proofs::BlockLaws::first_below, crate::proofs::BlockLaws::renewed_one, crate::proofs::BlockLaws::renewed_none, std::proofs::Common::rules))]
pub fn renew(blocks: &mut [u32], op: Op, lines: u32, i: usize)
    ensures { blocks.new ≡ cleared (renews op lines i) blocks.old }
{
    let first = table::line_terminations(lines);
    if op.is_add() & (first <= i) {
        put_block(blocks, i - first, NO_PACKETS);
    }
}

// The jitter that is reported.
#[tactic(auto, using(std::proofs::Common::refl), unfolding(megaco::specs::Blocks::reported))]
pub fn reported(x: Block) -> u64
    ensures { result ≡ reported x }
{
    x.jitter / 16
}

// ---- the ephemeral

// Whether `R/n` is one of 64 and exists.
#[tactic(auto, using(crate::proofs::BlockLaws::above_none, crate::proofs::BlockLaws::is_there, crate::proofs::BlockLaws::not_one, std::proofs::Common::rules))]
pub fn is_present(lines: u32, n: u32, table: &[u32]) -> bool
    ensures { result ≡ is_present lines n table.now }
{
    if (0 < n) & (n <= EPHEMERALS) {
        let i = table::line_terminations(lines) + (n as usize - 1);
        return table::context_of(table, i) != 0;
    }
    false
}

// ---- soundness

#[tactic(auto, using(crate::proofs::BlockLaws::block_tested))]
fn is_block_sound(x: Block) -> bool
    ensures { result ≡ block_is_sound x }
{
    (x.jitter <= 34359738368) & ((x.packets != 0) | ((x.transit == 0) & (x.jitter == 0)))
}

// Sixteen blocks from block k on: most often none has counted a packet, and zeros are sound.
#[tactic(auto, using(crate::proofs::BlockLaws::sixteen_begins, crate::proofs::BlockLaws::sixteen_quiet, crate::proofs::BlockLaws::sound_on, crate::proofs::BlockLaws::sound_stops, crate::proofs::BlockLaws::sound_ends))]
fn are_sound(blocks: &[u32], k: usize) -> bool
    requires { (length blocks.now ≡ 256) × (k ≤ 48) }
    ensures { result ≡ sound_from 16 k blocks.now }
{
    let a = 4 * k;
    let first = sound::is_zero(&blocks[a..a + 32]);
    let second = sound::is_zero(&blocks[a + 32..a + 64]);
    if first & second {
        return true;
    }
    for i in 0..TOGETHER {
        if !is_block_sound(block_at(blocks, k + i)) {
            return false;
        }
    }
    true
}

// 64 blocks, each one sound.
#[tactic(auto, using(crate::proofs::BlockLaws::wrong_size, crate::proofs::BlockLaws::sound_begins, crate::proofs::BlockLaws::sixteen_on, crate::proofs::BlockLaws::sixteen_stops, crate::proofs::BlockLaws::sixteen_ends))]
pub fn is_sound(blocks: &[u32]) -> bool
    ensures { result ≡ blocks_are_sound blocks.now }
{
    if blocks.len() != BLOCK_WORDS {
        return false;
    }
    for g in 0..EPHEMERALS as usize / TOGETHER {
        if !are_sound(blocks, TOGETHER * g) {
            return false;
        }
    }
    true
}
