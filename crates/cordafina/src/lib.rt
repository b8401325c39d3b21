// The library's face for C: thin functions, each with the promise of the one that it calls. `rt lib` in this crate's folder makes
// the archive that include/cordafina.h declares, out/libcordafina.a.
#![tactic(auto)]

pub mod contexts;
pub mod digit_maps;
pub mod rows;
pub mod speech;

ghost use Rattle.std.specs.Prelude.{◌≡◌};
ghost use Rattle.base.specs.Lists.{lowest_absent};
ghost use Rattle.megaco.specs.Map.{digits, in_use};
ghost use Rattle.megaco.specs.State.{state};
ghost use Rattle.megaco.specs.Room.{room};
ghost use Rattle.megaco.specs.Call.{call, packet};
ghost use Rattle.gateway.specs.Answers.{number_of, Packed, Counted};

use gateway::Refusal;

// An answer as one number: the reply's length in the low 32 bits, the number of the refusal in the high 32, 0 for a call that is taken.
#[tactic(auto, unfolding(gateway::specs::Answers::number_of, gateway::specs::Answers::size_of, gateway::specs::Answers::refusal_of))]
fn number_of(a: Result<usize, Refusal>) -> u64
    ensures { result ≡ number_of a }
{
    match a {
        Ok(n) => n as u64,
        Err(refusal) => 4294967296 * refusal.number() as u64,
    }
}

// The call: the lines fitted, one message, the lent table, the lent room of kept replies (64 words and 33,920 bytes), the lent blocks, the
// gateway's own mId and the lent reply buffer.
#[unsafe(no_mangle)]
pub extern "C" fn cordafina_answer(
    lines: u32,
    message: &[u8],
    table: &mut [u32],
    words: &mut [u32],
    bytes: &mut [u8],
    blocks: &mut [u32],
    own: &[u8],
    reply: &mut [u8],
) -> u64
    ensures { Packed (call lines message.now (state table.old blocks.old) (room words.old bytes.old) own.now reply.old) (state table.new blocks.new) (room words.new bytes.new) reply.new result }
{
    let a = gateway::answer(lines, message, table, blocks, words, bytes, own, reply);
    number_of(a)
}

// A packet of `R/n`, which updates its block: the number of the refusal, or 0.
#[unsafe(no_mangle)]
#[tactic(auto, unfolding(gateway::specs::Answers::packet_answer))]
pub extern "C" fn cordafina_packet(
    lines: u32,
    table: &[u32],
    blocks: &mut [u32],
    n: u32,
    arrival: u32,
    stamp: u32,
) -> u32
    ensures { Counted (packet lines (state table.now blocks.old) n arrival stamp) blocks.new result }
{
    match gateway::packet(lines, table, blocks, n, arrival, stamp) {
        Ok(()) => 0,
        Err(refusal) => refusal.number(),
    }
}

// ---- the map of the ephemerals, given as one number: word 2N + 128 of a table of N terminations is its low half, the next its high half

// The lowest n of an `R/n` that is absent, 0 if there is none.
#[unsafe(no_mangle)]
pub extern "C" fn cordafina_lowest_absent(map: u64) -> u32
    ensures { result ≡ lowest_absent 1 (digits 64 map) }
{
    table::free_in(map)
}

// How many ephemerals are in use.
#[unsafe(no_mangle)]
pub extern "C" fn cordafina_in_use(map: u64) -> u32
    ensures { result ≡ in_use (digits 64 map) }
{
    table::used_in(map)
}
