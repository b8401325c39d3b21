// The call: the lines fitted, one message, a lent table, lent blocks, the lent room of kept replies, the gateway's own mId and a lent reply buffer; and a packet of an
// ephemeral.
#![tactic(auto)]

ghost use Rattle.std.specs.Prelude.{◌≡◌, true, ◌-◌, ◌≤◌, length};
ghost use Rattle.megaco.specs.Table.{words, most_lines, sound};
ghost use Rattle.megaco.specs.State.{state};
ghost use Rattle.megaco.specs.Room.{room, room_sound};
ghost use Rattle.megaco.specs.Names.{within};
ghost use Rattle.megaco.specs.Call.{state_fits, taken, call, packet};
ghost use Rattle.gateway.specs.Answers.{refusal_number, packet_refusal, packet_answer, Answered, Replied, Counted};

// Document 01's limits: the longest message, the shortest reply buffer.
pub const LONGEST_MESSAGE: usize = 4096;

pub const REPLY_ROOM: usize = 16640;

// Why a call was turned down.
#[derive(Clone, Copy, Debug, PartialEq, Eq)]
pub enum Refusal {
    MessageUnfit,
    TableUnsound,
    ReplyTooShort,
    MidUnfit,
    RoomUnsound,
    LinesUnfit,
}

impl Refusal {
    // The number of a refusal.
    #[tactic(auto, unfolding(crate::specs::Answers::refusal_number))]
    pub fn number(self) -> u32
        ensures { result ≡ refusal_number self }
    {
        match self {
            Refusal::MessageUnfit => 1,
            Refusal::TableUnsound => 2,
            Refusal::ReplyTooShort => 3,
            Refusal::MidUnfit => 4,
            Refusal::RoomUnsound => 5,
            Refusal::LinesUnfit => 8,
        }
    }
}

// Why a packet was turned down.
#[derive(Clone, Copy, Debug, PartialEq, Eq)]
pub enum PacketRefusal {
    TableUnsound,
    LinesUnfit,
    EphemeralAbsent,
}

impl PacketRefusal {
    // The number of a packet's refusal.
    #[tactic(auto, unfolding(crate::specs::Answers::packet_refusal))]
    pub fn number(self) -> u32
        ensures { result ≡ packet_refusal self }
    {
        match self {
            PacketRefusal::TableUnsound => 2,
            PacketRefusal::LinesUnfit => 8,
            PacketRefusal::EphemeralAbsent => 9,
        }
    }
}

// Reads the message, runs it on the table and the blocks with the kept replies and writes the reply from the start of the buffer. A call that
// is turned down changes none of these.
pub fn answer(
    lines: u32,
    message: &[u8],
    table: &mut [u32],
    blocks: &mut [u32],
    words: &mut [u32],
    bytes: &mut [u8],
    own: &[u8],
    reply: &mut [u8],
) -> Result<usize, Refusal>
    ensures { Answered (call lines message.now (state table.old blocks.old) (room words.old bytes.old) own.now reply.old) (state table.new blocks.new) (room words.new bytes.new) reply.new result }
{
    if table::are_fitted(lines) {
        return answer_fitted(lines, message, table, blocks, words, bytes, own, reply);
    }
    Err(Refusal::LinesUnfit)
}

// Whether the table is of so many lines, and both it and the blocks are sound.
fn state_fits(lines: u32, table: &[u32], blocks: &[u32]) -> bool
    ensures { result ≡ state_fits lines (state table.now blocks.now) }
{
    let n = table::words_of(lines);
    if table.len() == n {
        return sound::is_sound(table) & statistics::is_sound(blocks);
    }
    false
}

// A call with a good count of lines.
#[tactic(auto, using(crate::proofs::CallLaws::short_reply, crate::proofs::CallLaws::unfit_state, crate::proofs::CallLaws::unsound_room, crate::proofs::CallLaws::unfit_mid, crate::proofs::CallLaws::unfit_message, crate::proofs::CallLaws::is_taken))]
fn answer_fitted(
    lines: u32,
    message: &[u8],
    table: &mut [u32],
    blocks: &mut [u32],
    words: &mut [u32],
    bytes: &mut [u8],
    own: &[u8],
    reply: &mut [u8],
) -> Result<usize, Refusal>
    requires { within lines most_lines ≡ true }
    ensures { Answered (call lines message.now (state table.old blocks.old) (room words.old bytes.old) own.now reply.old) (state table.new blocks.new) (room words.new bytes.new) reply.new result }
{
    if reply.len() < REPLY_ROOM {
        return Err(Refusal::ReplyTooShort);
    }
    if !state_fits(lines, table, blocks) {
        return Err(Refusal::TableUnsound);
    }
    if !room::is_sound(words, bytes) {
        return Err(Refusal::RoomUnsound);
    }
    if !tokens::is_mid(own) {
        return Err(Refusal::MidUnfit);
    }
    if message.is_empty() | (LONGEST_MESSAGE < message.len()) {
        return Err(Refusal::MessageUnfit);
    }
    Ok(serve(message, table, blocks, words, bytes, own, reply))
}

// A message that is taken: the reply's length. The header is written last, since a message of acknowledgements alone has no reply.
fn serve(
    message: &[u8],
    table: &mut [u32],
    blocks: &mut [u32],
    words: &mut [u32],
    bytes: &mut [u8],
    own: &[u8],
    reply: &mut [u8],
) -> usize
    requires { (sound table.old ≡ true) × (room_sound (room words.old bytes.old) ≡ true) × (length own.now ≤ 64) × (16640 ≤ length reply.old) }
    ensures { Replied (taken message.now (state table.old blocks.old) (room words.old bytes.old) own.now reply.old) (state table.new blocks.new) (room words.new bytes.new) reply.new result }
{
    let m = run_message::run_message(message, table, blocks, words, bytes, reply, own.len() + 5);
    if m.told {
        reply::put_header(reply, 0, own);
        return m.next;
    }
    0
}

// ---- a packet

// The number of a block, from 0 on.
fn block_number(n: u32) -> usize
    ensures { result ≡ n - 1 }
{
    if n == 0 { 0 } else { n as usize - 1 }
}

// A packet with a good count of lines.
#[tactic(auto, using(crate::proofs::CallLaws::packet_2, crate::proofs::CallLaws::packet_9, crate::proofs::CallLaws::packet_counts), unfolding(crate::specs::Answers::packet_answer, crate::specs::Answers::packet_refusal))]
fn packet_fitted(
    lines: u32,
    table: &[u32],
    blocks: &mut [u32],
    n: u32,
    arrival: u32,
    stamp: u32,
) -> Result<(), PacketRefusal>
    requires { within lines most_lines ≡ true }
    ensures { Counted (packet lines (state table.now blocks.old) n arrival stamp) blocks.new (packet_answer result) }
{
    if !state_fits(lines, table, blocks) {
        return Err(PacketRefusal::TableUnsound);
    }
    if !statistics::is_present(lines, n, table) {
        return Err(PacketRefusal::EphemeralAbsent);
    }
    statistics::count_packet(blocks, block_number(n), arrival, stamp);
    Ok(())
}

// A packet of `R/n` that came at `arrival` with the RTP time `stamp`: its block is updated. A packet that is turned down changes nothing.
#[tactic(auto, using(crate::proofs::CallLaws::packet_8), unfolding(crate::specs::Answers::packet_answer, crate::specs::Answers::packet_refusal))]
pub fn packet(
    lines: u32,
    table: &[u32],
    blocks: &mut [u32],
    n: u32,
    arrival: u32,
    stamp: u32,
) -> Result<(), PacketRefusal>
    ensures { Counted (packet lines (state table.now blocks.old) n arrival stamp) blocks.new (packet_answer result) }
{
    if !table::are_fitted(lines) {
        return Err(PacketRefusal::LinesUnfit);
    }
    packet_fitted(lines, table, blocks, n, arrival, stamp)
}
