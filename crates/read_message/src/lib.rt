// Reading a whole message: the verdict. Nothing but the message is touched.
#![tactic(auto)]

ghost use Rattle.std.specs.Prelude.{◌≡◌};
ghost use Rattle.megaco.specs.Reading.{identifier_from, start_at, sender_at, message_r};
ghost use Rattle.megaco.specs.Tokens.{at_least};
ghost use Rattle.read_command.specs.Places.{braced_at, range_at, ack_at, acks_at, acknowledgement_at};
ghost use Rattle.read_command.specs.Messages.{brace_at, transaction_at, identifier_at, part_at, transactions_at, protocol_at, version_at, verdict_of};

use megaco::Token;
use read_command::Fault;

// ---- acknowledgements

// A number that is not below another.
#[tactic(auto, unfolding(megaco::specs::Tokens::at_least, base::specs::Pick::pick))]
fn at_least(low: u32, n: Option<(u32, usize)>) -> Option<(u32, usize)>
    ensures { result ≡ at_least low n }
{
    let (value, next) = n?;
    if low <= value {
        return Some((value, next));
    }
    None
}

// An identifier from a lowest one on.
#[tactic(auto, unfolding(megaco::specs::Reading::identifier_from))]
pub fn identifier_from(s: &[u8], at: usize, low: u32) -> Option<(u32, usize)>
    ensures { result ≡ identifier_from low s.now at }
{
    at_least(low, tokens::number(s, at, 10, 4294967295))
}

// An identifier, or a first and a last with `-` between.
#[tactic(auto, using(text::proofs::TextLaws::next_fits), unfolding(read_command::specs::Places::range_at, megaco::specs::Tokens::after_number, base::specs::Pick::pick, megaco::specs::White::after))]
fn range(s: &[u8], at: usize) -> Option<usize>
    ensures { result ≡ (range_at s.now at).place }
{
    let (value, next) = identifier_from(s, at, 1)?;
    if text::is_at(s, next, b'-') {
        let (_, end) = identifier_from(s, next + 1, value)?;
        return Some(end);
    }
    Some(next)
}

#[tactic(auto, unfolding(read_command::specs::Places::ack_at, read_command::specs::Production::spaced_at, megaco::specs::White::after))]
fn ack(s: &[u8], at: usize) -> Option<usize>
    ensures { result ≡ (ack_at s.now at).place }
{
    text::white(s, range(s, at)?)
}

// Identifiers and ranges joined by commas.
fn acks(s: &[u8], at: usize) -> Option<usize>
    ensures { result ≡ (acks_at s.now at).place }
{
    let part = |i: usize| -> Option<usize>
        ensures { result ≡ (ack_at s.entry.now i).place }
    { ack(s, i) };
    read_command::list(s, s.len() + 1, at, part)
}

// A word, and identifiers and ranges in braces.
#[tactic(auto, using(read_command::proofs::ListLaws::steps), unfolding(read_command::specs::Places::acknowledgement_at, read_command::specs::Production::spaced_at, megaco::specs::White::after))]
fn acknowledgement(s: &[u8], at: usize) -> Option<usize>
    ensures { result ≡ (acknowledgement_at s.now at).place }
{
    let p = text::white(s, tokens::word(s, at)?)?;
    let q = text::sign(s, p, b'{')?;
    let e = acks(s, q)?;
    text::sign(s, e, b'}')
}

// ---- transactions

// From behind a transaction's opening brace through the closing one.
#[tactic(auto, unfolding(read_command::specs::Places::braced_at, megaco::specs::White::after))]
fn braced(s: &[u8], at: usize) -> Option<usize>
    ensures { result ≡ (braced_at s.now at).place }
{
    let p = text::white(s, at)?;
    let q = read_action::actions(s, p)?;
    text::mark(s, q, b'}')
}

// The opening brace behind an identifier.
#[tactic(auto, unfolding(read_command::specs::Messages::brace_at, megaco::specs::White::after))]
pub fn brace(s: &[u8], at: usize) -> Option<usize>
    ensures { result ≡ brace_at s.now at }
{
    let p = text::white(s, at)?;
    text::mark(s, p, b'{')
}

// A transaction with this identifier, from behind it, and the white space after it.
#[tactic(auto, unfolding(read_command::specs::Messages::transaction_at, read_command::specs::Messages::or_fault))]
fn transaction(s: &[u8], id: u32, at: usize) -> Result<usize, Fault>
    ensures { result ≡ transaction_at id s.now at }
{
    let p = brace(s, at).ok_or(Fault::Fault400)?;
    let q = braced(s, p).ok_or(Fault::Fault403(id))?;
    text::white(s, q).ok_or(Fault::Fault400)
}

// A transaction's identifier.
#[tactic(auto, unfolding(read_command::specs::Messages::identifier_at, read_command::specs::Production::number_after))]
pub fn identifier(s: &[u8], at: usize) -> Option<(u32, usize)>
    ensures { result ≡ identifier_at s.now at }
{
    let p = read_action::key(s, at, Token::TransToken)?;
    tokens::number(s, p, 10, 4294967295)
}

// One of the eight: an acknowledgement, or a transaction from its identifier on, which may not be 0.
#[tactic(auto, unfolding(read_command::specs::Messages::part_at, read_command::specs::Messages::request_at, read_command::specs::Messages::if_number, read_command::specs::Messages::is_acknowledgement, read_command::specs::Messages::or_fault, base::specs::Pick::pick))]
fn part(s: &[u8], at: usize) -> Result<usize, Fault>
    ensures { result ≡ part_at s.now at }
{
    if read_action::here_spells(s, at, Token::ResponseAckToken) {
        return acknowledgement(s, at).ok_or(Fault::Fault400);
    }
    let (id, next) = identifier(s, at).ok_or(Fault::Fault400)?;
    if id == 0 {
        return Err(Fault::Fault403(0));
    }
    transaction(s, id, next)
}

// One to 8 transactions and acknowledgements, to the end of the message.
fn transactions(s: &[u8], at: usize) -> Result<(), Fault>
    ensures { result ≡ (transactions_at 8 s.now at).verdict }
{
    let mut i = at;
    for n in 0..8usize {
        i = part(s, i)?;
        if s.len() <= i {
            return Ok(());
        }
    }
    Err(Fault::Fault400)
}

// ---- the header

// MEGACO or `!`.
#[tactic(auto, using(text::proofs::TextLaws::next_fits), unfolding(base::specs::Pick::pick))]
fn protocol(s: &[u8], at: usize) -> Option<usize>
    ensures { result ≡ protocol_at s.now at }
{
    if text::is_at(s, at, b'!') {
        return Some(at + 1);
    }
    tokens::keyword(s, at, Token::MegacopToken)
}

// Through the `/` before the version.
#[tactic(auto, unfolding(megaco::specs::Reading::start_at, megaco::specs::White::after))]
fn start(s: &[u8]) -> Option<usize>
    ensures { result ≡ start_at s.now }
{
    let p = text::white(s, 0)?;
    let q = protocol(s, p)?;
    text::mark(s, q, b'/')
}

#[tactic(auto, unfolding(read_command::specs::Messages::version_at, read_command::specs::Production::number_after))]
pub fn version(s: &[u8]) -> Option<(u32, usize)>
    ensures { result ≡ version_at s.now }
{
    let p = start(s)?;
    tokens::number(s, p, 2, 99)
}

// The mId, with white space on both sides.
#[tactic(auto, unfolding(megaco::specs::Reading::sender_at, megaco::specs::White::after))]
pub fn sender(s: &[u8], at: usize) -> Option<usize>
    ensures { result ≡ sender_at s.now at }
{
    let p = text::sep(s, at)?;
    let q = tokens::mid(s, p)?;
    text::sep(s, q)
}

// The verdict on the message that is read from these bytes.
#[tactic(auto, using(crate::proofs::VerdictLaws::by_place), unfolding(read_command::specs::Messages::message_at, read_command::specs::Messages::or_fault, read_command::specs::Messages::if_number, base::specs::Pick::pick))]
pub fn verdict(message: &[u8]) -> Result<(), Fault>
    ensures { result ≡ verdict_of (message_r message.now) }
{
    let (value, next) = version(message).ok_or(Fault::Fault400)?;
    let p = sender(message, next).ok_or(Fault::Fault400)?;
    if value != 1 {
        return Err(Fault::WrongVersion406);
    }
    transactions(message, p)
}
