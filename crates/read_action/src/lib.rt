// Reading actions: a context, then properties and commands in braces.
#![tactic(auto)]

ghost use Rattle.std.specs.Prelude.{◌≡◌, Some};
ghost use Rattle.megaco.specs.Keywords.{spells};
ghost use Rattle.megaco.specs.Tokens.{after_number};
ghost use Rattle.megaco.specs.Reading.{key_at, word_here, is_property, unlimited};
ghost use Rattle.read_command.specs.Places.{context_at, is_direction, direction_of, direction_at, party_at, triple_at, triples_at, topology_at, priority_at, property_at, body_at, opening_at, action_at, actions_at};

use megaco::{Class, Direction, Token};

// A keyword and `=`.
#[tactic(auto, using(crate::proofs::ActionLaws::parts), unfolding(megaco::specs::Reading::key_at, base::specs::Pick::pick, megaco::specs::White::after))]
pub fn key(s: &[u8], at: usize, k: Token) -> Option<usize>
    ensures { result ≡ key_at k s.now at }
{
    let p = tokens::keyword(s, at, k)?;
    let q = text::white(s, p)?;
    text::sign(s, q, b'=')
}

// A number, `-`, `$` or `*`.
#[tactic(auto, using(read_command::proofs::ListLaws::steps), unfolding(read_command::specs::Places::context_at, megaco::specs::Tokens::after_number, base::specs::Pick::pick, megaco::specs::White::after))]
fn context(s: &[u8], at: usize) -> Option<usize>
    ensures { result ≡ (context_at s.now at).place }
{
    if text::is_at(s, at, b'-') {
        return Some(at + 1);
    }
    if text::is_at(s, at, b'$') {
        return Some(at + 1);
    }
    if text::is_at(s, at, b'*') {
        return Some(at + 1);
    }
    let (_, e) = tokens::number(s, at, 10, 4294967295)?;
    Some(e)
}

// ---- topology

#[tactic(auto, using(crate::proofs::ActionLaws::direction_word))]
fn is_direction(w: &[u8]) -> bool
    ensures { result ≡ is_direction w.now }
{
    keywords::spells(Token::IsolateToken, w)
        | keywords::spells(Token::OnewayToken, w)
        | keywords::spells(Token::BothwayToken, w)
}

// The direction that a word means, where it means one.
#[tactic(auto, unfolding(read_command::specs::Places::direction_of, base::specs::Pick::pick))]
pub fn direction_of(w: &[u8]) -> Direction
    ensures { result ≡ direction_of w.now }
{
    if keywords::spells(Token::IsolateToken, w) {
        return Direction::Isolate;
    }
    if keywords::spells(Token::OnewayToken, w) {
        return Direction::Oneway;
    }
    Direction::Bothway
}

#[tactic(auto, using(read_command::proofs::ListLaws::steps, tokens::proofs::TokenLaws::word_ahead, tokens::proofs::TokenLaws::word_within), unfolding(read_command::specs::Places::direction_at, base::specs::Lists::part, base::specs::Pick::pick, megaco::specs::White::after))]
fn direction(s: &[u8], at: usize) -> Option<usize>
    ensures { result ≡ (direction_at s.now at).place }
{
    let e = tokens::word(s, at)?;
    if is_direction(&s[at..e]) {
        return Some(e);
    }
    None
}

// A name in a triple.
#[tactic(auto, unfolding(read_command::specs::Places::party_at, read_command::specs::Production::spaced_at, megaco::specs::White::after))]
fn party(s: &[u8], at: usize) -> Option<usize>
    ensures { result ≡ (party_at s.now at).place }
{
    text::white(s, tokens::termination(s, at)?)
}

// Two names and a direction.
#[tactic(auto, using(read_command::proofs::ListLaws::steps), unfolding(read_command::specs::Places::triple_at, read_command::specs::Production::spaced_at, megaco::specs::White::after))]
fn triple(s: &[u8], at: usize) -> Option<usize>
    ensures { result ≡ (triple_at s.now at).place }
{
    let p = party(s, at)?;
    let q = text::sign(s, p, b',')?;
    let r = party(s, q)?;
    let u = text::sign(s, r, b',')?;
    text::white(s, direction(s, u)?)
}

// Triples joined by commas.
fn triples(s: &[u8], at: usize) -> Option<usize>
    ensures { result ≡ (triples_at s.now at).place }
{
    let part = |i: usize| -> Option<usize>
        ensures { result ≡ (triple_at s.entry.now i).place }
    { triple(s, i) };
    read_command::list(s, s.len() + 1, at, part)
}

// A word, and triples in braces.
#[tactic(auto, using(read_command::proofs::ListLaws::steps), unfolding(read_command::specs::Places::topology_at, read_command::specs::Production::spaced_at, megaco::specs::White::after, base::specs::Pick::pick))]
fn topology(s: &[u8], at: usize) -> Option<usize>
    ensures { result ≡ (topology_at s.now at).place }
{
    let p = text::white(s, tokens::word(s, at)?)?;
    let q = text::sign(s, p, b'{')?;
    let e = triples(s, q)?;
    text::sign(s, e, b'}')
}

// ---- properties

// Whether the word that stands here is the keyword.
#[tactic(auto, using(crate::proofs::ActionLaws::here), unfolding(base::specs::Lists::part))]
pub fn here_spells(s: &[u8], at: usize, k: Token) -> bool
    ensures { result ≡ spells k (word_here s.now at) }
{
    let w = read_command::piece_of(s, at, text::row(s, at, Class::WordByte));
    let a = w.from;
    let e = w.to;
    keywords::spells(k, &s[a..e])
}

// Whether a property stands here.
#[tactic(auto, using(crate::proofs::ActionLaws::here_property), unfolding(base::specs::Lists::part))]
pub fn property_here(s: &[u8], at: usize) -> bool
    ensures { result ≡ is_property (word_here s.now at) }
{
    let w = read_command::piece_of(s, at, text::row(s, at, Class::WordByte));
    let a = w.from;
    let e = w.to;
    read_command::is_property(&s[a..e])
}

// The number of a priority.
#[tactic(auto, unfolding(read_command::specs::Places::priority_at, read_command::specs::Production::number_after))]
pub fn priority(s: &[u8], at: usize) -> Option<(u32, usize)>
    ensures { result ≡ priority_at s.now at }
{
    let p = key(s, at, Token::PriorityToken)?;
    tokens::number(s, p, 5, 99999)
}

#[tactic(auto, unfolding(read_command::specs::Places::property_at, read_command::specs::Places::priority_at, read_command::specs::Production::spaced_at, read_command::specs::Production::number_after, megaco::specs::Tokens::after_number, base::specs::Pick::pick, megaco::specs::White::after))]
fn property(s: &[u8], at: usize) -> Option<usize>
    ensures { result ≡ (property_at s.now at).place }
{
    if here_spells(s, at, Token::EmergencyToken) {
        return text::white(s, tokens::word(s, at)?);
    }
    if here_spells(s, at, Token::TopologyToken) {
        return topology(s, at);
    }
    let (_, e) = priority(s, at)?;
    text::white(s, e)
}

// ---- actions

// Properties, then commands, all joined by commas, at least one of either.
#[tactic(auto, using(crate::proofs::ActionLaws::body_commands), unfolding(megaco::specs::Reading::unlimited))]
fn body(s: &[u8], at: usize) -> Option<usize>
    ensures { result ≡ (body_at (unlimited s.now) s.now at).place }
{
    let mut i = at;
    for n in 0..s.len() + 1 {
        if !property_here(s, i) {
            return read_command::commands(s, i);
        }
        let e = property(s, i)?;
        if !text::is_at(s, e, b',') {
            return Some(e);
        }
        i = text::white(s, e + 1)?;
    }
    None
}

// An action through its opening brace.
#[tactic(auto, using(crate::proofs::ActionLaws::parts), unfolding(read_command::specs::Places::opening_at, read_command::specs::Production::spaced_at, megaco::specs::White::after))]
fn opening(s: &[u8], at: usize) -> Option<usize>
    ensures { result ≡ opening_at s.now at }
{
    let p = key(s, at, Token::CtxToken)?;
    let q = text::white(s, context(s, p)?)?;
    text::sign(s, q, b'{')
}

#[tactic(auto, using(crate::proofs::ActionLaws::parts), unfolding(read_command::specs::Places::action_at, base::specs::Pick::pick, megaco::specs::White::after))]
fn action(s: &[u8], at: usize) -> Option<usize>
    ensures { result ≡ (action_at s.now at).place }
{
    let p = opening(s, at)?;
    let q = body(s, p)?;
    text::sign(s, q, b'}')
}

// One to 16 actions.
pub fn actions(s: &[u8], at: usize) -> Option<usize>
    ensures { result ≡ (actions_at s.now at).place }
{
    let part = |i: usize| -> Option<usize>
        ensures { result ≡ (action_at s.entry.now i).place }
    { action(s, i) };
    read_command::list(s, 16, at, part)
}
