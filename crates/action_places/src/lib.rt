// The parts of actions and transactions in a well-formed message: where each stands and ends. Nothing can fail here: where no such part
// stands, what is found has no meaning.
#![tactic(auto)]

ghost use Rattle.std.specs.Prelude.{◌≡◌};
ghost use Rattle.megaco.specs.Reading.{unlimited};
ghost use Rattle.read_command.specs.Production.{value_in, next_in, list_after, list_p};
ghost use Rattle.read_command.specs.Places.{ack_at, acks_start, command_at, direction_at, triple_at, triples_start, triples_at, topology_at, body_end, rest_of, action_at};
ghost use Rattle.read_command.specs.Messages.{closing_end, transaction_end, header_end, is_acknowledgement};
ghost use Rattle.read_command.specs.Pieces.{Holds};
ghost use Rattle.action_places.specs.ActionPlaces.{context_places, action_places, OfTriple, property_places, transaction_places, ack_places, sender_start, sender_end};

use megaco::{Ack, Class, Context, Direction, Property, Token};
use read_command::{Piece, Rest};

// A context, and the place behind it.
#[derive(Clone, Copy)]
pub struct ContextPlaces {
    pub context: Context,
    pub end: usize,
}

// An action: its context, and where its properties or commands begin.
#[derive(Clone, Copy)]
pub struct ActionPlaces {
    pub context: Context,
    pub body: usize,
}

// A triple: its two names, its direction, and the place behind it.
#[derive(Clone, Copy)]
pub struct TriplePlaces {
    pub one: Piece,
    pub two: Piece,
    pub direction: Direction,
    pub end: usize,
}

// A property, and the place behind it.
#[derive(Clone, Copy)]
pub struct PropertyPlaces {
    pub property: Property,
    pub end: usize,
}

// A transaction: its identifier, and where its actions begin.
#[derive(Clone, Copy)]
pub struct TransactionPlaces {
    pub id: u32,
    pub body: usize,
}

// What an acknowledgement names, and the place behind it.
#[derive(Clone, Copy)]
pub struct AckPlaces {
    pub ack: Ack,
    pub end: usize,
}

// A number that was read, and the place behind it.
#[tactic(auto, unfolding(read_command::specs::Production::value_in, read_command::specs::Production::next_in))]
fn number_in(n: Option<(u32, usize)>) -> (u32, usize)
    ensures { (result.0 ≡ value_in n) × (result.1 ≡ next_in n) }
{
    n.unwrap_or((0, 0))
}

// ---- actions

#[tactic(auto, using(text::proofs::TextLaws::next_fits), unfolding(crate::specs::ActionPlaces::context_places, read_command::specs::Places::context_at, base::specs::Pick::pick))]
fn context_places(s: &[u8], at: usize) -> ContextPlaces
    ensures { result ≡ context_places s.now at }
{
    if text::is_at(s, at, b'-') {
        return ContextPlaces {
            context: Context::Null,
            end: at + 1,
        };
    }
    if text::is_at(s, at, b'$') {
        return ContextPlaces {
            context: Context::Choose,
            end: at + 1,
        };
    }
    if text::is_at(s, at, b'*') {
        return ContextPlaces {
            context: Context::All,
            end: at + 1,
        };
    }
    let (n, end) = number_in(tokens::number(s, at, 10, 4294967295));
    ContextPlaces {
        context: Context::Numbered(n),
        end,
    }
}

// An action.
#[tactic(auto, unfolding(crate::specs::ActionPlaces::action_places, crate::specs::ActionPlaces::context_places, read_command::specs::Places::body_start, read_command::specs::Places::context_start))]
pub fn action_places(s: &[u8], at: usize) -> ActionPlaces
    ensures { result ≡ action_places s.now at }
{
    let p = command_places::end_of(read_action::key(s, at, Token::CtxToken));
    let x = context_places(s, p);
    ActionPlaces {
        context: x.context,
        body: command_places::past_opening(s, command_places::past_white(s, x.end)),
    }
}

// ---- topology

// The direction whose word stands here.
#[tactic(auto, using(crate::proofs::ActionPlaceLaws::direction_found), unfolding(base::specs::Lists::part))]
fn direction_here(s: &[u8], at: usize) -> Direction
    ensures { result ≡ (direction_at s.now at).tree }
{
    let w = read_command::piece_of(s, at, text::row(s, at, Class::WordByte));
    read_action::direction_of(&s[w.from..w.to])
}

// A triple.
pub fn triple_places(s: &[u8], at: usize) -> TriplePlaces
    ensures { OfTriple s.now at result }
{
    let a = command_places::end_of(tokens::termination(s, at));
    let one = read_command::piece_of(s, at, a);
    let q = command_places::past_comma(s, command_places::past_white(s, a));
    let b = command_places::end_of(tokens::termination(s, q));
    let two = read_command::piece_of(s, q, b);
    let u = command_places::past_comma(s, command_places::past_white(s, b));
    TriplePlaces {
        one,
        two,
        direction: direction_here(s, u),
        end: command_places::past_white(s, text::row(s, u, Class::WordByte)),
    }
}

fn triple_end(s: &[u8], at: usize) -> usize
    ensures { result ≡ (triple_at s.now at).end }
{
    triple_places(s, at).end
}

// The end of the triples that begin here.
pub fn triples_end(s: &[u8], at: usize) -> usize
    ensures { result ≡ (triples_at s.now at).end }
{
    let end = |i: usize| -> usize
        ensures { result ≡ (triple_at s.entry.now i).end }
    { triple_end(s, i) };
    command_places::list_end(s, s.len() + 1, at, end)
}

// Where the triples of the topology that stands here begin.
#[tactic(auto, unfolding(read_command::specs::Places::triples_start, read_command::specs::Production::word_end))]
pub fn triples_start(s: &[u8], at: usize) -> usize
    ensures { result ≡ triples_start s.now at }
{
    command_places::past_opening(
        s,
        command_places::past_white(s, text::row(s, at, Class::WordByte)),
    )
}

#[tactic(auto, unfolding(read_command::specs::Places::topology_at, read_command::specs::Places::triples_start))]
fn topology_end(s: &[u8], at: usize) -> usize
    ensures { result ≡ (topology_at s.now at).end }
{
    command_places::past_closing(s, triples_end(s, triples_start(s, at)))
}

// ---- properties

// A property.
#[tactic(auto, unfolding(crate::specs::ActionPlaces::property_places, crate::specs::ActionPlaces::kind_of, read_command::specs::Places::property_at, read_command::specs::Places::topology_at, read_command::specs::Production::word_end, base::specs::Pick::pick))]
pub fn property_places(s: &[u8], at: usize) -> PropertyPlaces
    ensures { result ≡ property_places s.now at }
{
    if read_action::here_spells(s, at, Token::EmergencyToken) {
        return PropertyPlaces {
            property: Property::Emergency,
            end: command_places::past_white(s, text::row(s, at, Class::WordByte)),
        };
    }
    if read_action::here_spells(s, at, Token::TopologyToken) {
        return PropertyPlaces {
            property: Property::Topology,
            end: topology_end(s, at),
        };
    }
    let (n, e) = number_in(read_action::priority(s, at));
    PropertyPlaces {
        property: Property::Priority(n),
        end: command_places::past_white(s, e),
    }
}

// What follows the properties that begin here.
pub fn rest_of(s: &[u8], at: usize) -> Rest
    ensures { result ≡ rest_of (unlimited s.now) s.now at }
{
    let mut i = at;
    for n in 0..s.len() + 1 {
        if !read_action::property_here(s, i) {
            return Rest {
                commands: true,
                at: i,
            };
        }
        let end = property_places(s, i).end;
        match command_places::next_part(s, end) {
            Some(u) => i = u,
            None => {
                return Rest {
                    commands: false,
                    at: end,
                };
            }
        }
    }
    Rest {
        commands: false,
        at: i,
    }
}

// ---- ends

#[tactic(auto, using(command_places::proofs::PlaceLaws::command_ends))]
fn command_end(s: &[u8], at: usize) -> usize
    ensures { result ≡ (command_at s.now at).end }
{
    command_places::command_end(s, command_places::command_places(s, at))
}

// The end of the commands, at most so many, that begin here.
fn commands_end(s: &[u8], most: usize, at: usize) -> usize
    ensures { result ≡ (list_p (command_at s.now) s.now most at).end }
{
    let end = |i: usize| -> usize
        ensures { result ≡ (command_at s.entry.now i).end }
    { command_end(s, i) };
    command_places::list_end(s, most, at, end)
}

// The end of the commands of which one ends here, and at most so many follow.
#[tactic(auto, using(command_places::proofs::EndLaws::after_none))]
pub fn commands_after(s: &[u8], most: usize, e: usize) -> usize
    ensures { result ≡ list_after (λ j. (command_at s.now j).end) s.now most e }
{
    match command_places::next_part(s, e) {
        Some(u) => commands_end(s, most, u),
        None => e,
    }
}

// The end of what stands in an action's braces, behind its properties.
#[tactic(auto, unfolding(read_command::specs::Places::body_end, read_command::specs::Places::commands_at, base::specs::Pick::pick))]
pub fn body_end(s: &[u8], r: Rest) -> usize
    ensures { result ≡ body_end s.now r }
{
    if r.commands {
        return commands_end(s, 64, r.at);
    }
    r.at
}

#[tactic(auto, using(crate::proofs::ActionPlaceLaws::action_ends))]
fn action_end(s: &[u8], at: usize) -> usize
    ensures { result ≡ (action_at s.now at).end }
{
    let body = action_places(s, at).body;
    command_places::past_closing(s, body_end(s, rest_of(s, body)))
}

// The end of the actions, at most so many, that begin here.
fn actions_end(s: &[u8], most: usize, at: usize) -> usize
    ensures { result ≡ (list_p (action_at s.now) s.now most at).end }
{
    let end = |i: usize| -> usize
        ensures { result ≡ (action_at s.entry.now i).end }
    { action_end(s, i) };
    command_places::list_end(s, most, at, end)
}

// The end of the actions of which one ends here, and at most so many follow.
// As `commands_after`: one for both, with a closure, would leave each four lines of closure and call in place of these four.
#[tactic(auto, using(command_places::proofs::EndLaws::after_none))]
pub fn actions_after(s: &[u8], most: usize, e: usize) -> usize
    ensures { result ≡ list_after (λ j. (action_at s.now j).end) s.now most e }
{
    match command_places::next_part(s, e) {
        Some(u) => actions_end(s, most, u),
        None => e,
    }
}

// ---- transactions

// A transaction.
#[tactic(auto, unfolding(crate::specs::ActionPlaces::transaction_places, read_command::specs::Messages::actions_start))]
pub fn transaction_places(s: &[u8], at: usize) -> TransactionPlaces
    ensures { result ≡ transaction_places s.now at }
{
    let (id, e) = number_in(read_message::identifier(s, at));
    let b = command_places::end_of(read_message::brace(s, e));
    TransactionPlaces {
        id,
        body: command_places::past_white(s, b),
    }
}

// The end of the transaction whose actions end here, and white space.
#[tactic(auto, unfolding(read_command::specs::Messages::closing_end))]
pub fn closing_end(s: &[u8], at: usize) -> usize
    ensures { result ≡ closing_end s.now at }
{
    command_places::past_white(s, command_places::end_of(text::mark(s, at, b'}')))
}

// The end of a transaction that is passed over.
#[tactic(auto, unfolding(read_command::specs::Messages::transaction_end, crate::specs::ActionPlaces::transaction_places, read_command::specs::Places::actions_at))]
pub fn transaction_end(s: &[u8], at: usize) -> usize
    ensures { result ≡ transaction_end s.now at }
{
    let body = transaction_places(s, at).body;
    closing_end(s, actions_end(s, 16, body))
}

// ---- acknowledgements

// Whether an acknowledgement stands here, and no transaction.
#[tactic(auto, unfolding(read_command::specs::Messages::is_acknowledgement))]
pub fn is_acknowledgement(s: &[u8], at: usize) -> bool
    ensures { result ≡ is_acknowledgement s.now at }
{
    read_action::here_spells(s, at, Token::ResponseAckToken)
}

// Where what it names begins.
#[tactic(auto, unfolding(read_command::specs::Places::acks_start, read_command::specs::Production::word_end))]
pub fn acks_start(s: &[u8], at: usize) -> usize
    ensures { result ≡ acks_start s.now at }
{
    command_places::past_opening(
        s,
        command_places::past_white(s, text::row(s, at, Class::WordByte)),
    )
}

// An identifier, or a first and a last.
#[tactic(auto, using(read_command::proofs::ListLaws::steps), unfolding(crate::specs::ActionPlaces::ack_places, read_command::specs::Places::ack_at, read_command::specs::Places::range_at, base::specs::Pick::pick))]
pub fn ack_places(s: &[u8], at: usize) -> AckPlaces
    ensures { result ≡ ack_places s.now at }
{
    let (first, p) = number_in(read_message::identifier_from(s, at, 1));
    if text::is_at(s, p, b'-') {
        let (last, e) = number_in(read_message::identifier_from(s, p + 1, first));
        return AckPlaces {
            ack: Ack { first, last },
            end: command_places::past_white(s, e),
        };
    }
    AckPlaces {
        ack: Ack { first, last: first },
        end: command_places::past_white(s, p),
    }
}

// ---- the header

// The sender's mId.
#[tactic(auto, unfolding(crate::specs::ActionPlaces::sender_start, crate::specs::ActionPlaces::sender_end))]
pub fn sender_piece(s: &[u8]) -> Piece
    ensures { Holds s.now (sender_start s.now) (sender_end s.now) result }
{
    let (_, e) = number_in(read_message::version(s));
    let a = command_places::end_of(text::sep(s, e));
    read_command::piece_of(s, a, command_places::end_of(tokens::mid(s, a)))
}

// Where the transactions begin.
#[tactic(auto, unfolding(read_command::specs::Messages::header_end))]
pub fn header_end(s: &[u8]) -> usize
    ensures { result ≡ header_end s.now }
{
    let (_, e) = number_in(read_message::version(s));
    command_places::end_of(read_message::sender(s, e))
}
