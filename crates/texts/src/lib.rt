// The texts in the braces of Local and Remote, for the RTP card (document 02, CR 11): the reader hands back the part of the message that holds one, whether
// it is Local's or Remote's, and the name of its command's termination as written.
#![tactic(auto)]

ghost use Rattle.std.specs.Prelude.{◌≡◌, ◌+◌, ◌-◌, ◌*◌, ◌≤◌, ◌<◌, ◌^◌, ℕ, List};
ghost use Rattle.read_command.specs.Production.{list_end};
ghost use Rattle.read_command.specs.Pieces.{Holds};
ghost use Rattle.read_command.specs.Places.{media_item_at, media_at, top_item_at, top_at, command_at, commands_at, action_at, actions_at, ack_at, acks_at};
ghost use Rattle.read_command.specs.Messages.{part_end};
ghost use Rattle.texts.specs.Texts.{Sought, holders_in, sought, closed_sought, media_item_holders, media_holders, top_item_holders, top_holders, command_holders, commands_holders, action_holders, actions_holders, served_holders, message_sought, holder_number, local_at, side_there, text_start, text_end, owner_start, owner_end, text_number, side_of, name_of, bytes_of, text_place, name_place, text_part, name_part, side_given};

use megaco::Token;
use read_command::Piece;
use std::ops::ControlFlow;

// A message that a call can take is no longer.
const LONGEST: usize = 4096;

// Who holds a text: where the command begins, and where Local or Remote does.
#[derive(Clone, Copy)]
pub struct Holder {
    pub command: usize,
    pub item: usize,
}

// A search that goes on behind the parts that end here, so many texts further on.
#[derive(Clone, Copy)]
pub struct Behind {
    pub left: usize,
    pub end: usize,
}

// What a search for a text comes to: who holds it; or it goes on.
type Sought = ControlFlow<Holder, Behind>;

// A part in braces, and the brace that closes it.
#[tactic(auto, unfolding(crate::specs::Texts::closed_sought))]
fn closed(s: &[u8], x: Sought) -> Sought
    ensures { result ≡ closed_sought s.now x }
{
    let b = x?;
    ControlFlow::Continue(Behind {
        left: b.left,
        end: command_places::past_closing(s, b.end),
    })
}

// At most so many parts joined by commas, in each of which `part` searches.
fn list<F: Fn(usize, usize) -> Sought>(
    s: &[u8],
    most: usize,
    at: usize,
    k: usize,
    part: F,
) -> Sought
    requires { F.IsAlwaysCallable part }
    ensures { (one : ℕ → List Holder) → (end : ℕ → ℕ) → ((i l : ℕ) (r : Sought) → i < 2 ^ 64 → l < 2 ^ 64 → F.post part i l r → r ≡ sought (one i) (end i) l) → result ≡ sought (holders_in one end s.now most at) (list_end end s.now most at) k }
{
    let mut i = at;
    let mut left = k;
    for n in 0..most {
        let b = part(i, left)?;
        let Some(u) = command_places::next_part(s, b.end) else {
            return ControlFlow::Continue(b);
        };
        i = u;
        left = b.left;
    }
    ControlFlow::Continue(Behind { left: left, end: i })
}

// ---- items

#[tactic(auto, using(crate::proofs::SeekLaws::part_here, crate::proofs::SeekLaws::part_past, crate::proofs::SeekLaws::part_other))]
fn media_item(s: &[u8], command: usize, at: usize, left: usize) -> Sought
    ensures { result ≡ sought (media_item_holders s.now command at) (media_item_at s.now at).end left }
{
    let e = command_places::media_item_end(s, at);
    if read_command::speech_here(s, at) {
        if left == 0 {
            return ControlFlow::Break(Holder {
                command: command,
                item: at,
            });
        }
        return ControlFlow::Continue(Behind {
            left: left - 1,
            end: e,
        });
    }
    ControlFlow::Continue(Behind { left: left, end: e })
}

fn media(s: &[u8], command: usize, at: usize, k: usize) -> Sought
    ensures { result ≡ sought (media_holders s.now command at) (media_at s.now at).end k }
{
    let part = |i: usize, left: usize| -> Sought
        ensures { result ≡ sought (media_item_holders s.entry.now command i) (media_item_at s.entry.now i).end left }
    { media_item(s, command, i, left) };
    list(s, s.len() + 1, at, k, part)
}

#[tactic(auto, using(crate::proofs::SeekLaws::item_other, crate::proofs::SeekLaws::item_plain))]
fn top_item(s: &[u8], command: usize, at: usize, left: usize) -> Sought
    ensures { result ≡ sought (top_item_holders s.now command at) (top_item_at s.now at).end left }
{
    if read_command::media_here(s, at) {
        if let Some(inside) = command_places::item_places(s, at).inside {
            return closed(s, media(s, command, inside, left));
        }
    }
    ControlFlow::Continue(Behind {
        left: left,
        end: command_places::top_item_end(s, at),
    })
}

fn top(s: &[u8], command: usize, at: usize, k: usize) -> Sought
    ensures { result ≡ sought (top_holders s.now command at) (top_at s.now at).end k }
{
    let part = |i: usize, left: usize| -> Sought
        ensures { result ≡ sought (top_item_holders s.entry.now command i) (top_item_at s.entry.now i).end left }
    { top_item(s, command, i, left) };
    list(s, s.len() + 1, at, k, part)
}

// ---- commands

#[tactic(auto, using(crate::proofs::SeekLaws::command_past))]
fn command(s: &[u8], at: usize, left: usize) -> Sought
    ensures { result ≡ sought (command_holders s.now at) (command_at s.now at).end left }
{
    let p = command_places::command_places(s, at);
    if let Some(inside) = p.inside {
        return closed(s, top(s, at, inside, left));
    }
    ControlFlow::Continue(Behind {
        left: left,
        end: p.end,
    })
}

fn commands(s: &[u8], at: usize, k: usize) -> Sought
    ensures { result ≡ sought (commands_holders s.now at) (commands_at s.now at).end k }
{
    let part = |i: usize, left: usize| -> Sought
        ensures { result ≡ sought (command_holders s.entry.now i) (command_at s.entry.now i).end left }
    { command(s, i, left) };
    list(s, 64, at, k, part)
}

// ---- actions

#[tactic(auto, using(crate::proofs::SeekLaws::action_inside, crate::proofs::SeekLaws::action_past))]
fn action(s: &[u8], at: usize, left: usize) -> Sought
    ensures { result ≡ sought (action_holders s.now at) (action_at s.now at).end left }
{
    let a = action_places::action_places(s, at);
    let b = action_places::rest_of(s, a.body);
    if b.commands {
        let first = b.at;
        return closed(s, commands(s, first, left));
    }
    let end = b.at;
    ControlFlow::Continue(Behind {
        left: left,
        end: command_places::past_closing(s, end),
    })
}

fn actions(s: &[u8], at: usize, k: usize) -> Sought
    ensures { result ≡ sought (actions_holders s.now at) (actions_at s.now at).end k }
{
    let part = |i: usize, left: usize| -> Sought
        ensures { result ≡ sought (action_holders s.entry.now i) (action_at s.entry.now i).end left }
    { action(s, i, left) };
    list(s, 16, at, k, part)
}

// ---- the message

// The end of what an acknowledgement names.
#[tactic(auto, unfolding(action_places::specs::ActionPlaces::ack_places))]
fn acks_end(s: &[u8], at: usize) -> usize
    ensures { result ≡ (acks_at s.now at).end }
{
    let end = |i: usize| -> usize
        ensures { result ≡ (ack_at s.entry.now i).end }
    { action_places::ack_places(s, i).end };
    command_places::list_end(s, s.len() + 1, at, end)
}

// A transaction or an acknowledgement.
#[tactic(auto, using(crate::proofs::SeekLaws::served_past, crate::proofs::SeekLaws::served_here, crate::proofs::SeekLaws::served_behind))]
fn served(s: &[u8], at: usize, left: usize) -> Sought
    ensures { result ≡ sought (served_holders s.now at) (part_end s.now at) left }
{
    if action_places::is_acknowledgement(s, at) {
        let b = action_places::acks_start(s, at);
        let e = acks_end(s, b);
        return ControlFlow::Continue(Behind {
            left: left,
            end: command_places::past_closing(s, e),
        });
    }
    let p = action_places::transaction_places(s, at);
    let b = actions(s, p.body, left)?;
    ControlFlow::Continue(Behind {
        left: b.left,
        end: action_places::closing_end(s, b.end),
    })
}

// Who holds the text in a well-formed message, if there are more than k.
fn find(s: &[u8], k: usize) -> Option<Holder>
    ensures { result ≡ message_sought s.now k }
{
    let mut i = action_places::header_end(s);
    let mut left = k;
    for n in 0..8usize {
        match served(s, i, left) {
            ControlFlow::Break(x) => return Some(x),
            ControlFlow::Continue(b) => {
                i = b.end;
                left = b.left;
            }
        }
        if s.len() <= i {
            return None;
        }
    }
    None
}

// The same of any message: one that does not read has none.
#[tactic(auto, unfolding(crate::specs::Texts::holder_number, crate::specs::Texts::where_text))]
fn holder_of(s: &[u8], k: usize) -> Option<Holder>
    ensures { result ≡ holder_number s.now k }
{
    read_message::verdict(s).ok()?;
    find(s, k)
}

// ---- what stands there

// Whether Local stands here, not Remote.
#[tactic(auto, using(crate::proofs::SeekLaws::local_by), unfolding(base::specs::Pick::pick))]
fn is_local(s: &[u8], at: usize) -> bool
    ensures { result ≡ local_at s.now at }
{
    let p = command_places::speech_places(s, at);
    let word = p.word;
    let a = word.from;
    let b = word.to;
    keywords::spells(Token::LocalToken, &s[a..b])
}

#[tactic(auto, unfolding(crate::specs::Texts::side_there, crate::specs::Texts::side_number, crate::specs::Texts::side_called, base::specs::Pick::pick))]
fn side_there(s: &[u8], x: Option<Holder>) -> u32
    ensures { result ≡ side_there s.now x }
{
    match x {
        Some(h) => {
            if is_local(s, h.item) {
                return 1;
            }
            2
        }
        None => 0,
    }
}

// The part of the message that holds the text; nothing, at the message's start, where there is none.
// This and `name_there`, as `text` and `name` and `text_part` and `name_part`, stay two: one function for both would take a closure and two definitions, and be no shorter.
#[tactic(auto, unfolding(crate::specs::Texts::text_start, crate::specs::Texts::text_end))]
fn text_there(s: &[u8], x: Option<Holder>) -> Piece
    ensures { Holds s.now (text_start s.now x) (text_end s.now x) result }
{
    match x {
        Some(h) => {
            let p = command_places::speech_places(s, h.item);
            p.text
        }
        None => read_command::piece_of(s, 0, 0),
    }
}

// The same of the name of its command's termination.
#[tactic(auto, unfolding(crate::specs::Texts::owner_start, crate::specs::Texts::owner_end))]
fn name_there(s: &[u8], x: Option<Holder>) -> Piece
    ensures { Holds s.now (owner_start s.now x) (owner_end s.now x) result }
{
    match x {
        Some(h) => {
            let p = command_places::command_places(s, h.command);
            p.name
        }
        None => read_command::piece_of(s, 0, 0),
    }
}

// ---- the text number k of a message, in reading order and from 0

// The part of the message that holds it, in the message's own memory. Nothing, at the message's start, where there are no more than k, and where the
// message does not read.
pub fn text<'a>(message: &'a [u8], k: usize) -> &'a [u8]
    ensures result_value { result.now ≡ bytes_of (text_number message.now k) }
    ensures ref_ptr_value { result.ref_ptr ≡ (message.entry.ref_ptr.0, text_place message.now k + message.entry.ref_ptr.1) }
{
    let p = text_there(message, holder_of(message, k));
    let a = p.from;
    let e = p.to;
    &message[a..e]
}

// The name of its command's termination as written, in the message's own memory; nothing where there is no text.
pub fn name<'a>(message: &'a [u8], k: usize) -> &'a [u8]
    ensures result_value { result.now ≡ name_of (text_number message.now k) }
    ensures ref_ptr_value { result.ref_ptr ≡ (message.entry.ref_ptr.0, name_place message.now k + message.entry.ref_ptr.1) }
{
    let p = name_there(message, holder_of(message, k));
    let a = p.from;
    let e = p.to;
    &message[a..e]
}

// Whose it is: 1 for Local, 2 for Remote, 0 where there is no such text; one that there is may be empty.
#[tactic(auto, using(crate::proofs::SeekLaws::side_is), unfolding(base::specs::Pick::pick))]
pub fn side(message: &[u8], k: usize) -> u32
    ensures { result ≡ side_of (text_number message.now k) }
{
    side_there(message, holder_of(message, k))
}

// ---- the same as numbers, for C: of a message that a call can take

// A part of a message: its place in the high 32 bits, its length in the low 32.
fn packed(p: Piece) -> u64
    requires from_le_to { p.from ≤ p.to }
    requires to_bound { p.to ≤ 4096 }
    ensures { result ≡ p.from * 4294967296 + (p.to - p.from) }
{
    let a = p.from;
    let e = p.to;
    a as u64 * 4294967296 + (e - a) as u64
}

// Where the text stands, and how long it is.
#[tactic(auto, using(crate::proofs::SeekLaws::long_text, crate::proofs::SeekLaws::the_text_part), unfolding(base::specs::Pick::pick))]
pub fn text_part(message: &[u8], k: usize) -> u64
    ensures { result ≡ text_part message.now k }
{
    if LONGEST < message.len() {
        return 0;
    }
    packed(text_there(message, holder_of(message, k)))
}

// The same of the name.
#[tactic(auto, using(crate::proofs::SeekLaws::long_name, crate::proofs::SeekLaws::the_name_part), unfolding(base::specs::Pick::pick))]
pub fn name_part(message: &[u8], k: usize) -> u64
    ensures { result ≡ name_part message.now k }
{
    if LONGEST < message.len() {
        return 0;
    }
    packed(name_there(message, holder_of(message, k)))
}

// Whose it is, as `side` tells it.
#[tactic(auto, using(crate::proofs::SeekLaws::long_side, crate::proofs::SeekLaws::given_side), unfolding(base::specs::Pick::pick))]
pub fn side_given(message: &[u8], k: usize) -> u32
    ensures { result ≡ side_given message.now k }
{
    if LONGEST < message.len() {
        return 0;
    }
    side(message, k)
}
