// Reading whole messages: the types of what is found, and the readers of items and commands. Actions and messages are read by the crates above.
#![tactic(auto)]

ghost use Rattle.std.specs.Prelude.{◌≡◌, ◌<◌, ◌^◌, ℕ, ◌&&◌, ◌||◌, suc, Some};
ghost use Rattle.protocol.specs.Types.{Parsed, LocalToken, RemoteToken, TopologyToken};
ghost use Rattle.megaco.specs.Keywords.{spells};
ghost use Rattle.megaco.specs.Tokens.{word_at};
ghost use Rattle.megaco.specs.Reading.{prefix_end, is_property, media_here, brace_from, speech_here};
ghost use Rattle.read_command.specs.Pieces.{Holds};
ghost use Rattle.read_command.specs.Production.{list_at};
ghost use Rattle.base.specs.Lists.{is_at};
ghost use Rattle.megaco.specs.Bytes.{right_brace};
ghost use Rattle.read_command.specs.Places.{second_at, value_item_at, braces_at, head_from, head_at, audit_at, empty_at, or_none_at, item_at, items_at, speech_at, media_item_at, media_at, top_item_at, top_at, order_at, order_start, command_head_at, command_at, commands_at};

use megaco::{Class, Token};

// The fault that is told of a message: one inside a transaction's braces with the identifier, one elsewhere, another version than 1.
#[derive(Clone, Copy, PartialEq, Eq)]
pub enum Fault {
    Fault400,
    Fault403(u32),
    WrongVersion406,
}

// What follows an action's properties: commands, or none; and the place where they begin, or where the properties end.
// One place is told either way, and whether commands follow is asked by itself: as an enum it would be matched for the place three times.
#[derive(Clone, Copy)]
pub struct Rest {
    pub commands: bool,
    pub at: usize,
}

// A part of the message, from a place up to another.
#[derive(Clone, Copy)]
pub struct Piece {
    pub from: usize,
    pub to: usize,
}

// The bytes from a place up to another, brought within the message.
#[tactic(auto, using(crate::proofs::PartLaws::piece_is, crate::proofs::PartLaws::part_within))]
pub fn piece_of(s: &[u8], a: usize, e: usize) -> Piece
    ensures { Holds s.now a e result }
{
    let to = e.min(s.len());
    let from = a.min(to);
    Piece { from: from, to: to }
}

// At most so many parts joined by commas, each read by `part`.
pub fn list<F: Fn(usize) -> Option<usize>>(
    s: &[u8],
    most: usize,
    at: usize,
    part: F,
) -> Option<usize>
    requires { F.IsAlwaysCallable part }
    ensures { (one : ℕ → Parsed) → ((i : ℕ) (r : Parsed) → i < 2 ^ 64 → F.post part i r → r ≡ one i) → result ≡ list_at one s.now most at }
{
    let mut i = at;
    for n in 0..most {
        let e = part(i)?;
        if !text::is_at(s, e, b',') {
            return Some(e);
        }
        i = text::white(s, e + 1)?;
    }
    None
}

// ---- items

// An optional second word.
#[tactic(auto, using(crate::proofs::ListLaws::steps), unfolding(crate::specs::Places::second_at))]
fn second(s: &[u8], at: usize) -> Option<usize>
    ensures { result ≡ (second_at s.now at).place }
{
    if text::is_at(s, at, b'/') {
        return tokens::word(s, at + 1);
    }
    Some(at)
}

// An optional value.
#[tactic(auto, using(crate::proofs::ListLaws::steps), unfolding(crate::specs::Production::spaced_at, crate::specs::Places::value_item_at, base::specs::Pick::pick, megaco::specs::White::after))]
fn item_value(s: &[u8], at: usize) -> Option<usize>
    ensures { result ≡ (value_item_at s.now at).place }
{
    if text::is_at(s, at, b'=') {
        let p = text::white(s, at + 1)?;
        return text::white(s, tokens::value(s, p)?);
    }
    Some(at)
}

// An item before its braces, behind its word, which ends here.
#[tactic(auto, using(crate::proofs::ListLaws::steps), unfolding(crate::specs::Places::head_from, crate::specs::Production::spaced_at, base::specs::Pick::pick, megaco::specs::White::after))]
fn head_from(s: &[u8], e: usize) -> Option<usize>
    ensures { result ≡ head_from s.now e }
{
    let q = text::white(s, second(s, e)?)?;
    item_value(s, q)
}

// An item before its braces.
#[tactic(auto, using(crate::proofs::ListLaws::steps), unfolding(crate::specs::Places::head_at, base::specs::Pick::pick, megaco::specs::White::after))]
fn head(s: &[u8], at: usize) -> Option<usize>
    ensures { result ≡ head_at s.now at }
{
    let e = tokens::word(s, at)?;
    head_from(s, e)
}

// Whether the item that begins here is called Audit: a name with `/` is not.
#[tactic(auto, using(crate::proofs::ItemLaws::audit_is), unfolding(base::specs::Lists::part))]
fn is_audit(s: &[u8], at: usize) -> bool
    ensures { result ≡ audit_at s.now at }
{
    let e = text::row(s, at, Class::WordByte);
    let word = piece_of(s, at, e);
    let a = word.from;
    let b = word.to;
    !text::is_at(s, e, b'/') & keywords::spells(Token::AuditToken, &s[a..b])
}

// Whether the braces of the item that begins at `start`, opened before this place, are empty and may be, where `left` more levels are left.
#[tactic(auto, using(crate::proofs::ItemLaws::empty_deep, crate::proofs::ItemLaws::empty_yes, crate::proofs::ItemLaws::empty_no))]
pub fn empty_here(s: &[u8], left: usize, start: usize, at: usize) -> bool
    ensures { result ≡ (empty_at left s.now start && is_at s.now at right_brace) }
{
    if left != 7 {
        return false;
    }
    if text::is_at(s, at, b'}') {
        return is_audit(s, start);
    }
    false
}

// One item: its head, and the items in its braces, where `left` more levels may be opened.
#[cycle(braced_items_item_items)]
#[tactic(auto, unfolding(crate::specs::Places::item_at, megaco::specs::White::after))]
fn item(s: &[u8], left: usize, at: usize) -> Option<usize>
    ensures { result ≡ (item_at left (items_at left s.now) s.now at).place }
{
    let p = head(s, at)?;
    braced_items(s, left, at, p)
}

// Items joined by commas, in each of which `left` more levels may be opened.
#[cycle(braced_items_item_items)]
fn items(s: &[u8], left: usize, at: usize) -> Option<usize>
    ensures { result ≡ (items_at (suc left) s.now at).place }
{
    let part = |i: usize| -> Option<usize>
        ensures { result ≡ (item_at left (items_at left s.entry.now) s.entry.now i).place }
    { item(s, left, i) };
    list(s, s.len() + 1, at, part)
}

// Items of at most `left` levels in braces, if they stand here, or none in those of an item that begins at `start` and may have none.
#[cycle(braced_items_item_items)]
#[tactic(auto, using(crate::proofs::ListLaws::steps, crate::proofs::ItemLaws::items_level), unfolding(crate::specs::Places::braces_at, crate::specs::Places::or_none_at, crate::specs::Places::empty_at, megaco::specs::White::after, base::specs::Pick::pick))]
fn braced_items(s: &[u8], left: usize, start: usize, at: usize) -> Option<usize>
    ensures { result ≡ (braces_at (or_none_at (empty_at left s.now start) (items_at left s.now) s.now) s.now at).place }
{
    if text::is_at(s, at, b'{') {
        if left == 0 {
            return None;
        }
        let p = text::white(s, at + 1)?;
        if empty_here(s, left, start, p) {
            return text::sign(s, p, b'}');
        }
        let q = items(s, left - 1, p)?;
        return text::sign(s, q, b'}');
    }
    Some(at)
}

// ---- Local and Remote in a level 1 Media

// Whether an item that is called Media begins here: a name with `/` is not.
#[tactic(auto, using(crate::proofs::ItemLaws::media_is), unfolding(base::specs::Lists::part))]
pub fn media_here(s: &[u8], at: usize) -> bool
    ensures { result ≡ media_here s.now at }
{
    let e = text::row(s, at, Class::WordByte);
    let word = piece_of(s, at, e);
    let a = word.from;
    let b = word.to;
    !text::is_at(s, e, b'/') & keywords::spells(Token::MediaToken, &s[a..b])
}

// Whether a word is Local or Remote.
fn holds_text(w: &[u8]) -> bool
    ensures { result ≡ (spells LocalToken w.now || spells RemoteToken w.now) }
{
    keywords::spells(Token::LocalToken, w) | keywords::spells(Token::RemoteToken, w)
}

// Whether a brace stands behind white space that was read.
#[tactic(auto, using(crate::proofs::ItemLaws::brace_next, crate::proofs::ItemLaws::brace_fault))]
fn brace_from(s: &[u8], w: Option<usize>) -> bool
    ensures { result ≡ brace_from s.now w }
{
    match w {
        Some(p) => text::is_at(s, p, b'{'),
        None => false,
    }
}

// Whether Local or Remote stands here, and a brace comes next.
#[tactic(auto, using(crate::proofs::ItemLaws::speech_yes, crate::proofs::ItemLaws::speech_no), unfolding(base::specs::Lists::part))]
pub fn speech_here(s: &[u8], at: usize) -> bool
    ensures { result ≡ speech_here s.now at }
{
    let e = text::row(s, at, Class::WordByte);
    let word = piece_of(s, at, e);
    let a = word.from;
    let b = word.to;
    if holds_text(&s[a..b]) {
        let w = text::white(s, e);
        return brace_from(s, w);
    }
    false
}

// Local or Remote, with the text in its braces.
#[tactic(auto, using(crate::proofs::ListLaws::steps), unfolding(crate::specs::Production::spaced_at, crate::specs::Places::speech_at, base::specs::Pick::pick, megaco::specs::White::after))]
fn speech(s: &[u8], at: usize) -> Option<usize>
    ensures { result ≡ (speech_at s.now at).place }
{
    let p = text::white(s, tokens::word(s, at)?)?;
    let q = text::sign(s, p, b'{')?;
    let e = text::octets(s, q)?;
    text::sign(s, e, b'}')
}

// The same, where a word that may be Local or Remote is read already.
fn speech_from(s: &[u8], at: usize, e: usize) -> bool
    requires { word_at s.now at ≡ Some e }
    ensures { result ≡ speech_here s.now at }
{
    if holds_text(&s[at..e]) {
        let w = text::white(s, e);
        return brace_from(s, w);
    }
    false
}

// What a level 1 Media holds.
#[tactic(auto, using(crate::proofs::ItemLaws::media_no_word, crate::proofs::ItemLaws::word_got, crate::proofs::ListLaws::steps, crate::proofs::ItemLaws::media_fault, crate::proofs::ItemLaws::media_item), unfolding(crate::specs::Places::media_item_at, base::specs::Pick::pick, megaco::specs::White::after))]
fn media_item(s: &[u8], at: usize) -> Option<usize>
    ensures { result ≡ (media_item_at s.now at).place }
{
    let e = tokens::word(s, at)?;
    if speech_from(s, at, e) {
        return speech(s, at);
    }
    let p = head_from(s, e)?;
    braced_items(s, 6, at, p)
}

fn media_items(s: &[u8], at: usize) -> Option<usize>
    ensures { result ≡ (media_at s.now at).place }
{
    let part = |i: usize| -> Option<usize>
        ensures { result ≡ (media_item_at s.entry.now i).place }
    { media_item(s, i) };
    list(s, s.len() + 1, at, part)
}

// The same in braces, if they stand here, of an item that begins at `start`.
#[tactic(auto, using(crate::proofs::ListLaws::steps, crate::proofs::ItemLaws::media_empty, crate::proofs::ItemLaws::media_inside), unfolding(crate::specs::Places::braces_at, base::specs::Pick::pick, megaco::specs::White::after))]
fn braced_media(s: &[u8], start: usize, at: usize) -> Option<usize>
    ensures { result ≡ (braces_at (or_none_at (empty_at 7 s.now start) (media_at s.now) s.now) s.now at).place }
{
    if text::is_at(s, at, b'{') {
        let p = text::white(s, at + 1)?;
        if empty_here(s, 7, start, p) {
            return text::sign(s, p, b'}');
        }
        let q = media_items(s, p)?;
        return text::sign(s, q, b'}');
    }
    Some(at)
}

// Whether an item whose word is read already is called Media.
#[tactic(auto, using(crate::proofs::ItemLaws::media_read, crate::proofs::ItemLaws::read_ahead, crate::proofs::ItemLaws::read_within), unfolding(base::specs::Lists::part))]
fn media_from(s: &[u8], at: usize, e: usize) -> bool
    requires { word_at s.now at ≡ Some e }
    ensures { result ≡ media_here s.now at }
{
    !text::is_at(s, e, b'/') & keywords::spells(Token::MediaToken, &s[at..e])
}

// An item of level 1.
#[tactic(auto, using(crate::proofs::ItemLaws::top_no_word, crate::proofs::ItemLaws::top_fault, crate::proofs::ItemLaws::word_got, crate::proofs::ItemLaws::top_media, crate::proofs::ItemLaws::top_other), unfolding(base::specs::Pick::pick, megaco::specs::White::after))]
fn top_item(s: &[u8], at: usize) -> Option<usize>
    ensures { result ≡ (top_item_at s.now at).place }
{
    let e = tokens::word(s, at)?;
    let p = head_from(s, e)?;
    if media_from(s, at, e) {
        return braced_media(s, at, p);
    }
    braced_items(s, 7, at, p)
}

fn top_items(s: &[u8], at: usize) -> Option<usize>
    ensures { result ≡ (top_at s.now at).place }
{
    let part = |i: usize| -> Option<usize>
        ensures { result ≡ (top_item_at s.entry.now i).place }
    { top_item(s, i) };
    list(s, s.len() + 1, at, part)
}

// A command's items in braces, if they stand here.
#[tactic(auto, using(crate::proofs::ListLaws::steps), unfolding(crate::specs::Places::braces_at, base::specs::Pick::pick, megaco::specs::White::after))]
fn braced_top(s: &[u8], at: usize) -> Option<usize>
    ensures { result ≡ (braces_at (top_at s.now) s.now at).place }
{
    if text::is_at(s, at, b'{') {
        let p = text::white(s, at + 1)?;
        let q = top_items(s, p)?;
        return text::sign(s, q, b'}');
    }
    Some(at)
}

// ---- commands

// The place past `O-` or `W-`, if it stands here; the letter is given as a capital.
#[tactic(auto, using(crate::proofs::CommandLaws::prefix_yes, crate::proofs::CommandLaws::prefix_no, crate::proofs::CommandLaws::prefix_beyond))]
pub fn prefix_end(s: &[u8], at: usize, b: u8) -> usize
    ensures { result ≡ prefix_end b s.now at }
{
    if at < s.len() {
        if (text::capital(s[at]) == b) & text::is_at(s, at + 1, b'-') {
            return at + 2;
        }
    }
    at
}

// Where a command's word begins.
#[tactic(auto, using(crate::proofs::ListLaws::steps), unfolding(crate::specs::Places::order_start))]
fn order_start(s: &[u8], at: usize) -> usize
    ensures { result ≡ order_start s.now at }
{
    let o = prefix_end(s, at, b'O');
    prefix_end(s, o, b'W')
}

// Whether a word is a property's.
#[tactic(auto, unfolding(megaco::specs::Reading::is_property))]
pub fn is_property(w: &[u8]) -> bool
    ensures { result ≡ is_property w.now }
{
    keywords::spells(Token::PriorityToken, w)
        | keywords::spells(Token::EmergencyToken, w)
        | keywords::spells(Token::TopologyToken, w)
}

// A command's word.
#[tactic(auto, using(crate::proofs::ListLaws::steps, tokens::proofs::TokenLaws::word_ahead, tokens::proofs::TokenLaws::word_within), unfolding(crate::specs::Places::order_at, base::specs::Lists::part, base::specs::Pick::pick, megaco::specs::White::after))]
fn order(s: &[u8], at: usize) -> Option<usize>
    ensures { result ≡ (order_at s.now at).place }
{
    let e = tokens::word(s, at)?;
    if is_property(&s[at..e]) {
        return None;
    }
    Some(e)
}

// A command's marks and its word.
fn command_word(s: &[u8], at: usize) -> Option<usize>
    ensures { result ≡ (order_at s.now (order_start s.now at)).place }
{
    let o = order_start(s, at);
    order(s, o)
}

// A command before its braces.
#[tactic(auto, using(crate::proofs::ListLaws::steps), unfolding(crate::specs::Production::spaced_at, crate::specs::Places::command_head_at, base::specs::Pick::pick, megaco::specs::White::after))]
fn command_head(s: &[u8], at: usize) -> Option<usize>
    ensures { result ≡ command_head_at s.now at }
{
    let p = text::white(s, command_word(s, at)?)?;
    let q = text::sign(s, p, b'=')?;
    text::white(s, tokens::termination(s, q)?)
}

#[tactic(auto, using(crate::proofs::ListLaws::steps), unfolding(crate::specs::Places::command_at, base::specs::Pick::pick, megaco::specs::White::after))]
fn command(s: &[u8], at: usize) -> Option<usize>
    ensures { result ≡ (command_at s.now at).place }
{
    let p = command_head(s, at)?;
    braced_top(s, p)
}

// One to 64 commands.
pub fn commands(s: &[u8], at: usize) -> Option<usize>
    ensures { result ≡ (commands_at s.now at).place }
{
    let part = |i: usize| -> Option<usize>
        ensures { result ≡ (command_at s.entry.now i).place }
    { command(s, i) };
    list(s, 64, at, part)
}
