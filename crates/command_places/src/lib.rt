// The parts of a command and of an item in a well-formed message: where each stands, found once. Nothing can fail here: where no such part
// stands, what is found has no meaning.
#![tactic(auto)]

ghost use Rattle.std.specs.Prelude.{◌≡◌, ◌+◌, ◌<◌, ◌^◌, ℕ};
ghost use Rattle.base.specs.Pick.{pick};
ghost use Rattle.base.specs.Lists.{is_at};
ghost use Rattle.megaco.specs.Bytes.{comma, left_brace, right_brace, quote};
ghost use Rattle.read_command.specs.Pieces.{piece_of};
ghost use Rattle.command_places.specs.declared.ValuePlace.TheVariants.{Plain, Quoted};
ghost use Rattle.read_command.specs.Production.{end_of, past_white, past_sign, list_end};
ghost use Rattle.read_command.specs.Places.{second_at, item_at, items_at, media_item_at, media_at, top_item_at, top_at};
ghost use Rattle.command_places.specs.Found.{next_at, inside_at, OfValue, OfItem, OfSpeech, bytes_of, TextWithin, text_at, text_place, marks_of, OfCommand, command_end_from};

use megaco::Class;
use read_command::Piece;

// A value in an item: its bytes, or that it stands between quotes.
#[derive(Clone, Copy)]
pub enum ValuePlace {
    Plain(Piece),
    Quoted(Piece),
}

// An item: its word, whether a second word follows, its value if it has one, the place behind them, and where the items in its braces begin
// if it has braces.
#[derive(Clone, Copy)]
pub struct ItemPlaces {
    pub word: Piece,
    pub second: bool,
    pub value: Option<ValuePlace>,
    pub end: usize,
    pub inside: Option<usize>,
}

// Local or Remote with a text in its braces: its word, the text, and the place behind the closing brace.
#[derive(Clone, Copy)]
pub struct SpeechPlaces {
    pub word: Piece,
    pub text: Piece,
    pub end: usize,
}

// Whether `O-` and `W-` stand before a command's word, and where that begins.
#[derive(Clone, Copy)]
pub struct Marks {
    pub optional: bool,
    pub wild: bool,
    pub at: usize,
}

// A command: its marks, its word, its name, the place behind them, and where the items in its braces begin if it has braces.
#[derive(Clone, Copy)]
pub struct CommandPlaces {
    pub optional: bool,
    pub wild: bool,
    pub word: Piece,
    pub name: Piece,
    pub end: usize,
    pub inside: Option<usize>,
}

// ---- places

// Where a reader stopped.
#[tactic(auto, unfolding(read_command::specs::Production::end_of))]
pub fn end_of(x: Option<usize>) -> usize
    ensures { result ≡ end_of x }
{
    x.unwrap_or(0)
}

#[tactic(auto, unfolding(read_command::specs::Production::past_white))]
pub fn past_white(s: &[u8], at: usize) -> usize
    ensures { result ≡ past_white s.now at }
{
    end_of(text::white(s, at))
}

// The place past a sign, and white space.
#[tactic(auto, unfolding(read_command::specs::Production::past_sign))]
fn past_sign(s: &[u8], at: usize, b: u8) -> usize
    requires { 0 < b }
    ensures { result ≡ past_sign b s.now at }
{
    end_of(text::sign(s, at, b))
}

pub fn past_comma(s: &[u8], at: usize) -> usize
    ensures { result ≡ past_sign comma s.now at }
{
    past_sign(s, at, b',')
}

pub fn past_opening(s: &[u8], at: usize) -> usize
    ensures { result ≡ past_sign left_brace s.now at }
{
    past_sign(s, at, b'{')
}

pub fn past_closing(s: &[u8], at: usize) -> usize
    ensures { result ≡ past_sign right_brace s.now at }
{
    past_sign(s, at, b'}')
}

// Where the next of the parts joined by commas begins, if one follows the part that ends here.
#[tactic(auto, unfolding(crate::specs::Found::next_at, base::specs::Pick::pick))]
pub fn next_part(s: &[u8], e: usize) -> Option<usize>
    ensures { result ≡ next_at s.now e }
{
    if text::is_at(s, e, b',') {
        return Some(past_comma(s, e));
    }
    None
}

// Where what stands in braces begins, if braces follow here.
#[tactic(auto, unfolding(crate::specs::Found::inside_at, base::specs::Pick::pick))]
fn inside_of(s: &[u8], e: usize) -> Option<usize>
    ensures { result ≡ inside_at s.now e }
{
    if text::is_at(s, e, b'{') {
        return Some(past_opening(s, e));
    }
    None
}

// The end of at most so many parts joined by commas, the first of which begins here: `end` tells where one ends.
pub fn list_end<F: Fn(usize) -> usize>(s: &[u8], most: usize, at: usize, end: F) -> usize
    requires { F.IsAlwaysCallable end }
    ensures { (one : ℕ → ℕ) → ((i : ℕ) (r : ℕ) → i < 2 ^ 64 → F.post end i r → r ≡ one i) → result ≡ list_end one s.now most at }
{
    let mut i = at;
    for n in 0..most {
        let e = end(i);
        match next_part(s, e) {
            Some(u) => i = u,
            None => return e,
        }
    }
    i
}

// ---- items

// The end of a second word that may stand here.
#[tactic(auto, using(text::proofs::TextLaws::reads), unfolding(read_command::specs::Places::second_at, read_command::specs::Production::word_end, base::specs::Pick::pick))]
fn second_end(s: &[u8], at: usize) -> usize
    ensures { result ≡ (second_at s.now at).end }
{
    if text::is_at(s, at, b'/') {
        return text::row(s, at + 1, Class::WordByte);
    }
    at
}

// The value between these places.
#[tactic(auto, unfolding(base::specs::Pick::pick))]
fn value_place(s: &[u8], a: usize, e: usize) -> ValuePlace
    ensures { result ≡ pick (is_at s.now a quote) (Quoted (piece_of s.now a e)) (Plain (piece_of s.now a e)) }
{
    let piece = read_command::piece_of(s, a, e);
    if text::is_at(s, a, b'"') {
        return ValuePlace::Quoted(piece);
    }
    ValuePlace::Plain(piece)
}

// A value that may stand here, and the place behind it.
fn value_places(s: &[u8], at: usize) -> (Option<ValuePlace>, usize)
    ensures { OfValue s.now at result.0 result.1 }
{
    if text::is_at(s, at, b'=') {
        let a = past_sign(s, at, b'=');
        let e = end_of(tokens::value(s, a));
        return (Some(value_place(s, a, e)), past_white(s, e));
    }
    (None, at)
}

// An item.
pub fn item_places(s: &[u8], at: usize) -> ItemPlaces
    ensures { OfItem s.now at result }
{
    let w = text::row(s, at, Class::WordByte);
    let (value, end) = value_places(s, past_white(s, second_end(s, w)));
    ItemPlaces {
        word: read_command::piece_of(s, at, w),
        second: text::is_at(s, w, b'/'),
        value,
        end,
        inside: inside_of(s, end),
    }
}

// The end of an item that may hold `left` levels.
#[cycle(item_end_items_end)]
#[tactic(auto, using(crate::proofs::PlaceLaws::item_empty, crate::proofs::PlaceLaws::item_braced, crate::proofs::PlaceLaws::item_plain))]
fn item_end(s: &[u8], left: usize, at: usize) -> usize
    ensures { result ≡ (item_at left (items_at left s.now) s.now at).end }
{
    let p = item_places(s, at);
    match p.inside {
        Some(inside) => {
            if read_command::empty_here(s, left, at, inside) {
                return past_closing(s, inside);
            }
            past_closing(s, items_end(s, left, inside))
        }
        None => p.end,
    }
}

// The end of the items of at most `left` levels that begin here.
#[cycle(item_end_items_end)]
fn items_end(s: &[u8], left: usize, at: usize) -> usize
    ensures { result ≡ (items_at left s.now at).end }
{
    if left == 0 {
        return at;
    }
    let lower = left - 1;
    let end = |i: usize| -> usize
        ensures { result ≡ (item_at lower (items_at lower s.entry.now) s.entry.now i).end }
    { item_end(s, lower, i) };
    list_end(s, s.len() + 1, at, end)
}

// ---- Local and Remote in a level 1 Media

// Local or Remote with a text.
pub fn speech_places(s: &[u8], at: usize) -> SpeechPlaces
    ensures { OfSpeech s.now at result }
{
    let w = text::row(s, at, Class::WordByte);
    let a = past_opening(s, past_white(s, w));
    let e = end_of(text::octets(s, a));
    SpeechPlaces {
        word: read_command::piece_of(s, at, w),
        text: read_command::piece_of(s, a, e),
        end: past_closing(s, e),
    }
}

// The text of Local or Remote whose parts are found: the part of the message that holds it, in the message's own memory.
#[tactic(auto, unfolding(base::specs::Lists::part))]
pub fn text_of<'a>(s: &'a [u8], p: SpeechPlaces) -> &'a [u8]
    requires { TextWithin s.now p }
    ensures result_value { result.now ≡ bytes_of s.now p.text }
    ensures ref_ptr_value { result.ref_ptr ≡ (s.entry.ref_ptr.0, p.text.from + s.entry.ref_ptr.1) }
{
    &s[p.text.from..p.text.to]
}

// The same of Local or Remote that begins here, for the RTP card: up to the first brace that has no backslash before it.
pub fn speech_text<'a>(s: &'a [u8], at: usize) -> &'a [u8]
    ensures result_value { result.now ≡ text_at s.now at }
    ensures ref_ptr_value { result.ref_ptr ≡ (s.entry.ref_ptr.0, text_place s.now at + s.entry.ref_ptr.1) }
{
    text_of(s, speech_places(s, at))
}

// The end of what stands in a level 1 Media.
#[tactic(auto, using(crate::proofs::PlaceLaws::ends_speech, crate::proofs::PlaceLaws::ends_item))]
pub fn media_item_end(s: &[u8], at: usize) -> usize
    ensures { result ≡ (media_item_at s.now at).end }
{
    if read_command::speech_here(s, at) {
        return speech_places(s, at).end;
    }
    item_end(s, 6, at)
}

fn media_end(s: &[u8], at: usize) -> usize
    ensures { result ≡ (media_at s.now at).end }
{
    let end = |i: usize| -> usize
        ensures { result ≡ (media_item_at s.entry.now i).end }
    { media_item_end(s, i) };
    list_end(s, s.len() + 1, at, end)
}

// The end of a level 1 Media.
#[tactic(auto, using(crate::proofs::PlaceLaws::media_empty, crate::proofs::PlaceLaws::media_braced, crate::proofs::PlaceLaws::media_plain))]
fn whole_media_end(s: &[u8], at: usize) -> usize
    ensures { result ≡ (item_at 7 (media_at s.now) s.now at).end }
{
    let p = item_places(s, at);
    match p.inside {
        Some(inside) => {
            if read_command::empty_here(s, 7, at, inside) {
                return past_closing(s, inside);
            }
            past_closing(s, media_end(s, inside))
        }
        None => p.end,
    }
}

// The end of an item of level 1.
#[tactic(auto, using(crate::proofs::PlaceLaws::ends_media, crate::proofs::PlaceLaws::ends_top))]
pub fn top_item_end(s: &[u8], at: usize) -> usize
    ensures { result ≡ (top_item_at s.now at).end }
{
    if read_command::media_here(s, at) {
        return whole_media_end(s, at);
    }
    item_end(s, 7, at)
}

fn top_end(s: &[u8], at: usize) -> usize
    ensures { result ≡ (top_at s.now at).end }
{
    let end = |i: usize| -> usize
        ensures { result ≡ (top_item_at s.entry.now i).end }
    { top_item_end(s, i) };
    list_end(s, s.len() + 1, at, end)
}

// ---- commands

#[tactic(auto, using(crate::proofs::PlaceLaws::marks_found))]
fn prefixes(s: &[u8], at: usize) -> Marks
    ensures { result ≡ marks_of s.now at }
{
    let o = read_command::prefix_end(s, at, b'O');
    let w = read_command::prefix_end(s, o, b'W');
    Marks {
        optional: at < o,
        wild: o < w,
        at: w,
    }
}

// A command.
pub fn command_places(s: &[u8], at: usize) -> CommandPlaces
    ensures { OfCommand s.now at result }
{
    let m = prefixes(s, at);
    let e = text::row(s, m.at, Class::WordByte);
    let n = past_sign(s, past_white(s, e), b'=');
    let f = end_of(tokens::termination(s, n));
    let end = past_white(s, f);
    CommandPlaces {
        optional: m.optional,
        wild: m.wild,
        word: read_command::piece_of(s, m.at, e),
        name: read_command::piece_of(s, n, f),
        end,
        inside: inside_of(s, end),
    }
}

// The end of a command whose parts are found.
#[tactic(auto, unfolding(crate::specs::Found::command_end_from, crate::specs::Found::closed_end))]
pub fn command_end(s: &[u8], p: CommandPlaces) -> usize
    ensures { result ≡ command_end_from s.now p }
{
    match p.inside {
        Some(inside) => past_closing(s, top_end(s, inside)),
        None => p.end,
    }
}
