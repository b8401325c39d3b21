// Leaf readers: bytes and their classes, words in any letter case, white space, rows of bytes, given bytes. Keywords are in crate keywords.
#![tactic(auto)]

ghost use Rattle.std.specs.Prelude.{◌≡◌, ◌<◌, ◌&&◌, not, eqb};
ghost use Rattle.base.specs.Lists.{is_at, same};
ghost use Rattle.megaco.specs.Bytes.{right_brace, is_letter, is_digit, is_white, is_line_end, is_comment, capital, capitals};
ghost use Rattle.megaco.specs.White.{goes_on, inside_after, stop_at, white_at, sep_at};
ghost use Rattle.megaco.specs.Tokens.{mark_at, sign_at, letter_at, row_at, octets_at};
ghost use Rattle.text.specs.Classes.{low_of, high_of, half_of, OfMaps};

use megaco::Class;

// ---- bytes

// Whether a byte stands at a place. Past the end stands 0.
#[tactic(auto, unfolding(base::specs::Lists::is_at, base::specs::Pick::pick))]
pub fn is_at(s: &[u8], at: usize, b: u8) -> bool
    ensures { result ≡ is_at s.now at b }
{
    if at < s.len() { s[at] == b } else { 0 == b }
}

#[tactic(auto, unfolding(megaco::specs::Bytes::is_letter, base::specs::Pick::pick))]
fn is_letter(b: u8) -> bool
    ensures { result ≡ is_letter b }
{
    (b'A' <= b) & (b <= b'Z') | (b'a' <= b) & (b <= b'z')
}

#[tactic(auto, unfolding(megaco::specs::Bytes::is_digit, base::specs::Pick::pick))]
pub fn is_digit(b: u8) -> bool
    ensures { result ≡ is_digit b }
{
    (b'0' <= b) & (b <= b'9')
}

#[tactic(auto, using(crate::proofs::TextLaws::no_letter), unfolding(megaco::specs::Tokens::letter_at))]
pub fn letter_at(s: &[u8], at: usize) -> bool
    ensures { result ≡ letter_at s.now at }
{
    if at < s.len() {
        is_letter(s[at])
    } else {
        false
    }
}

// A small letter as its capital; any other byte as it is.
#[tactic(auto, unfolding(megaco::specs::Bytes::capital, base::specs::Pick::pick))]
pub fn capital(b: u8) -> u8
    ensures { result ≡ capital b }
{
    if (b'a' <= b) & (b <= b'z') {
        return b - 0x20;
    }
    b
}

// Whether a byte, a letter in either case, is this one.
#[tactic(auto, unfolding(base::specs::Pick::pick))]
pub fn same_letter(x: u8, y: u8) -> bool
    ensures { result ≡ eqb (capital x) y }
{
    capital(x) == y
}

// Whether a word, in any letter case, is this one in capital letters.
#[tactic(auto, using(crate::proofs::WordLaws::unequal, crate::proofs::WordLaws::word_on, crate::proofs::WordLaws::word_no, crate::proofs::WordLaws::word_end))]
pub fn is_word(w: &[u8], form: &[u8]) -> bool
    ensures { result ≡ same (capitals w.now) form.now }
{
    if w.len() != form.len() {
        return false;
    }
    for i in 0..w.len() {
        if !same_letter(w[i], form[i]) {
            return false;
        }
    }
    true
}

// ---- classes of bytes

// A class as two maps: bit n of the low one for byte n, of the high one for byte 64 + n.
fn low_of(k: Class) -> u64
    ensures { result ≡ low_of k }
{
    match k {
        Class::WordByte => 0x03ff_0000_0000_0000,
        Class::NameByte => 0x03ff_8410_0000_0000,
        Class::SafeByte => 0x83ff_eff2_0000_0000,
        Class::QuotedByte => 0xffff_fffb_0000_0200,
        Class::DomainByte => 0x03ff_6000_0000_0000,
    }
}

fn high_of(k: Class) -> u64
    ensures { result ≡ high_of k }
{
    match k {
        Class::WordByte => 0x07ff_fffe_87ff_fffe,
        Class::NameByte => 0x07ff_fffe_87ff_fffe,
        Class::SafeByte => 0x57ff_ffff_d7ff_ffff,
        Class::QuotedByte => 0x7fff_ffff_ffff_ffff,
        Class::DomainByte => 0x07ff_fffe_07ff_fffe,
    }
}

// The map that has the byte's bit.
#[tactic(auto, unfolding(crate::specs::Classes::half_of, base::specs::Pick::pick))]
fn half(b: u8, low: u64, high: u64) -> u64
    ensures { result ≡ half_of b low high }
{
    if b < 64 {
        return low;
    }
    if b < 128 {
        return high;
    }
    0
}

// Whether a byte is in the class that has these maps.
#[tactic(auto, using(crate::proofs::ClassLaws::of_maps))]
fn in_maps(b: u8, low: u64, high: u64) -> bool
    ensures { OfMaps b low high result }
{
    (half(b, low, high) >> (b % 64)) % 2 == 1
}

// The end of the bytes of a class that stand here.
pub fn row(s: &[u8], at: usize, k: Class) -> usize
    ensures { result ≡ row_at k s.now at }
{
    let low = low_of(k);
    let high = high_of(k);
    for i in at..s.len() {
        if !in_maps(s[i], low, high) {
            return i;
        }
    }
    at.max(s.len())
}

// ---- white space

#[tactic(auto, unfolding(megaco::specs::Bytes::is_white, base::specs::Pick::pick))]
fn is_white(b: u8) -> bool
    ensures { result ≡ is_white b }
{
    (b == b' ') | (b == b'\t') | (b == b'\r') | (b == b'\n')
}

#[tactic(auto, unfolding(megaco::specs::Bytes::is_line_end, base::specs::Pick::pick))]
pub fn is_line_end(b: u8) -> bool
    ensures { result ≡ is_line_end b }
{
    (b == b'\r') | (b == b'\n')
}

#[tactic(auto, unfolding(megaco::specs::Bytes::is_comment, base::specs::Pick::pick))]
fn is_comment(b: u8) -> bool
    ensures { result ≡ is_comment b }
{
    (b == b'\t') | (b' ' <= b) & (b <= b'~')
}

// A byte that white space goes on with, inside a comment or outside one.
#[tactic(auto, using(crate::proofs::TextLaws::goes_inside, crate::proofs::TextLaws::goes_outside))]
fn goes_on(inside: bool, b: u8) -> bool
    ensures { result ≡ goes_on inside b }
{
    if inside {
        is_comment(b) | is_line_end(b)
    } else {
        is_white(b) | (b == b';')
    }
}

// A comment begins with `;` and ends with its line end.
#[tactic(auto, using(crate::proofs::TextLaws::stays_inside, crate::proofs::TextLaws::begins))]
fn inside_after(inside: bool, b: u8) -> bool
    ensures { result ≡ inside_after inside b }
{
    if inside { !is_line_end(b) } else { b == b';' }
}

// White space may stop outside a comment only.
#[tactic(auto, unfolding(megaco::specs::White::stop_at, base::specs::Pick::pick, megaco::specs::White::after))]
fn stop_at(inside: bool, i: usize) -> Option<usize>
    ensures { result ≡ stop_at inside i }
{
    if inside {
        return None;
    }
    Some(i)
}

// White space of some bytes.
fn white_run(s: &[u8], at: usize) -> Option<usize>
    ensures { result ≡ white_at s.now at }
{
    let mut inside = false;
    for i in at..s.len() {
        let b = s[i];
        if !goes_on(inside, b) {
            return stop_at(inside, i);
        }
        inside = inside_after(inside, b);
    }
    stop_at(inside, at.max(s.len()))
}

// White space that may stand here. Most often there is none.
#[tactic(auto, using(crate::proofs::TextLaws::no_white, crate::proofs::TextLaws::white_beyond))]
pub fn white(s: &[u8], at: usize) -> Option<usize>
    ensures { result ≡ white_at s.now at }
{
    if at < s.len() {
        if goes_on(false, s[at]) {
            return white_run(s, at);
        }
    }
    Some(at)
}

// White space that must stand here.
#[tactic(auto, unfolding(megaco::specs::White::sep_at, megaco::specs::White::after, base::specs::Pick::pick))]
pub fn sep(s: &[u8], at: usize) -> Option<usize>
    ensures { result ≡ sep_at s.now at }
{
    let p = white(s, at)?;
    if at < p {
        return Some(p);
    }
    None
}

// ---- the text in the braces of Local or Remote

// Whether a byte ends it, told whether a backslash stands before.
fn closes(b: u8, escaped: bool) -> bool
    ensures { result ≡ (eqb b right_brace && not escaped) }
{
    (b == b'}') & !escaped
}

// The first closing brace that has no backslash before it; a byte 0 before it is a fault.
#[tactic(auto, using(crate::proofs::OctetLaws::zero_byte, crate::proofs::OctetLaws::closed, crate::proofs::OctetLaws::octets_on, crate::proofs::OctetLaws::no_brace), unfolding(megaco::specs::Tokens::octets_at))]
pub fn octets(s: &[u8], at: usize) -> Option<usize>
    ensures { result ≡ octets_at s.now at }
{
    let mut escaped = false;
    for i in at..s.len() {
        let b = s[i];
        if b == 0 {
            return None;
        }
        if closes(b, escaped) {
            return Some(i);
        }
        escaped = b == b'\\';
    }
    None
}

// ---- given bytes

// One given byte.
#[tactic(auto, using(crate::proofs::TextLaws::reads), unfolding(megaco::specs::Tokens::mark_at))]
pub fn mark(s: &[u8], at: usize, b: u8) -> Option<usize>
    requires { 0 < b }
    ensures { result ≡ mark_at b s.now at }
{
    if is_at(s, at, b) {
        return Some(at + 1);
    }
    None
}

// One given byte, and white space after it.
#[tactic(auto, unfolding(megaco::specs::Tokens::sign_at, megaco::specs::White::after, base::specs::Pick::pick))]
pub fn sign(s: &[u8], at: usize, b: u8) -> Option<usize>
    requires { 0 < b }
    ensures { result ≡ sign_at b s.now at }
{
    let p = mark(s, at, b)?;
    white(s, p)
}
