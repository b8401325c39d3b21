// Words, numbers, values, names and the message identifier: readers of one token at a place.
#![tactic(auto)]

ghost use Rattle.std.specs.Prelude.{◌≡◌, ◌<◌, ◌≤◌, length, get_or};
ghost use Rattle.megaco.specs.Bytes.{is_digit};
ghost use Rattle.megaco.specs.White.{after};
ghost use Rattle.megaco.specs.Tokens.{up_to64, word_at, keyword_at, path_start, path_name_at, termination_at, number_end, number_at, quoted_at, plain_at, value_at, port_at, octet_at, address_at, domain_at, m_id_at, is_mid};

use megaco::{Class, Token};

// A part from a place to another, of at most 64 bytes.
#[tactic(auto, unfolding(megaco::specs::Tokens::up_to64, base::specs::Pick::pick, megaco::specs::White::after))]
fn up_to_64(a: usize, e: usize) -> Option<usize>
    requires { a ≤ e }
    ensures { result ≡ up_to64 a e }
{
    if 64 < e - a { None } else { Some(e) }
}

// ---- words and names

// A letter, then up to 63 letters, digits, `_`.
#[tactic(auto, using(crate::proofs::TokenLaws::row_ahead, crate::proofs::TokenLaws::tokens), unfolding(megaco::specs::Tokens::word_at))]
pub fn word(s: &[u8], at: usize) -> Option<usize>
    ensures { result ≡ word_at s.now at }
{
    if text::letter_at(s, at) {
        let e = text::row(s, at, Class::WordByte);
        return up_to_64(at, e);
    }
    None
}

// A word that is the keyword.
#[tactic(auto, using(crate::proofs::TokenLaws::word_ahead, crate::proofs::TokenLaws::word_within), unfolding(megaco::specs::Tokens::keyword_at, base::specs::Lists::part, megaco::specs::White::after, base::specs::Pick::pick))]
pub fn keyword(s: &[u8], at: usize, k: Token) -> Option<usize>
    ensures { result ≡ keyword_at k s.now at }
{
    let e = word(s, at)?;
    if keywords::spells(k, &s[at..e]) {
        return Some(e);
    }
    None
}

// Where the word of a path name begins: past an optional `*`.
#[tactic(auto, using(text::proofs::TextLaws::reads), unfolding(megaco::specs::Tokens::path_start))]
fn path_start(s: &[u8], at: usize) -> usize
    ensures { result ≡ path_start s.now at }
{
    if text::is_at(s, at, b'*') {
        return at + 1;
    }
    at
}

// Optional `*`, a word, then letters, digits, `/` `*` `_` `$`, 64 bytes in all.
#[tactic(auto, using(crate::proofs::TokenLaws::path_ahead, crate::proofs::TokenLaws::path_yes, crate::proofs::TokenLaws::path_no))]
fn path_name(s: &[u8], at: usize) -> Option<usize>
    ensures { result ≡ path_name_at s.now at }
{
    let p = path_start(s, at);
    if text::letter_at(s, p) {
        let e = text::row(s, p, Class::NameByte);
        return up_to_64(at, e);
    }
    None
}

// `*`, `$`, or a path name.
#[tactic(auto, using(text::proofs::TextLaws::reads, crate::proofs::TokenLaws::termination_path, crate::proofs::TokenLaws::termination_star, crate::proofs::TokenLaws::termination_dollar))]
pub fn termination(s: &[u8], at: usize) -> Option<usize>
    ensures { result ≡ termination_at s.now at }
{
    let p = path_start(s, at);
    if text::letter_at(s, p) {
        return path_name(s, at);
    }
    if text::is_at(s, at, b'*') {
        return Some(at + 1);
    }
    text::mark(s, at, b'$')
}

// ---- numbers

// The number that ends here, if it has a digit.
#[tactic(auto, unfolding(megaco::specs::Tokens::number_end, base::specs::Pick::pick, megaco::specs::White::after))]
fn number_end(at: usize, i: usize, v: u64, limit: u32) -> Option<(u32, usize)>
    requires { v ≤ limit }
    ensures { result ≡ number_end at i v }
{
    if at < i {
        return Some((v as u32, i));
    }
    None
}

// 1 to `most` digits, at most `limit`.
#[tactic(auto, using(crate::proofs::NumberLaws::on, crate::proofs::NumberLaws::long, crate::proofs::NumberLaws::big, crate::proofs::NumberLaws::below, crate::proofs::NumberLaws::above, crate::proofs::NumberLaws::end), unfolding(megaco::specs::Tokens::number_at))]
pub fn number(s: &[u8], at: usize, most: usize, limit: u32) -> Option<(u32, usize)>
    ensures { result ≡ number_at s.now at most limit }
{
    let mut v: u64 = 0;
    for i in at..s.len() {
        let b = s[i];
        if b < b'0' {
            return number_end(at, i, v, limit);
        }
        if b'9' < b {
            return number_end(at, i, v, limit);
        }
        let w = v * 10 + (b - b'0') as u64;
        if i - at >= most {
            return None;
        }
        if w > limit as u64 {
            return None;
        }
        v = w;
    }
    number_end(at, at.max(s.len()), v, limit)
}

// ---- values

// A quoted string with 0 to 64 bytes inside.
#[tactic(auto, using(crate::proofs::TokenLaws::row_ahead), unfolding(megaco::specs::Tokens::quoted_at, megaco::specs::White::after))]
fn quoted(s: &[u8], at: usize) -> Option<usize>
    requires { at < length s.now }
    ensures { result ≡ quoted_at s.now at }
{
    let from = at + 1;
    let e = text::row(s, from, Class::QuotedByte);
    let p = up_to_64(from, e)?;
    text::mark(s, p, b'"')
}

// 1 to 64 SafeChar.
#[tactic(auto, unfolding(megaco::specs::Tokens::plain_at, base::specs::Pick::pick, megaco::specs::White::after))]
fn plain(s: &[u8], at: usize) -> Option<usize>
    ensures { result ≡ plain_at s.now at }
{
    let e = text::row(s, at, Class::SafeByte);
    if at < e {
        return up_to_64(at, e);
    }
    None
}

#[tactic(auto, using(text::proofs::TextLaws::within, text::proofs::TextLaws::reads), unfolding(megaco::specs::Tokens::value_at))]
pub fn value(s: &[u8], at: usize) -> Option<usize>
    ensures { result ≡ value_at s.now at }
{
    if text::is_at(s, at, b'"') {
        return quoted(s, at);
    }
    plain(s, at)
}

// ---- the message identifier

// Optional `:` and port.
#[tactic(auto, using(text::proofs::TextLaws::next_fits), unfolding(megaco::specs::Tokens::port_at, megaco::specs::Tokens::after_number, base::specs::Pick::pick))]
fn port(s: &[u8], at: usize) -> Option<usize>
    ensures { result ≡ port_at s.now at }
{
    if text::is_at(s, at, b':') {
        let (_, next) = number(s, at + 1, 5, 65535)?;
        return Some(next);
    }
    Some(at)
}

// One of the four numbers, and the byte after it.
#[tactic(auto, unfolding(megaco::specs::Tokens::octet_at, megaco::specs::Tokens::after_number, megaco::specs::White::after, base::specs::Pick::pick))]
fn octet(s: &[u8], at: usize, b: u8) -> Option<usize>
    requires { 0 < b }
    ensures { result ≡ octet_at b s.now at }
{
    let (_, next) = number(s, at, 3, 255)?;
    text::mark(s, next, b)
}

// `[`four numbers joined by dots`]`.
#[tactic(auto, unfolding(megaco::specs::Tokens::address_at, megaco::specs::White::after, base::specs::Pick::pick))]
fn address(s: &[u8], at: usize) -> Option<usize>
    requires { at < length s.now }
    ensures { result ≡ address_at s.now at }
{
    let p = octet(s, at + 1, b'.')?;
    let q = octet(s, p, b'.')?;
    let u = octet(s, q, b'.')?;
    octet(s, u, b']')
}

#[tactic(auto, using(crate::proofs::TokenLaws::no_digit))]
fn digit_at(s: &[u8], at: usize) -> bool
    ensures { result ≡ is_digit (get_or s.now at 0) }
{
    if at < s.len() {
        text::is_digit(s[at])
    } else {
        false
    }
}

// `<`letter or digit, then up to 63 letters, digits, `-`, `.``>`.
#[tactic(auto, using(crate::proofs::TokenLaws::row_ahead), unfolding(megaco::specs::Tokens::domain_at, megaco::specs::Tokens::letter_at, megaco::specs::White::after, base::specs::Pick::pick))]
fn domain(s: &[u8], at: usize) -> Option<usize>
    requires { at < length s.now }
    ensures { result ≡ domain_at s.now at }
{
    let from = at + 1;
    if text::letter_at(s, from) | digit_at(s, from) {
        let e = text::row(s, from, Class::DomainByte);
        let p = up_to_64(from, e)?;
        return text::mark(s, p, b'>');
    }
    None
}

#[tactic(auto, using(text::proofs::TextLaws::within), unfolding(megaco::specs::Tokens::m_id_at, megaco::specs::White::after, base::specs::Pick::pick))]
pub fn mid(s: &[u8], at: usize) -> Option<usize>
    ensures { result ≡ m_id_at s.now at }
{
    if text::is_at(s, at, b'[') {
        return port(s, address(s, at)?);
    }
    if text::is_at(s, at, b'<') {
        return port(s, domain(s, at)?);
    }
    path_name(s, at)
}

// The gateway's own mId: the whole slice, at most 64 bytes.
#[tactic(auto, unfolding(megaco::specs::Tokens::is_mid, megaco::specs::Tokens::whole_at))]
pub fn is_mid(own: &[u8]) -> bool
    ensures { result ≡ is_mid own.now }
{
    own.len() <= 64 && mid(own, 0) == Some(own.len())
}
