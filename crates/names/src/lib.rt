// Names of terminations: what the bytes of a name mean. Letter case is folded as they are read.
#![tactic(auto)]

ghost use Rattle.std.specs.Prelude.{◌≡◌, ◌-◌, position, eqb};
ghost use Rattle.base.specs.Lists.{has, before, behind};
ghost use Rattle.megaco.specs.Bytes.{slash, capitals};
ghost use Rattle.megaco.specs.Names.{numeral, within, line_name, ephemeral_name, plain_name, line_range, wildcard_name, name_of, in_range};
ghost use Rattle.names.specs.Digits.{one_digit, two_digits};

use megaco::{Name, Range};
use table::{CHANNELS, EPHEMERALS};

// The meaning of a name of any bytes, on so many lines.
pub fn name_of(lines: u32, n: &[u8]) -> Name
    ensures { result ≡ name_of lines n.now }
{
    if text::is_word(n, b"ROOT") {
        return Name::Root;
    }
    if has_byte(n, b'$') {
        if text::is_word(n, b"$") | text::is_word(n, b"R/$") {
            return Name::Chosen;
        }
        return Name::Unchosen;
    }
    if has_byte(n, b'*') {
        return wildcard_name(lines, n);
    }
    plain_name(lines, n)
}

// Whether a wildcard's range takes in a termination.
pub fn in_range(lines: u32, r: Range, i: usize) -> bool
    ensures { result ≡ in_range lines r i }
{
    match r {
        Range::Everyone => true,
        Range::EveryLine => !table::is_ephemeral(lines, i),
        Range::EveryEphemeral => table::is_ephemeral(lines, i),
        Range::ChannelsOf(l) => (i / CHANNELS + 1 == l as usize) & !table::is_ephemeral(lines, i),
    }
}

// ---- forms of names

// A form with `*` and no `$`.
fn wildcard_name(lines: u32, n: &[u8]) -> Name
    ensures { result ≡ wildcard_name lines (capitals n.now) }
{
    if text::is_word(n, b"*") {
        return Name::Wildcard(Range::Everyone);
    }
    if text::is_word(n, b"L/*") {
        return Name::Wildcard(Range::EveryLine);
    }
    if text::is_word(n, b"R/*") {
        return Name::Wildcard(Range::EveryEphemeral);
    }
    line_range(lines, n)
}

// `L/l/*`, or another name with `*`.
fn line_range(lines: u32, n: &[u8]) -> Name
    ensures { result ≡ line_range lines (capitals n.now) }
{
    let tail = behind_slash(n);
    let l = numeral(before_slash(tail));
    if text::is_word(before_slash(n), b"L")
        & text::is_word(behind_slash(tail), b"*")
        & within(l, lines)
    {
        return Name::Wildcard(Range::ChannelsOf(l));
    }
    Name::Unmatched
}

// A name without `*` and `$`.
fn plain_name(lines: u32, n: &[u8]) -> Name
    ensures { result ≡ plain_name lines (capitals n.now) }
{
    let tail = behind_slash(n);
    if text::is_word(before_slash(n), b"L") {
        return line_name(
            lines,
            numeral(before_slash(tail)),
            numeral(behind_slash(tail)),
        );
    }
    if text::is_word(before_slash(n), b"R") {
        return ephemeral_name(lines, numeral(tail));
    }
    Name::Unknown
}

// `L/l/s`
#[tactic(auto, using(crate::proofs::NameLaws::line_yes, crate::proofs::NameLaws::line_no))]
fn line_name(lines: u32, l: u32, s: u32) -> Name
    ensures { result ≡ line_name lines l s }
{
    if within(l, lines) & within(s, CHANNELS as u32) {
        return Name::Termination(CHANNELS * less(l, 1) as usize + less(s, 1) as usize);
    }
    Name::Unknown
}

// `R/n`
#[tactic(auto, using(crate::proofs::NameLaws::ephemeral_yes, crate::proofs::NameLaws::ephemeral_no))]
fn ephemeral_name(lines: u32, n: u32) -> Name
    ensures { result ≡ ephemeral_name lines n }
{
    if within(n, EPHEMERALS) {
        return Name::Termination(table::line_terminations(lines) + less(n, 1) as usize);
    }
    Name::Unknown
}

// ---- numbers in names

// A number of one or two digits without a leading zero; 0 for any other bytes, as the definition `numeral` has it.
#[tactic(auto, using(crate::proofs::NameLaws::numeral_one, crate::proofs::NameLaws::numeral_two, crate::proofs::NameLaws::numeral_none))]
fn numeral(n: &[u8]) -> u32
    ensures { result ≡ numeral n.now }
{
    if n.len() == 1 {
        return one_digit(n[0]);
    }
    if n.len() == 2 {
        return two_digits(n[0], n[1]);
    }
    0
}

// The digit 0, as a number is reckoned with.
const ZERO: u32 = b'0' as u32;

#[tactic(auto, unfolding(crate::specs::Digits::one_digit, base::specs::Pick::pick))]
fn one_digit(a: u8) -> u32
    ensures { result ≡ one_digit a }
{
    if text::is_digit(a) {
        return less(a as u32, ZERO);
    }
    0
}

#[tactic(auto, using(crate::proofs::NameLaws::two_yes, crate::proofs::NameLaws::two_no))]
fn two_digits(a: u8, b: u8) -> u32
    ensures { result ≡ two_digits a b }
{
    if text::is_digit(a) & text::is_digit(b) & (a != b'0') {
        return 10 * less(a as u32, ZERO) + less(b as u32, ZERO);
    }
    0
}

#[tactic(auto, unfolding(megaco::specs::Names::within))]
fn within(x: u32, most: u32) -> bool
    ensures { result ≡ within x most }
{
    (1..=most).contains(&x)
}

// A difference; 0 where there is none.
fn less(x: u32, y: u32) -> u32
    ensures { result ≡ x - y }
{
    x.saturating_sub(y)
}

// ---- bytes

// What stands before the first `/`, all if there is none.
#[tactic(auto, using(crate::proofs::NameLaws::before_found, crate::proofs::NameLaws::before_none))]
fn before_slash(n: &[u8]) -> &[u8]
    ensures { result.now ≡ before slash n.now }
{
    match slash_place(n) {
        Some(p) => &n[..p],
        None => n,
    }
}

// What stands behind the first `/`, nothing if there is none.
#[tactic(auto, using(crate::proofs::NameLaws::behind_found, crate::proofs::NameLaws::behind_none))]
fn behind_slash(n: &[u8]) -> &[u8]
    ensures { result.now ≡ behind slash n.now }
{
    match slash_place(n) {
        Some(p) => &n[p + 1..],
        None => &n[n.len()..],
    }
}

// The place of the first `/`.
fn slash_place(n: &[u8]) -> Option<usize>
    ensures { result ≡ position (λ b. eqb b slash) n.now }
{
    n.iter().position(|b| *b == b'/')
}

// Whether a byte stands in a name.
#[tactic(auto, using(std::proofs::lemmas::Grind::common_steps, crate::proofs::NameLaws::has_is))]
fn has_byte(n: &[u8], b: u8) -> bool
    ensures { result ≡ has b n.now }
{
    n.contains(&b)
}
