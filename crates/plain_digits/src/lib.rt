// The second digit matcher (CR 9), which people can follow: it tries each alternative from the left, and at a repeated selector it tries once
// without it and once with it. It is there to show why a number failed, and is on no call path.
//
// It stops as soon as both questions are answered yes: the string is matched, and some longer one is. Where they are not, every way through the
// dots is tried: k selectors with a dot that take the same n symbols are tried in (n + k)! / (n! k!) ways. So it does not come back on `x.` 32 times
// with 31 digits and then `A` dialled, which no way matches. The first matcher's work is selectors times symbols at most.
#![tactic(auto)]

ghost use Rattle.std.specs.Prelude.{◌≡◌, ◌<◌, length, get_or};
ghost use Rattle.digits.specs.Symbols.{symbol_of, symbols_of, takes};
ghost use Rattle.digits.specs.DigitMap.{list_f, map_r};
ghost use Rattle.digits.specs.Dialling.{load, dial};
ghost use Rattle.plain_digits.specs.Tries.{Tries, TriesAny};

use dialling::{CELLS, MOST_ALTERNATIVES};
use digits::{Answer, DialError, NEITHER, Reach, ZeroStart};

// Whether a selector takes the string's first symbol.
fn takes_first(set: u32, string: &[u8]) -> bool
    requires { 0 < length string.now }
    ensures { result ≡ takes set (symbol_of (get_or string.now 0 0)) }
{
    map_text::takes(set, map_text::symbol(string[0]))
}

// The alternative at the front of the pattern. Each call has fewer characters of pattern and string left.
fn tries(pattern: &[u8], string: &[u8]) -> Reach
    ensures { Tries pattern.now (symbols_of string.now) result }
{
    match map_text::element(pattern) {
        Ok(Some(x)) => {
            let behind = map_text::rest(pattern, x.next);
            if map_text::dotted(x.set) {
                let without = tries(behind, string);
                if string.is_empty() {
                    return Reach {
                        matched: without.matched,
                        longer: true,
                    };
                }
                if without.matched & without.longer {
                    return without;
                }
                if takes_first(x.set, string) {
                    let with = tries(pattern, map_text::rest(string, 1));
                    return without.or(with);
                }
                return without;
            }
            if string.is_empty() {
                return Reach {
                    matched: false,
                    longer: true,
                };
            }
            if takes_first(x.set, string) {
                return tries(behind, map_text::rest(string, 1));
            }
            NEITHER
        }
        Ok(None) => Reach {
            matched: string.is_empty(),
            longer: false,
        },
        Err(_) => NEITHER,
    }
}

// The alternatives of a list from behind its `(`, each from the left.
fn tries_list(s: &[u8], string: &[u8]) -> Reach
    ensures { TriesAny (list_f 16 s.now) (symbols_of string.now) result }
{
    let mut known = NEITHER;
    let mut i: usize = 0;
    for _ in 0..MOST_ALTERNATIVES {
        if known.matched & known.longer {
            return known;
        }
        let u = map_text::rest(s, i);
        let Some(b) = map_text::alternative(u) else {
            return known;
        };
        known = known.or(tries(map_text::rest(u, b.from), string));
        if !text::is_at(u, b.to, b'|') {
            return known;
        }
        i += b.to + 1;
    }
    known
}

fn tries_map(s: &[u8], string: &[u8]) -> Reach
    ensures { TriesAny (map_r s.now) (symbols_of string.now) result }
{
    let w = text::white(s, 0);
    let Some(p) = w else {
        return NEITHER;
    };
    if text::is_at(s, p, b'(') {
        return tries_list(map_text::rest(s, p + 1), string);
    }
    tries(s, string)
}

// What the first matcher answers and refuses, from the text of the map.
pub fn dial_plain(
    map: &[u8],
    start: u32,
    zero: ZeroStart,
    string: &[u8],
) -> Result<Answer, DialError>
    ensures { result ≡ dial (load map.now start zero) string.now }
{
    let mut cells = [0u32; CELLS];
    let Some(l) = dialling::load(map, start, zero, &mut cells) else {
        return Err(DialError::BadMap);
    };
    if !dialling::is_dialled(string) {
        return Err(DialError::BadString);
    }
    Ok(dialling::answer(l.first, string, tries_map(map, string)))
}
