// The first digit matcher (CR 8): a map is loaded once, and a dialled string is followed through all its places at once.
#![tactic(auto)]

ghost use Rattle.std.specs.Prelude.{◌≡◌, false, [], ◌∷◌, ◌<◌, ◌≤◌, length, take, Ok};
ghost use Rattle.base.specs.Out.{Appended};
ghost use Rattle.digits.specs.Symbols.{symbols_of};
ghost use Rattle.digits.specs.DigitMap.{list_f, bare_r, map_r};
ghost use Rattle.digits.specs.Dialling.{first_timer, later_timer, is_dialled, progress, answered, load, dial};
ghost use Rattle.dialling.specs.Cells.{alts_of, plan_in, Keeps, Stores, Listed};
ghost use Rattle.dialling.specs.Live.{advance, Reaches, ReachesAny, Follows};

use digits::{Answer, DialError, Progress, Reach, Timer, ZeroStart};

// The cells that are lent for a map: document 02's.
pub const CELLS: usize = 1040;

// The alternatives that a map can have.
pub const MOST_ALTERNATIVES: usize = 16;

// The places between the elements of one alternative, before the first and behind the last.
const PLACES: usize = CELLS + 1;

// A map that was loaded: the timer before any symbol, and how many of the lent cells it has. The cells hold the selectors of its
// alternatives, 0 after each alternative.
#[derive(Clone, Copy)]
pub struct Loaded {
    pub first: Timer,
    pub count: usize,
}

// ---- following a string

// One more symbol: the live places after it.
fn step(a: &[u32], live: &mut [bool], c: u32)
    requires { (length a.now < length live.old) × (c < 22) }
    ensures { live.new ≡ advance c false false a.now live.old }
{
    let mut reach = false;
    let mut carry = false;
    for i in 0..a.len() {
        let set = a[i];
        let here = live[i] | reach;
        let took = here & map_text::takes(set, c);
        let dot = map_text::dotted(set);
        live[i] = carry | (took & dot);
        reach = here & dot;
        carry = took & !dot;
    }
    live[a.len()] = carry;
}

// Where the string ends: whether the end of the alternative is live, or some place before it.
fn finish(a: &[u32], live: &[bool]) -> Reach
    requires { length a.now < length live.now }
    ensures { Follows a.now live.now [] result }
{
    let mut reach = false;
    let mut longer = false;
    for i in 0..a.len() {
        let here = live[i] | reach;
        longer = longer | live[i];
        reach = here & map_text::dotted(a[i]);
    }
    Reach {
        matched: live[a.len()] | reach,
        longer: longer,
    }
}

// A string, from the live places on.
fn follow(a: &[u32], live: &mut [bool], dialled: &[u8]) -> Reach
    requires { length a.now < length live.old }
    ensures { Follows a.now live.old (symbols_of dialled.now) result }
{
    for b in dialled {
        step(a, live, map_text::symbol(*b));
    }
    finish(a, live)
}

// A string and one alternative, from its first place.
fn walk(a: &[u32], dialled: &[u8]) -> Reach
    requires { length a.now ≤ 1040 }
    ensures { Reaches a.now (symbols_of dialled.now) result }
{
    let mut live = [false; PLACES];
    live[0] = true;
    follow(a, &mut live, dialled)
}

// A string and every alternative.
fn among(cells: &[u32], dialled: &[u8]) -> Reach
    requires { length cells.now ≤ 1040 }
    ensures { ReachesAny (alts_of cells.now) (symbols_of dialled.now) result }
{
    let mut known = digits::NEITHER;
    let mut from: usize = 0;
    for i in 0..cells.len() {
        if cells[i] == 0 {
            known = known.or(walk(&cells[from..i], dialled));
            from = i + 1;
        }
    }
    known
}

// ---- loading a map

// One cell more, as far as there is room.
fn put_cell(cells: &mut [u32], at: usize, x: u32) -> usize
    ensures { Appended cells.old at (x ∷ []) cells.new result }
{
    if at < cells.len() {
        cells[at] = x;
        return at + 1;
    }
    at
}

// The selectors of an alternative that reads well, and 0.
fn fill(s: &[u8], cells: &mut [u32], at: usize) -> usize
    ensures { Stores s.now cells.old at cells.new result }
{
    let mut i: usize = 0;
    let mut p = at;
    for _ in 0..65usize {
        match map_text::element(map_text::rest(s, i)) {
            Ok(Some(x)) => {
                p = put_cell(cells, p, x.set);
                i += x.next;
            }
            Ok(None) => return put_cell(cells, p, 0),
            Err(_) => return p,
        }
    }
    p
}

// A list of alternatives from behind its `(`.
fn list(s: &[u8], cells: &mut [u32]) -> Option<usize>
    ensures { Listed (list_f 16 s.now) cells.old 0 cells.new result }
{
    let mut i: usize = 0;
    let mut n: usize = 0;
    for _ in 0..MOST_ALTERNATIVES {
        let u = map_text::rest(s, i);
        // (tried with `?`: the search for its proof didn't end)
        let Some(b) = map_text::alternative(u) else {
            return None;
        };
        n = fill(map_text::rest(u, b.from), cells, n);
        if text::is_at(u, b.to, b'|') {
            i += b.to + 1;
        } else {
            if map_text::ends_at(u, b.to) {
                return Some(n);
            }
            return None;
        }
    }
    None
}

// A map of one alternative without parentheses.
#[tactic(auto, using(crate::proofs::StoreLaws::bare_bad, crate::proofs::StoreLaws::bare_whole, crate::proofs::StoreLaws::bare_more))]
fn bare(s: &[u8], cells: &mut [u32]) -> Option<usize>
    ensures { Listed (bare_r s.now) cells.old 0 cells.new result }
{
    let n = map_text::string_end(s)?;
    if n == s.len() {
        return Some(fill(s, cells, 0));
    }
    None
}

#[tactic(auto, using(crate::proofs::StoreLaws::map_cut, crate::proofs::StoreLaws::map_list, crate::proofs::StoreLaws::map_bare, text::proofs::TextLaws::next_fits))]
fn store(s: &[u8], cells: &mut [u32]) -> Option<usize>
    ensures { Listed (map_r s.now) cells.old 0 cells.new result }
{
    let p = text::white(s, 0)?;
    if text::is_at(s, p, b'(') {
        return list(map_text::rest(s, p + 1), cells);
    }
    bare(s, cells)
}

// The timer before any symbol: of a start timer of zero the rule decides.
#[tactic(auto, unfolding(digits::specs::Dialling::first_timer, digits::specs::Dialling::zero_timer, base::specs::Pick::pick))]
fn first_timer(start: u32, zero: ZeroStart) -> Timer
    ensures { result ≡ first_timer start zero }
{
    if start == 0 {
        return match zero {
            ZeroStart::Waits => Timer::NoTimer,
            ZeroStart::RunsOut => Timer::RunOut,
        };
    }
    Timer::StartTimer
}

// A map is read and kept in the lent cells, with its start timer and the rule for zero. None where it is malformed or too large.
pub fn load(map: &[u8], start: u32, zero: ZeroStart, cells: &mut [u32; CELLS]) -> Option<Loaded>
    ensures { Keeps (load map.now start zero) result cells.new }
{
    let first = first_timer(start, zero);
    // (tried with `?`: its proof didn't close)
    let x = store(map, cells);
    let Some(n) = x else {
        return None;
    };
    Some(Loaded {
        first: first,
        count: n,
    })
}

// ---- answering

// Whether a string has up to 32 symbols, and nothing else.
pub fn is_dialled(w: &[u8]) -> bool
    ensures { result ≡ is_dialled w.now }
{
    if 32 < w.len() {
        return false;
    }
    w.iter().all(|b| map_text::symbol(*b) < 21)
}

#[tactic(auto, unfolding(digits::specs::Dialling::progress, base::specs::Pick::pick))]
fn progress_of(r: Reach) -> Progress
    ensures { result ≡ progress r.matched r.longer }
{
    match (r.matched, r.longer) {
        (true, true) => Progress::MorePossible,
        (true, false) => Progress::Closed,
        (false, true) => Progress::MoreNeeded,
        (false, false) => Progress::NoMatch,
    }
}

#[tactic(auto, unfolding(digits::specs::Dialling::later_timer))]
fn later_timer(p: Progress) -> Timer
    ensures { result ≡ later_timer p }
{
    match p {
        Progress::NoMatch => Timer::NoTimer,
        Progress::MoreNeeded => Timer::LongTimer,
        Progress::MorePossible => Timer::ShortTimer,
        Progress::Closed => Timer::NoTimer,
    }
}

// The answer, and the timer that goes with it.
pub fn answer(first: Timer, w: &[u8], r: Reach) -> Answer
    ensures { Ok result ≡ answered first w.now (progress r.matched r.longer) }
{
    let p = progress_of(r);
    let timer = if w.is_empty() { first } else { later_timer(p) };
    Answer {
        progress: p,
        timer: timer,
    }
}

// A string and the alternatives in the first cells.
fn among_first(cells: &[u32], count: usize, w: &[u8]) -> Reach
    requires { length cells.now ≤ 1040 }
    ensures { ReachesAny (alts_of (take count cells.now)) (symbols_of w.now) result }
{
    let n = count.min(cells.len());
    among(&cells[0..n], w)
}

// A dialled string is answered, or refused: 6 for the map before 7 for the string.
pub fn dial(l: Option<Loaded>, cells: &[u32; CELLS], w: &[u8]) -> Result<Answer, DialError>
    ensures { result ≡ dial (plan_in l cells.now) w.now }
{
    let Some(map) = l else {
        return Err(DialError::BadMap);
    };
    if !is_dialled(w) {
        return Err(DialError::BadString);
    }
    Ok(answer(map.first, w, among_first(cells, map.count, w)))
}
