// The lent table, whose size tells the lines fitted, read and written by the number of a termination and by the number of a context.
#![tactic(auto)]

ghost use Rattle.std.specs.Prelude.{◌≡◌, ◌+◌, ◌-◌, ◌*◌, ◌/◌, ◌^◌, ◌<◌, ◌≤◌, min, true, [], ◌∷◌, ◌++◌, length, get_or, set, position, eqb};
ghost use Rattle.base.specs.Pick.{pick};
ghost use Rattle.base.specs.Lists.{count, lowest_absent};
ghost use Rattle.megaco.specs.Map.{digits, with_digit, in_use};
ghost use Rattle.megaco.specs.Attempt.{side_writes};
ghost use Rattle.megaco.specs.Names.{within};
ghost use Rattle.megaco.specs.Table.{most_lines, line_terminations, terminations, regions, start_of, place, words, fitted, Sized, prop, rec, used, flow, low_flow, high_flow, ctx, cell, address, get, write, store, apply, places, is_ephemeral, exists, known, members, place_in, free_context, free_ephemeral, used_ephemerals};
ghost use Rattle.table.specs.Sides.{side_number};

use megaco::Side;

// The most lines that can be fitted.
pub const MOST_LINES: u32 = 16;

// Speech channels of a line.
pub const CHANNELS: usize = 31;

pub const EPHEMERALS: u32 = 64;

pub const CONTEXTS: u32 = 128;

// The most terminations that a context holds.
pub const MOST: usize = 8;

// The most terminations that there can be.
pub const MOST_TERMINATIONS: usize = CHANNELS * MOST_LINES as usize + EPHEMERALS as usize;

// The words of the map.
const MAP: usize = 2;

// The words of the flows, two for each context.
const FLOWS: usize = 2 * CONTEXTS as usize;

// The words that tell where speech goes, eight for each ephemeral.
const SPEECH: usize = 8 * EPHEMERALS as usize;

// The words of a table without lines, and those that each line adds.
pub const NO_LINES: usize = 2 * EPHEMERALS as usize + CONTEXTS as usize + MAP + FLOWS + SPEECH;

pub const LINE: usize = 2 * CHANNELS;

// ---- sizes

// Whether there can be so many lines: 1 to 16.
#[tactic(auto, unfolding(megaco::specs::Names::within))]
pub fn are_fitted(lines: u32) -> bool
    ensures { result ≡ within lines most_lines }
{
    (1..=MOST_LINES).contains(&lines)
}

// The lines fitted, as the table's size tells.
#[tactic(auto, unfolding(megaco::specs::Table::fitted))]
fn count_lines(table: &[u32]) -> usize
    ensures { (result ≡ fitted table.now) × (62 * result ≤ length table.now) }
{
    table.len().saturating_sub(NO_LINES) / LINE
}

pub fn lines(table: &[u32]) -> u32
    requires { Sized table.now }
    ensures { result ≡ fitted table.now }
{
    count_lines(table) as u32
}

// All terminations.
pub fn terminations(table: &[u32]) -> usize
    ensures { (result ≡ terminations (fitted table.now)) × (2 * result ≤ 128 + length table.now) }
{
    CHANNELS * count_lines(table) + EPHEMERALS as usize
}

// Terminations of lines have the numbers before this one, ephemerals those from it on.
pub fn line_terminations(lines: u32) -> usize
    ensures { result ≡ line_terminations lines }
{
    CHANNELS * lines as usize
}

// ---- regions: 0 the contexts, 1 the properties, 2 the records, 3 the map, 4 the flows, 5 where speech goes; behind them the table ends

// Where a region starts in a table of so many lines. No other function adds the regions' sizes.
// A region stays a number: `region_start` and `start_by_lines` are documented by it, and an enum would take fewer values.
#[tactic(auto, using(crate::proofs::TableLaws::end_start))]
fn start_of(lines: usize, k: usize) -> usize
    requires { lines ≤ 2 ^ 57 }
    ensures { (result ≡ start_of lines k) × (result ≤ words lines) }
{
    let n = CHANNELS * lines + EPHEMERALS as usize;
    match k {
        0 => 0,
        1 => n,
        2 => n + n,
        3 => n + n + CONTEXTS as usize,
        4 => n + n + CONTEXTS as usize + MAP,
        5 => n + n + CONTEXTS as usize + MAP + FLOWS,
        _ => n + n + CONTEXTS as usize + MAP + FLOWS + SPEECH,
    }
}

pub fn start_by_lines(lines: u32, k: usize) -> usize
    ensures { result ≡ start_of lines k }
{
    start_of(lines as usize, k)
}

// The words of a table of so many lines.
pub fn words_of(lines: u32) -> usize
    ensures { result ≡ words lines }
{
    start_by_lines(lines, 6)
}

#[tactic(auto, using(crate::proofs::TableLaws::start_by))]
pub fn region_start(table: &[u32], k: usize) -> usize
    ensures { (result ≡ start_of (fitted table.now) k) × (result ≤ words 0 + length table.now) }
{
    start_of(count_lines(table), k)
}

// Where a region's word i stands.
#[tactic(auto, using(crate::proofs::TableLaws::word_stands))]
fn word_place(table: &[u32], k: usize, i: usize) -> usize
    requires { i ≤ 2 ^ 62 }
    ensures { result ≡ place k (regions (fitted table.now)) i }
{
    region_start(table, k) + i
}

// The number of a context among the contexts, from 0 on.
fn context_number(c: u32) -> usize
    ensures { result ≡ c - 1 }
{
    (c as usize).saturating_sub(1)
}

// ---- one word

// The word at a place; past the end stands 0.
pub fn word_at(table: &[u32], k: usize) -> u32
    ensures { result ≡ get_or table.now k 0 }
{
    table.get(k).copied().unwrap_or(0)
}

// Sets the word at a place; past the end it changes nothing.
#[tactic(auto, using(crate::proofs::TableLaws::store_past))]
pub fn put_word(table: &mut [u32], k: usize, v: u32)
    ensures { table.new ≡ set table.old k v }
{
    // Kept: tried as `get_mut`, the proof did not close (std says nothing of what the slice is afterwards).
    if k < table.len() {
        table[k] = v;
    }
}

// Where the record of a context stands.
fn record_place(table: &[u32], c: u32) -> usize
    ensures { result ≡ address (fitted table.now) (cell (rec c)) }
{
    word_place(table, 2, context_number(c))
}

// ---- words by number: each kind finds its place in a way of its own, so no one function with a kind is plainer

// The context that a termination stands in, 0 for null.
pub fn context_of(table: &[u32], i: usize) -> u32
    ensures { result ≡ get table.now (ctx i) }
{
    word_at(table, i)
}

pub fn set_context(table: &mut [u32], i: usize, c: u32)
    ensures { table.new ≡ store (write (ctx i) c) table.old }
{
    put_word(table, i, c);
}

// The properties of a termination: mode + 8 × state.
#[tactic(auto, using(crate::proofs::TableLaws::read_beyond))]
pub fn property_of(table: &[u32], i: usize) -> u32
    ensures { result ≡ get table.now (cell (prop i)) }
{
    if i < table.len() {
        let k = word_place(table, 1, i);
        word_at(table, k)
    } else {
        0
    }
}

#[tactic(auto, using(crate::proofs::TableLaws::store_beyond))]
pub fn set_property(table: &mut [u32], i: usize, word: u32)
    ensures { table.new ≡ store (write (cell (prop i)) word) table.old }
{
    if i < table.len() {
        let k = word_place(table, 1, i);
        put_word(table, k, word);
    }
}

// The record of a context, 0 if it is absent.
pub fn record_of(table: &[u32], c: u32) -> u32
    ensures { result ≡ get table.now (cell (rec c)) }
{
    let k = record_place(table, c);
    word_at(table, k)
}

pub fn set_record(table: &mut [u32], c: u32, held: u32)
    ensures { table.new ≡ store (write (cell (rec c)) held) table.old }
{
    let k = record_place(table, c);
    put_word(table, k, held);
}

// ---- the flows

// Where the first of a context's two words of flows stands.
fn flow_place(table: &[u32], c: u32) -> usize
    ensures { result ≡ address (fitted table.now) (cell (flow (low_flow c))) }
{
    word_place(table, 4, 2 * context_number(c))
}

// The two words of a context's flows: rows 0 to 3, and rows 4 to 7.
#[tactic(auto, using(crate::proofs::TableLaws::high_read))]
pub fn flows_of(table: &[u32], c: u32) -> [u32; 2]
    ensures { result ≡ get table.now (cell (flow (low_flow c))) ∷ get table.now (cell (flow (high_flow c))) ∷ [] }
{
    let k = flow_place(table, c);
    [word_at(table, k), word_at(table, k + 1)]
}

pub fn set_low_flow(table: &mut [u32], c: u32, v: u32)
    ensures { table.new ≡ store (write (cell (flow (low_flow c))) v) table.old }
{
    let k = flow_place(table, c);
    put_word(table, k, v);
}

#[tactic(auto, using(crate::proofs::TableLaws::high_put))]
pub fn set_high_flow(table: &mut [u32], c: u32, v: u32)
    ensures { table.new ≡ store (write (cell (flow (high_flow c))) v) table.old }
{
    let k = flow_place(table, c);
    put_word(table, k + 1, v);
}

// Both, the first one first.
#[tactic(auto, unfolding(megaco::specs::Table::apply))]
pub fn set_flows(table: &mut [u32], c: u32, words: [u32; 2])
    ensures { table.new ≡ apply (write (cell (flow (low_flow c))) (get_or words 0 0) ∷ write (cell (flow (high_flow c))) (get_or words 1 0) ∷ []) table.old }
{
    set_low_flow(table, c, words[0]);
    set_high_flow(table, c, words[1]);
}

// ---- the map of the ephemerals

// The lowest number absent in a map, 0 if there is none: C reads this number.
#[tactic(auto, using(crate::proofs::MapLaws::found, crate::proofs::MapLaws::full))]
pub fn free_in(map: u64) -> u32
    ensures { result ≡ lowest_absent 1 (digits 64 map) }
{
    let t = u64::trailing_zeros(!map);
    if t < 64 {
        return t + 1;
    }
    0
}

// How many are in use in a map.
#[tactic(auto, using(crate::proofs::MapLaws::all_used))]
pub fn used_in(map: u64) -> u32
    ensures { result ≡ in_use (digits 64 map) }
{
    u64::count_ones(map)
}

// Two halves as one number.
#[tactic(auto, using(crate::proofs::MapLaws::halves))]
fn joined(low: u32, high: u32) -> u64
    ensures { digits 64 result ≡ digits 32 low ++ digits 32 high }
{
    (low as u64) + (high as u64) * 4294967296
}

// The map as one number.
#[tactic(auto, using(crate::proofs::MapLaws::map_by))]
pub fn map_of(table: &[u32]) -> u64
    ensures { digits 64 result ≡ places table.now }
{
    let a = region_start(table, 3);
    joined(word_at(table, a), word_at(table, a + 1))
}

// A word with one binary digit set or cleared.
#[tactic(auto, using(crate::proofs::MapLaws::still_on, crate::proofs::MapLaws::still_off, crate::proofs::MapLaws::within, crate::proofs::MapLaws::cleared, crate::proofs::MapLaws::fits, crate::proofs::MapLaws::put))]
fn with_digit(w: u32, b: u32, on: bool) -> u32
    requires { b < 32 }
    ensures { result ≡ with_digit b (pick on 1 0) w }
{
    let p = 1u32 << b;
    if (w >> b) % 2 == 1 {
        if on {
            return w;
        }
        return w - p;
    }
    if on {
        return w + p;
    }
    w
}

// The number of an ephemeral among the ephemerals, from 0 on.
fn ephemeral_number(table: &[u32], i: usize) -> usize
    ensures { result ≡ i - line_terminations (fitted table.now) }
{
    i.saturating_sub(CHANNELS * count_lines(table))
}

// Marks an ephemeral in the map as existing or absent.
#[tactic(auto, using(crate::proofs::MapLaws::put_digit))]
pub fn set_used(table: &mut [u32], i: usize, on: bool)
    ensures { table.new ≡ store (write (cell (used i)) (pick on 1 0)) table.old }
{
    let k = ephemeral_number(table, i);
    let a = word_place(table, 3, k / 32);
    let w = word_at(table, a);
    put_word(table, a, with_digit(w, (k % 32) as u32, on));
}

// ---- where speech goes

// The number of an ephemeral in the region of speech: from 127 on, past the table's end, they are not told apart.
const MOST_NUMBER: usize = 127;

fn side_number(side: Side) -> usize
    ensures { (result ≡ side_number side) × (result < 2) }
{
    match side {
        Side::OfLocal => 0,
        Side::OfRemote => 1,
    }
}

// Where the first of the four words of Local or Remote stands.
fn side_place(table: &[u32], i: usize, side: Side) -> usize
    ensures { (result ≡ place 5 (regions (fitted table.now)) (8 * min (i - line_terminations (fitted table.now)) 127 + 4 * side_number side)) × (result ≤ 4096 + length table.now) }
{
    let k = ephemeral_number(table, i).min(MOST_NUMBER);
    region_start(table, 5) + (8 * k + 4 * side_number(side))
}

// Sets the four words of Local or Remote: 1, the address, the port and the payload type, or four zeros.
#[tactic(auto, using(crate::proofs::TableLaws::side_start, crate::proofs::TableLaws::side_step))]
pub fn set_side(table: &mut [u32], i: usize, side: Side, words: [u32; 4])
    ensures { table.new ≡ apply (side_writes i (side_number side) (get_or words 0 0) (get_or words 1 0) (get_or words 2 0) (get_or words 3 0) []) table.old }
{
    let k = side_place(table, i, side);
    for (j, word) in words.iter().enumerate() {
        put_word(table, k + j, *word);
    }
}

// ---- what the words tell

// How often a number stands in a row of words. Counted in 32 bits, as the words are: the compiler then takes four of them at a time.
fn count_in(row: &[u32], c: u32) -> u32
    requires { length row.now ≤ 65536 }
    ensures { result ≡ count c row.now }
{
    row.iter().map(|w| u32::from(*w == c)).sum()
}

// How many terminations stand in a context.
#[tactic(auto, using(crate::proofs::TableLaws::members_part))]
pub fn members(table: &[u32], c: u32) -> usize
    requires { Sized table.now }
    ensures { result ≡ members c table.now }
{
    let n = terminations(table);
    count_in(&table[0..n], c) as usize
}

// The members of a context: how many of them have a lower number than one termination, and how many there are.
#[derive(Clone, Copy)]
pub struct Counted {
    pub place: usize,
    pub members: usize,
}

// How many terminations stand in a context, those with a lower number than i first. The context is one that there can be.
#[tactic(auto, using(crate::proofs::TableLaws::place_part, crate::proofs::TableLaws::both_parts))]
pub fn count_members(table: &[u32], c: u32, i: usize) -> Counted
    requires { (Sized table.now) × (known c ≡ true) }
    ensures { (result.place ≡ place_in c i table.now) × (result.members ≡ members c table.now) }
{
    let n = terminations(table);
    let k = i.min(n);
    let before = count_in(&table[0..k], c) as usize;
    let after = count_in(&table[k..n], c) as usize;
    Counted {
        place: before,
        members: before + after,
    }
}

// Whether there can be such a context.
#[tactic(auto, unfolding(megaco::specs::Table::known))]
pub fn is_known(c: u32) -> bool
    ensures { result ≡ known c }
{
    (1..=CONTEXTS).contains(&c)
}

// The place of a termination among the members of a context.
#[tactic(auto, using(crate::proofs::TableLaws::known_yes, crate::proofs::TableLaws::place_none))]
pub fn place_in(table: &[u32], c: u32, i: usize) -> usize
    requires { Sized table.now }
    ensures { result ≡ place_in c i table.now }
{
    if is_known(c) {
        count_members(table, c, i).place
    } else {
        0
    }
}

// The place of the first 0 in a row of words.
fn first_zero(row: &[u32]) -> Option<usize>
    ensures { result ≡ position (λ w. eqb w 0) row.now }
{
    row.iter().position(|w| *w == 0)
}

// The number of the first 0 in a row of words, counted from 1; 0 if there is none.
fn lowest_absent(row: &[u32]) -> usize
    ensures { result ≡ lowest_absent 1 row.now }
{
    first_zero(row).map_or(0, |i| i + 1)
}

// The lowest number of no context, 0 if there are 128, as the definition `free_context` has it.
#[tactic(auto, using(crate::proofs::TableLaws::records_fit_lem, crate::proofs::TableLaws::records_part))]
pub fn free_context(table: &[u32]) -> u32
    requires { Sized table.now }
    ensures { result ≡ free_context table.now }
{
    let a = region_start(table, 2);
    let e = region_start(table, 3);
    lowest_absent(&table[a..e]) as u32
}

// The lowest absent ephemeral's n of `R/n`, 0 if there are 64, as the definition `free_ephemeral` has it: from the map alone.
#[tactic(auto, using(crate::proofs::MapLaws::free_by))]
pub fn free_ephemeral(table: &[u32]) -> u32
    ensures { result ≡ free_ephemeral table.now }
{
    free_in(map_of(table))
}

// How many ephemerals exist.
#[tactic(auto, using(crate::proofs::MapLaws::used_by))]
pub fn used_ephemerals(table: &[u32]) -> u32
    ensures { result ≡ used_ephemerals table.now }
{
    used_in(map_of(table))
}

#[tactic(auto, unfolding(megaco::specs::Table::is_ephemeral))]
pub fn is_ephemeral(lines: u32, i: usize) -> bool
    ensures { result ≡ is_ephemeral lines i }
{
    line_terminations(lines) <= i
}

// Whether a termination exists, by its number and its context word.
#[tactic(auto, unfolding(megaco::specs::Table::exists, megaco::specs::Table::is_ephemeral))]
pub fn exists(lines: u32, i: usize, word: u32) -> bool
    ensures { result ≡ exists lines i word }
{
    !((line_terminations(lines) <= i) & (word == 0))
}
