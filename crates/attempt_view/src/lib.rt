// What an attempt sees of the table, and whom a wildcard matches.
#![tactic(auto)]

ghost use Rattle.std.specs.Prelude.{◌≡◌, ◌<◌, length, true};
ghost use Rattle.megaco.specs.Table.{Sized, known};
ghost use Rattle.megaco.specs.Attempt.{free_at, look};
ghost use Rattle.megaco.specs.Command.{wanted, matches_from, matches};
ghost use Rattle.attempt_view.specs.Sight.{SeesContext};
ghost use Rattle.attempt_view.specs.Noted.{is_match, Noted, Matched};

use megaco::{Context, Op, Range, Seen, View};

// The lowest number absent, asked in `$` alone.
#[tactic(auto, unfolding(megaco::specs::Attempt::free_at))]
fn free_at(table: &[u32], at: Context) -> u32
    requires { Sized table.now }
    ensures { result ≡ free_at at table.now }
{
    match at {
        Context::Choose => table::free_context(table),
        _ => 0,
    }
}

// A context as it is seen, and the place of one termination among its members.
#[derive(Clone, Copy)]
pub struct ContextSeen {
    pub seen: Seen,
    pub place: usize,
}

// A context and the place of termination i in it; nothing where there can be no such context.
#[tactic(auto, using(crate::proofs::ViewLaws::found_none, table::proofs::TableLaws::known_yes))]
fn find(table: &[u32], c: u32, i: usize) -> ContextSeen
    requires { Sized table.now }
    ensures { SeesContext c i table.now result }
{
    if table::is_known(c) {
        find_known(table, c, i)
    } else {
        let s = Seen {
            held: 0,
            members: 0,
            low: 0,
            high: 0,
        };
        ContextSeen { seen: s, place: 0 }
    }
}

fn find_known(table: &[u32], c: u32, i: usize) -> ContextSeen
    requires { (Sized table.now) × (known c ≡ true) }
    ensures { SeesContext c i table.now result }
{
    let n = table::count_members(table, c, i);
    let [low, high] = table::flows_of(table, c);
    let s = Seen {
        held: table::record_of(table, c),
        members: n.members,
        low,
        high,
    };
    ContextSeen {
        seen: s,
        place: n.place,
    }
}

// The same of context d, where it is not the one that was found already.
#[tactic(auto, using(crate::proofs::ViewLaws::found_same))]
fn find_other(table: &[u32], c: u32, found: ContextSeen, d: u32, i: usize) -> ContextSeen
    requires { (Sized table.now) × (SeesContext c i table.now found) }
    ensures { SeesContext d i table.now result }
{
    if c == d {
        return found;
    }
    find(table, d, i)
}

// What an attempt sees: termination i, the action's context, and the context that i stands in.
pub fn look(table: &[u32], at: Context, i: usize) -> View
    requires { Sized table.now }
    ensures { result ≡ look at i table.now }
{
    let here = table::context_of(table, i);
    let c = at.number();
    let there = find(table, c, i);
    let from = find_other(table, c, there, here, i);
    let word = table::property_of(table, i);
    let free = free_at(table, at);
    let lines = table::lines(table);
    let a = there.seen;
    let b = from.seen;
    View {
        here,
        word,
        there: a,
        from: b,
        free,
        lines,
        into: there.place,
        out: from.place,
    }
}

// ---- wildcards

// Whether a command on context c is for a termination with this context word.
#[tactic(auto, unfolding(megaco::specs::Command::wanted))]
fn is_wanted(op: Op, c: u32, word: u32) -> bool
    ensures { result ≡ wanted op c word }
{
    match op {
        Op::Add => word == 0,
        Op::Modify | Op::Subtract | Op::AuditValue => word == c,
        Op::Move => (word != 0) & (word != c),
    }
}

#[tactic(auto, unfolding(crate::specs::Noted::is_match))]
fn is_match(lines: u32, op: Op, c: u32, r: Range, i: usize, word: u32) -> bool
    ensures { result ≡ is_match lines op c r i word }
{
    names::in_range(lines, r, i) & table::exists(lines, i, word) & is_wanted(op, c, word)
}

// Notes a number at a place, if it is to be noted, and gives the next place.
#[tactic(auto, unfolding(base::specs::Pick::pick))]
fn note(out: &mut [u32], n: usize, i: u32, yes: bool) -> usize
    requires { n < 65536 }
    ensures { Noted out.old n i yes out.new result }
{
    if yes {
        table::put_word(out, n, i);
        n + 1
    } else {
        n
    }
}

// Notes whom a wildcard matches in a row of context words.
#[tactic(auto, using(crate::proofs::ViewLaws::noting_start))]
fn note_row(lines: u32, row: &[u32], op: Op, c: u32, r: Range, out: &mut [u32]) -> usize
    requires { length row.now < 65536 }
    ensures { Matched (matches_from lines op c r 0 row.now) out.old out.new result }
{
    let mut n: usize = 0;
    for (i, word) in row.iter().enumerate() {
        n = note(out, n, i as u32, is_match(lines, op, c, r, i, *word));
    }
    n
}

// Notes whom a wildcard matches, in ascending number, before anything changes; gives how many.
pub fn note_matches(table: &[u32], op: Op, at: Context, r: Range, out: &mut [u32]) -> usize
    requires { Sized table.now }
    ensures { Matched (matches op at r table.now) out.old out.new result }
{
    let n = table::terminations(table);
    let lines = table::lines(table);
    note_row(lines, &table[0..n], op, at.number(), r, out)
}
