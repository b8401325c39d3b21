// One attempt: judged by what it saw, and what it changes.
// A code stays a number: the definitions tell it so (`Attempt.judge`, `Items.judge_items`), and the reply writes its digits.
#![tactic(auto)]

ghost use Rattle.std.specs.Prelude.{◌≡◌, [], ◌+◌, ◌<◌, ltb};
ghost use Rattle.base.specs.Pick.{pick};
ghost use Rattle.megaco.specs.Square.{joined, parted};
ghost use Rattle.megaco.specs.Table.{most, apply};
ghost use Rattle.megaco.specs.Items.{update};
ghost use Rattle.megaco.specs.Attempt.{judge, target, speaks, on_line, room_checks, checks, flows_of, flowing, joining, leaving, placed, marking, added, subtracted, speaking, spoken, forgetting, changes, settled};
ghost use Rattle.protocol.specs.Ranges.{InRange};
ghost use Rattle.table.specs.Sides.{side_number};
ghost use Rattle.attempt.specs.Judging.{value_or};

use megaco::{Context, Op, Seen, Side, Speech, Values, View};

// ---- judging

// The state of a termination that may not be moved.
const OUT_OF_SERVICE: u32 = 1;

// 412 and 434.
fn judge_room(at: Context, view: View) -> Result<(), u32>
    ensures { result ≡ judge (room_checks at view) }
{
    let there = view.there;
    if at.is_choose() & (view.free == 0) {
        return Err(412);
    }
    if table::MOST <= there.members {
        return Err(434);
    }
    Ok(())
}

#[tactic(auto, using(crate::proofs::JudgeLaws::speaks_kept, crate::proofs::JudgeLaws::speaks_released, crate::proofs::JudgeLaws::speaks_session))]
fn speaks(s: Speech) -> bool
    ensures { result ≡ speaks s }
{
    match s {
        Speech::Kept => false,
        Speech::Released => true,
        Speech::Session(_address, _port, _payload) => true,
    }
}

// Whether Local or Remote is given to a line.
#[tactic(auto, using(crate::proofs::JudgeLaws::on_line_by))]
fn on_line(lines: u32, i: usize, values: Values) -> bool
    ensures { result ≡ on_line lines i values }
{
    let local = values.local;
    let remote = values.remote;
    !table::is_ephemeral(lines, i) & (speaks(local) | speaks(remote))
}

// Tests 5 and 6.
pub fn judge_attempt(op: Op, at: Context, i: usize, values: Values, view: View) -> Result<(), u32>
    ensures { result ≡ judge (checks op at i values view) }
{
    let c = at.number();
    match op {
        Op::Add => {
            if view.here != 0 {
                return Err(433);
            }
            if on_line(view.lines, i, values) {
                return Err(447);
            }
            judge_room(at, view)
        }
        Op::Modify => {
            if view.here != c {
                return Err(435);
            }
            if on_line(view.lines, i, values) {
                return Err(447);
            }
            Ok(())
        }
        Op::Subtract => {
            if view.here != c {
                return Err(435);
            }
            Ok(())
        }
        Op::Move => {
            if view.here == 0 {
                return Err(435);
            }
            if view.here == c {
                return Err(433);
            }
            if view.word / 8 == OUT_OF_SERVICE {
                return Err(503);
            }
            if on_line(view.lines, i, values) {
                return Err(447);
            }
            judge_room(at, view)
        }
        Op::AuditValue => {
            if view.here != c {
                return Err(435);
            }
            Ok(())
        }
    }
}

// The number of the context that an attempt means.
#[tactic(auto, unfolding(base::specs::Pick::pick, megaco::specs::Attempt::target))]
fn target(at: Context, view: View) -> u32
    ensures { result ≡ target at view }
{
    if at.is_choose() {
        view.free
    } else {
        at.number()
    }
}

// The action's context after an attempt that is done.
#[tactic(auto, unfolding(base::specs::Pick::pick, megaco::specs::Attempt::settled))]
pub fn settled(at: Context, view: View) -> Context
    ensures { result ≡ settled at view }
{
    if at.is_choose() {
        Context::Numbered(view.free)
    } else {
        at
    }
}

// ---- property words

fn value_or(g: Option<u32>, x: u32) -> u32
    ensures { result ≡ value_or g x }
{
    match g {
        None => x,
        Some(y) => y,
    }
}

// A property word with the values given set in it.
fn update(values: Values, word: u32) -> u32
    requires { InRange values }
    ensures { result ≡ update values word }
{
    let mode = values.mode;
    let state = values.state;
    value_or(mode, word % 8) + 8 * value_or(state, word / 8)
}

// The property word that Add starts from.
#[tactic(auto, unfolding(base::specs::Pick::pick, megaco::specs::Attempt::added))]
fn added(lines: u32, i: usize, word: u32) -> u32
    ensures { result ≡ added lines i word }
{
    if table::is_ephemeral(lines, i) {
        0
    } else {
        word
    }
}

// The property word that Subtract leaves.
#[tactic(auto, unfolding(base::specs::Pick::pick, megaco::specs::Attempt::subtracted))]
fn subtracted(lines: u32, i: usize, word: u32) -> u32
    ensures { result ≡ subtracted lines i word }
{
    if table::is_ephemeral(lines, i) {
        0
    } else {
        8 * (word / 8)
    }
}

// ---- changing

// The two words of a context's flows.
pub fn put_flows(table: &mut [u32], c: u32, q: [[bool; 8]; 8])
    ensures { table.new ≡ apply (flowing c q []) table.old }
{
    table::set_flows(table, c, square::pack(&q));
}

// One member more; past the square's places they are not told apart.
#[tactic(auto, unfolding(base::specs::Pick::pick))]
fn one_more(members: usize) -> usize
    ensures { result ≡ pick (ltb members most) (members + 1) most }
{
    if members < table::MOST {
        return members + 1;
    }
    table::MOST
}

// The flows of a context that one more has joined.
#[tactic(auto, using(crate::proofs::ChangeLaws::joined_is))]
fn joined_by(there: Seen, place: usize) -> [[bool; 8]; 8]
    ensures { result ≡ joined (flows_of there) (there.members + 1) place }
{
    let q = square::unpack([there.low, there.high]);
    square::join_place(&q, one_more(there.members), place)
}

// The flows of a context that one has left.
#[tactic(auto, using(crate::proofs::ChangeLaws::parted_is))]
fn parted_by(from: Seen, place: usize) -> [[bool; 8]; 8]
    ensures { result ≡ parted (flows_of from) place }
{
    let q = square::unpack([from.low, from.high]);
    square::part_place(&q, place)
}

// The flows of two members that hear each other: bits 1 and 8.
const TWO: u32 = 258;

fn put_two(table: &mut [u32], c: u32)
    ensures { table.new ≡ apply (flowing c (joined [] 2 0) []) table.old }
{
    table::set_flows(table, c, [TWO, 0]);
}

// The flows of a context that one more joins. Most contexts have two members: the second finds no flows, and the two words are known.
#[tactic(auto, using(crate::proofs::ChangeLaws::join_two, crate::proofs::ChangeLaws::join_more))]
fn join_flows(table: &mut [u32], c: u32, there: Seen, place: usize)
    ensures { table.new ≡ apply (flowing c (joined (flows_of there) (there.members + 1) place) []) table.old }
{
    if (there.members == 1) & (place < 2) {
        put_two(table, c);
    } else {
        put_flows(table, c, joined_by(there, place));
    }
}

// `$` comes to be, with the record given; one that joins is bothway with every other.
#[tactic(auto, using(crate::proofs::ChangeLaws::join_yes, crate::proofs::ChangeLaws::join_no))]
fn join(table: &mut [u32], at: Context, given: u32, view: View)
    ensures { table.new ≡ apply (joining at given view []) table.old }
{
    if at.is_choose() {
        table::set_record(table, view.free, given);
    } else {
        let there = view.there;
        join_flows(table, at.number(), there, view.into);
    }
}

// A context ends with its last termination; another takes its pairs with it.
#[tactic(auto, using(crate::proofs::ChangeLaws::leave_yes, crate::proofs::ChangeLaws::leave_no))]
fn leave(table: &mut [u32], view: View)
    ensures { table.new ≡ apply (leaving view []) table.old }
{
    let from = view.from;
    if from.members <= 1 {
        table::set_record(table, view.here, 0);
    } else {
        put_flows(table, view.here, parted_by(from, view.out));
    }
}

// The map's place of an ephemeral that comes to be or ends.
#[tactic(auto, using(crate::proofs::ChangeLaws::mark_yes, crate::proofs::ChangeLaws::mark_no))]
fn mark(table: &mut [u32], lines: u32, i: usize, on: bool)
    ensures { table.new ≡ apply (marking lines i (pick on 1 0) []) table.old }
{
    if table::is_ephemeral(lines, i) {
        table::set_used(table, i, on);
    }
}

// A termination put into a context, with its property word.
#[tactic(auto, using(crate::proofs::ChangeLaws::place_by_lem))]
fn place(table: &mut [u32], i: usize, c: u32, word: u32)
    ensures { table.new ≡ apply (placed i c word) table.old }
{
    table::set_context(table, i, c);
    table::set_property(table, i, word);
}

// What is given for Local or Remote.
#[tactic(auto, using(crate::proofs::ChangeLaws::speak_kept, crate::proofs::ChangeLaws::speak_released))]
fn speak(table: &mut [u32], i: usize, side: Side, s: Speech)
    ensures { table.new ≡ apply (speaking i (side_number side) s []) table.old }
{
    match s {
        Speech::Kept => {}
        Speech::Released => {
            table::set_side(table, i, side, [0; 4]);
        }
        Speech::Session(address, port, payload) => {
            table::set_side(table, i, side, [1, address, port, payload]);
        }
    }
}

#[tactic(auto, using(crate::proofs::ChangeLaws::both_spoken, crate::proofs::ChangeLaws::none_spoken))]
fn speak_both(table: &mut [u32], i: usize, values: Values)
    ensures { table.new ≡ apply (spoken i values []) table.old }
{
    let local = values.local;
    let remote = values.remote;
    if speaks(local) | speaks(remote) {
        speak(table, i, Side::OfLocal, local);
        speak(table, i, Side::OfRemote, remote);
    }
}

// An ephemeral that ends: where its speech went is forgotten.
#[tactic(auto, using(crate::proofs::ChangeLaws::forget_yes, crate::proofs::ChangeLaws::forget_no))]
fn forget(table: &mut [u32], lines: u32, i: usize)
    ensures { table.new ≡ apply (forgetting lines i []) table.old }
{
    if table::is_ephemeral(lines, i) {
        speak(table, i, Side::OfLocal, Speech::Released);
        speak(table, i, Side::OfRemote, Speech::Released);
    }
}

// What an attempt that is done writes.
#[tactic(auto, using(crate::proofs::ChangeLaws::change_add, crate::proofs::ChangeLaws::change_modify, crate::proofs::ChangeLaws::change_subtract, crate::proofs::ChangeLaws::change_move, crate::proofs::ChangeLaws::change_audit))]
pub fn change(
    table: &mut [u32],
    op: Op,
    at: Context,
    given: u32,
    i: usize,
    values: Values,
    view: View,
)
    requires { InRange values }
    ensures { table.new ≡ apply (changes op at given i values view) table.old }
{
    match op {
        Op::Add => {
            join(table, at, given, view);
            mark(table, view.lines, i, true);
            speak_both(table, i, values);
            place(
                table,
                i,
                target(at, view),
                update(values, added(view.lines, i, view.word)),
            );
        }
        Op::Modify => {
            speak_both(table, i, values);
            table::set_property(table, i, update(values, view.word));
        }
        Op::Subtract => {
            leave(table, view);
            mark(table, view.lines, i, false);
            forget(table, view.lines, i);
            place(table, i, 0, subtracted(view.lines, i, view.word));
        }
        Op::Move => {
            leave(table, view);
            join(table, at, given, view);
            speak_both(table, i, values);
            place(table, i, target(at, view), update(values, view.word));
        }
        Op::AuditValue => {}
    }
}
