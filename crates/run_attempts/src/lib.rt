// The attempts of a command, on those that its name means: each looked at, judged, done and reported.
// A code stays a number: the definitions tell it so (`Attempt.judge`, `Items.judge_items`), and the reply writes its digits.
#![tactic(auto)]

ghost use Rattle.std.specs.Prelude.{◌≡◌, true, false, [], ◌∷◌, ◌-◌, ◌<◌, take};
ghost use Rattle.base.specs.Out.{Appended};
ghost use Rattle.megaco.specs.Table.{line_terminations, Sized};
ghost use Rattle.megaco.specs.Blocks.{block_at};
ghost use Rattle.megaco.specs.State.{state};
ghost use Rattle.megaco.specs.Names.{name_text};
ghost use Rattle.base.specs.Bytes.{◌then◌};
ghost use Rattle.megaco.specs.Reply.{done, refused, tried_text, detail_text, separator, reports_text};
ghost use Rattle.megaco.specs.Attempt.{told_of};
ghost use Rattle.megaco.specs.Command.{attempts, run_targets};
ghost use Rattle.protocol.specs.Ranges.{InRange};
ghost use Rattle.targets.specs.Targets.{targets_in};
ghost use Rattle.targets.specs.declared.Target.TheVariants.{Many};
ghost use Rattle.run_attempts.specs.Contract.{RunsTo, shown, CommandFailed};

use megaco::{Context, Op, Range, Values};
use table::MOST_TERMINATIONS;
use targets::Target;

// Where a transaction stands: the record that its action gives to a context that comes to be, the action's context, whether no report was
// put in the action yet, and the place for the next.
#[derive(Clone, Copy)]
pub struct Turn {
    pub given: u32,
    pub at: Context,
    pub first: bool,
    pub next: usize,
}

// Where a part of a run ends: the place after its text, the action's context, and whether the transaction goes on.
#[derive(Clone, Copy)]
pub struct CommandOutcome {
    pub next: usize,
    pub at: Context,
    pub going: bool,
}

// ---- reports

// The command and the bytes received.
fn put_received(out: &mut [u8], turn: Turn, op: Op, name: &[u8]) -> usize
    ensures { Appended out.old turn.next (separator turn.first then tried_text op name.now) out.new result }
{
    let q = report::put_separator(out, turn.next, turn.first);
    report::put_tried(out, q, op, name)
}

// The command and a termination's full name.
fn put_full(out: &mut [u8], turn: Turn, op: Op, lines: u32, i: usize) -> usize
    requires { 0 < lines }
    ensures { Appended out.old turn.next (separator turn.first then tried_text op (name_text lines i)) out.new result }
{
    let q = report::put_separator(out, turn.next, turn.first);
    report::put_named(out, q, op, lines, i)
}

// What a success tells behind the name: of a Subtract of an ephemeral its figures.
#[tactic(auto, using(statistics::proofs::BlockLaws::first_below))]
fn put_told(
    out: &mut [u8],
    at: usize,
    op: Op,
    audited: bool,
    word: u32,
    lines: u32,
    i: usize,
    blocks: &[u32],
) -> usize
    ensures { Appended out.old at (detail_text (told_of op audited word lines i (block_at (i - line_terminations lines) blocks.now))) out.new result }
{
    let first = table::line_terminations(lines);
    if op.is_subtract() & (first <= i) {
        let x = statistics::block_at(blocks, i - first);
        return report::put_statistics(out, at, x.packets, statistics::reported(x));
    }
    report::put_detail(out, at, audited, word)
}

// The report of an attempt that is done.
fn put_done(
    out: &mut [u8],
    turn: Turn,
    op: Op,
    audited: bool,
    word: u32,
    lines: u32,
    i: usize,
    blocks: &[u32],
) -> usize
    requires { 0 < lines }
    ensures { Appended out.old turn.next (reports_text turn.first (done op (name_text lines i) (told_of op audited word lines i (block_at (i - line_terminations lines) blocks.now)) ∷ [])) out.new result }
{
    let p = put_full(out, turn, op, lines, i);
    put_told(out, p, op, audited, word, lines, i, blocks)
}

// The report of an attempt that failed: a wildcard's bears the full name, another the bytes received.
fn put_refused(
    out: &mut [u8],
    turn: Turn,
    op: Op,
    wild: bool,
    name: &[u8],
    lines: u32,
    i: usize,
    code: u32,
) -> usize
    requires { 0 < lines }
    ensures { Appended out.old turn.next (reports_text turn.first (refused op (shown lines wild i name.now) code ∷ [])) out.new result }
{
    if wild {
        let p = put_full(out, turn, op, lines, i);
        return report::put_code(out, p, code);
    }
    let p = put_received(out, turn, op, name);
    report::put_code(out, p, code)
}

// A command that fails before any attempt.
pub fn command_error(op: Op, name: &[u8], code: u32, turn: Turn, out: &mut [u8]) -> CommandOutcome
    ensures { CommandFailed op name.now code turn out.old out.new result }
{
    let p = put_received(out, turn, op, name);
    let n = report::put_code(out, p, code);
    CommandOutcome {
        next: n,
        at: turn.at,
        going: false,
    }
}

// ---- attempts

// One attempt.
#[tactic(auto, using(crate::proofs::RunsToLaws::look_lines))]
fn try_one(
    op: Op,
    wild: bool,
    name: &[u8],
    values: Values,
    i: usize,
    turn: Turn,
    table: &mut [u32],
    blocks: &mut [u32],
    out: &mut [u8],
) -> CommandOutcome
    requires { (Sized table.old) × InRange values }
    ensures { RunsTo (attempts op wild name.now turn.given values (i ∷ []) turn.at (state table.old blocks.old)) turn.first out.old turn.next (state table.new blocks.new) out.new result }
{
    let at = turn.at;
    let view = attempt_view::look(table, at, i);
    match attempt::judge_attempt(op, at, i, values, view) {
        Ok(()) => {
            attempt::change(table, op, at, turn.given, i, values, view);
            let n = put_done(
                out,
                turn,
                op,
                values.audited,
                view.word,
                view.lines,
                i,
                blocks,
            );
            statistics::renew(blocks, op, view.lines, i);
            CommandOutcome {
                next: n,
                at: attempt::settled(at, view),
                going: true,
            }
        }
        Err(code) => {
            let n = put_refused(out, turn, op, wild, name, view.lines, i, code);
            CommandOutcome {
                next: n,
                at,
                going: false,
            }
        }
    }
}

// The attempts of a wildcard, in the order of its matches.
fn try_each(
    op: Op,
    name: &[u8],
    values: Values,
    matched: &[u32],
    turn: Turn,
    table: &mut [u32],
    blocks: &mut [u32],
    out: &mut [u8],
) -> CommandOutcome
    requires { (Sized table.old) × InRange values }
    ensures { RunsTo (attempts op true name.now turn.given values matched.now turn.at (state table.old blocks.old)) turn.first out.old turn.next (state table.new blocks.new) out.new result }
{
    let mut here = turn;
    let mut going = true;
    for i in matched {
        let w = try_one(
            op,
            true,
            name,
            values,
            *i as usize,
            here,
            table,
            blocks,
            out,
        );
        here = Turn {
            at: w.at,
            first: false,
            next: w.next,
            ..here
        };
        going = going & w.going;
    }
    CommandOutcome {
        next: here.next,
        at: here.at,
        going,
    }
}

// The attempts of a wildcard, in the order of the first n numbers of a row.
fn try_noted(
    op: Op,
    name: &[u8],
    values: Values,
    row: &[u32],
    n: usize,
    turn: Turn,
    table: &mut [u32],
    blocks: &mut [u32],
    out: &mut [u8],
) -> CommandOutcome
    requires { (Sized table.old) × InRange values }
    ensures { RunsTo (attempts op true name.now turn.given values (take n row.now) turn.at (state table.old blocks.old)) turn.first out.old turn.next (state table.new blocks.new) out.new result }
{
    let e = n.min(row.len());
    try_each(op, name, values, &row[..e], turn, table, blocks, out)
}

// The attempts of a wildcard: its matches are noted before the first of them.
fn try_many(
    op: Op,
    name: &[u8],
    values: Values,
    r: Range,
    turn: Turn,
    table: &mut [u32],
    blocks: &mut [u32],
    out: &mut [u8],
) -> CommandOutcome
    requires { (Sized table.old) × InRange values }
    ensures { RunsTo (run_targets op name.now turn.given values (targets_in (Many r) op turn.at table.old) turn.at (state table.old blocks.old)) turn.first out.old turn.next (state table.new blocks.new) out.new result }
{
    let mut matched = [0u32; MOST_TERMINATIONS];
    let n = attempt_view::note_matches(table, op, turn.at, r, &mut matched);
    if n == 0 {
        return command_error(op, name, 431, turn, out);
    }
    try_noted(op, name, values, &matched, n, turn, table, blocks, out)
}

// Tests 5 and 6, for each that the name means.
pub fn run_targets(
    op: Op,
    name: &[u8],
    values: Values,
    target: Target,
    turn: Turn,
    table: &mut [u32],
    blocks: &mut [u32],
    out: &mut [u8],
) -> CommandOutcome
    requires { (Sized table.old) × InRange values }
    ensures { RunsTo (run_targets op name.now turn.given values (targets_in target op turn.at table.old) turn.at (state table.old blocks.old)) turn.first out.old turn.next (state table.new blocks.new) out.new result }
{
    match target {
        Target::NoTarget(code) => command_error(op, name, code, turn, out),
        Target::Gateway => {
            let q = put_received(out, turn, op, b"ROOT");
            CommandOutcome {
                next: q,
                at: turn.at,
                going: true,
            }
        }
        Target::One(i) => try_one(op, false, name, values, i, turn, table, blocks, out),
        Target::Many(r) => try_many(op, name, values, r, turn, table, blocks, out),
    }
}
