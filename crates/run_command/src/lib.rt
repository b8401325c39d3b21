// One command of a message: its parts found once, its tests in document 01's order, and what it leaves.
// A code stays a number: the definitions tell it so (`Attempt.judge`, `Items.judge_items`), and the reply writes its digits.
#![tactic(auto)]

ghost use Rattle.std.specs.Prelude.{◌≡◌};
ghost use Rattle.std.proofs.Math.Option.{some};
ghost use Rattle.megaco.specs.Table.{Sized};
ghost use Rattle.megaco.specs.State.{state};
ghost use Rattle.megaco.specs.Command.{op_of, from_test2, from_test1, run_command};
ghost use Rattle.command_places.specs.Found.{items_from, command_end_from};
ghost use Rattle.read_command.specs.Places.{command_at};
ghost use Rattle.run_attempts.specs.Contract.{RunsTo};
ghost use Rattle.run_command.specs.Fails.{optionally, Failed};

use command_places::CommandPlaces;
use megaco::Op;
use run_attempts::{CommandOutcome, Turn};

// What a command leaves, and where its text ends.
#[derive(Clone, Copy)]
pub struct RanCommand {
    pub outcome: CommandOutcome,
    pub end: usize,
}

// Tests 2 to 6.
fn run_tested(
    s: &[u8],
    places: CommandPlaces,
    op: Op,
    name: &[u8],
    turn: Turn,
    table: &mut [u32],
    blocks: &mut [u32],
    out: &mut [u8],
) -> RanCommand
    requires { Sized table.old }
    ensures { RunsTo (from_test2 op name.now (items_from s.now places) turn.given turn.at (state table.old blocks.old)) turn.first out.old turn.next (state table.new blocks.new) out.new result.outcome × (result.end ≡ command_end_from s.now places) }
{
    let held = command_tests::held_at(table, turn.at);
    if command_tests::no_context(op, turn.at, held) {
        return RanCommand {
            outcome: run_attempts::command_error(op, name, 411, turn, out),
            end: command_places::command_end(s, places),
        };
    }
    let x = judge_items::judge_items(s, places, op);
    RanCommand {
        outcome: command_tests::run_judged(
            op,
            name,
            places.inside.is_some(),
            x.judged,
            turn,
            table,
            blocks,
            out,
        ),
        end: x.end,
    }
}

// The transaction goes on after an optional command that failed.
#[tactic(auto, unfolding(crate::specs::Fails::optionally))]
fn past_optional(optional: bool, w: CommandOutcome) -> CommandOutcome
    ensures { result ≡ optionally optional w }
{
    CommandOutcome {
        going: w.going | optional,
        ..w
    }
}

// An action error.
pub fn fail(code: u32, turn: Turn, out: &mut [u8]) -> CommandOutcome
    ensures { Failed code turn out.old out.new result }
{
    let q = report::put_separator(out, turn.next, turn.first);
    CommandOutcome {
        next: report::put_failed(out, q, code),
        at: turn.at,
        going: false,
    }
}

// An action error of a command.
fn fail_command(
    s: &[u8],
    places: CommandPlaces,
    code: u32,
    turn: Turn,
    out: &mut [u8],
) -> RanCommand
    ensures { Failed code turn out.old out.new result.outcome × (result.end ≡ command_end_from s.now places) }
{
    RanCommand {
        outcome: fail(code, turn, out),
        end: command_places::command_end(s, places),
    }
}

// A command that is built: test 1's 421, then the others.
fn run_built(
    s: &[u8],
    places: CommandPlaces,
    op: Op,
    name: &[u8],
    turn: Turn,
    table: &mut [u32],
    blocks: &mut [u32],
    out: &mut [u8],
) -> RanCommand
    requires { Sized table.old }
    ensures { RunsTo (from_test1 places.optional (some op) name.now (items_from s.now places) turn.given turn.at (state table.old blocks.old)) turn.first out.old turn.next (state table.new blocks.new) out.new result.outcome × (result.end ≡ command_end_from s.now places) }
{
    if command_tests::forbidden_in_null(op, turn.at) {
        return fail_command(s, places, 421, turn, out);
    }
    let x = run_tested(s, places, op, name, turn, table, blocks, out);
    RanCommand {
        outcome: past_optional(places.optional, x.outcome),
        ..x
    }
}

// A command whose parts are found.
fn run_found(
    s: &[u8],
    places: CommandPlaces,
    word: &[u8],
    name: &[u8],
    turn: Turn,
    table: &mut [u32],
    blocks: &mut [u32],
    out: &mut [u8],
) -> RanCommand
    requires { Sized table.old }
    ensures { RunsTo (from_test1 places.optional (op_of places.wild word.now) name.now (items_from s.now places) turn.given turn.at (state table.old blocks.old)) turn.first out.old turn.next (state table.new blocks.new) out.new result.outcome × (result.end ≡ command_end_from s.now places) }
{
    match command_tests::op_of(places.wild, word) {
        Some(op) => run_built(s, places, op, name, turn, table, blocks, out),
        None => fail_command(s, places, 443, turn, out),
    }
}

// The command that stands at a place of the message.
pub fn run_command(
    s: &[u8],
    i: usize,
    turn: Turn,
    table: &mut [u32],
    blocks: &mut [u32],
    out: &mut [u8],
) -> RanCommand
    requires { Sized table.old }
    ensures { RunsTo (run_command (command_at s.now i).tree turn.given turn.at (state table.old blocks.old)) turn.first out.old turn.next (state table.new blocks.new) out.new result.outcome × (result.end ≡ (command_at s.now i).end) }
{
    let places = command_places::command_places(s, i);
    let word = &s[places.word.from..places.word.to];
    let name = &s[places.name.from..places.name.to];
    run_found(s, places, word, name, turn, table, blocks, out)
}
