// Running the actions of a transaction: each one's start, its commands in order, and its `C=id{..}`.
#![tactic(auto)]

ghost use Rattle.std.specs.Prelude.{◌≡◌, true, false, ◌≤◌, length, take, [], ◌∷◌};
ghost use Rattle.megaco.specs.Table.{Sized, sound};
ghost use Rattle.megaco.specs.State.{state};
ghost use Rattle.base.specs.Out.{Appended};
ghost use Rattle.megaco.specs.Reply.{standing, reports_text};
ghost use Rattle.megaco.specs.Tree.{action};
ghost use Rattle.read_command.specs.Places.{commands_at, commands_in, body_end, action_at, actions_at};
ghost use Rattle.command_tests.specs.CommandTests.{held_at};
ghost use Rattle.start_action.specs.Starting.{properties_in};
ghost use Rattle.run_attempts.specs.Contract.{RunsTo};
ghost use Rattle.run_action.specs.Fold.{run_commands, run_action, run_actions};
ghost use Rattle.run_action.specs.Promises.{around, ActionRunsTo, Wrote};

use megaco::Context;
use read_command::Rest;
use reply::TRANSACTION_ROOM;
use run_attempts::{CommandOutcome, Turn};
use run_command::RanCommand;

// An action that was run: the place after its reply, whether the transaction goes on, and where the action's own text ends.
#[derive(Clone, Copy)]
pub struct RanAction {
    pub next: usize,
    pub going: bool,
    pub end: usize,
}

// A part of a message that was run: the place after its reply, and where its own text ends.
#[derive(Clone, Copy)]
pub struct RanPart {
    pub next: usize,
    pub end: usize,
}

// The commands of an action, in order, until one stops the transaction.
fn run_commands(
    s: &[u8],
    from: usize,
    turn: Turn,
    table: &mut [u32],
    blocks: &mut [u32],
    out: &mut [u8],
) -> RanCommand
    requires { Sized table.old }
    ensures { RunsTo (run_commands (commands_at s.now from).tree turn.given turn.at (state table.old blocks.old)) turn.first out.old turn.next (state table.new blocks.new) out.new result.outcome × (result.end ≡ (commands_at s.now from).end) }
{
    let mut i = from;
    let mut here = turn;
    for n in 0..64 {
        let x = run_command::run_command(s, i, here, table, blocks, out);
        let w = x.outcome;
        if !w.going {
            return RanCommand {
                end: action_places::commands_after(s, 63 - n, x.end),
                ..x
            };
        }
        let Some(u) = command_places::next_part(s, x.end) else {
            return x;
        };
        i = u;
        here = Turn {
            at: w.at,
            first: false,
            next: w.next,
            ..here
        };
    }
    RanCommand {
        outcome: CommandOutcome {
            next: here.next,
            at: here.at,
            going: true,
        },
        end: i,
    }
}

// An action from its start on, its reports being put into a buffer of their own.
#[tactic(auto, using(megaco::proofs::Sizes::sized_same))]
fn run_inner(
    s: &[u8],
    c: Context,
    body: usize,
    rest: Rest,
    table: &mut [u32],
    blocks: &mut [u32],
    out: &mut [u8],
) -> RanCommand
    requires { (Sized table.old) × (held_at c table.old ≤ 32) }
    ensures { RunsTo (run_action (action c (properties_in s.now body) (commands_in s.now rest)) (state table.old blocks.old)) true out.old 0 (state table.new blocks.new) out.new result.outcome × (result.end ≡ body_end s.now rest) }
{
    let held = command_tests::held_at(table, c);
    let any = read_action::property_here(s, body);
    let g = start_action::read_properties(s, body, held);
    let tested = start_action::test_start(s, body, table, c, any, g.over, !rest.commands, held);
    let turn = Turn {
        given: g.fresh,
        at: c,
        first: true,
        next: 0,
    };
    match tested.checked {
        Ok(()) => {
            start_action::start_write(s, body, table, c, any, tested.topology, g.held);
            if rest.commands {
                return run_commands(s, rest.at, turn, table, blocks, out);
            }
            RanCommand {
                outcome: CommandOutcome {
                    next: put_alone(out, g.held),
                    at: c,
                    going: true,
                },
                end: rest.at,
            }
        }
        Err(code) => RanCommand {
            outcome: run_command::fail(code, turn, out),
            end: action_places::body_end(s, rest),
        },
    }
}

// The report of properties alone.
fn put_alone(out: &mut [u8], held: u32) -> usize
    ensures { Appended out.old 0 (reports_text true (standing held ∷ [])) out.new result }
{
    let q = report::put_separator(out, 0, true);
    report::put_standing(out, q, held)
}

// The bytes that were put into a scratch buffer, appended in another.
fn copy(out: &mut [u8], p: usize, inner: &[u8], n: usize) -> usize
    ensures { Appended out.old p (take n inner.now) out.new result }
{
    let e = n.min(inner.len());
    writer::put_bytes(out, p, &inner[..e])
}

// An action's text around the first n bytes of another buffer, which holds its reports.
fn put_action(out: &mut [u8], p: usize, first: bool, c: Context, inner: &[u8], n: usize) -> usize
    ensures { Appended out.old p (around first c (take n inner.now)) out.new result }
{
    let q = report::put_separator(out, p, first);
    let u = reply::put_action_open(out, q, c);
    let v = copy(out, u, inner, n);
    writer::put_byte(out, v, b'}')
}

// The action that stands at a place of the message.
#[tactic(auto, using(crate::proofs::StartedLaws::sound_sized, crate::proofs::StartedLaws::held_small))]
fn run_action(
    s: &[u8],
    i: usize,
    first: bool,
    table: &mut [u32],
    blocks: &mut [u32],
    out: &mut [u8],
    p: usize,
) -> RanAction
    requires { (sound table.old ≡ true) × (length out.old ≤ 2049) }
    ensures { ActionRunsTo (run_action (action_at s.now i).tree (state table.old blocks.old)) first out.old p (state table.new blocks.new) out.new result × (result.end ≡ (action_at s.now i).end) }
{
    let a = action_places::action_places(s, i);
    let rest = action_places::rest_of(s, a.body);
    let mut inner = [0u8; TRANSACTION_ROOM];
    let x = run_inner(s, a.context, a.body, rest, table, blocks, &mut inner);
    let w = x.outcome;
    RanAction {
        next: put_action(out, p, first, w.at, &inner, w.next),
        going: w.going,
        end: command_places::past_closing(s, x.end),
    }
}

// The actions of a transaction, in order, until one stops it.
pub fn run_actions(
    s: &[u8],
    from: usize,
    table: &mut [u32],
    blocks: &mut [u32],
    out: &mut [u8],
    p: usize,
) -> RanPart
    requires { (sound table.old ≡ true) × (length out.old ≤ 2049) }
    ensures { Wrote (run_actions (actions_at s.now from).tree true (state table.old blocks.old)) out.old p (state table.new blocks.new) out.new result.next × (result.end ≡ (actions_at s.now from).end) }
{
    let mut i = from;
    let mut q = p;
    let mut first = true;
    for n in 0..16 {
        let m = run_action(s, i, first, table, blocks, out, q);
        if !m.going {
            return RanPart {
                next: m.next,
                end: action_places::actions_after(s, 15 - n, m.end),
            };
        }
        let Some(u) = command_places::next_part(s, m.end) else {
            return RanPart {
                next: m.next,
                end: m.end,
            };
        };
        i = u;
        q = m.next;
        first = false;
    }
    RanPart { next: q, end: i }
}
