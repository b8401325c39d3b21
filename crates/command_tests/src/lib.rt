// What a command's word, its context, its items and its name come to.
#![tactic(auto)]

ghost use Rattle.std.specs.Prelude.{◌≡◌, Ok};
ghost use Rattle.megaco.specs.Table.{Sized};
ghost use Rattle.megaco.specs.State.{state};
ghost use Rattle.megaco.specs.Command.{op_of, no_context, forbidden_in_null, not_for_root, from_test4};
ghost use Rattle.protocol.specs.Ranges.{InRange, JudgedInRange};
ghost use Rattle.run_attempts.specs.Contract.{RunsTo};
ghost use Rattle.command_tests.specs.CommandTests.{found_of, op_by, held_at};

use megaco::{Context, Op, Token, Values};
use run_attempts::{CommandOutcome, Turn};

// The command that a keyword names.
#[tactic(auto, using(megaco::proofs::Meanings::other), unfolding(crate::specs::CommandTests::op_by, base::specs::Pick::pick, megaco::specs::Keywords::is_token))]
fn op_by(k: Token) -> Option<Op>
    ensures { result ≡ op_by k }
{
    match k {
        Token::AddToken => Some(Op::Add),
        Token::ModifyToken => Some(Op::Modify),
        Token::SubtractToken => Some(Op::Subtract),
        Token::MoveToken => Some(Op::Move),
        Token::AuditValueToken => Some(Op::AuditValue),
        _ => None,
    }
}

// The command of a word.
#[tactic(auto, using(crate::proofs::TestLaws::op_wild, crate::proofs::TestLaws::op_of_none))]
pub fn op_of(wild: bool, word: &[u8]) -> Option<Op>
    ensures { found_of result ≡ op_of wild word.now }
{
    if wild {
        return None;
    }
    op_by(keywords::meaning_of(word)?)
}

// 411.
#[tactic(auto, unfolding(megaco::specs::Command::no_context))]
pub fn no_context(op: Op, at: Context, held: u32) -> bool
    ensures { result ≡ no_context op at held }
{
    match at {
        Context::Null => false,
        Context::Numbered(_) => held == 0,
        Context::Choose => op.in_place() | op.is_subtract(),
        Context::All => true,
    }
}

// 421.
#[tactic(auto, unfolding(megaco::specs::Command::forbidden_in_null))]
pub fn forbidden_in_null(op: Op, at: Context) -> bool
    ensures { result ≡ forbidden_in_null op at }
{
    at.is_null() & !op.in_place()
}

// The record of the action's context, 0 if it does not exist.
#[tactic(auto, using(crate::proofs::TestLaws::held_known, crate::proofs::TestLaws::held_none))]
pub fn held_at(table: &[u32], at: Context) -> u32
    ensures { result ≡ held_at at table.now }
{
    let c = at.number();
    if table::is_known(c) {
        table::record_of(table, c)
    } else {
        0
    }
}

// What ROOT may not have: any item; of AuditValue Media alone.
#[tactic(auto, unfolding(megaco::specs::Command::not_for_root))]
fn not_for_root(op: Op, items: bool, values: Values) -> bool
    ensures { result ≡ not_for_root op items values }
{
    match op {
        Op::AuditValue => values.audited,
        _ => items,
    }
}

// Tests 4 to 6.
fn run_named(
    op: Op,
    name: &[u8],
    items: bool,
    values: Values,
    turn: Turn,
    table: &mut [u32],
    blocks: &mut [u32],
    out: &mut [u8],
) -> CommandOutcome
    requires { (Sized table.old) × InRange values }
    ensures { RunsTo (from_test4 op name.now turn.given items (Ok values) turn.at (state table.old blocks.old)) turn.first out.old turn.next (state table.new blocks.new) out.new result }
{
    let n = names::name_of(table::lines(table), name);
    let b = not_for_root(op, items, values);
    let target = targets::target_of(op, turn.at, b, n, table);
    run_attempts::run_targets(op, name, values, target, turn, table, blocks, out)
}

// Test 4 after test 3.
#[tactic(auto, using(crate::proofs::TestLaws::judged_right, crate::proofs::TestLaws::right_in_range))]
pub fn run_judged(
    op: Op,
    name: &[u8],
    items: bool,
    judged: Result<Values, u32>,
    turn: Turn,
    table: &mut [u32],
    blocks: &mut [u32],
    out: &mut [u8],
) -> CommandOutcome
    requires { (Sized table.old) × JudgedInRange judged }
    ensures { RunsTo (from_test4 op name.now turn.given items judged turn.at (state table.old blocks.old)) turn.first out.old turn.next (state table.new blocks.new) out.new result }
{
    match judged {
        Err(code) => run_attempts::command_error(op, name, code, turn, out),
        Ok(values) => run_named(op, name, items, values, turn, table, blocks, out),
    }
}
