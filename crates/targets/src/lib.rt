// Whom a command's name means (document 01, test 4).
#![tactic(auto)]

ghost use Rattle.std.specs.Prelude.{◌≡◌};
ghost use Rattle.megaco.specs.Table.{Sized};
ghost use Rattle.targets.specs.Targets.{root_target, free_target, unchosen_target, one_target, target_of};

use megaco::{Context, Name, Op, Range};

// Whom a command's name means: nobody, with a code; the gateway itself; one termination; those that a wildcard matches. Callers match all four at once, so a Result
// around three of them is no plainer.
#[derive(Clone, Copy)]
pub enum Target {
    NoTarget(u32),
    Gateway,
    One(usize),
    Many(Range),
}

// ROOT.
#[tactic(auto, unfolding(crate::specs::Targets::root_target, base::specs::Pick::pick))]
fn root_target(op: Op, at: Context, items: bool) -> Target
    ensures { result ≡ root_target op at items }
{
    if op.in_place() {
        if at.is_null() {
            if items {
                return Target::NoTarget(447);
            }
            return Target::Gateway;
        }
        return Target::NoTarget(435);
    }
    Target::NoTarget(410)
}

// `$` and `R/$`, with the lowest absent ephemeral.
#[tactic(auto, using(crate::proofs::TargetLaws::free_one), unfolding(crate::specs::Targets::free_target, base::specs::Pick::pick))]
fn free_target(lines: u32, op: Op, n: u32) -> Target
    ensures { result ≡ free_target lines op n }
{
    if op.is_add() {
        if n == 0 {
            return Target::NoTarget(432);
        }
        return Target::One(table::line_terminations(lines) + (n as usize - 1));
    }
    Target::NoTarget(410)
}

#[tactic(auto, unfolding(crate::specs::Targets::unchosen_target, base::specs::Pick::pick))]
fn unchosen_target(op: Op) -> Target
    ensures { result ≡ unchosen_target op }
{
    if op.is_add() {
        return Target::NoTarget(432);
    }
    Target::NoTarget(410)
}

#[tactic(auto, unfolding(crate::specs::Targets::one_target, base::specs::Pick::pick))]
fn one_target(lines: u32, i: usize, word: u32) -> Target
    ensures { result ≡ one_target lines i word }
{
    if table::exists(lines, i, word) {
        return Target::One(i);
    }
    Target::NoTarget(430)
}

// Test 4.
#[tactic(auto, using(crate::proofs::TargetLaws::for_one, crate::proofs::TargetLaws::for_root, crate::proofs::TargetLaws::for_chosen, crate::proofs::TargetLaws::for_unchosen, crate::proofs::TargetLaws::for_wildcard, crate::proofs::TargetLaws::for_unmatched, crate::proofs::TargetLaws::for_unknown))]
pub fn target_of(op: Op, at: Context, items: bool, name: Name, table: &[u32]) -> Target
    requires { Sized table.now }
    ensures { result ≡ target_of op at items name table.now }
{
    match name {
        Name::Termination(i) => one_target(table::lines(table), i, table::context_of(table, i)),
        Name::Root => root_target(op, at, items),
        Name::Chosen => free_target(table::lines(table), op, table::free_ephemeral(table)),
        Name::Unchosen => unchosen_target(op),
        Name::Wildcard(r) => Target::Many(r),
        Name::Unmatched => Target::NoTarget(431),
        Name::Unknown => Target::NoTarget(430),
    }
}
