// An action's start: its properties, its tests, and what it sets (document 01, 'Running').
// A code stays a number: the definitions tell it so (`Attempt.judge`, `Items.judge_items`), and the reply writes its digits.
#![tactic(auto)]

ghost use Rattle.std.specs.Prelude.{◌≡◌, true, false, ◌≤◌};
ghost use Rattle.megaco.specs.Table.{Sized, apply};
ghost use Rattle.megaco.specs.Reading.{is_property, word_here};
ghost use Rattle.megaco.specs.Topology.{any_topology};
ghost use Rattle.megaco.specs.Attempt.{number_of};
ghost use Rattle.topology.specs.Links.{flows_after};
ghost use Rattle.start_action.specs.Starting.{over_one, set_one, judged_start, linked, Tests, property_writes, wrote_start, properties_in, given_by};

use megaco::{Context, Property};

// The properties of an action: whether a priority is over 15, and if not, the record that they make of a new context's and of the
// one held; else 0 for both.
// `over` stands by itself, since the tests of a start take it by itself: an Option of the two would be taken apart for them.
#[derive(Clone, Copy)]
pub struct PropertiesRead {
    pub over: bool,
    pub fresh: u32,
    pub held: u32,
}

// A priority over 15.
#[tactic(auto, unfolding(crate::specs::Starting::over_one))]
fn is_over(x: Property) -> bool
    ensures { result ≡ over_one x }
{
    match x {
        Property::Priority(n) => 15 < n,
        Property::Emergency => false,
        Property::Topology => false,
    }
}

// A record with one property set in it.
#[tactic(auto, unfolding(crate::specs::Starting::over_one, crate::specs::Starting::set_one))]
fn set_one(x: Property, held: u32) -> u32
    requires { (over_one x ≡ false) × (held ≤ 32) }
    ensures { (result ≡ set_one x held) × (result ≤ 32) }
{
    match x {
        Property::Priority(n) => 1 + n + 16 * numbers::emergency(held),
        Property::Emergency => 1 + numbers::priority(held) + 16,
        Property::Topology => held,
    }
}

// The properties that begin here.
pub fn read_properties(s: &[u8], at: usize, held: u32) -> PropertiesRead
    requires { held ≤ 32 }
    ensures { result ≡ given_by (properties_in s.now at) held }
{
    let mut i = at;
    let mut a: u32 = 1;
    let mut b = held;
    for n in 0..s.len() + 1 {
        if !read_action::property_here(s, i) {
            break;
        }
        let p = action_places::property_places(s, i);
        if is_over(p.property) {
            return PropertiesRead {
                over: true,
                fresh: 0,
                held: 0,
            };
        }
        a = set_one(p.property, a);
        b = set_one(p.property, b);
        match command_places::next_part(s, p.end) {
            Some(u) => i = u,
            None => break,
        }
    }
    PropertiesRead {
        over: false,
        fresh: a,
        held: b,
    }
}

// Whether topology is among the properties that begin here.
fn has_topology(s: &[u8], at: usize) -> bool
    ensures { result ≡ any_topology (properties_in s.now at) }
{
    let mut i = at;
    for n in 0..s.len() + 1 {
        if !read_action::property_here(s, i) {
            return false;
        }
        let p = action_places::property_places(s, i);
        if topology::is_topology(p.property) {
            return true;
        }
        match command_places::next_part(s, p.end) {
            Some(u) => i = u,
            None => return false,
        }
    }
    false
}

// ---- the tests

// The tests at the start, those of the triples being made already: the code of an action error.
#[tactic(auto, unfolding(crate::specs::Starting::judged_start, base::specs::Pick::pick))]
fn judge_start(
    c: Context,
    any: bool,
    over: bool,
    topology: bool,
    alone: bool,
    held: u32,
    linked: Result<(), u32>,
) -> Result<(), u32>
    ensures { result ≡ judged_start c any over topology alone held linked }
{
    match c {
        Context::Null => {
            if any {
                return Err(421);
            }
            Ok(())
        }
        Context::Numbered(_) => {
            if over {
                return Err(449);
            }
            if any & (held == 0) {
                return Err(411);
            }
            linked
        }
        Context::Choose => {
            if any & alone | topology {
                return Err(421);
            }
            if over {
                return Err(449);
            }
            Ok(())
        }
        Context::All => Err(421),
    }
}

// The tests of the triples, where there are some.
#[tactic(auto, using(crate::proofs::StartLaws::links_none, crate::proofs::StartLaws::links_judged))]
fn judge_links(s: &[u8], body: usize, table: &[u32], c: Context, topology: bool) -> Result<(), u32>
    requires { (Sized table.now) × (topology ≡ any_topology (properties_in s.now body)) }
    ensures { result ≡ linked c (properties_in s.now body) table.now }
{
    if topology {
        return topology::judge_topology(s, body, table, c.number());
    }
    Ok(())
}

// What an action's start comes to: whether topology is given, and the tests.
#[derive(Clone, Copy)]
pub struct Tested {
    pub topology: bool,
    pub checked: Result<(), u32>,
}

// All tests at an action's start, `any` telling whether properties are given.
#[tactic(auto, using(crate::proofs::StartLaws::tested_by))]
pub fn test_start(
    s: &[u8],
    body: usize,
    table: &[u32],
    c: Context,
    any: bool,
    over: bool,
    alone: bool,
    held: u32,
) -> Tested
    requires { (Sized table.now) × (any ≡ is_property (word_here s.now body)) }
    ensures { Tests (properties_in s.now body) c table.now any over alone held result }
{
    let t = topology_given(s, body, any);
    let linked = judge_links(s, body, table, c, t);
    Tested {
        topology: t,
        checked: judge_start(c, any, over, t, alone, held, linked),
    }
}

// Whether topology is given, `any` telling whether properties are.
#[tactic(auto, using(crate::proofs::StartLaws::none_given))]
fn topology_given(s: &[u8], body: usize, any: bool) -> bool
    requires { any ≡ is_property (word_here s.now body) }
    ensures { result ≡ any_topology (properties_in s.now body) }
{
    if any {
        return has_topology(s, body);
    }
    false
}

// ---- what it sets

// The record of a numbered context, and its flows where topology is given. The names of the triples are looked up before anything is written.
#[tactic(auto, unfolding(crate::specs::Starting::property_writes, crate::specs::Starting::properties_in, megaco::specs::Table::apply, base::specs::Pick::pick))]
fn write_properties(s: &[u8], body: usize, table: &mut [u32], n: u32, topology: bool, held: u32)
    requires { Sized table.old }
    ensures { table.new ≡ apply (property_writes n topology held (flows_after (properties_in s.now body) n table.old)) table.old }
{
    if topology {
        let q = topology::flows_after(s, body, table, n);
        table::set_record(table, n, held);
        attempt::put_flows(table, n, q);
    } else {
        table::set_record(table, n, held);
    }
}

// Sets the properties given in a numbered context.
#[tactic(auto, unfolding(crate::specs::Starting::wrote_start, megaco::specs::Table::apply, base::specs::Pick::pick))]
pub fn start_write(
    s: &[u8],
    body: usize,
    table: &mut [u32],
    c: Context,
    any: bool,
    topology: bool,
    held: u32,
)
    requires { Sized table.old }
    ensures { table.new ≡ apply (wrote_start c any topology held (flows_after (properties_in s.now body) (number_of c) table.old)) table.old }
{
    if let Context::Numbered(n) = c {
        if any {
            write_properties(s, body, table, n, topology, held);
        }
    }
}
