// An action's topology: whom the names of its triples mean, whether one of them is refused, and the flows that they set.
// A code stays a number: the definitions tell it so (`Attempt.judge`, `Items.judge_items`), and the reply writes its digits.
#![tactic(auto)]

ghost use Rattle.std.specs.Prelude.{◌≡◌, [], ◌∷◌, eqb};
ghost use Rattle.base.specs.Lists.{same};
ghost use Rattle.megaco.specs.Bytes.{capital, capitals};
ghost use Rattle.megaco.specs.Reading.{unlimited};
ghost use Rattle.megaco.specs.Table.{Sized};
ghost use Rattle.megaco.specs.Topology.{triples_of, meant, party, links_of, is_unfit, is_absent, is_outside, place_of, set_links};
ghost use Rattle.megaco.specs.Attempt.{seen, flows_of, judge};
ghost use Rattle.megaco.specs.Action.{link_checks};
ghost use Rattle.protocol.specs.Types.{Termination};
ghost use Rattle.read_command.specs.Places.{triple_at, triples_at, property_at, properties_of};
ghost use Rattle.action_places.specs.ActionPlaces.{kind_of};
ghost use Rattle.topology.specs.Links.{link_from, Links, is_topology, flows_after};

use megaco::{Direction, Name, Party, Property};

// A triple with its names looked up, and the place behind it.
#[derive(Clone, Copy)]
pub struct Looked {
    pub twice: bool,
    pub one: Party,
    pub two: Party,
    pub direction: Direction,
    pub end: usize,
}

// ---- names

// Termination i in context c.
#[tactic(auto, unfolding(megaco::specs::Topology::meant, base::specs::Pick::pick))]
fn member(table: &[u32], c: u32, i: usize) -> Party
    requires { Sized table.now }
    ensures { result ≡ meant c table.now (Termination i) }
{
    let here = table::context_of(table, i);
    if table::exists(table::lines(table), i, here) {
        if here == c {
            return Party::Member(table::place_in(table, c, i));
        }
        return Party::Outside;
    }
    Party::Absent
}

#[tactic(auto, unfolding(megaco::specs::Topology::meant))]
fn meant(table: &[u32], c: u32, name: Name) -> Party
    requires { Sized table.now }
    ensures { result ≡ meant c table.now name }
{
    match name {
        Name::Termination(i) => member(table, c, i),
        Name::Unknown => Party::Absent,
        Name::Root | Name::Chosen | Name::Unchosen | Name::Wildcard(_) | Name::Unmatched =>
            Party::Unfit,
    }
}

// Whom the bytes of a name mean in context c.
#[tactic(auto, unfolding(megaco::specs::Topology::party))]
pub fn party(table: &[u32], c: u32, name: &[u8]) -> Party
    requires { Sized table.now }
    ensures { result ≡ party c table.now name.now }
{
    meant(table, c, names::name_of(table::lines(table), name))
}

fn same_letter(a: u8, b: u8) -> bool
    ensures { result ≡ eqb (capital a) (capital b) }
{
    text::capital(a) == text::capital(b)
}

// Whether two names are the same, letter case aside.
#[tactic(auto, using(crate::proofs::NameLaws::unequal, crate::proofs::NameLaws::letters_on, crate::proofs::NameLaws::letters_no, crate::proofs::NameLaws::letters_end))]
fn same_name(a: &[u8], b: &[u8]) -> bool
    ensures { result ≡ same (capitals a.now) (capitals b.now) }
{
    if a.len() != b.len() {
        return false;
    }
    for i in 0..a.len() {
        if !same_letter(a[i], b[i]) {
            return false;
        }
    }
    true
}

// ---- one triple

// The triple that begins here.
#[tactic(auto, using(crate::proofs::LinkLaws::looked_up))]
fn look_up(s: &[u8], at: usize, table: &[u32], c: u32) -> Looked
    requires { Sized table.now }
    ensures { Links s.now at table.now c result }
{
    let p = action_places::triple_places(s, at);
    let one = &s[p.one.from..p.one.to];
    let two = &s[p.two.from..p.two.to];
    Looked {
        twice: same_name(one, two),
        one: party(table, c, one),
        two: party(table, c, two),
        direction: p.direction,
        end: p.end,
    }
}

#[tactic(auto, unfolding(megaco::specs::Topology::is_unfit))]
fn is_unfit(p: Party) -> bool
    ensures { result ≡ is_unfit p }
{
    matches!(p, Party::Unfit)
}

#[tactic(auto, unfolding(megaco::specs::Topology::is_absent))]
fn is_absent(p: Party) -> bool
    ensures { result ≡ is_absent p }
{
    matches!(p, Party::Absent)
}

#[tactic(auto, unfolding(megaco::specs::Topology::is_outside))]
fn is_outside(p: Party) -> bool
    ensures { result ≡ is_outside p }
{
    matches!(p, Party::Outside)
}

#[tactic(auto, unfolding(megaco::specs::Topology::place_of))]
fn place_of(p: Party) -> usize
    ensures { result ≡ place_of p }
{
    match p {
        Party::Member(k) => k,
        _ => 0,
    }
}

// The tests of a triple: 410, 430, 435.
#[tactic(auto, unfolding(megaco::specs::Attempt::judge, megaco::specs::Action::link_checks, crate::specs::Links::link_from, base::specs::Pick::pick))]
fn judge_link(x: Looked) -> Result<(), u32>
    ensures { result ≡ judge (link_checks (link_from x ∷ [])) }
{
    if x.twice | is_unfit(x.one) | is_unfit(x.two) {
        return Err(410);
    }
    if is_absent(x.one) | is_absent(x.two) {
        return Err(430);
    }
    if is_outside(x.one) | is_outside(x.two) {
        return Err(435);
    }
    Ok(())
}

// What a triple sets.
#[tactic(auto, unfolding(megaco::specs::Topology::set_links, megaco::specs::Topology::set_link, crate::specs::Links::link_from))]
fn set_link(x: Looked, q: [[bool; 8]; 8]) -> [[bool; 8]; 8]
    ensures { result ≡ set_links (link_from x ∷ []) q }
{
    square::direct(q, x.direction, place_of(x.one), place_of(x.two))
}

// ---- the triples of one topology

fn judge_triples(s: &[u8], at: usize, table: &[u32], c: u32) -> Result<(), u32>
    requires { Sized table.now }
    ensures { result ≡ judge (link_checks (links_of c table.now (triples_at s.now at).tree)) }
{
    let mut i = at;
    for n in 0..s.len() + 1 {
        let x = look_up(s, i, table, c);
        judge_link(x)?;
        match command_places::next_part(s, x.end) {
            Some(u) => i = u,
            None => return Ok(()),
        }
    }
    Ok(())
}

// Judging stops at a code and setting goes on to the end: a walk for each is no longer than a closure for each, with its clause.
fn set_triples(s: &[u8], at: usize, table: &[u32], c: u32, was: [[bool; 8]; 8]) -> [[bool; 8]; 8]
    requires { Sized table.now }
    ensures { result ≡ set_links (links_of c table.now (triples_at s.now at).tree) was }
{
    let mut i = at;
    let mut q = was;
    for n in 0..s.len() + 1 {
        let x = look_up(s, i, table, c);
        // by a local of its own: the check does not take the square straight into `q`
        let r = set_link(x, q);
        q = r;
        match command_places::next_part(s, x.end) {
            Some(u) => i = u,
            None => return q,
        }
    }
    q
}

// ---- the topologies of an action

#[tactic(auto, unfolding(crate::specs::Links::is_topology))]
pub fn is_topology(x: Property) -> bool
    ensures { result ≡ is_topology x }
{
    matches!(x, Property::Topology)
}

// Those of one property, whose kind is known.
#[tactic(auto, using(crate::proofs::LinkLaws::judged_topology, crate::proofs::LinkLaws::judged_other))]
fn judge_property(s: &[u8], at: usize, x: Property, table: &[u32], c: u32) -> Result<(), u32>
    requires { (Sized table.now) × (x ≡ kind_of (property_at s.now at).tree) }
    ensures { result ≡ judge (link_checks (links_of c table.now (triples_of ((property_at s.now at).tree ∷ [])))) }
{
    if is_topology(x) {
        return judge_triples(s, action_places::triples_start(s, at), table, c);
    }
    Ok(())
}

#[tactic(auto, using(crate::proofs::LinkLaws::set_topology, crate::proofs::LinkLaws::set_other))]
fn set_property(
    s: &[u8],
    at: usize,
    x: Property,
    table: &[u32],
    c: u32,
    was: [[bool; 8]; 8],
) -> [[bool; 8]; 8]
    requires { (Sized table.now) × (x ≡ kind_of (property_at s.now at).tree) }
    ensures { result ≡ set_links (links_of c table.now (triples_of ((property_at s.now at).tree ∷ []))) was }
{
    if is_topology(x) {
        return set_triples(s, action_places::triples_start(s, at), table, c, was);
    }
    was
}

// The tests of every triple of the properties that begin here, in order: the first code.
pub fn judge_topology(s: &[u8], at: usize, table: &[u32], c: u32) -> Result<(), u32>
    requires { Sized table.now }
    ensures { result ≡ judge (link_checks (links_of c table.now (triples_of (properties_of (unlimited s.now) s.now at)))) }
{
    let mut i = at;
    for n in 0..s.len() + 1 {
        if !read_action::property_here(s, i) {
            return Ok(());
        }
        let p = action_places::property_places(s, i);
        judge_property(s, i, p.property, table, c)?;
        match command_places::next_part(s, p.end) {
            Some(u) => i = u,
            None => return Ok(()),
        }
    }
    Ok(())
}

// The flows with every triple of the properties that begin here set in order.
fn set_topology(s: &[u8], at: usize, table: &[u32], c: u32, was: [[bool; 8]; 8]) -> [[bool; 8]; 8]
    requires { Sized table.now }
    ensures { result ≡ set_links (links_of c table.now (triples_of (properties_of (unlimited s.now) s.now at))) was }
{
    let mut i = at;
    let mut q = was;
    for n in 0..s.len() + 1 {
        if !read_action::property_here(s, i) {
            return q;
        }
        let p = action_places::property_places(s, i);
        // as in `set_triples`
        let r = set_property(s, i, p.property, table, c, q);
        q = r;
        match command_places::next_part(s, p.end) {
            Some(u) => i = u,
            None => return q,
        }
    }
    q
}

// The flows of a context; none where there can be no such context.
#[tactic(auto, unfolding(megaco::specs::Attempt::flows_of, megaco::specs::Attempt::seen, base::specs::Pick::pick))]
fn flows_of(table: &[u32], c: u32) -> [[bool; 8]; 8]
    ensures { result ≡ flows_of (seen c table.now) }
{
    if table::is_known(c) {
        return square::unpack(table::flows_of(table, c));
    }
    square::unpack([0, 0])
}

// The flows of a context after the properties that begin here.
#[tactic(auto, unfolding(crate::specs::Links::flows_after))]
pub fn flows_after(s: &[u8], at: usize, table: &[u32], c: u32) -> [[bool; 8]; 8]
    requires { Sized table.now }
    ensures { result ≡ flows_after (properties_of (unlimited s.now) s.now at) c table.now }
{
    set_topology(s, at, table, c, flows_of(table, c))
}
