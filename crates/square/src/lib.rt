// The square of flows of one context: eight rows of eight, member i to member j. Two words hold it, rows 0 to 3 in the first.
#![tactic(auto)]

ghost use Rattle.std.specs.Prelude.{◌≡◌, Bool, true, false, [], ◌∷◌, ◌&&◌, ◌+◌, ◌-◌, ◌*◌, ◌<◌, ◌≤◌, ltb, eqb, get_or, set, take, drop};
ghost use Rattle.base.specs.Pick.{pick};
ghost use Rattle.megaco.specs.Square.{bits, of_bits, of_rows, square_of, low_of, high_of, flow_at, paired, directed, up_to, joined_row, joined, parted_flow, parted_row, parted};

use megaco::Direction;
use std::array;

// The eight lowest bits, lowest first.
pub fn row_of(b: u32) -> [bool; 8]
    ensures { result ≡ bits 8 b }
{
    array::from_fn(|j| (b >> j) % 2 == 1)
}

// The square that two words hold.
#[tactic(auto, using(crate::proofs::SquareLaws::unpacked))]
pub fn unpack(words: [u32; 2]) -> [[bool; 8]; 8]
    ensures { result ≡ square_of (get_or words 0 0) (get_or words 1 0) }
{
    let mut rows = [[false; 8]; 8];
    for i in 0..4 {
        rows[i] = row_of((words[0] >> (8 * i)) % 256);
        rows[4 + i] = row_of((words[1] >> (8 * i)) % 256);
    }
    rows
}

// One bit before a number.
fn shifted(b: bool, n: u32) -> u32
    requires { n < 65536 }
    ensures { (result ≡ pick b 1 0 + 2 * n) × (result ≤ 2 * n + 1) }
{
    b as u32 + 2 * n
}

// The number of eight bits.
#[tactic(auto, using(crate::proofs::SquareLaws::number_start, crate::proofs::SquareLaws::number_end, crate::proofs::SquareLaws::number_small))]
pub fn number_of(r: [bool; 8]) -> u32
    ensures { (result ≡ of_bits r) × (result < 256) }
{
    let mut n = 0;
    for j in 0..8 {
        n = shifted(r[7 - j], n);
    }
    n
}

// The word of four rows from one on.
#[tactic(auto, using(crate::proofs::SquareLaws::rows_packed))]
fn word_of(q: &[[bool; 8]; 8], first: usize) -> u32
    requires { first ≤ 4 }
    ensures { result ≡ of_rows (take 4 (drop first q.now)) }
{
    let n0 = number_of(q[first]);
    let n1 = number_of(q[first + 1]);
    let n2 = number_of(q[first + 2]);
    let n3 = number_of(q[first + 3]);
    n0 + 256 * (n1 + 256 * (n2 + 256 * n3))
}

// The two words of a square: rows 0 to 3, and rows 4 to 7.
#[tactic(auto, using(crate::proofs::SquareLaws::both_packed))]
pub fn pack(q: &[[bool; 8]; 8]) -> [u32; 2]
    ensures { result ≡ low_of q.now ∷ high_of q.now ∷ [] }
{
    [word_of(q, 0), word_of(q, 4)]
}

// Whether member i flows to member j; past the square nobody does.
#[tactic(auto, unfolding(base::specs::Pick::pick, megaco::specs::Square::flow_at))]
pub fn flow(q: &[[bool; 8]; 8], i: usize, j: usize) -> bool
    ensures { result ≡ flow_at q.now i j }
{
    if i < 8 {
        if j < 8 {
            return q[i][j];
        }
    }
    false
}

// The pair of i and j, both ways; past the square nothing is set.
#[tactic(auto, unfolding(base::specs::Pick::pick, megaco::specs::Square::paired, megaco::specs::Square::flow_set))]
pub fn set_pair(q: [[bool; 8]; 8], i: usize, j: usize, there: bool, back: bool) -> [[bool; 8]; 8]
    ensures { result ≡ paired q i j there back }
{
    if i < 8 {
        if j < 8 {
            let mut s = q;
            s[i][j] = there;
            s[j][i] = back;
            return s;
        }
    }
    q
}

// What a triple sets.
#[tactic(auto, using(crate::proofs::SquareLaws::direct_isolate, crate::proofs::SquareLaws::direct_oneway, crate::proofs::SquareLaws::direct_bothway))]
pub fn direct(q: [[bool; 8]; 8], d: Direction, i: usize, j: usize) -> [[bool; 8]; 8]
    ensures { result ≡ directed d i j q }
{
    match d {
        Direction::Isolate => set_pair(q, i, j, false, false),
        Direction::Oneway => set_pair(q, i, j, true, false),
        Direction::Bothway => set_pair(q, i, j, true, true),
    }
}

// The place before number k came.
#[tactic(auto, unfolding(base::specs::Pick::pick))]
fn place_before(k: usize, i: usize) -> usize
    ensures { (result ≡ pick (ltb k i) (i - 1) i) × (result ≤ i) }
{
    if k < i {
        return i - 1;
    }
    i
}

// The place while number k was there.
#[tactic(auto, unfolding(base::specs::Pick::pick))]
fn past(k: usize, i: usize) -> usize
    requires { i < 8 }
    ensures { result ≡ pick (ltb i k) i (i + 1) }
{
    if i < k {
        return i;
    }
    i + 1
}

// The places that m members use.
fn places_used(m: usize) -> [bool; 8]
    ensures { result ≡ up_to 8 (λ j. ltb j m) }
{
    array::from_fn(|j| j < m)
}

// A row in which number k has got a place, and flows there.
fn opened(r: [bool; 8], k: usize) -> [bool; 8]
    ensures { result ≡ up_to 8 (λ j. pick (eqb j k) true (get_or r (pick (ltb k j) (j - 1) j) false)) }
{
    array::from_fn(|j| (j == k) | r[place_before(k, j)])
}

// The places that both rows have.
fn both(a: [bool; 8], b: [bool; 8]) -> [bool; 8]
    ensures { result ≡ up_to 8 (λ j. get_or a j false && get_or b j false) }
{
    array::from_fn(|j| a[j] & b[j])
}

// A row without the place i.
fn without(r: [bool; 8], i: usize) -> [bool; 8]
    requires { i < 8 }
    ensures { result ≡ set r i false }
{
    let mut s = r;
    s[i] = false;
    s
}

// Row i of the square in which number k of now m has joined.
fn joined_row(q: &[[bool; 8]; 8], m: usize, used: [bool; 8], k: usize, i: usize) -> [bool; 8]
    requires { (used ≡ up_to 8 (λ j. ltb j m)) × (i < 8) }
    ensures { result ≡ joined_row q.now m k i }
{
    if i < m {
        if i == k {
            return without(used, i);
        }
        return without(both(used, opened(q[place_before(k, i)], k)), i);
    }
    [false; 8]
}

pub fn join_place(q: &[[bool; 8]; 8], m: usize, k: usize) -> [[bool; 8]; 8]
    ensures { result ≡ joined q.now m k }
{
    let used = places_used(m);
    let mut rows = [[false; 8]; 8];
    for i in 0..8 {
        rows[i] = joined_row(q, m, used, k, i);
    }
    rows
}

// A flow of the square that number k has left.
#[tactic(auto, unfolding(megaco::specs::Square::parted_flow))]
fn parted_flow(q: &[[bool; 8]; 8], k: usize, i: usize, j: usize) -> bool
    requires { (i < 8) × (j < 8) }
    ensures { result ≡ parted_flow q.now k i j }
{
    flow(q, past(k, i), past(k, j))
}

fn parted_row(q: &[[bool; 8]; 8], k: usize, i: usize) -> [bool; 8]
    requires { i < 8 }
    ensures { result ≡ parted_row q.now k i }
{
    array::from_fn(|j| parted_flow(q, k, i, j))
}

pub fn part_place(q: &[[bool; 8]; 8], k: usize) -> [[bool; 8]; 8]
    ensures { result ≡ parted q.now k }
{
    let mut rows = [[false; 8]; 8];
    for i in 0..8 {
        rows[i] = parted_row(q, k, i);
    }
    rows
}
