// A table built from the bytes of a row.
ghost use Rattle.std.specs.Prelude.{◌≡◌, ◌<◌, ◌≤◌, length};
ghost use Rattle.megaco.specs.Table.{words};
ghost use Rattle.row_laws.specs.Items.{Lines};
ghost use Rattle.row_laws.specs.Filling.{items, item_at, fill_three, fill_item, fill_from, table_over};
ghost use Rattle.row.specs.Steps.{filled_by, whole_by, table_by, Built, Rebuilt};
ghost use Rattle.row_laws.specs.declared.Item.TheVariants.{Word, Side};

use crate::{MOST_WORDS, items, words};
use row_laws::Item;

// One word.
#[tactic(auto, using(crate::proofs::ReadLaws::word_past, crate::proofs::ReadLaws::word_filled))]
fn fill_word(row: &[u8], p: usize, k: usize, table: &mut [u32]) -> Option<usize>
    ensures { filled_by result table.new ≡ fill_item (Word k) row.now p table.old }
{
    let (v, q) = groups::take_number(row, p)?;
    table::put_word(table, k, v);
    Some(q)
}

// Address, port and type after a 1.
#[tactic(auto, using(crate::proofs::ReadLaws::no_address, crate::proofs::ReadLaws::no_port_lem, crate::proofs::ReadLaws::no_kind, crate::proofs::ReadLaws::three_filled))]
fn fill_three(row: &[u8], p: usize, k: usize, table: &mut [u32]) -> Option<usize>
    requires { k ≤ 4096 }
    ensures { filled_by result table.new ≡ fill_three k row.now p table.old }
{
    let (a, q) = groups::take_number(row, p)?;
    let (b, q1) = groups::take_number(row, q)?;
    let (c, q2) = groups::take_number(row, q1)?;
    words::put_words(table, k, 1, a, b, c);
    Some(q2)
}

// Local or Remote: 0, or 1 and three numbers.
#[tactic(auto, using(crate::proofs::ReadLaws::side_past, crate::proofs::ReadLaws::side_empty, crate::proofs::ReadLaws::side_filled, crate::proofs::ReadLaws::side_wrong))]
fn fill_side(row: &[u8], p: usize, k: usize, table: &mut [u32]) -> Option<usize>
    requires { k ≤ 4096 }
    ensures { filled_by result table.new ≡ fill_item (Side k) row.now p table.old }
{
    let (f, q) = groups::take_number(row, p)?;
    if f == 0 {
        words::put_words(table, k, 0, 0, 0, 0);
        return Some(q);
    }
    if f == 1 {
        return fill_three(row, q, k, table);
    }
    None
}

#[tactic(auto, using(crate::proofs::ReadLaws::item_filled))]
fn fill_item(row: &[u8], p: usize, lines: u32, j: usize, table: &mut [u32]) -> Option<usize>
    requires { (Lines lines) × (j < items lines) }
    ensures { filled_by result table.new ≡ fill_item (item_at lines j) row.now p table.old }
{
    let s = items::item_at(lines, j);
    match s {
        Item::Word(k) => fill_word(row, p, k, table),
        Item::Side(k) => fill_side(row, p, k, table),
    }
}

// All items from a place of the row on, and no byte more. A bool says all here and below: what is built stands in the lent table.
fn fill(row: &[u8], first: usize, lines: u32, table: &mut [u32]) -> bool
    requires { Lines lines }
    ensures { whole_by result (length row.now) table.new ≡ fill_from lines row.now (items lines) 0 first table.old }
{
    let mut at = first;
    for j in 0..items::items(lines) {
        let Some(q) = fill_item(row, at, lines, j, table) else {
            return false;
        };
        at = q;
    }
    at == row.len()
}

#[tactic(auto, using(crate::proofs::ReadLaws::build_none, crate::proofs::ReadLaws::build_other, crate::proofs::ReadLaws::build_whole, crate::proofs::ReadLaws::build_unfit))]
fn build(row: &[u8], lines: u32, table: &mut [u32]) -> bool
    requires { (Lines lines) × (length table.old ≡ words lines) }
    ensures { table_by result table.new ≡ table_over lines row.now table.old }
{
    let Some((v, q)) = groups::take_number(row, 0) else {
        return false;
    };
    if v != lines {
        return false;
    }
    if fill(row, q, lines, table) {
        words::work_out_map(lines, table);
        return true;
    }
    false
}

#[tactic(auto, using(crate::proofs::ReadLaws::built_judged, crate::proofs::ReadLaws::built_none))]
fn build_sound(row: &[u8], lines: u32, table: &mut [u32]) -> bool
    requires { (Lines lines) × (length table.old ≡ words lines) }
    ensures { Built lines row.now table.old table.new result }
{
    if build(row, lines, table) {
        return words::is_sound_of(lines, table);
    }
    false
}

// The sound table with that row, made in the words of u and copied from there only where it is sound.
fn rebuild_in(row: &[u8], lines: u32, u: &mut [u32], table: &mut [u32]) -> bool
    requires { (Lines lines) × (length table.old ≡ words lines) × (length u.old ≡ 2018) }
    ensures { Rebuilt lines row.now table.old table.new result }
{
    let m = table.len();
    if build_sound(row, lines, &mut u[0..m]) {
        words::copy_words(u, table);
        return true;
    }
    false
}

pub fn rebuild(row: &[u8], lines: u32, table: &mut [u32]) -> bool
    requires { (Lines lines) × (length table.old ≡ words lines) }
    ensures { Rebuilt lines row.now table.old table.new result }
{
    let mut u = [0u32; MOST_WORDS];
    rebuild_in(row, lines, &mut u, table)
}
