// A table's row, written.
ghost use Rattle.std.specs.Prelude.{[], ◌∷◌, ◌<◌, ◌≤◌};
ghost use Rattle.base.specs.Out.{Appended};
ghost use Rattle.groups.specs.Rows.{encode};
ghost use Rattle.row_laws.specs.Items.{Lines};
ghost use Rattle.row_laws.specs.Row.{item_numbers};
ghost use Rattle.row_laws.specs.Filling.{items, item_at, numbers_from};
ghost use Rattle.row_laws.specs.declared.Item.TheVariants.{Side};

use crate::items;
use row_laws::Item;

fn put_three(out: &mut [u8], at: usize, a: u32, p: u32, y: u32) -> usize
    ensures { Appended out.old at (encode (a ∷ p ∷ y ∷ [])) out.new result }
{
    let q = groups::put_number(out, at, a);
    let q = groups::put_number(out, q, p);
    groups::put_number(out, q, y)
}

// Local or Remote: 0, or 1 and its address, port and type.
fn put_side(out: &mut [u8], at: usize, table: &[u32], k: usize) -> usize
    requires { k ≤ 4096 }
    ensures { Appended out.old at (encode (item_numbers table.now (Side k))) out.new result }
{
    let f = table::word_at(table, k);
    let q = groups::put_number(out, at, f);
    if f == 0 {
        return q;
    }
    let a = table::word_at(table, k + 1);
    let p = table::word_at(table, k + 2);
    let y = table::word_at(table, k + 3);
    put_three(out, q, a, p, y)
}

fn put_item(out: &mut [u8], at: usize, lines: u32, table: &[u32], j: usize) -> usize
    requires { (Lines lines) × (j < items lines) }
    ensures { Appended out.old at (encode (item_numbers table.now (item_at lines j))) out.new result }
{
    let s = items::item_at(lines, j);
    match s {
        Item::Word(k) => {
            let w = table::word_at(table, k);
            groups::put_number(out, at, w)
        }
        Item::Side(k) => put_side(out, at, table, k),
    }
}

pub fn put_items(out: &mut [u8], at: usize, lines: u32, table: &[u32]) -> usize
    requires { Lines lines }
    ensures { Appended out.old at (encode (numbers_from lines table.now (items lines) 0)) out.new result }
{
    let mut p = at;
    for j in 0..items::items(lines) {
        p = put_item(out, p, lines, table, j);
    }
    p
}
