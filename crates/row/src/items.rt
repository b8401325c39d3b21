// Where the items of a row stand in the table.
ghost use Rattle.std.specs.Prelude.{◌≡◌, ◌+◌, ◌<◌, ◌≤◌};
ghost use Rattle.megaco.specs.Table.{line_terminations};
ghost use Rattle.row_laws.specs.Filling.{items, termination_item, context_item, item_at};

use row_laws::Item;
use table::{CONTEXTS, EPHEMERALS};

// How many items a row has: two for each termination of a line, four for each ephemeral, three for each context.
pub fn items(lines: u32) -> usize
    requires { lines ≤ 16 }
    ensures { result ≡ items lines }
{
    2 * table::line_terminations(lines) + 4 * EPHEMERALS as usize + 3 * CONTEXTS as usize
}

// The context of a termination, item 0, or its properties, item 1.
fn termination_word(lines: u32, i: usize, k: usize) -> Item
    requires { (lines ≤ 16) × (i ≤ 4096) × (k < 2) }
    ensures { result ≡ termination_item lines i k }
{
    if k == 0 {
        return Item::Word(i);
    }
    let a = table::start_by_lines(lines, 1);
    Item::Word(a + i)
}

// The same of an ephemeral, or its Local, item 2, or Remote, item 3.
fn ephemeral_item(lines: u32, e: usize, k: usize) -> Item
    requires { (lines ≤ 16) × (e ≤ 2048) × (k < 4) }
    ensures { result ≡ termination_item lines (line_terminations lines + e) k }
{
    if k < 2 {
        let first = table::line_terminations(lines);
        return termination_word(lines, first + e, k);
    }
    let a = table::start_by_lines(lines, 5);
    Item::Side(a + (8 * e + 4 * (k - 2)))
}

// The record of context c + 1, item 0, or a flow word, items 1 and 2.
fn context_item(lines: u32, c: usize, k: usize) -> Item
    requires { (lines ≤ 16) × (c ≤ 2048) × (k < 3) }
    ensures { result ≡ context_item lines (c + 1) k }
{
    if k == 0 {
        let a = table::start_by_lines(lines, 2);
        return Item::Word(a + c);
    }
    let a = table::start_by_lines(lines, 4);
    Item::Word(a + (2 * c + (k - 1)))
}

// Item j of the row.
pub fn item_at(lines: u32, j: usize) -> Item
    requires { (lines ≤ 16) × (j ≤ 2048) }
    ensures { result ≡ item_at lines j }
{
    let first = 2 * table::line_terminations(lines);
    if j < first {
        return termination_word(lines, j / 2, j % 2);
    }
    let next = first + 4 * EPHEMERALS as usize;
    if j < next {
        return ephemeral_item(lines, (j - first) / 4, (j - first) % 4);
    }
    context_item(lines, (j - next) / 3, (j - next) % 3)
}
