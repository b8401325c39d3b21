// The words of a lent table.
ghost use Rattle.std.specs.Prelude.{◌≡◌, ◌≤◌, length, take, eqb};
ghost use Rattle.base.specs.Pick.{pick};
ghost use Rattle.megaco.specs.Table.{words};
ghost use Rattle.row_laws.specs.Filling.{set4, map_word, mapped};
ghost use Rattle.row_laws.specs.Answers.{sound_of};

// Whether a table is a sound one of so many lines.
pub fn is_sound_of(lines: u32, table: &[u32]) -> bool
    ensures { result ≡ sound_of lines table.now }
{
    if table.len() == table::words_of(lines) {
        return sound::is_sound(table);
    }
    false
}

// Sets the four words of Local or Remote.
pub fn put_words(table: &mut [u32], k: usize, f: u32, a: u32, p: u32, y: u32)
    requires { k ≤ 4096 }
    ensures { table.new ≡ set4 table.old k f a p y }
{
    table::put_word(table, k, f);
    table::put_word(table, k + 1, a);
    table::put_word(table, k + 2, p);
    table::put_word(table, k + 3, y);
}

fn bit(c: u32) -> u32
    ensures { result ≡ pick (eqb c 0) 0 1 }
{
    if c == 0 { 0 } else { 1 }
}

// The map of the ephemerals with these context words.
fn map_word(row: &[u32]) -> u32
    requires { length row.now ≤ 32 }
    ensures { result ≡ map_word row.now }
{
    let mut w: u32 = 0;
    for i in (0..row.len()).rev() {
        w = bit(row[i]) + 2 * w;
    }
    w
}

// "The map of CR 5 is worked out."
pub fn work_out_map(lines: u32, table: &mut [u32])
    requires { (lines ≤ 16) × (length table.old ≡ words lines) }
    ensures { table.new ≡ mapped lines table.old }
{
    let first = table::line_terminations(lines);
    let low = map_word(&table[first..first + 32]);
    let high = map_word(&table[first + 32..first + 64]);
    let a = table::start_by_lines(lines, 3);
    table::put_word(table, a, low);
    table::put_word(table, a + 1, high);
}

// As many words as there is room for.
pub fn copy_words(from: &[u32], to: &mut [u32])
    requires { length to.old ≤ length from.now }
    ensures { to.new ≡ take (length to.old) from.now }
{
    let n = to.len();
    to.copy_from_slice(&from[..n]);
}
