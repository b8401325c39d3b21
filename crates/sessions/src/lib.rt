// The lines that the listing program takes and prints.
#![tactic(auto)]

ghost use Rattle.std.specs.Prelude.{◌≡◌, [], ◌∷◌, ◌+◌, ◌<◌, length};
ghost use Rattle.base.specs.Out.{Appended};
ghost use Rattle.sessions.specs.Lines.{line_end, line_from, line_end_at};
ghost use Rattle.sessions.specs.Listing.{member_text, members_text, properties_text, context_line, context_lines, present, count_line, parts_text, contexts_text, refused_text};

const LINE_END: u8 = b'\n';

// ---- lines taken

// Where the line at a place of a chunk ends: the place of its line end, or the chunk's end.
pub fn line_end(chunk: &[u8], from: usize) -> usize
    ensures { result ≡ line_end_at chunk.now from }
{
    let rest = chunk.get(from..).unwrap_or(&[]);
    from + rest
        .iter()
        .position(|b| *b == LINE_END)
        .unwrap_or(rest.len())
}

// Puts the bytes of that line behind those that are held of it, as far as the buffer reaches: a line that is longer than the buffer
// fills it, however long it is.
pub fn take_part(chunk: &[u8], from: usize, line: &mut [u8], held: usize) -> usize
    ensures { Appended line.old held (line_from chunk.now from) line.new result }
{
    if chunk.len() <= from {
        return held;
    }
    let e = line_end(chunk, from);
    writer::put_bytes(line, held, &chunk[from..e])
}

// ---- lines printed

pub fn put_line_end(out: &mut [u8], at: usize) -> usize
    ensures { Appended out.old at (line_end ∷ []) out.new result }
{
    writer::put_byte(out, at, LINE_END)
}

// The line for a call turned down with document 01's number.
pub fn put_refused(out: &mut [u8], at: usize, n: u32) -> usize
    ensures { Appended out.old at (refused_text n) out.new result }
{
    let p = writer::put_bytes(out, at, b"refused ");
    let q = writer::put_decimal(out, p, n as usize);
    put_line_end(out, q)
}

// One termination's name, if it stands in the context.
fn put_member(out: &mut [u8], at: usize, lines: u32, c: usize, i: usize, word: u32) -> usize
    requires { 0 < lines }
    ensures { Appended out.old at (member_text lines c i word) out.new result }
{
    if word as usize == c {
        let p = writer::put_byte(out, at, b' ');
        return report::put_name(out, p, lines, i);
    }
    at
}

// The names of a context's members, from the context words.
fn put_members(out: &mut [u8], at: usize, lines: u32, c: usize, row: &[u32]) -> usize
    requires { 0 < lines }
    ensures { Appended out.old at (members_text lines c row.now) out.new result }
{
    let mut p = at;
    for (i, word) in row.iter().enumerate() {
        p = put_member(out, p, lines, c, i, *word);
    }
    p
}

// Priority and emergency, from the context's record.
fn put_properties(out: &mut [u8], at: usize, held: u32) -> usize
    ensures { Appended out.old at (properties_text held) out.new result }
{
    let p = writer::put_byte(out, at, b' ');
    let q = writer::put_decimal(out, p, numbers::priority(held) as usize);
    let u = writer::put_byte(out, q, b' ');
    writer::put_decimal(out, u, numbers::emergency(held) as usize)
}

// One context's line, none if it is absent.
fn put_context(out: &mut [u8], at: usize, lines: u32, c: usize, held: u32, row: &[u32]) -> usize
    requires { 0 < lines }
    ensures { Appended out.old at (context_line lines row.now c held) out.new result }
{
    if held == 0 {
        return at;
    }
    let p = writer::put_decimal(out, at, c);
    let q = put_properties(out, p, held);
    let u = put_members(out, q, lines, c, row);
    put_line_end(out, u)
}

// The lines of all contexts, from the context words and the records.
fn put_lines(out: &mut [u8], at: usize, lines: u32, row: &[u32], records: &[u32]) -> usize
    requires { 0 < lines }
    ensures { Appended out.old at (context_lines lines row.now records.now) out.new result }
{
    let mut p = at;
    for (i, record) in records.iter().enumerate() {
        p = put_context(out, p, lines, i + 1, *record, row);
    }
    p
}

// How many contexts there are.
fn count_present(records: &[u32]) -> usize
    ensures { result ≡ present records.now }
{
    records.iter().filter(|record| **record != 0).count()
}

fn put_count_line(out: &mut [u8], at: usize, n: usize) -> usize
    ensures { Appended out.old at (count_line n) out.new result }
{
    let p = writer::put_bytes(out, at, b"contexts ");
    let q = writer::put_decimal(out, p, n);
    put_line_end(out, q)
}

// The count and the lines, from the context words and the records.
fn put_parts(out: &mut [u8], at: usize, lines: u32, row: &[u32], records: &[u32]) -> usize
    requires { 0 < lines }
    ensures { Appended out.old at (parts_text lines row.now records.now) out.new result }
{
    let n = count_present(records);
    let p = put_count_line(out, at, n);
    put_lines(out, p, lines, row, records)
}

// The contexts of a table of so many lines.
pub fn put_contexts(out: &mut [u8], at: usize, lines: u32, table: &[u32]) -> usize
    requires { 0 < lines }
    ensures { Appended out.old at (contexts_text lines table.now) out.new result }
{
    let a = table::start_by_lines(lines, 1).min(table.len());
    let b = table::start_by_lines(lines, 2).min(table.len());
    let e = table::start_by_lines(lines, 3).min(table.len());
    put_parts(out, at, lines, &table[0..a], &table[b..e])
}
