// A table carried to a spare as a row of numbers (document 02, CR 14): written, and read.
#![tactic(auto)]

ghost use Rattle.row_laws.specs.Answers.{Wrote, Read};

use row_laws::RowError;

mod items;
mod reading;
mod words;
mod writing;

// The least length of an output, of the contexts as text too.
pub const LEAST_OUTPUT: usize = 8192;

// The words of the largest table.
const MOST_WORDS: usize = 2018;

// Writes the table's row. The bytes after it stay.
pub fn write(lines: u32, table: &[u32], out: &mut [u8]) -> Result<usize, RowError>
    ensures { Wrote lines table.now out.old out.new result }
{
    if !table::are_fitted(lines) {
        return Err(RowError::LinesUnfit);
    }
    if out.len() < LEAST_OUTPUT {
        return Err(RowError::OutputTooShort);
    }
    if words::is_sound_of(lines, table) {
        let p = groups::put_number(out, 0, lines);
        let e = writing::put_items(out, p, lines, table);
        return Ok(e);
    }
    Err(RowError::TableUnsound)
}

// Reads a row into the table. Where the row is refused the table stays as it was.
pub fn read(lines: u32, row: &[u8], table: &mut [u32]) -> Result<usize, RowError>
    ensures { Read lines row.now table.old table.new result }
{
    if !table::are_fitted(lines) {
        return Err(RowError::LinesUnfit);
    }
    if table.len() != table::words_of(lines) {
        return Err(RowError::TableUnsound);
    }
    if reading::rebuild(row, lines, table) {
        return Ok(row.len());
    }
    Err(RowError::RowUnfit)
}
