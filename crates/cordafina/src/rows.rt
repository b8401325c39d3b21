// A table carried to a spare as a row of numbers (document 02, CR 14).
ghost use Rattle.std.specs.Prelude.{◌≡◌};
ghost use Rattle.row_laws.specs.Answers.{packed, refusal_of, WroteRow, ReadRow};

use row_laws::RowError;

// A written row's length in the low 32 bits, the number of the refusal in the high 32.
#[tactic(auto, unfolding(row_laws::specs::Answers::packed), using(crate::proofs::RowLaws::number_small))]
fn packed(a: Result<usize, RowError>) -> u64
    ensures { result ≡ packed a }
{
    match a {
        Ok(n) => n as u64,
        Err(e) => u64::from(u32::from(e)) * 4294967296,
    }
}

// The number of the refusal, 0 for a row that was read.
#[tactic(auto, unfolding(row_laws::specs::Answers::refusal_of))]
fn refusal_of(a: Result<usize, RowError>) -> u32
    ensures { result ≡ refusal_of a }
{
    match a {
        Ok(_) => 0,
        Err(e) => u32::from(e),
    }
}

// Writes the table's row from the start of the output.
#[unsafe(no_mangle)]
pub extern "C" fn cordafina_write_row(lines: u32, table: &[u32], out: &mut [u8]) -> u64
    ensures { WroteRow lines table.now out.old out.new result }
{
    let a = row::write(lines, table, out);
    packed(a)
}

// Reads a row into the table.
#[unsafe(no_mangle)]
pub extern "C" fn cordafina_read_row(lines: u32, row: &[u8], table: &mut [u32]) -> u32
    ensures { ReadRow lines row.now table.old table.new result }
{
    let a = row::read(lines, row, table);
    refusal_of(a)
}
