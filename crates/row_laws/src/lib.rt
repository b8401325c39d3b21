// A table's row of numbers (document 02, CR 14): what it is in specs/, that it is the table's only one and gives it back in proofs/. Of code only
// the types that definitions and contracts share.
#![tactic(auto)]

ghost use Rattle.std.specs.Prelude.{◌≡◌};
ghost use Rattle.row_laws.specs.Answers.{number_of};

// Where an item of a row stands in the table: one word, or the four words of Local or Remote.
#[derive(Clone, Copy)]
pub enum Item {
    Word(usize),
    Side(usize),
}

// Why a row is not written, or not read.
#[derive(Clone, Copy, Debug, PartialEq, Eq)]
pub enum RowError {
    LinesUnfit,
    OutputTooShort,
    TableUnsound,
    RowUnfit,
}

// Document 02's number of the refusal.
#[tactic(auto, unfolding(crate::specs::Answers::number_of))]
impl From<RowError> for u32 {
    ghost from_gives = { λ e n. n ≡ number_of e };

    fn from(error: RowError) -> u32 {
        match error {
            RowError::LinesUnfit => 8,
            RowError::OutputTooShort => 11,
            RowError::TableUnsound => 2,
            RowError::RowUnfit => 10,
        }
    }
}
