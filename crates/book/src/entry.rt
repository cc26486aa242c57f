// Entries of row memory.
ghost use Rattle.std.specs.Prelude.{Some as Written};
ghost use Rattle.book.specs.Shown.{entry_text};

use std::fmt;

// One number of a row.
#[derive(Clone, Copy, PartialEq, Eq, Debug)]
pub struct Entry {
    // The rows count from 1.
    pub row: usize,
    // The columns count from 0.
    pub column: usize,
}

impl fmt::Display for Entry {
    ghost output = { λ entry. Written (entry_text entry) };

    fn fmt<W: fmt::Write>(&self, f: &mut fmt::Formatter<W>) -> fmt::Result {
        let (row, column) = (self.row, self.column);
        write!(f, "row {row} column {column}")
    }
}
