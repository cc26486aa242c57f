// Row records, of which row memory is made.

// One record of row memory: eight numbers, and the mark of a standing row. The mark is no Option round the numbers: a record
// has a fixed form, and one that does not stand has to be all zero.
#[derive(Clone, Copy, PartialEq, Eq, Debug)]
pub struct Row {
    pub numbers: [u64; 8],
    pub standing: bool,
}

impl Row {
    // The record that is all zero.
    pub const BLANK: Row = Row {
        numbers: [0; 8],
        standing: false,
    };
}
