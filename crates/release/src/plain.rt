// A release by its plain numbers, which do not tell its state. Row memory is not among them: the caller lends it with each call,
// which asks for its length.
use crate::columns::Columns;

#[derive(Drop)]
pub struct Plain {
    pub(crate) columns: Columns,
    // How many row records it was opened with.
    pub(crate) records: usize,
    // How many places are taken.
    pub(crate) taken: usize,
}
