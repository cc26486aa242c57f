// What a trial expects to be there.
use std::test::Fail;

// What there is of this width.
pub(crate) fn there<T: Drop>(found: Option<T>, width: u32) -> Result<T, Fail> {
    found.ok_or_else(|| Fail::new(width))
}
