// What the trials share.
use book::entry::Entry;
use book::refusal::Refusal;
use book::row::Row;
use codings::plus::Plus;
use release::column_codings::ColumnCodings;
use release::states::{Open, Release};
use std::process::Abort;
use std::test::Fail;

// A record that no release wrote.
pub(crate) const DIRTY: Row = Row {
    numbers: [9; 8],
    standing: true,
};

// The record of a standing row.
pub(crate) fn standing(numbers: [u64; 8]) -> Row {
    Row {
        numbers,
        standing: true,
    }
}

pub(crate) fn entry(row: usize, column: usize) -> Entry {
    Entry { row, column }
}

pub(crate) type Codings = ColumnCodings<Plus, Plus>;

// The yarn coding has top 9 and adds 3, the hands coding has top 99 and adds 7.
pub(crate) fn both_codings() -> Result<Codings, Fail> {
    Ok(ColumnCodings {
        yarn: Plus::new(9, 3)?,
        hands: Plus::new(99, 7)?,
    })
}

// A release that is expected to open.
pub(crate) fn opened(letters: &[char], memory: &mut [Row]) -> Result<Release<Open>, Fail> {
    Ok(Release::open(letters, memory)?)
}

// Opens a release and scraps it.
pub(crate) fn opens(letters: &[char], memory: &mut [Row]) -> Result<(), Fail> {
    let release = opened(letters, memory)?;
    release.scrap(memory);
    Ok(())
}

// An opening that is expected to be refused.
pub(crate) fn unopened(
    rt: &impl Abort,
    letters: &[char],
    memory: &mut [Row],
    refusal: Refusal,
) -> Result<(), Fail> {
    match Release::open(letters, memory) {
        Ok(release) => {
            release.scrap(memory);
            Err(Fail::new("a release was opened"))
        }
        Err(told) => {
            assert_eq!(rt; told, refusal);
            Ok(())
        },
    }
}
