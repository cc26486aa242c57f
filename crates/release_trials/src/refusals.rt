// Every refusal at its edge.
use crate::shared::*;
use book::refusal::Refusal;
use book::row::Row;
use release::states::{Open, Release};
use std::process::Abort;
use std::test::Fail;

// A release has 1 to 8 columns (14), and a role letter is Y, H or C (15).
#[test]
fn columns_and_letters(rt: HostRuntime) -> Result<(), Fail> {
    let mut memory = [DIRTY; 2];
    unopened(&rt, &[], &mut memory, Refusal::Columns)?;
    opens(&['Y', 'H', 'C', 'Y', 'H', 'C', 'Y', 'H'], &mut memory)?;
    unopened(&rt, &['C'; 9], &mut memory, Refusal::Columns)?;
    unopened(&rt, &['X'], &mut memory, Refusal::RoleLetter)?;
    unopened(&rt, &['Y', 'H', 'y'], &mut memory, Refusal::RoleLetter)
}

// A release has 1 to 4096 row records (16).
#[test]
fn row_records(rt: HostRuntime) -> Result<(), Fail> {
    unopened(&rt, &['C'], &mut [], Refusal::RowRecords)?;
    opens(&['C'], &mut [DIRTY; 1])?;
    let mut most = vec![in rt.alloc(); DIRTY; 4096]?;
    opens(&['C'], most.as_mut_slice())?;
    let mut more = vec![in rt.alloc(); DIRTY; 4097]?;
    unopened(&rt, &['C'], more.as_mut_slice(), Refusal::RowRecords)
}

// Every call asks for the length of row memory that the release was opened with (17).
#[test]
fn memory_length(rt: HostRuntime) -> Result<(), Fail> {
    let with = both_codings()?;
    let mut memory = [DIRTY; 2];
    let mut release = opened(&['Y'], &mut memory)?;
    assert_eq!(rt; release.put(&mut memory, &with, &[5]), Ok(1));
    let [first, second] = memory;
    let mut more = [first, second, DIRTY];
    all_refused(&rt, &mut release, &mut [first], &with);
    all_refused(&rt, &mut release, &mut more, &with);
    assert_eq!(rt; more[0], standing(first.numbers));
    assert_eq!(rt; more[2], DIRTY);
    assert_eq!(rt; release.tally(&memory), Ok((1, 1)));
    release.scrap(&mut memory);
    Ok(())
}

fn all_refused(rt: &impl Abort, release: &mut Release<Open>, memory: &mut [Row], with: &Codings) {
    assert_eq!(rt; release.put(memory, with, &[5]), Err(Refusal::MemoryLength));
    assert_eq!(rt; release.withdraw(memory, 1), Err(Refusal::MemoryLength));
    assert_eq!(rt;
        release.show(memory, entry(1, 0)),
        Err(Refusal::MemoryLength)
    );
    assert_eq!(rt;
        release.turn_back(memory, with, entry(1, 0)),
        Err(Refusal::MemoryLength)
    );
    assert_eq!(rt; release.tally(memory), Err(Refusal::MemoryLength));
}

// A row has one number for each column (18), none above its coding's top (13), and a place (19).
#[test]
fn putting(rt: HostRuntime) -> Result<(), Fail> {
    let with = both_codings()?;
    let mut memory = [DIRTY; 2];
    let mut release = opened(&['Y', 'H', 'C'], &mut memory)?;
    assert_eq!(rt; release.put(&mut memory, &with, &[9, 99, u64::MAX]), Ok(1));
    // What is refused after the first row changes neither row memory nor the tally.
    assert_eq!(rt;
        release.put(&mut memory, &with, &[1, 1]),
        Err(Refusal::NumberCount)
    );
    assert_eq!(rt;
        release.put(&mut memory, &with, &[1, 1, 1, 1]),
        Err(Refusal::NumberCount)
    );
    assert_eq!(rt;
        release.put(&mut memory, &with, &[10, 1, 1]),
        Err(Refusal::AboveTop)
    );
    assert_eq!(rt;
        release.put(&mut memory, &with, &[1, 100, 1]),
        Err(Refusal::AboveTop)
    );
    assert_eq!(rt;
        memory,
        [standing([2, 6, u64::MAX, 0, 0, 0, 0, 0]), Row::BLANK]
    );
    assert_eq!(rt; release.tally(&memory), Ok((1, 1)));
    assert_eq!(rt; release.put(&mut memory, &with, &[0, 0, 0]), Ok(2));
    assert_eq!(rt;
        release.put(&mut memory, &with, &[0, 0, 0]),
        Err(Refusal::NoPlaceFree)
    );
    assert_eq!(rt; release.tally(&memory), Ok((2, 2)));
    release.scrap(&mut memory);
    Ok(())
}

// Rows count from 1, and a row that was not given out or is withdrawn does not stand (20).
#[test]
fn rows_that_stand(rt: HostRuntime) -> Result<(), Fail> {
    let with = both_codings()?;
    let mut memory = [DIRTY; 3];
    let mut release = opened(&['C', 'C'], &mut memory)?;
    assert_eq!(rt; release.put(&mut memory, &with, &[6, 7]), Ok(1));
    assert_eq!(rt; release.put(&mut memory, &with, &[8, 9]), Ok(2));
    assert_eq!(rt; release.withdraw(&mut memory, 1), Ok(()));
    for row in [0, 1, 3, 4, usize::MAX] {
        assert_eq!(rt;
            release.withdraw(&mut memory, row),
            Err(Refusal::NotStanding)
        );
        assert_eq!(rt;
            release.show(&memory, entry(row, 0)),
            Err(Refusal::NotStanding)
        );
        assert_eq!(rt;
            release.turn_back(&memory, &with, entry(row, 0)),
            Err(Refusal::NotStanding)
        );
    }
    assert_eq!(rt; memory[1], standing([8, 9, 0, 0, 0, 0, 0, 0]));
    assert_eq!(rt; release.tally(&memory), Ok((2, 1)));
    release.scrap(&mut memory);
    Ok(())
}

// Columns count from 0, and there is none at the number of columns (21).
#[test]
fn columns_that_are_there(rt: HostRuntime) -> Result<(), Fail> {
    let with = both_codings()?;
    let mut memory = [DIRTY; 1];
    let mut release = opened(&['C', 'C'], &mut memory)?;
    assert_eq!(rt; release.put(&mut memory, &with, &[6, 7]), Ok(1));
    assert_eq!(rt; release.show(&memory, entry(1, 1)), Ok(7));
    assert_eq!(rt; release.turn_back(&memory, &with, entry(1, 1)), Ok(7));
    for column in [2, 7, 8, usize::MAX] {
        assert_eq!(rt;
            release.show(&memory, entry(1, column)),
            Err(Refusal::NoSuchColumn)
        );
        assert_eq!(rt;
            release.turn_back(&memory, &with, entry(1, column)),
            Err(Refusal::NoSuchColumn)
        );
    }
    release.scrap(&mut memory);
    Ok(())
}
