// A call that could be refused for two reasons is refused for the earlier one.
use crate::shared::*;
use book::refusal::Refusal;
use std::test::Fail;

// Opening asks for the columns, then the letters, then the row records.
#[test]
fn opening(rt: HostRuntime) -> Result<(), Fail> {
    unopened(&rt, &['X'; 9], &mut [], Refusal::Columns)?;
    unopened(&rt, &[], &mut [], Refusal::Columns)?;
    unopened(&rt, &['X'], &mut [], Refusal::RoleLetter)?;
    unopened(&rt, &['C', 'X'], &mut [], Refusal::RoleLetter)?;
    unopened(&rt, &['C'], &mut [], Refusal::RowRecords)
}

// Putting asks for the memory, then the count, then a place, then the numbers.
#[test]
fn putting(rt: HostRuntime) -> Result<(), Fail> {
    let with = both_codings()?;
    let mut memory = [DIRTY; 1];
    let mut release = opened(&['Y'], &mut memory)?;
    assert_eq!(rt; release.put(&mut memory, &with, &[1]), Ok(1));
    assert_eq!(rt;
        release.put(&mut [DIRTY; 2], &with, &[10, 10]),
        Err(Refusal::MemoryLength)
    );
    assert_eq!(rt;
        release.put(&mut memory, &with, &[10, 10]),
        Err(Refusal::NumberCount)
    );
    assert_eq!(rt;
        release.put(&mut memory, &with, &[10]),
        Err(Refusal::NoPlaceFree)
    );
    release.scrap(&mut memory);
    Ok(())
}

// The others ask for the memory, then the row, then the column, then the code.
#[test]
fn asking(rt: HostRuntime) -> Result<(), Fail> {
    let with = both_codings()?;
    let mut memory = [DIRTY; 1];
    let mut release = opened(&['Y'], &mut memory)?;
    assert_eq!(rt; release.put(&mut memory, &with, &[1]), Ok(1));
    // The code, and what stands after the last column, is above the yarn coding's top.
    memory[0].numbers = [10; 8];
    let mut two = [DIRTY; 2];
    assert_eq!(rt; release.withdraw(&mut two, 0), Err(Refusal::MemoryLength));
    assert_eq!(rt; release.show(&two, entry(0, 1)), Err(Refusal::MemoryLength));
    assert_eq!(rt;
        release.turn_back(&two, &with, entry(0, 1)),
        Err(Refusal::MemoryLength)
    );
    assert_eq!(rt;
        release.show(&memory, entry(2, 1)),
        Err(Refusal::NotStanding)
    );
    assert_eq!(rt;
        release.turn_back(&memory, &with, entry(2, 1)),
        Err(Refusal::NotStanding)
    );
    assert_eq!(rt;
        release.turn_back(&memory, &with, entry(1, 1)),
        Err(Refusal::NoSuchColumn)
    );
    assert_eq!(rt;
        release.turn_back(&memory, &with, entry(1, 0)),
        Err(Refusal::AboveTop)
    );
    release.scrap(&mut memory);
    Ok(())
}
