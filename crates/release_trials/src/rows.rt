// What the calls do to rows and to row memory.
use crate::shared::*;
use book::refusal::Refusal;
use book::row::Row;
use std::test::Fail;

// A refused opening leaves row memory as it was, and an accepted one sets all of it to zero.
#[test]
fn memory_of_an_opening(rt: HostRuntime) -> Result<(), Fail> {
    let mut memory = [DIRTY; 2];
    unopened(&rt, &[], &mut memory, Refusal::Columns)?;
    unopened(&rt, &['C', 'X'], &mut memory, Refusal::RoleLetter)?;
    assert_eq!(rt; memory, [DIRTY; 2]);
    let release = opened(&['C'], &mut memory)?;
    assert_eq!(rt; memory, [Row::BLANK; 2]);
    assert_eq!(rt; release.tally(&memory), Ok((0, 0)));
    release.scrap(&mut memory);
    Ok(())
}

// A row's record has the code of each column, then zeros, and the mark.
#[test]
fn codes_of_a_row(rt: HostRuntime) -> Result<(), Fail> {
    let with = both_codings()?;
    let mut memory = [DIRTY; 2];
    let mut release = opened(&['Y', 'H', 'C'], &mut memory)?;
    assert_eq!(rt; release.put(&mut memory, &with, &[5, 5, 5]), Ok(1));
    assert_eq!(rt; memory, [standing([8, 12, 5, 0, 0, 0, 0, 0]), Row::BLANK]);
    assert_eq!(rt; release.show(&memory, entry(1, 0)), Ok(8));
    assert_eq!(rt; release.show(&memory, entry(1, 1)), Ok(12));
    assert_eq!(rt; release.show(&memory, entry(1, 2)), Ok(5));
    for column in 0..3usize {
        assert_eq!(rt; release.turn_back(&memory, &with, entry(1, column)), Ok(5));
    }
    assert_eq!(rt; release.tally(&memory), Ok((1, 1)));
    release.scrap(&mut memory);
    Ok(())
}

// A withdrawn record is zero, and its place is not used again.
#[test]
fn withdrawing(rt: HostRuntime) -> Result<(), Fail> {
    let with = both_codings()?;
    let mut memory = [DIRTY; 2];
    let mut release = opened(&['C'], &mut memory)?;
    assert_eq!(rt; release.put(&mut memory, &with, &[6]), Ok(1));
    assert_eq!(rt; release.withdraw(&mut memory, 1), Ok(()));
    assert_eq!(rt; memory[0], Row::BLANK);
    assert_eq!(rt; release.tally(&memory), Ok((1, 0)));
    assert_eq!(rt; release.put(&mut memory, &with, &[7]), Ok(2));
    assert_eq!(rt; memory, [Row::BLANK, standing([7, 0, 0, 0, 0, 0, 0, 0])]);
    assert_eq!(rt;
        release.put(&mut memory, &with, &[8]),
        Err(Refusal::NoPlaceFree)
    );
    assert_eq!(rt; memory[0], Row::BLANK);
    assert_eq!(rt; release.tally(&memory), Ok((2, 1)));
    release.scrap(&mut memory);
    Ok(())
}

// A mark set by hand does not make a row stand, and a code set by hand is shown and not turned back.
#[test]
fn set_by_hand(rt: HostRuntime) -> Result<(), Fail> {
    let with = both_codings()?;
    let mut memory = [DIRTY; 2];
    let mut release = opened(&['Y'], &mut memory)?;
    assert_eq!(rt; release.put(&mut memory, &with, &[1]), Ok(1));
    memory[1].standing = true;
    assert_eq!(rt;
        release.show(&memory, entry(2, 0)),
        Err(Refusal::NotStanding)
    );
    assert_eq!(rt; release.withdraw(&mut memory, 2), Err(Refusal::NotStanding));
    assert_eq!(rt; release.tally(&memory), Ok((1, 1)));
    memory[0].numbers[0] = 10;
    assert_eq!(rt; release.show(&memory, entry(1, 0)), Ok(10));
    assert_eq!(rt;
        release.turn_back(&memory, &with, entry(1, 0)),
        Err(Refusal::AboveTop)
    );
    release.scrap(&mut memory);
    Ok(())
}

// A sealed release shows and counts as it did when it was open.
#[test]
fn sealing(rt: HostRuntime) -> Result<(), Fail> {
    let with = both_codings()?;
    let mut memory = [DIRTY; 3];
    let mut release = opened(&['Y'], &mut memory)?;
    assert_eq!(rt; release.put(&mut memory, &with, &[5]), Ok(1));
    assert_eq!(rt; release.put(&mut memory, &with, &[7]), Ok(2));
    assert_eq!(rt; release.withdraw(&mut memory, 2), Ok(()));
    assert_eq!(rt; release.show(&memory, entry(1, 0)), Ok(8));
    assert_eq!(rt;
        release.show(&memory, entry(2, 0)),
        Err(Refusal::NotStanding)
    );
    assert_eq!(rt; release.tally(&memory), Ok((2, 1)));
    let sealed = release.seal();
    assert_eq!(rt; sealed.show(&memory, entry(1, 0)), Ok(8));
    assert_eq!(rt;
        sealed.show(&memory, entry(2, 0)),
        Err(Refusal::NotStanding)
    );
    assert_eq!(rt;
        sealed.show(&memory, entry(1, 1)),
        Err(Refusal::NoSuchColumn)
    );
    assert_eq!(rt; sealed.tally(&memory), Ok((2, 1)));
    Ok(())
}

// Scrapping sets all of the memory given to zero, also of another length than the release's.
#[test]
fn scrapping(rt: HostRuntime) -> Result<(), Fail> {
    let with = both_codings()?;
    let mut memory = [DIRTY; 2];
    let mut release = opened(&['C'], &mut memory)?;
    let told = release.put(&mut memory, &with, &[6]);
    release.scrap(&mut memory);
    assert_eq!(rt; told, Ok(1));
    assert_eq!(rt; memory, [Row::BLANK; 2]);
    let release = opened(&['C'], &mut memory)?;
    let mut longer = [DIRTY; 3];
    release.scrap(&mut longer);
    assert_eq!(rt; longer, [Row::BLANK; 3]);
    Ok(())
}
