// What is shown of calls, answers and refusals. The contract of a `Display` speaks of what is written where it does not
// give up, and mostly of `{}` alone; that it writes at all, and what it writes under `{:#}` and a width, is seen here.
use crate::shared::*;
use book::call::{Answer, Call};
use book::refusal::Refusal;
use book::row::Row;
use release::ran::Unopened;
use std::alloc::Global;
use std::fmt::Display;
use std::process::Abort;
use std::test::Fail;

const MOST: u64 = u64::MAX;

const LAST: usize = usize::MAX;

// It reads as this text, in columns of that width where the width is asked for.
fn reads<D: Display + Drop>(
    rt: &impl Abort,
    heap: Global,
    shown: D,
    width: usize,
    text: &str,
) -> Result<(), Fail> {
    let written = format!(in heap; "{shown}")?;
    assert_eq!(rt; written.as_str(), text);
    let written = format!(in heap; "{shown:#}")?;
    assert_eq!(rt; written.as_str(), text);
    let written = format!(in heap; "{shown:>80}")?;
    assert_eq!(rt; written.as_str().trim_start(), text);
    assert_eq!(rt; written.as_str().len(), width.max(text.len()));
    Ok(())
}

// A width is asked of what is written piece by piece in vain.
#[test]
fn in_pieces(rt: HostRuntime) -> Result<(), Fail> {
    let heap = rt.alloc();
    for (call, text) in [
        (Call::Put(&[]), "put []"),
        (Call::Put(&[MOST]), "put [18446744073709551615]"),
        (
            Call::Put(&[0, 1, 2, 3, 4, 5, 6, MOST]),
            "put [0, 1, 2, 3, 4, 5, 6, 18446744073709551615]",
        ),
        (Call::Withdraw(LAST), "withdraw row 18446744073709551615"),
        (Call::Show(entry(1, 0)), "show row 1 column 0"),
        (
            Call::TurnBack(entry(0, LAST)),
            "turn back row 0 column 18446744073709551615",
        ),
        (Call::Tally, "tally"),
    ] {
        reads(&rt, heap, call, 0, text)?;
    }
    for (answer, text) in [
        (Answer::Put(LAST), "row 18446744073709551615"),
        (Answer::Withdrawn, "done"),
        (Answer::Shown(MOST), "code 18446744073709551615"),
        (Answer::TurnedBack(0), "number 0"),
        (
            Answer::Tally((LAST, 1)),
            "18446744073709551615 places taken, 1 rows standing",
        ),
    ] {
        reads(&rt, heap, answer, 0, text)?;
    }
    reads(
        &rt,
        heap,
        entry(LAST, 7),
        0,
        "row 18446744073709551615 column 7",
    )?;
    reads(
        &rt,
        heap,
        Unopened::Refused(Refusal::Columns),
        0,
        "refused 14: a release has 1 to 8 columns",
    )?;
    reads(
        &rt,
        heap,
        Unopened::NoMemory,
        0,
        "there is no memory for its answers",
    )
}

#[test]
fn refusals(rt: HostRuntime) -> Result<(), Fail> {
    let heap = rt.alloc();
    for (refusal, text) in [
        (Refusal::AboveTop, "the number is above the coding's top"),
        (Refusal::Columns, "a release has 1 to 8 columns"),
        (Refusal::RoleLetter, "a role letter is Y, H or C"),
        (Refusal::RowRecords, "a release has 1 to 4096 row records"),
        (
            Refusal::MemoryLength,
            "the row memory has not the length that the release was opened with",
        ),
        (Refusal::NumberCount, "a row has one number for each column"),
        (Refusal::NoPlaceFree, "no place is free"),
        (Refusal::NotStanding, "the row is not standing"),
        (Refusal::NoSuchColumn, "there is no such column"),
    ] {
        reads(&rt, heap, refusal, 80, text)?;
    }
    Ok(())
}

// The record that is all zero.
#[test]
fn blank_record(rt: HostRuntime) -> Result<(), Fail> {
    assert_eq!(rt; Row::BLANK.numbers, [0; 8]);
    assert_eq!(rt; Row::BLANK.standing, false);
    Ok(())
}
