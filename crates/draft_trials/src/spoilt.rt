// Spoilt drafts: every fault at its first and last place, and faults that could compete.
use crate::sample::{Sample, faulty, spelt};
use spelling::fault::{Fault, Layer, Reason};
use std::process::Abort;
use std::test::Fail;

// The fault is at the last of these commands.
fn last(
    rt: &(impl Abort + AllocGlobal),
    width: u8,
    letters: &str,
    reason: Reason,
) -> Result<(), Fail> {
    let sample = spelt(rt.alloc(), width, letters)?;
    faulty(rt, sample.all(), reason, sample.last);
    Ok(())
}

// The last command as a letter alone, with no operand.
fn bare(
    rt: &(impl Abort + AllocGlobal),
    width: u8,
    letters: &str,
    letter: u8,
    reason: Reason,
) -> Result<(), Fail> {
    let mut sample = spelt(rt.alloc(), width, letters)?;
    let at = sample.len();
    sample.push(letter)?;
    faulty(rt, sample.all(), reason, at);
    Ok(())
}

#[test]
fn each_command_at_fault(rt: HostRuntime) -> Result<(), Fail> {
    faulty(&rt, &[], Reason::NoByte, 0);
    last(&rt, 24, "X", Reason::NoCommand)?;
    last(&rt, 24, "WFA0123X", Reason::NoCommand)?;
    last(&rt, 33, "WFAB012345X", Reason::NoCommand)?;
    last(&rt, 24, "W6", Reason::NoCommand)?;
    last(&rt, 24, "Wf", Reason::NoCommand)?;
    for letters in [
        "F", "Z", "A", "B", "5", "WW", "WFA0123W", "WFF", "WPF", "WFP", "WAA", "WF00", "WFA0123F",
    ] {
        last(&rt, 24, letters, Reason::OutOfSequence)?;
    }
    last(&rt, 33, "WBB", Reason::OutOfSequence)?;
    for letters in ["W44", "WFAB012345B", "WFAB012345W"] {
        last(&rt, 33, letters, Reason::OutOfSequence)?;
    }
    for letters in ["WB", "W4", "W5", "WFA0123B", "WFA01235"] {
        last(&rt, 24, letters, Reason::NoUse)?;
        last(&rt, 32, letters, Reason::NoUse)?;
    }
    for width in [0, 23, 65, 255] {
        last(&rt, width, "W", Reason::BadWidth)?;
    }
    for letters in [
        "WZ", "WA0123Z", "WF0123Z", "WFA123Z", "WFA023Z", "WFA013Z", "WFA012Z",
    ] {
        last(&rt, 24, letters, Reason::Missing)?;
    }
    for letters in [
        "WFA0123Z",
        "WFA012345Z",
        "WFAB01235Z",
        "WFAB01234Z",
        "WAB012345Z",
    ] {
        last(&rt, 33, letters, Reason::Missing)?;
    }
    Ok(())
}

#[test]
fn nothing_after_the_end(rt: HostRuntime) -> Result<(), Fail> {
    for (width, letters) in [(24, "WFA0123Z"), (33, "WFAB012345Z")] {
        for byte in [0, b'Z', b'W', 255] {
            let mut sample = spelt(rt.alloc(), width, letters)?;
            let end = sample.len();
            sample.push(byte)?;
            faulty(&rt, sample.all(), Reason::GoesOn, end);
            sample.push(byte)?;
            faulty(&rt, sample.all(), Reason::GoesOn, end);
        }
    }
    Ok(())
}

// C0 after these commands, one too large and the largest there is, and then one that fits.
fn constants_at_fault(
    rt: &(impl Abort + AllocGlobal),
    width: u8,
    letters: &str,
    least: u64,
) -> Result<(), Fail> {
    for constant in [least, u64::MAX] {
        let mut sample = spelt(rt.alloc(), width, letters)?;
        let at = sample.len();
        sample.push(b'A')?;
        sample.number(constant)?;
        faulty(rt, sample.all(), Reason::TooLarge, at);
    }
    let mut fits = spelt(rt.alloc(), width, letters)?;
    fits.push(b'A')?;
    fits.number(least.saturating_sub(1))?;
    let at = fits.len();
    faulty(rt, fits.all(), Reason::NoByte, at);
    Ok(())
}

#[test]
fn constants_that_do_not_fit(rt: HostRuntime) -> Result<(), Fail> {
    for letters in ["W", "WF", "WF0123"] {
        constants_at_fault(&rt, 24, letters, 1 << 24)?;
        constants_at_fault(&rt, 33, letters, 1 << 33)?;
        constants_at_fault(&rt, 63, letters, 1 << 63)?;
    }
    constants_at_fault(&rt, 33, "WFB012345", 1 << 33)?;
    Ok(())
}

// The list of the last command, with one place at a time made too large, or after the size not zero.
fn places_at_fault(
    rt: &(impl Abort + AllocGlobal),
    letters: &str,
    size: usize,
) -> Result<(), Fail> {
    for place in 0..64 {
        let mut sample = spelt(rt.alloc(), 33, letters)?;
        let at = sample.last;
        let wrong = if place < size { 64 } else { 1 };
        sample.set(at.saturating_add(1).saturating_add(place), wrong);
        faulty(rt, sample.all(), Reason::NoOrder(place), at);
    }
    Ok(())
}

#[test]
fn lists_that_are_no_orders(rt: HostRuntime) -> Result<(), Fail> {
    // Orders 0 to 3 are of the width, 4 and 5 of 64 bits.
    places_at_fault(&rt, "W0", 33)?;
    places_at_fault(&rt, "W3", 33)?;
    places_at_fault(&rt, "WFA0123B4", 64)?;
    places_at_fault(&rt, "WFAB01235", 64)?;
    places_at_fault(&rt, "WFAB012345", 64)?;
    // A bit that stands before, at the first and the last place that can be so.
    for (width, letters, place) in [(24, "W0", 1), (24, "W0", 23), (33, "WFAB012345", 63)] {
        let mut repeated = spelt(rt.alloc(), width, letters)?;
        let at = repeated.last;
        repeated.set(at.saturating_add(1).saturating_add(place), 0);
        faulty(&rt, repeated.all(), Reason::NoOrder(place), at);
    }
    Ok(())
}

#[test]
fn the_earlier_question_decides(rt: HostRuntime) -> Result<(), Fail> {
    // A letter that is no command before W being first; this before the width's use; that before the operand.
    last(&rt, 24, "x", Reason::NoCommand)?;
    bare(&rt, 24, "", b'B', Reason::OutOfSequence)?;
    bare(&rt, 24, "WA", b'A', Reason::OutOfSequence)?;
    bare(&rt, 24, "W0", b'0', Reason::OutOfSequence)?;
    bare(&rt, 24, "W", b'B', Reason::NoUse)?;
    bare(&rt, 24, "W", b'4', Reason::NoUse)?;
    // A missing operand before what it would be.
    bare(&rt, 24, "", b'W', Reason::NoByte)?;
    let mut short = spelt(rt.alloc(), 24, "WF")?;
    let at = short.len();
    short.push(b'A')?;
    short.repeat(255, 7)?;
    faulty(&rt, short.all(), Reason::NoByte, at);
    short.push(255)?;
    faulty(&rt, short.all(), Reason::TooLarge, at);
    // A command that is not new, or of no use, before what its operand would be.
    for (letters, letter, reason) in [
        ("W", b'W', Reason::OutOfSequence),
        ("WA", b'A', Reason::OutOfSequence),
        ("W0", b'0', Reason::OutOfSequence),
        ("W", b'4', Reason::NoUse),
    ] {
        let mut sample = spelt(rt.alloc(), 24, letters)?;
        let at = sample.len();
        sample.push(letter)?;
        sample.repeat(255, 64)?;
        faulty(&rt, sample.all(), reason, at);
    }
    // A list that is cut off before the place at fault in what there is of it.
    let mut list = spelt(rt.alloc(), 24, "W")?;
    list.push(b'0')?;
    list.repeat(255, 63)?;
    faulty(&rt, list.all(), Reason::NoByte, 2);
    list.push(255)?;
    faulty(&rt, list.all(), Reason::NoOrder(0), 2);
    // Z first before what is missing and what follows.
    faulty(&rt, b"ZZ", Reason::OutOfSequence, 0);
    // Something missing before bytes after the end.
    let mut both = spelt(rt.alloc(), 24, "WFA012Z")?;
    both.push(b'Z')?;
    faulty(&rt, both.all(), Reason::Missing, both.last);
    // An earlier command before a later one.
    let mut wide = Sample::new(rt.alloc());
    wide.push(b'W')?;
    wide.push(65)?;
    wide.push(b'X')?;
    faulty(&rt, wide.all(), Reason::BadWidth, 0);
    Ok(())
}

// A command at fault, and one of each fault after it: a later operand that is cut off, letter, sequence, use, constant, list and
// end, and at last a byte after everything else.
#[test]
fn the_earlier_command_decides(rt: HostRuntime) -> Result<(), Fail> {
    for (width, letters, letter, fill, times, reason, rest) in [
        (24, "W", b'X', 0, 0, Reason::NoCommand, "FA0123Z"),
        (24, "WF", b'P', 0, 0, Reason::OutOfSequence, "A0123Z"),
        (24, "W", b'B', 0, 8, Reason::NoUse, "FA0123Z"),
        (23, "", b'W', 23, 1, Reason::BadWidth, "FA0123Z"),
        (24, "W", b'A', 255, 8, Reason::TooLarge, "F0123Z"),
        (24, "W", b'0', 255, 64, Reason::NoOrder(0), "FA123Z"),
    ] {
        for (later, byte, many) in [
            (b'1', 0, 0),
            (b'x', 0, 0),
            (b'W', 24, 1),
            (b'4', 0, 64),
            (b'A', 255, 8),
            (b'1', 255, 64),
            (b'Z', 0, 0),
        ] {
            let mut sample = spelt(rt.alloc(), width, letters)?;
            let at = sample.len();
            sample.push(letter)?;
            sample.repeat(fill, times)?;
            sample.push(later)?;
            sample.repeat(byte, many)?;
            faulty(&rt, sample.all(), reason, at);
        }
        let mut sample = spelt(rt.alloc(), width, letters)?;
        let at = sample.len();
        sample.push(letter)?;
        sample.repeat(fill, times)?;
        for letter in rest.chars() {
            sample.command(width, letter)?;
        }
        sample.push(b'Z')?;
        faulty(&rt, sample.all(), reason, at);
    }
    // An operand that is cut off, and Z where something is missing.
    faulty(&rt, b"W\x18FAZ", Reason::NoByte, 3);
    Ok(())
}

#[test]
fn numbers_and_layers(rt: HostRuntime) {
    for (reason, number, layer, place) in [
        (Reason::NoByte, 1, Layer::Bytes, None),
        (Reason::NoCommand, 2, Layer::Commands, None),
        (Reason::OutOfSequence, 3, Layer::Commands, None),
        (Reason::NoUse, 4, Layer::Commands, None),
        (Reason::BadWidth, 5, Layer::Commands, None),
        (Reason::TooLarge, 6, Layer::Commands, None),
        (Reason::NoOrder(7), 7, Layer::Orders, Some(7)),
        (Reason::Missing, 8, Layer::Commands, None),
        (Reason::GoesOn, 9, Layer::Bytes, None),
    ] {
        assert_eq!(rt; reason.number(), number);
        assert_eq!(rt; reason.layer(), layer);
        assert_eq!(rt; reason.place(), place);
    }
}
