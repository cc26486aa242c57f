// Whole drafts, in any order of their commands, and everything short of one.
use crate::sample::{Sample, faulty, spelt};
use draft::read::read;
use spelling::fault::{Layer, Reason};
use spelling::parts::{Flow, Parts};
use std::alloc::{AllocError, Global};
use std::process::Abort;
use std::test::Fail;

#[test]
fn whole_drafts_are_accepted(rt: HostRuntime) -> Result<(), Fail> {
    for (width, letters) in [
        (24, "WFA0123Z"),
        (24, "W3210APZ"),
        (32, "WA0F123Z"),
        (33, "WFAB012345Z"),
        (64, "W543210BAPZ"),
    ] {
        let draft = read(spelt(rt.alloc(), width, letters)?.all())?;
        assert_eq!(rt; draft.parts().width, width);
    }
    Ok(())
}

#[test]
fn parts_are_found(rt: HostRuntime) -> Result<(), Fail> {
    let mut sample = Sample::new(rt.alloc());
    sample.command(40, 'W')?;
    sample.push(b'B')?;
    sample.number(0xfedc_ba98_7654_3210)?;
    sample.command(40, 'P')?;
    sample.push(b'A')?;
    sample.number(0xff_ffff_ffff)?;
    for letter in "543210Z".chars() {
        sample.command(40, letter)?;
    }
    let draft = read(sample.all())?;
    let parts = draft.parts();
    assert_eq!(rt; parts.flow, Flow::Cpa);
    assert_eq!(rt; parts.c0, 0xff_ffff_ffff);
    assert_eq!(rt; parts.c1, 0xfedc_ba98_7654_3210);
    assert_eq!(rt; parts.orders[0][39], 39);
    assert_eq!(rt; parts.orders[0][40], 0);
    assert_eq!(rt; parts.orders[5][63], 63);
    Ok(())
}

// The last command that starts in the first `len` bytes or right after them.
fn start_before(alloc: Global, width: u8, letters: &str, len: usize) -> Result<usize, AllocError> {
    let mut sample = Sample::new(alloc);
    let mut start = 0;
    for letter in letters.chars() {
        if sample.len() <= len {
            start = sample.len();
        }
        sample.command(width, letter)?;
    }
    Ok(start)
}

// Cut at every length: at fault is the command that is cut off, or the one that is not there.
fn cut_everywhere(rt: &(impl Abort + AllocGlobal), width: u8, letters: &str) -> Result<(), Fail> {
    let sample = spelt(rt.alloc(), width, letters)?;
    for len in 0..sample.len() {
        let start = start_before(rt.alloc(), width, letters, len)?;
        faulty(rt, sample.first(len), Reason::NoByte, start);
    }
    read(sample.all())?;
    Ok(())
}

#[test]
fn cut_at_every_length(rt: HostRuntime) -> Result<(), Fail> {
    cut_everywhere(&rt, 24, "WFA0123Z")?;
    cut_everywhere(&rt, 33, "W5B3P1A024Z")
}

// A whole draft with one byte changed.
fn changed(alloc: Global, at: usize, byte: u8) -> Result<Sample, AllocError> {
    let mut sample = spelt(alloc, 24, "WFA0123Z")?;
    sample.set(at, byte);
    Ok(sample)
}

// Every byte at the first three places.
#[test]
fn one_byte_changed(rt: HostRuntime) -> Result<(), Fail> {
    for byte in 0..=255 {
        let first = changed(rt.alloc(), 0, byte)?;
        match byte as char {
            'W' => {
                read(first.all())?;
            }
            'F' | 'P' | 'A' | 'B' | 'Z' | '0'..='5' => faulty(
                &rt,
                first.all(),
                Reason::OutOfSequence,
                0,
            ),
            _ => faulty(&rt, first.all(), Reason::NoCommand, 0),
        }
        let second = changed(rt.alloc(), 1, byte)?;
        match byte {
            24 => {
                read(second.all())?;
            }
            // The lists are of 24 bits: bit 0 stands at place 24 again.
            25..=64 => faulty(&rt, second.all(), Reason::NoOrder(24), 12),
            _ => faulty(&rt, second.all(), Reason::BadWidth, 0),
        }
        let third = changed(rt.alloc(), 2, byte)?;
        match byte as char {
            'F' | 'P' => {
                read(third.all())?;
            }
            'W' => faulty(&rt, third.all(), Reason::OutOfSequence, 2),
            'B' | '4' | '5' => faulty(&rt, third.all(), Reason::NoUse, 2),
            'Z' => faulty(&rt, third.all(), Reason::Missing, 2),
            // The letters and bytes after it become its operand.
            'A' => faulty(&rt, third.all(), Reason::NoCommand, 11),
            '0'..='3' => faulty(&rt, third.all(), Reason::NoOrder(0), 2),
            _ => faulty(&rt, third.all(), Reason::NoCommand, 2),
        }
    }
    Ok(())
}

// Each part on its own line: constants that differ, and in each list its own number alone. At 32 bits nothing that is for wider
// ones is shown, and at 33 the orders 4 and 5 are of 64 bits.
#[test]
fn each_part_on_its_line(rt: HostRuntime) -> Result<(), Fail> {
    let mut orders = [[0; 64]; 6];
    for (list, k) in orders.iter_mut().zip(0u8..6) {
        *list = [k; 64];
    }
    for (width, head, last) in [
        (32, "width 32, flow CPA\nC0 12", 4),
        (33, "width 33, flow CPA\nC0 12\nC1 345", 6),
    ] {
        let mut expected = String::from_str(rt.alloc(), head)?;
        for k in 0..last {
            expected.push_str(format!(in rt.alloc(); "\norder {k}:")?.as_str())?;
            for _ in 0..if k < 4 { width } else { 64 } {
                expected.push_str(format!(in rt.alloc(); " {k}")?.as_str())?;
            }
        }
        let parts = Parts {
            width,
            flow: Flow::Cpa,
            c0: 12,
            c1: 345,
            orders,
        };
        let shown = format!(in rt.alloc(); "{parts}")?;
        assert_eq!(rt; shown.as_str(), expected.as_str());
    }
    Ok(())
}
