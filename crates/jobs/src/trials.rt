// That right texts are taken, which fault a wrong one has, and what is printed.
use crate::build::build;
use crate::job::{Step, read_head, read_step};
use crate::parse::parse_written;
use crate::place::{BadText, HeadWord, Place, Sign, Wrong};
use crate::row::read_row;
use crate::unbuilt::Unbuilt;
use crate::written::Written;
use book::entry::Entry;
use codings::coding::Coding;
use codings::refusal::AboveTop;
use keys::refusal::KeyRefusal;
use piles::error::PileError;
use spelling::fault::{Fault, Reason};
use std::alloc::{AllocError, Global};
use std::test::Fail;

fn bad(line: usize, column: usize, wrong: Wrong) -> Option<BadText> {
    Some(BadText {
        place: Place { line, column },
        wrong,
    })
}

#[test]
fn a_pile(rt: HostRuntime) -> Result<(), Fail> {
    let heap = rt.alloc();
    let mut names = Vec::new(heap);
    let text = "chain( plus(9, 4) ,turned(narrowed(plus(12,5), 9)))";
    let written = parse_written(heap, text, 1, 6, &mut names)?;
    let built = build(heap, &written, &[])?;
    assert_eq!(rt; built.long, 0);
    assert_eq!(rt; built.pile.height(), 4);
    assert_eq!(rt; built.pile.top(), 9);
    // 3 and 4 are 7; in the narrowed plus 2 comes to 7.
    assert_eq!(rt; built.pile.code(3), Ok(2));
    Ok(())
}

#[test]
fn files_once_each(rt: HostRuntime) -> Result<(), Fail> {
    let heap = rt.alloc();
    let mut names = Vec::new(heap);
    let text = "chain(kcipher(a.draft, a.key), kcipher(a.draft, b.key))";
    let written = parse_written(heap, text, 1, 1, &mut names)?;
    assert_eq!(rt; names.len(), 3);
    assert_eq!(rt; build(heap, &written, &[]).err(), Some(Unbuilt::NoFile(0)));
    Ok(())
}

#[test]
fn long_narrowings(rt: HostRuntime) -> Result<(), Fail> {
    let heap = rt.alloc();
    let mut names = Vec::new(heap);
    let text = "chain(narrowed(clear(1999999), 1), narrowed(clear(2000000), 1))";
    let written = parse_written(heap, text, 1, 1, &mut names)?;
    assert_eq!(rt; build(heap, &written, &[])?.long, 1);
    Ok(())
}

#[test]
fn bad_piles(rt: HostRuntime) -> Result<(), Fail> {
    let heap = rt.alloc();
    let mut names = Vec::new(heap);
    let cases = [
        ("plain(3)", 1, Wrong::UnknownName),
        ("clear 3)", 7, Wrong::MissingSign(Sign::Open)),
        ("clear(x)", 7, Wrong::NoNumber),
        ("clear(+3)", 7, Wrong::NoNumber),
        ("clear(18446744073709551616)", 7, Wrong::NoNumber),
        ("plus(3 4)", 8, Wrong::MissingSign(Sign::Comma)),
        ("clear(3", 8, Wrong::MissingSign(Sign::Close)),
        ("clear(3) 4", 10, Wrong::GoesOn),
        ("kcipher(,a)", 9, Wrong::NoName),
        ("", 1, Wrong::UnknownName),
    ];
    for (text, column, wrong) in cases {
        let found = parse_written(heap, text, 3, 1, &mut names).err();
        assert_eq!(rt; found, bad(3, column, wrong));
    }
    Ok(())
}

#[test]
fn a_head(rt: HostRuntime) -> Result<(), Fail> {
    let heap = rt.alloc();
    let text =
        "# a job\n\nroles YHC\nyarn clear(9)\nrecords 20\nhands kcipher(d, k)\nrows in.csv\ntally\n";
    let head = read_head(heap, text)?;
    assert_eq!(rt; head.lines, 6);
    assert_eq!(rt; head.records, 20);
    assert_eq!(rt; head.roles.as_slice(), ['Y', 'H', 'C'].as_slice());
    assert_eq!(rt; head.files.len(), 2);
    Ok(())
}

#[test]
fn bad_heads(rt: HostRuntime) -> Result<(), Fail> {
    let heap = rt.alloc();
    let cases = [
        ("yarn clear(9)\nyarn clear(9)\n", 2, 1, Wrong::TwiceGiven),
        (
            "yarn clear(9)\nhands clear(9)\n",
            3,
            1,
            Wrong::MissingLine(HeadWord::Roles),
        ),
        (
            "yarn clear(9)\ntally\n",
            2,
            1,
            Wrong::MissingLine(HeadWord::Hands),
        ),
        ("yarn clear(9)\n  weave 3\n", 2, 3, Wrong::UnknownWord),
        ("yarn clear(9,\n", 1, 13, Wrong::MissingSign(Sign::Close)),
    ];
    for (text, line, column, wrong) in cases {
        assert_eq!(rt; read_head(heap, text).err(), bad(line, column, wrong));
    }
    Ok(())
}

#[test]
fn steps(rt: HostRuntime) -> Result<(), Fail> {
    assert_eq!(rt; read_step("  # show 1 2", 4), Ok(None));
    assert_eq!(rt; read_step("", 4), Ok(None));
    assert_eq!(rt; read_step("tally", 4), Ok(Some(Step::Tally)));
    assert_eq!(rt; read_step("withdraw 3 ", 4), Ok(Some(Step::Withdraw(3))));
    let entry = Entry { row: 1, column: 2 };
    assert_eq!(rt; read_step("show 1 2", 4), Ok(Some(Step::Show(entry))));
    assert_eq!(rt;
        read_step("turnback 1 2", 4),
        Ok(Some(Step::TurnBack(entry)))
    );
    assert!(rt; matches!(read_step("rows in.csv", 4), Ok(Some(Step::Rows("in.csv")))));
    assert!(rt;
        matches!(
            read_step("draft in.draft", 4),
            Ok(Some(Step::Draft("in.draft")))
        )
    );
    assert!(rt; matches!(read_step("sheet out", 4), Ok(Some(Step::Sheet("out")))));
    assert_eq!(rt; read_step("show 1", 4).err(), bad(4, 7, Wrong::NoNumber));
    assert_eq!(rt; read_step("show 1,2", 4).err(), bad(4, 7, Wrong::NoNumber));
    assert_eq!(rt;
        read_step("shown 1 2", 4).err(),
        bad(4, 1, Wrong::UnknownWord)
    );
    assert_eq!(rt; read_step("tally 1", 4).err(), bad(4, 7, Wrong::GoesOn));
    assert_eq!(rt; read_step("records 1", 4).err(), bad(4, 1, Wrong::LateHead));
    Ok(())
}

#[test]
fn rows(rt: HostRuntime) -> Result<(), Fail> {
    let mut numbers = Vec::new(rt.alloc());
    read_row("1, 22,,3 ,", 1, &mut numbers)?;
    assert_eq!(rt; numbers.as_slice(), [1, 22, 0, 3, 0].as_slice());
    assert_eq!(rt;
        read_row("1,x", 7, &mut numbers).err(),
        bad(7, 3, Wrong::NoNumber)
    );
    assert_eq!(rt;
        read_row("1 2", 7, &mut numbers).err(),
        bad(7, 3, Wrong::MissingSign(Sign::Comma))
    );
    Ok(())
}

#[test]
fn words(rt: HostRuntime) -> Result<(), Fail> {
    let heap = rt.alloc();
    let found = read_row("1 2", 7, &mut Vec::new(heap))
        .err()
        .ok_or("no fault")?;
    let printed = found.to_string(heap)?;
    assert_eq!(rt; printed.as_str(), "line 7 column 3: ',' belongs here");
    let found = read_head(heap, "yarn clear(9)\nhands clear(9)\n")
        .err()
        .ok_or("no fault")?;
    let printed = found.to_string(heap)?;
    assert_eq!(rt;
        printed.as_str(),
        "line 3 column 1: the head needs a line roles with role letters"
    );
    let printed = Unbuilt::AboveTop.to_string(heap)?;
    assert_eq!(rt;
        printed.as_str(),
        "13: the constant of a plus is above its top"
    );
    Ok(())
}

// A pile of so many layers above one another as text: a coding turned again and again.
fn tower_text(heap: Global, height: usize) -> Result<String, AllocError> {
    let mut text = String::new(heap);
    for _ in 1..height {
        text.push_str("turned(")?;
    }
    text.push_str("plus(9, 4)")?;
    for _ in 1..height {
        text.push_str(")")?;
    }
    Ok(text)
}

// The same, written out with no text, over any leaf.
fn tower(heap: Global, leaf: Written, height: usize) -> Result<Written, AllocError> {
    let mut written = leaf;
    for _ in 1..height {
        written = Written::Turned(Box::new(heap, written)?);
    }
    Ok(written)
}

#[test]
fn a_pile_as_high_as_text_can_spell(rt: HostRuntime) -> Result<(), Fail> {
    let heap = rt.alloc();
    let mut names = Vec::new(heap);
    let text = tower_text(heap, 1000)?;
    let written = parse_written(heap, &text, 1, 1, &mut names)?;
    let built = build(heap, &written, &[])?;
    assert_eq!(rt; built.pile.height(), 1000);
    assert_eq!(rt; built.pile.code(4), Ok(0));
    let text = tower_text(heap, 1001)?;
    assert_eq!(rt;
        parse_written(heap, &text, 1, 1, &mut names).err(),
        bad(1, 7001, Wrong::TooDeep)
    );
    Ok(())
}

// A layer is laid only on what was built: a refused leaf is told, however high the pile would be.
#[test]
fn a_pile_too_high(rt: HostRuntime) -> Result<(), Fail> {
    let heap = rt.alloc();
    let too_high = Some(Unbuilt::Pile(PileError::TooHigh));
    let written = tower(heap, Written::Clear(9), 1000)?;
    assert_eq!(rt; build(heap, &written, &[])?.pile.height(), 1000);
    let written = Written::Narrowed(Box::new(heap, written)?, 0);
    assert_eq!(rt; build(heap, &written, &[]).err(), too_high);
    let written = tower(heap, Written::Plus(3, 4), 1001)?;
    assert_eq!(rt; build(heap, &written, &[]).err(), Some(Unbuilt::AboveTop));
    let high = tower(heap, Written::Clear(9), 1000)?;
    let missing = Written::Cipher(0, 1);
    let written = Written::Chain(Box::new(heap, high)?, Box::new(heap, missing)?);
    assert_eq!(rt; build(heap, &written, &[]).err(), Some(Unbuilt::NoFile(0)));
    let higher = tower(heap, Written::Clear(9), 1001)?;
    let missing = Written::Cipher(0, 1);
    let written = Written::Chain(Box::new(heap, higher)?, Box::new(heap, missing)?);
    assert_eq!(rt; build(heap, &written, &[]).err(), too_high);
    Ok(())
}

#[test]
fn a_pile_narrowed_to_0(rt: HostRuntime) -> Result<(), Fail> {
    let heap = rt.alloc();
    let mut names = Vec::new(heap);
    for text in [
        "narrowed(plus(9, 4), 0)",
        "turned(narrowed(narrowed(clear(18446744073709551615), 0), 7))",
        "narrowed(chain(plus(9, 4), clear(0)), 0)",
    ] {
        let written = parse_written(heap, text, 1, 1, &mut names)?;
        let pile = build(heap, &written, &[])?.pile;
        assert_eq!(rt; pile.top(), 0);
        assert_eq!(rt; pile.code(0), Ok(0));
        assert_eq!(rt; pile.back(0), Ok(0));
        assert_eq!(rt; pile.code(1), Err(AboveTop));
        assert_eq!(rt; pile.back(u64::MAX), Err(AboveTop));
    }
    Ok(())
}

// The draft of a Flex cipher of 24 bits, with C0 = 0 and orders that send each bit to itself.
fn narrowest_draft(heap: Global) -> Result<Vec<u8>, AllocError> {
    let mut bytes = Vec::new(heap);
    bytes.extend_from_slice(b"W\x18FA")?;
    bytes.extend_from_slice(&[0; 8])?;
    for letter in *b"0123" {
        bytes.push(letter)?;
        for place in 0..64u8 {
            bytes.push(if place < 24 { place } else { 0 })?;
        }
    }
    bytes.push(b'Z')?;
    Ok(bytes)
}

fn bytes_of(heap: Global, bytes: &[u8]) -> Result<Vec<u8>, AllocError> {
    let mut file = Vec::new(heap);
    file.extend_from_slice(bytes)?;
    Ok(file)
}

// The draft's file is asked for before the key's, and both before their bytes are asked.
#[test]
fn which_of_two_files_is_told(rt: HostRuntime) -> Result<(), Fail> {
    let heap = rt.alloc();
    let spoilt = bytes_of(heap, b"W\x17")?;
    let short = bytes_of(heap, &[0; 11])?;
    let files = [
        spoilt,
        narrowest_draft(heap)?,
        short,
        bytes_of(heap, &[0; 12])?,
    ];
    let told = |draft, key| build(heap, &Written::Cipher(draft, key), &files).err();
    let fault = Fault {
        reason: Reason::BadWidth,
        offset: 0,
    };
    assert_eq!(rt; told(5, 4), Some(Unbuilt::NoFile(5)));
    assert_eq!(rt; told(5, 3), Some(Unbuilt::NoFile(5)));
    assert_eq!(rt; told(0, 4), Some(Unbuilt::NoFile(4)));
    assert_eq!(rt; told(1, 4), Some(Unbuilt::NoFile(4)));
    assert_eq!(rt; told(0, 2), Some(Unbuilt::Draft(0, fault)));
    assert_eq!(rt; told(1, 2), Some(Unbuilt::Key(2, KeyRefusal::WrongLength)));
    assert_eq!(rt; told(1, 3), None);
    Ok(())
}

#[test]
fn why_a_pile_is_not_built(rt: HostRuntime) -> Result<(), Fail> {
    let heap = rt.alloc();
    let fault = Fault {
        reason: Reason::NoOrder(63),
        offset: usize::MAX,
    };
    let fault_text = "7 offset 18446744073709551615 layer orders place 63: the list is no order";
    let key_text = "12: a spare bit of the key's last byte is not 0";
    let cases = [
        (
            Unbuilt::AboveTop,
            "13: the constant of a plus is above its top",
            "                 13: the constant of a plus is above its top",
        ),
        (
            Unbuilt::NoFile(3),
            "a file is missing",
            "                                           a file is missing",
        ),
        (Unbuilt::Draft(0, fault), fault_text, fault_text),
        (Unbuilt::Key(1, KeyRefusal::SpareBits), key_text, key_text),
        (
            Unbuilt::Pile(PileError::NoMemory),
            "there is no memory for another layer",
            "                        there is no memory for another layer",
        ),
        (
            Unbuilt::Pile(PileError::TooHigh),
            "a pile has at most 1000 layers above one another",
            "            a pile has at most 1000 layers above one another",
        ),
    ];
    for (unbuilt, text, wide) in cases {
        assert_eq!(rt; format!(in heap; "{unbuilt}")?.as_str(), text);
        assert_eq!(rt; format!(in heap; "{unbuilt:#}")?.as_str(), text);
        assert_eq!(rt; format!(in heap; "{unbuilt:>60}")?.as_str(), wide);
    }
    Ok(())
}
