// Texts at their ends: the highest piles, the largest numbers, faults far out on a line, and each fault as it is told.
use crate::build::build;
use crate::job::{Step, read_head, read_step};
use crate::parse::parse_written;
use crate::place::{BadText, HeadWord, Place, Sign, Wrong};
use crate::row::read_row;
use std::alloc::Global;
use std::process::Abort;
use std::test::Fail;

fn bad(line: usize, column: usize, wrong: Wrong) -> Option<BadText> {
    Some(BadText {
        place: Place { line, column },
        wrong,
    })
}

// The part so many times between the two ends.
fn repeated(
    heap: Global,
    before: &str,
    part: &str,
    times: usize,
    after: &str,
) -> Result<String, Fail> {
    let mut text = String::new(heap);
    text.push_str(before)?;
    for _ in 0..times {
        text.push_str(part)?;
    }
    text.push_str(after)?;
    Ok(text)
}

// A pile of one coding, turned so many times.
fn turned(heap: Global, times: usize) -> Result<String, Fail> {
    let inner = repeated(heap, "", "turned(", times, "clear(9)")?;
    repeated(heap, inner.as_str(), ")", times, "")
}

fn fault_of_pile(heap: Global, text: &str, column: usize) -> Option<BadText> {
    parse_written(heap, text, 3, column, &mut Vec::new(heap)).err()
}

fn fault_of_row(heap: Global, text: &str) -> Option<BadText> {
    read_row(text, 7, &mut Vec::new(heap)).err()
}

#[test]
fn the_highest_piles(rt: HostRuntime) -> Result<(), Fail> {
    let heap = rt.alloc();
    for (times, height) in [(120, 121), (999, 1000)] {
        let text = turned(heap, times)?;
        let written = parse_written(heap, text.as_str(), 1, 1, &mut Vec::new(heap))?;
        assert_eq!(rt; build(heap, &written, &[])?.pile.height(), height);
    }
    // The coding below 1000 others begins behind them.
    let text = turned(heap, 1000)?;
    assert_eq!(rt;
        fault_of_pile(heap, text.as_str(), 1),
        bad(3, 7001, Wrong::TooDeep)
    );
    Ok(())
}

#[test]
fn the_largest_numbers(rt: HostRuntime) -> Result<(), Fail> {
    let heap = rt.alloc();
    let mut numbers = Vec::new(heap);
    read_row("18446744073709551615,007", 1, &mut numbers)?;
    assert_eq!(rt; numbers.as_slice(), [u64::MAX, 7].as_slice());
    assert_eq!(rt;
        fault_of_row(heap, "7,18446744073709551616"),
        bad(7, 3, Wrong::NoNumber)
    );
    let step = read_step("withdraw 18446744073709551615", 4);
    assert_eq!(rt; step, Ok(Some(Step::Withdraw(usize::MAX))));
    assert_eq!(rt; read_step("withdraw 007", 4), Ok(Some(Step::Withdraw(7))));
    let step = read_step("withdraw 18446744073709551616", 4);
    assert_eq!(rt; step.err(), bad(4, 10, Wrong::NoNumber));
    let text = "narrowed(clear(18446744073709551615), 007)";
    let written = parse_written(heap, text, 1, 1, &mut Vec::new(heap))?;
    assert_eq!(rt; build(heap, &written, &[])?.long, 1);
    assert_eq!(rt;
        fault_of_pile(heap, "narrowed(clear(18446744073709551616), 7)", 1),
        bad(3, 16, Wrong::NoNumber)
    );
    Ok(())
}

#[test]
fn eight_fields(rt: HostRuntime) -> Result<(), Fail> {
    let mut numbers = Vec::new(rt.alloc());
    read_row(" 1,2 ,3,\t4,5,,7,8 ", 1, &mut numbers)?;
    assert_eq!(rt; numbers.as_slice(), [1, 2, 3, 4, 5, 0, 7, 8].as_slice());
    Ok(())
}

#[test]
fn faults_far_out(rt: HostRuntime) -> Result<(), Fail> {
    let heap = rt.alloc();
    let rows = [
        ("", " ", "x", 101, Wrong::NoNumber),
        ("", "1,", "x", 201, Wrong::NoNumber),
        ("1", " ", "2", 102, Wrong::MissingSign(Sign::Comma)),
        ("1,", " ", "x,2", 103, Wrong::NoNumber),
    ];
    for (before, part, after, column, wrong) in rows {
        let text = repeated(heap, before, part, 100, after)?;
        assert_eq!(rt; fault_of_row(heap, text.as_str()), bad(7, column, wrong));
    }
    let piles = [
        ("", "plain(3)", 105, Wrong::UnknownName),
        ("clear(", "x)", 111, Wrong::NoNumber),
        ("clear", "3)", 110, Wrong::MissingSign(Sign::Open)),
        ("clear(3", ", 4)", 112, Wrong::MissingSign(Sign::Close)),
        ("clear(3)", "4", 113, Wrong::GoesOn),
        ("kcipher(a,", ")", 115, Wrong::NoName),
    ];
    for (before, after, column, wrong) in piles {
        let text = repeated(heap, before, " ", 100, after)?;
        assert_eq!(rt;
            fault_of_pile(heap, text.as_str(), 5),
            bad(3, column, wrong)
        );
    }
    // The largest column is the last that can be told.
    assert_eq!(rt;
        fault_of_pile(heap, "clear(x)", usize::MAX - 2),
        bad(3, usize::MAX, Wrong::NoNumber)
    );
    Ok(())
}

#[test]
fn faulty_steps(rt: HostRuntime) -> Result<(), Fail> {
    let heap = rt.alloc();
    let steps = [
        ("", "weave 3", 101, Wrong::UnknownWord),
        ("", "yarn clear(3)", 101, Wrong::LateHead),
        ("rows", "", 105, Wrong::NoName),
        ("rows in.csv", "out.csv", 112, Wrong::GoesOn),
        ("withdraw", "x", 109, Wrong::NoNumber),
        ("withdraw 3", "4", 111, Wrong::GoesOn),
        ("show", "x 2", 105, Wrong::NoNumber),
        ("show 1", "x", 107, Wrong::NoNumber),
        ("show 1", "", 107, Wrong::NoNumber),
        ("show 1 2", "3", 109, Wrong::GoesOn),
        ("turnback 1", "-2", 111, Wrong::NoNumber),
        ("tally", "now", 106, Wrong::GoesOn),
        ("draft", "", 106, Wrong::NoName),
        ("sheet out", "in", 110, Wrong::GoesOn),
    ];
    for (before, after, column, wrong) in steps {
        let text = repeated(heap, before, " ", 100, after)?;
        assert_eq!(rt; read_step(text.as_str(), 4).err(), bad(4, column, wrong));
    }
    Ok(())
}

#[test]
fn faulty_heads(rt: HostRuntime) -> Result<(), Fail> {
    let heap = rt.alloc();
    let heads = [
        ("yarn", "clear(x)", 1, 111, Wrong::NoNumber),
        ("records 3\nhands", "plain(3)", 2, 106, Wrong::UnknownName),
        ("# a job\nroles Y", "H", 2, 108, Wrong::GoesOn),
        ("\n\nrecords", "", 3, 108, Wrong::NoNumber),
        ("records 3\n", "records 3", 2, 101, Wrong::TwiceGiven),
        ("\n", "weave 3", 2, 101, Wrong::UnknownWord),
    ];
    for (before, after, line, column, wrong) in heads {
        let text = repeated(heap, before, " ", 100, after)?;
        assert_eq!(rt;
            read_head(heap, text.as_str()).err(),
            bad(line, column, wrong)
        );
    }
    Ok(())
}

#[test]
fn each_missing_line(rt: HostRuntime) -> Result<(), Fail> {
    let heap = rt.alloc();
    let heads = [
        ("hands clear(9)\nroles Y\nrecords 3\n", HeadWord::Yarn),
        ("yarn clear(9)\nroles Y\nrecords 3\n", HeadWord::Hands),
        (
            "yarn clear(9)\nhands clear(9)\nrecords 3\n",
            HeadWord::Roles,
        ),
        (
            "yarn clear(9)\nhands clear(9)\nroles Y\n",
            HeadWord::Records,
        ),
    ];
    for (text, word) in heads {
        assert_eq!(rt;
            read_head(heap, text).err(),
            bad(4, 1, Wrong::MissingLine(word))
        );
        let text = repeated(heap, text, "\n", 3, "tally\n")?;
        assert_eq!(rt;
            read_head(heap, text.as_str()).err(),
            bad(7, 1, Wrong::MissingLine(word))
        );
    }
    Ok(())
}

// A fault is told as these words behind its place, however it is asked to be set.
fn reads(rt: &impl Abort, heap: Global, wrong: Wrong, words: &str) -> Result<(), Fail> {
    let place = Place {
        line: usize::MAX,
        column: usize::MAX,
    };
    let mut text = String::new(heap);
    text.push_str("line 18446744073709551615 column 18446744073709551615")?;
    assert_eq!(rt; format!(in heap; "{place}")?.as_str(), text.as_str());
    assert_eq!(rt; format!(in heap; "{place:#}")?.as_str(), text.as_str());
    assert_eq!(rt; format!(in heap; "{place:>60}")?.as_str(), text.as_str());
    text.push_str(": ")?;
    text.push_str(words)?;
    let fault = BadText { place, wrong };
    assert_eq!(rt; format!(in heap; "{fault}")?.as_str(), text.as_str());
    assert_eq!(rt; format!(in heap; "{fault:#}")?.as_str(), text.as_str());
    assert_eq!(rt; format!(in heap; "{fault:>60}")?.as_str(), text.as_str());
    Ok(())
}

#[test]
fn each_fault_as_it_is_told(rt: HostRuntime) -> Result<(), Fail> {
    let heap = rt.alloc();
    let told = [
        (
            Wrong::UnknownName,
            "a coding is clear, plus, kcipher, chain, turned or narrowed",
        ),
        (
            Wrong::NoNumber,
            "a number from 0 to 18446744073709551615 belongs here",
        ),
        (Wrong::NoName, "a name belongs here"),
        (Wrong::MissingSign(Sign::Open), "'(' belongs here"),
        (Wrong::MissingSign(Sign::Comma), "',' belongs here"),
        (Wrong::MissingSign(Sign::Close), "')' belongs here"),
        (Wrong::GoesOn, "nothing may follow here"),
        (
            Wrong::TooDeep,
            "at most 1000 codings may stand inside one another",
        ),
        (
            Wrong::NoMemory,
            "there is no memory for what is written here",
        ),
        (
            Wrong::UnknownWord,
            "a line begins with yarn, hands, roles, records, rows, withdraw, show, turnback, tally, draft or sheet",
        ),
        (
            Wrong::MissingLine(HeadWord::Yarn),
            "the head needs a line yarn with a coding",
        ),
        (
            Wrong::MissingLine(HeadWord::Hands),
            "the head needs a line hands with a coding",
        ),
        (
            Wrong::MissingLine(HeadWord::Roles),
            "the head needs a line roles with role letters",
        ),
        (
            Wrong::MissingLine(HeadWord::Records),
            "the head needs a line records with a number",
        ),
        (Wrong::TwiceGiven, "this line was given already"),
        (Wrong::LateHead, "this line belongs before the first step"),
    ];
    for (wrong, words) in told {
        reads(&rt, heap, wrong, words)?;
    }
    Ok(())
}
