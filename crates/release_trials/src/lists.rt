// Lists of calls.
use crate::shared::*;
use book::call::{Answer, Call};
use book::refusal::Refusal;
use book::row::Row;
use release::column_codings::ColumnCodings;
use release::open_and_call;
use release::ran::{Ran, Unopened};
use release::states::{Open, Release};
use std::alloc::Global;
use std::process::Abort;
use std::test::Fail;

// The answers come in the sequence of the calls, and more calls go on where the list ended.
#[test]
fn list_of_calls(rt: HostRuntime) -> Result<(), Fail> {
    let with = both_codings()?;
    let mut memory = [DIRTY; 2];
    let calls = [
        Call::Put(&[5, 5]),
        Call::Put(&[10, 5]),
        Call::Show(entry(1, 0)),
        Call::TurnBack(entry(1, 0)),
        Call::Withdraw(1),
        Call::Tally,
    ];
    let Ran {
        mut release,
        answers,
    } = open_and_call(rt.alloc(), &['Y', 'H'], &mut memory, &with, &calls)?;
    assert_eq!(rt;
        answers.as_slice(),
        [
            Ok(Answer::Put(1)),
            Err(Refusal::AboveTop),
            Ok(Answer::Shown(8)),
            Ok(Answer::TurnedBack(5)),
            Ok(Answer::Withdrawn),
            Ok(Answer::Tally((1, 0))),
        ]
        .as_slice()
    );
    let told = second_list(&rt, &mut release, &mut memory, &with, rt.alloc());
    release.scrap(&mut memory);
    told
}

fn second_list(
    rt: &impl Abort,
    release: &mut Release<Open>,
    memory: &mut [Row],
    with: &Codings,
    heap: Global,
) -> Result<(), Fail> {
    let calls = [
        Call::Show(entry(1, 0)),
        Call::Put(&[0, 99]),
        Call::Show(entry(2, 1)),
    ];
    let answers = release.make_calls(heap, memory, with, &calls)?;
    assert_eq!(rt;
        answers.as_slice(),
        [
            Err(Refusal::NotStanding),
            Ok(Answer::Put(2)),
            Ok(Answer::Shown(6)),
        ]
        .as_slice()
    );
    Ok(())
}

// However long a list is, each of its calls is answered.
#[test]
fn lists_of_any_length(rt: HostRuntime) -> Result<(), Fail> {
    for count in [0, 1, 300] {
        all_answered(&rt, rt.alloc(), count)?;
    }
    Ok(())
}

// A list of puts and shows by turns, and then one of as many tallies.
fn all_answered(rt: &impl Abort, heap: Global, count: usize) -> Result<(), Fail> {
    let with = both_codings()?;
    let numbers = [5, 5];
    let mut memory = vec![in heap; DIRTY; 150]?;
    let mut calls = Vec::new(heap);
    let mut expected = Vec::new(heap);
    for i in 0..count {
        let row = i / 2 + 1;
        if i % 2 == 0 {
            calls.push(Call::Put(&numbers))?;
            expected.push(Ok(Answer::Put(row)))?;
        } else {
            calls.push(Call::Show(entry(row, 1)))?;
            expected.push(Ok(Answer::Shown(12)))?;
        }
    }
    let tallies = vec![in heap; Call::Tally; count]?;
    let Ran {
        mut release,
        answers,
    } = open_and_call(heap, &['Y', 'H'], &mut memory, &with, &calls)?;
    let more = release.make_calls(heap, &mut memory, &with, &tallies);
    release.scrap(&mut memory);
    assert_eq!(rt; answers.as_slice(), expected.as_slice());
    let more = more?;
    assert_eq!(rt; more.len(), count);
    let rows = count.div_ceil(2);
    for answer in &more {
        assert_eq!(rt; *answer, Ok(Answer::Tally((rows, rows))));
    }
    Ok(())
}

// A call by itself is answered as in a list.
#[test]
fn single_calls(rt: HostRuntime) -> Result<(), Fail> {
    let with = both_codings()?;
    let mut memory = [DIRTY; 2];
    let mut release = opened(&['Y'], &mut memory)?;
    assert_eq!(rt;
        release.call(&mut memory, &with, Call::Put(&[5])),
        Ok(Answer::Put(1))
    );
    assert_eq!(rt; memory, [standing([8, 0, 0, 0, 0, 0, 0, 0]), Row::BLANK]);
    assert_eq!(rt;
        release.call(&mut memory, &with, Call::Put(&[10])),
        Err(Refusal::AboveTop)
    );
    assert_eq!(rt;
        release.call(&mut memory, &with, Call::Show(entry(1, 0))),
        Ok(Answer::Shown(8))
    );
    assert_eq!(rt;
        release.call(&mut memory, &with, Call::TurnBack(entry(1, 0))),
        Ok(Answer::TurnedBack(5))
    );
    assert_eq!(rt;
        release.call(&mut memory, &with, Call::Withdraw(1)),
        Ok(Answer::Withdrawn)
    );
    assert_eq!(rt; memory, [Row::BLANK; 2]);
    assert_eq!(rt;
        release.call(&mut memory, &with, Call::Tally),
        Ok(Answer::Tally((1, 0)))
    );
    release.scrap(&mut memory);
    Ok(())
}

// An opening that is refused makes no call and leaves row memory as it was.
#[test]
fn list_on_no_release(rt: HostRuntime) -> Result<(), Fail> {
    let with = both_codings()?;
    let mut memory = [DIRTY; 1];
    let lent = ColumnCodings {
        yarn: &with.yarn,
        hands: &with.hands,
    };
    match open_and_call(rt.alloc(), &['X'], &mut memory, &lent, &[Call::Tally]) {
        Ok(
            Ran {
                release,
                answers: _,
            },
        ) => {
            release.scrap(&mut memory);
            Err(Fail::new("a release was opened"))
        }
        Err(reason) => {
            assert_eq!(rt; reason, Unopened::Refused(Refusal::RoleLetter));
            assert_eq!(rt; memory, [DIRTY]);
            Ok(())
        }
    }
}
