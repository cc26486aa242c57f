// A small release of loom records: a yarn colour, a weaver and a loom for each row, coded by any two codings. Every way
// out seals the release or scraps it.
use crate::refusals::tell_refused;
use book::call::{Answer, Call};
use book::entry::Entry;
use book::refusal::Refusal;
use book::row::Row;
use codings::coding::Coding;
use release::column_codings::ColumnCodings;
use release::open_and_call;
use release::ran::Ran;
use release::states::{Release, Sealed};
use std::io;

const ROLES: [char; 3] = ['Y', 'H', 'C'];

// Opens a release over four row records, makes the calls of the day, tells the answers, and seals it.
pub fn keep_release<Y: Coding, H: Coding>(
    rt: &HostRuntime,
    codings: &ColumnCodings<Y, H>,
) -> anyhow::Result<()> {
    let calls = [
        Call::Put(&[376, 17, 4]),
        Call::Put(&[377, 17, 5]),
        Call::Put(&[750, 18, 5]),
        Call::Put(&[376, 18, 4]),
        Call::Withdraw(2),
        Call::Show(Entry { row: 1, column: 0 }),
        Call::Show(Entry { row: 3, column: 0 }),
        Call::TurnBack(Entry { row: 3, column: 1 }),
        Call::Show(Entry { row: 2, column: 0 }),
        Call::Tally,
    ];
    let mut memory = [Row::BLANK; 4];
    let Ran { release, answers } = match open_and_call(
        rt.alloc(),
        &ROLES,
        &mut memory,
        codings,
        &calls,
    ) {
        Ok(ran) => ran,
        Err(reason) => {
            println!(rt; "no release: {reason}")?;
            return Ok(());
        }
    };
    if let Err(error) = tell_answers(rt, &calls, &answers) {
        release.scrap(&mut memory);
        return Err(error.into());
    }
    tell_sealed(rt, &release.seal(), &memory)?;
    Ok(())
}

fn tell_answers(
    rt: &impl Print,
    calls: &[Call<'_>],
    answers: &[Result<Answer, Refusal>],
) -> io::Result<()> {
    println!(rt; "a release of yarn, hands and a clear column over 4 row records:")?;
    for (call, answer) in calls.iter().zip(answers) {
        match answer {
            Ok(answer) => println!(rt; "  {call}: {answer}")?,
            Err(refusal) => tell_refused(rt, &format_args!("  {call}"), *refusal)?,
        }
    }
    Ok(())
}

fn tell_sealed(rt: &impl Print, sealed: &Release<Sealed>, memory: &[Row]) -> io::Result<()> {
    match sealed.show(memory, Entry { row: 1, column: 1 }) {
        Ok(code) => println!(rt; "sealed: row 1 column 1 shows code {code}")?,
        Err(refusal) => tell_refused(rt, &"sealed: row 1 column 1", refusal)?,
    }
    match sealed.tally(memory) {
        Ok(tally) => println!(rt; "sealed: {}", Answer::Tally(tally)),
        Err(refusal) => tell_refused(rt, &"sealed: tally", refusal),
    }
}
