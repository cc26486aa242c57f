// The calls on an open release, and their answers.
ghost use Rattle.std.specs.Prelude.{Some as Written};
ghost use Rattle.book.specs.Shown.{answer_text, call_text};

use crate::entry::Entry;
use std::fmt;

#[derive(Clone, Copy, PartialEq, Eq, Debug)]
pub enum Call<'a> {
    // One row more: a number for each column.
    Put(&'a [u64]),
    // Takes the row of this number back.
    Withdraw(usize),
    // The code of this entry.
    Show(Entry),
    // The number whose code is this entry's.
    TurnBack(Entry),
    // The places taken and the rows standing.
    Tally,
}

// What a call answers that is not refused.
#[derive(Clone, Copy, PartialEq, Eq, Debug)]
pub enum Answer {
    // The number of the row that was put.
    Put(usize),
    Withdrawn,
    Shown(u64),
    TurnedBack(u64),
    // The places taken, and the rows standing.
    Tally((usize, usize)),
}

impl fmt::Display for Answer {
    ghost output = { λ answer. Written (answer_text answer) };

    fn fmt<W: fmt::Write>(&self, f: &mut fmt::Formatter<W>) -> fmt::Result {
        match self {
            Answer::Put(row) => write!(f, "row {row}"),
            Answer::Withdrawn => f.write_str("done"),
            Answer::Shown(code) => write!(f, "code {code}"),
            Answer::TurnedBack(number) => write!(f, "number {number}"),
            Answer::Tally(tally) => {
                let (taken, standing) = *tally;
                write!(f, "{taken} places taken, {standing} rows standing")
            }
        }
    }
}

impl fmt::Display for Call<'_> {
    ghost output = { call_text };

    fn fmt<W: fmt::Write>(&self, f: &mut fmt::Formatter<W>) -> fmt::Result {
        match self {
            Call::Put(numbers) => write!(f, "put {numbers:?}"),
            Call::Withdraw(row) => write!(f, "withdraw row {row}"),
            Call::Show(entry) => write!(f, "show {entry}"),
            Call::TurnBack(entry) => write!(f, "turn back {entry}"),
            Call::Tally => f.write_str("tally"),
        }
    }
}
