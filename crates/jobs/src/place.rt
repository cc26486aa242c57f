// What is wrong with the text of a job, and where.
ghost use Rattle.std.specs.Prelude.{◌≡◌, Some as Shown};
ghost use Rattle.jobs.specs.Shown.{bad_text, head_words, place_text, sign_words, wrong_words};

use std::error::Error;
use std::fmt;

// Lines and columns count from 1, and a column counts bytes.
#[derive(Clone, Copy, PartialEq, Eq, Debug)]
pub struct Place {
    pub line: usize,
    pub column: usize,
}

// The signs of a written pile.
#[derive(Clone, Copy, PartialEq, Eq, Debug)]
pub enum Sign {
    Open,
    Comma,
    Close,
}

// The lines of a job's head.
#[derive(Clone, Copy, PartialEq, Eq, Debug)]
pub enum HeadWord {
    Yarn,
    Hands,
    Roles,
    Records,
}

#[derive(Clone, Copy, PartialEq, Eq, Debug)]
pub enum Wrong {
    // No coding has this name.
    UnknownName,
    // A number from 0 to 2^64 - 1 belongs here.
    NoNumber,
    // The name of a file belongs here.
    NoName,
    MissingSign(Sign),
    // The text goes on after its end.
    GoesOn,
    // More layers stand above one another than a pile may have.
    TooDeep,
    NoMemory,
    // No line of a job begins with this word.
    UnknownWord,
    // The head has no such line.
    MissingLine(HeadWord),
    // The head has this line already.
    TwiceGiven,
    // A line of the head comes after a step.
    LateHead,
}

#[derive(Clone, Copy, PartialEq, Eq, Debug)]
pub struct BadText {
    pub place: Place,
    pub wrong: Wrong,
}

impl Sign {
    fn words(self) -> &'static str
        ensures { result.now ≡ sign_words self }
    {
        match self {
            Sign::Open => "'(' belongs here",
            Sign::Comma => "',' belongs here",
            Sign::Close => "')' belongs here",
        }
    }
}

impl HeadWord {
    fn words(self) -> &'static str
        ensures { result.now ≡ head_words self }
    {
        match self {
            HeadWord::Yarn => "the head needs a line yarn with a coding",
            HeadWord::Hands => "the head needs a line hands with a coding",
            HeadWord::Roles => "the head needs a line roles with role letters",
            HeadWord::Records => "the head needs a line records with a number",
        }
    }
}

impl Wrong {
    fn words(self) -> &'static str
        ensures { result.now ≡ wrong_words self }
    {
        match self {
            Wrong::UnknownName => "a coding is clear, plus, kcipher, chain, turned or narrowed",
            Wrong::NoNumber => "a number from 0 to 18446744073709551615 belongs here",
            Wrong::NoName => "a name belongs here",
            Wrong::MissingSign(sign) => sign.words(),
            Wrong::GoesOn => "nothing may follow here",
            Wrong::TooDeep => "at most 1000 codings may stand inside one another",
            Wrong::NoMemory => "there is no memory for what is written here",
            Wrong::UnknownWord =>
                "a line begins with yarn, hands, roles, records, rows, withdraw, show, turnback, tally, draft or sheet",
            Wrong::MissingLine(word) => word.words(),
            Wrong::TwiceGiven => "this line was given already",
            Wrong::LateHead => "this line belongs before the first step",
        }
    }
}

impl fmt::Display for Place {
    ghost output = { λ place. Shown (place_text place) };

    fn fmt<W: fmt::Write>(&self, f: &mut fmt::Formatter<W>) -> fmt::Result {
        let (line, column) = (self.line, self.column);
        write!(f, "line {line} column {column}")
    }
}

impl fmt::Display for BadText {
    ghost output = { λ e. Shown (bad_text e) };

    fn fmt<W: fmt::Write>(&self, f: &mut fmt::Formatter<W>) -> fmt::Result {
        write!(f, "{}: {}", self.place, self.wrong.words())
    }
}

impl Error for BadText {}
