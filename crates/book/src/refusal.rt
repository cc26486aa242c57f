// Why a call on a release is refused.
ghost use Rattle.std.specs.Fmt.{styled_text};
ghost use Rattle.std.specs.Prelude.{◌≡◌, Some as Written};
ghost use Rattle.book.specs.Refusals.{number_of, words_of};
ghost use Rattle.book.specs.declared.refusal.Refusal.TheVariants.{AboveTop};

use codings::refusal::AboveTop;
use std::error::Error;
use std::fmt;

// The numbers and words of all of them stand in one table each, the coding's own refusal among them.
#[derive(Clone, Copy, PartialEq, Eq, Debug)]
pub enum Refusal {
    // 13: a number is above its coding's top.
    AboveTop,
    // 14: a release has 1 to 8 columns.
    Columns,
    // 15: a role letter is Y, H or C.
    RoleLetter,
    // 16: a release has 1 to 4096 row records.
    RowRecords,
    // 17: the row memory has not the length that the release was opened with.
    MemoryLength,
    // 18: a row has one number for each column.
    NumberCount,
    // 19: no place is free.
    NoPlaceFree,
    // 20: the row is not standing.
    NotStanding,
    // 21: there is no such column.
    NoSuchColumn,
}

impl Refusal {
    pub fn number(self) -> u8
        ensures { result ≡ number_of self }
    {
        match self {
            Refusal::AboveTop => 13,
            Refusal::Columns => 14,
            Refusal::RoleLetter => 15,
            Refusal::RowRecords => 16,
            Refusal::MemoryLength => 17,
            Refusal::NumberCount => 18,
            Refusal::NoPlaceFree => 19,
            Refusal::NotStanding => 20,
            Refusal::NoSuchColumn => 21,
        }
    }

    pub fn words(self) -> &'static str
        ensures { result.now ≡ words_of self }
    {
        match self {
            Refusal::AboveTop => "the number is above the coding's top",
            Refusal::Columns => "a release has 1 to 8 columns",
            Refusal::RoleLetter => "a role letter is Y, H or C",
            Refusal::RowRecords => "a release has 1 to 4096 row records",
            Refusal::MemoryLength =>
                "the row memory has not the length that the release was opened with",
            Refusal::NumberCount => "a row has one number for each column",
            Refusal::NoPlaceFree => "no place is free",
            Refusal::NotStanding => "the row is not standing",
            Refusal::NoSuchColumn => "there is no such column",
        }
    }
}

impl fmt::Display for Refusal {
    ghost output = { λ s. Written (words_of s) };

    ghost styled_output = { λ s spec. Written (styled_text spec (words_of s)) };

    fn fmt<W: fmt::Write>(&self, f: &mut fmt::Formatter<W>) -> fmt::Result {
        f.pad(self.words())
    }
}

impl Error for Refusal {}

// A coding refuses nothing but a number above its top.
impl From<AboveTop> for Refusal {
    ghost from_gives = { λ _ refusal. refusal ≡ AboveTop };

    fn from(_: AboveTop) -> Self {
        Self::AboveTop
    }
}
