// The refusal of a coding.
ghost use Rattle.std.specs.Prelude.{◌≡◌, ◌≤◌, OnOk, Some as Shown};
ghost use Rattle.std.specs.Fmt.{padded};
ghost use Rattle.codings.specs.Asking.{coded};
ghost use Rattle.codings.specs.Refusal.{number_of, words_of};
ghost use Rattle.meanings.specs.Supplied.{clear};

use std::error::Error;
use std::fmt;

// The number that a coding was asked about is above its top.
#[derive(Clone, Copy, PartialEq, Eq, Debug)]
pub struct AboveTop;

impl AboveTop {
    // The refusal's number, 13.
    pub fn number(&self) -> u8
        ensures { result ≡ number_of self.now }
    {
        13
    }
}

impl fmt::Display for AboveTop {
    ghost output = { λ s. Shown (words_of s) };

    ghost styled_output = { λ s spec. Shown (padded spec (words_of s)) };

    fn fmt<W: fmt::Write>(&self, f: &mut fmt::Formatter<W>) -> fmt::Result {
        f.pad("the number is above the coding's top")
    }
}

impl Error for AboveTop {}

// The question that every coding puts first: x again, where it is at most the top.
pub fn at_most(top: u64, x: u64) -> Result<u64, AboveTop>
    ensures is { result ≡ coded (clear top) x }
    ensures within { OnOk result (x ≤ top) }
{
    if x <= top { Ok(x) } else { Err(AboveTop) }
}
