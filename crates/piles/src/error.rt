// Why a layer cannot be laid on a pile.
ghost use Rattle.std.specs.Prelude.{◌≡◌, Some as Shown};
ghost use Rattle.std.specs.Fmt.{padded};
ghost use Rattle.piles.specs.Errors.{words_of};
ghost use Rattle.piles.specs.declared.error.PileError.TheVariants.{NoMemory};

use std::alloc::AllocFailed;
use std::error::Error;
use std::fmt;

// Neither is a refusal of a coding, so neither has a number.
#[derive(Clone, Copy, PartialEq, Eq, Debug)]
pub enum PileError {
    // There is no memory for the layer.
    NoMemory,
    // The pile would have more layers above one another than a pile may have.
    TooHigh,
}

impl fmt::Display for PileError {
    ghost output = { λ s. Shown (words_of s) };

    ghost styled_output = { λ s spec. Shown (padded spec (words_of s)) };

    fn fmt<W: fmt::Write>(&self, f: &mut fmt::Formatter<W>) -> fmt::Result {
        f.pad(match self {
            PileError::NoMemory => "there is no memory for another layer",
            PileError::TooHigh => "a pile has at most 1000 layers above one another",
        })
    }
}

impl Error for PileError {}

impl<T: Drop> From<AllocFailed<T>> for PileError {
    ghost from_gives = { λ _ e. e ≡ NoMemory };

    fn from(_failed: AllocFailed<T>) -> Self {
        Self::NoMemory
    }
}
