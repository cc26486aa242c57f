// What opening a release and making a list of calls gives.
ghost use Rattle.std.specs.Prelude.{◌≡◌, Some as Written};
ghost use Rattle.release.specs.Shown.{unopened_text};
ghost use Rattle.release.specs.declared.ran.Unopened.TheVariants.{Refused, NoMemory};

use crate::states::{Open, Release};
use book::call::Answer;
use book::refusal::Refusal;
use std::alloc::AllocError;
use std::error::Error;
use std::fmt;

// The open release and the answers of its calls. It cannot be let go, since the release cannot.
pub struct Ran {
    pub release: Release<Open>,
    pub answers: Vec<Result<Answer, Refusal>>,
}

// Why no release was opened; row memory is then as it was.
#[derive(Clone, Copy, PartialEq, Eq, Debug)]
pub enum Unopened {
    Refused(Refusal),
    // There is no memory for the answers.
    NoMemory,
}

impl fmt::Display for Unopened {
    ghost output = { λ unopened. Written (unopened_text unopened) };

    fn fmt<W: fmt::Write>(&self, f: &mut fmt::Formatter<W>) -> fmt::Result {
        match self {
            Unopened::Refused(refusal) => write!(f, "refused {}: {refusal}", refusal.number()),
            Unopened::NoMemory => f.write_str("there is no memory for its answers"),
        }
    }
}

impl Error for Unopened {}

impl From<Refusal> for Unopened {
    ghost from_gives = { λ refusal unopened. unopened ≡ Refused refusal };

    fn from(refusal: Refusal) -> Self {
        Self::Refused(refusal)
    }
}

impl From<AllocError> for Unopened {
    ghost from_gives = { λ _ unopened. unopened ≡ NoMemory };

    fn from(_: AllocError) -> Self {
        Self::NoMemory
    }
}
