// Why a written pile cannot be built.
ghost use Rattle.std.specs.Prelude.{◌≡◌};
ghost use Rattle.std.specs.Fmt.{padded};
ghost use Rattle.jobs.specs.Shown.{unbuilt_text, padded_unbuilt_text};
ghost use Rattle.jobs.specs.declared.unbuilt.Unbuilt.TheVariants.{Pile as PileRefused};

use keys::refusal::KeyRefusal;
use piles::error::PileError;
use spelling::fault::Fault;
use std::error::Error;
use std::fmt;

// The files are places in the list of files.
#[derive(Clone, Copy, PartialEq, Eq, Debug)]
pub enum Unbuilt {
    // Refusal 13: the constant of a plus is above its top.
    AboveTop,
    // The list has no such file.
    NoFile(usize),
    // This file is no draft.
    Draft(usize, Fault),
    // This file is no key of its draft.
    Key(usize, KeyRefusal),
    // A layer cannot be laid.
    Pile(PileError),
}

impl fmt::Display for Unbuilt {
    ghost output = { unbuilt_text };

    ghost styled_output = { λ e style. padded_unbuilt_text (padded style) e };

    fn fmt<W: fmt::Write>(&self, f: &mut fmt::Formatter<W>) -> fmt::Result {
        match self {
            Unbuilt::AboveTop => f.pad("13: the constant of a plus is above its top"),
            Unbuilt::NoFile(_) => f.pad("a file is missing"),
            Unbuilt::Draft(_, fault) => fmt::Display::fmt(fault, f),
            Unbuilt::Key(_, refusal) => write!(f, "{}: {refusal}", refusal.number()),
            Unbuilt::Pile(error) => fmt::Display::fmt(error, f),
        }
    }
}

impl Error for Unbuilt {}

impl From<PileError> for Unbuilt {
    ghost from_gives = { λ error e. e ≡ PileRefused error };

    fn from(error: PileError) -> Self {
        Unbuilt::Pile(error)
    }
}
