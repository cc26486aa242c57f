// Clear: no number up to the top is changed.
ghost use Rattle.std.specs.Prelude.{◌≡◌};
ghost use Rattle.meanings.specs.Supplied.{clear};
ghost use Rattle.meanings.proofs.Lawful.{clear_lawful};

use crate::coding::Coding;
use crate::refusal::{AboveTop, at_most};

#[derive(Drop)]
pub struct Clear {
    top: u64,
}

impl Clear {
    pub fn new(top: u64) -> Self
        ensures { result.top ≡ top }
    {
        Clear { top }
    }
}

impl Coding for Clear {
    ghost means = { λ s. clear s.top };

    ghost lawful = { λ s. clear_lawful s.top };

    fn top(&self) -> u64 {
        self.top
    }

    fn code(&self, x: u64) -> Result<u64, AboveTop> {
        at_most(self.top, x)
    }

    fn back(&self, y: u64) -> Result<u64, AboveTop> {
        self.code(y)
    }
}
