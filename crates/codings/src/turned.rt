// Turned: the coding the other way round. Its code is the way back of the coding below.
ghost use Rattle.std.specs.Prelude.{◌≡◌};
ghost use Rattle.meanings.specs.Layers.{turned};
ghost use Rattle.meanings.proofs.Narrowing.{turned_lawful};

use crate::coding::Coding;
use crate::refusal::AboveTop;

#[derive(Drop)]
pub struct Turned<A> {
    below: A,
}

impl<A: Coding> Turned<A> {
    pub fn new(below: A) -> Self
        ensures { result.below ≡ below }
    {
        Turned { below }
    }
}

impl<A: Coding> Coding for Turned<A> {
    ghost means = { λ s. turned (A.Coding.means s.below) };

    ghost lawful = { λ s. turned_lawful _ (A.Coding.lawful s.below) };

    fn top(&self) -> u64 {
        self.below.top()
    }

    fn code(&self, x: u64) -> Result<u64, AboveTop> {
        self.below.back(x)
    }

    fn back(&self, y: u64) -> Result<u64, AboveTop> {
        self.below.code(y)
    }
}
