// Narrowed: the coding below on the numbers up to a smaller top. One step of its rule is always taken, and
// more for as long as they lead past the new top.
ghost use Rattle.std.specs.Prelude.{◌≡◌};
ghost use Rattle.codings.specs.Asking.{coded};
ghost use Rattle.meanings.specs.Layers.{narrowed};
ghost use Rattle.meanings.proofs.Narrowing.{narrowed_lawful};

use crate::coding::Coding;
use crate::refusal::{AboveTop, at_most};
use crate::turned::Turned;
use meanings::narrowed_top;

#[derive(Drop)]
pub struct Narrowed<A> {
    below: A,
    to: u64,
}

impl<A: Coding> Narrowed<A> {
    pub fn new(below: A, to: u64) -> Self
        ensures { (result.below ≡ below) × (result.to ≡ to) }
    {
        Narrowed { below, to }
    }
}

impl<A: Coding> Coding for Narrowed<A> {
    ghost means = { λ s. narrowed s.to (A.Coding.means s.below) };

    ghost lawful = { λ s. narrowed_lawful s.to _ (A.Coding.lawful s.below) };

    fn top(&self) -> u64 {
        narrowed_top(self.to, self.below.top())
    }

    fn code(&self, x: u64) -> Result<u64, AboveTop> {
        first_within(&self.below, self.to, x)
    }

    // A narrowed coding turned is the turned one narrowed, so the way back is the same walk.
    fn back(&self, y: u64) -> Result<u64, AboveTop> {
        first_within(&Turned::new(&self.below), self.to, y)
    }
}

// The code of x in the coding below narrowed to `to`: a step, and further steps until the number is small.
fn first_within<A: Coding>(below: &A, to: u64, x: u64) -> Result<u64, AboveTop>
    ensures { result ≡ coded (narrowed to (A.Coding.means below.now)) x }
{
    let top = narrowed_top(to, below.top());
    at_most(top, x)?;
    let mut y = below.code(x)?;
    while y > top {
        y = below.code(y)?;
    }
    Ok(y)
}
