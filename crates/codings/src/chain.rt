// Chain: one coding after the other. A part leaves alone what is above its own top.
ghost use Rattle.std.specs.Prelude.{◌≡◌};
ghost use Rattle.codings.specs.Asking.{coded};
ghost use Rattle.meanings.specs.Layers.{chained};
ghost use Rattle.meanings.proofs.Lawful.{chained_lawful};

use crate::coding::Coding;
use crate::refusal::AboveTop;
use crate::turned::Turned;
use meanings::chained_top;

#[derive(Drop)]
pub struct Chain<A, B> {
    first: A,
    then: B,
}

impl<A: Coding, B: Coding> Chain<A, B> {
    pub fn new(first: A, then: B) -> Self
        ensures { (result.first ≡ first) × (result.then ≡ then) }
    {
        Chain { first, then }
    }
}

impl<A: Coding, B: Coding> Coding for Chain<A, B> {
    ghost means = { λ s. chained (A.Coding.means s.first) (B.Coding.means s.then) };

    ghost lawful = { λ s. chained_lawful _ _ (A.Coding.lawful s.first) (B.Coding.lawful s.then) };

    fn top(&self) -> u64 {
        chained_top(self.first.top(), self.then.top())
    }

    fn code(&self, x: u64) -> Result<u64, AboveTop> {
        through(&self.first, &self.then, x)
    }

    // A chain turned is the chain of its turned parts in reverse.
    fn back(&self, y: u64) -> Result<u64, AboveTop> {
        through(&Turned::new(&self.then), &Turned::new(&self.first), y)
    }
}

// The code of x in the chain of `near` and `far`.
fn through<A: Coding, B: Coding>(near: &A, far: &B, x: u64) -> Result<u64, AboveTop>
    ensures { result ≡ coded (chained (A.Coding.means near.now) (B.Coding.means far.now)) x }
{
    match near.code(x) {
        Ok(met) => Ok(far.code(met).unwrap_or(met)),
        Err(_) => far.code(x),
    }
}
