// Plus: a constant is added, modulo one more than the top.
ghost use Rattle.std.specs.Prelude.{◌≡◌, ◌<◌, ◌≤◌, MatchResult};
ghost use Rattle.codings.specs.Wrapping.{Wraps};
ghost use Rattle.meanings.specs.Supplied.{plus};
ghost use Rattle.meanings.proofs.Lawful.{plus_lawful};

use crate::coding::Coding;
use crate::refusal::{AboveTop, at_most};

#[derive(Drop)]
pub struct Plus {
    top: u64,
    k: u64,
    ghost small: { k ≤ top },
}

impl Plus {
    // Refused where k is above the top.
    pub fn new(top: u64, k: u64) -> Result<Plus, AboveTop>
        ensures { MatchResult result (λ p. (k ≤ top) × (plus p.top p.k ≡ plus top k)) (λ _. top < k) }
    {
        if k <= top {
            Ok(Plus { top, k })
        } else {
            Err(AboveTop)
        }
    }
}

impl Coding for Plus {
    ghost means = { λ s. plus s.top s.k };

    ghost lawful = { λ s. plus_lawful s.top s.k s.small };

    fn top(&self) -> u64 {
        self.top
    }

    fn code(&self, x: u64) -> Result<u64, AboveTop> {
        at_most(self.top, x)?;
        let room = self.top - self.k;
        if wraps(self.top, self.k, x) {
            Ok(x - room - 1)
        } else {
            Ok(x + self.k)
        }
    }

    fn back(&self, y: u64) -> Result<u64, AboveTop> {
        at_most(self.top, y)?;
        if y >= self.k {
            Ok(y - self.k)
        } else {
            Ok(y + (self.top - self.k) + 1)
        }
    }
}

// Whether x + k passes the top. The sum is not made for it, so nothing overflows at the largest top.
#[tactic(auto, using(meanings::proofs::Lawful::plus_low, meanings::proofs::Lawful::plus_high))]
fn wraps(top: u64, k: u64, x: u64) -> bool
    requires small { k ≤ top }
    requires within { x ≤ top }
    ensures { Wraps top k x result }
{
    x > top - k
}
