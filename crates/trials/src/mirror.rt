// Mirror: the numbers up to the top in reverse. Whatever the library promises of codings it promises of this
// one too, since `means` and `lawful` are all that it asks.
ghost use Rattle.std.specs.Prelude.{◌≡◌};
ghost use Rattle.codings.specs.Asking.{coded};
ghost use Rattle.meanings.specs.Supplied.{clear};
ghost use Rattle.trials.specs.Mirror.{mirror, mirror_lawful};

use codings::chain::Chain;
use codings::coding::Coding;
use codings::refusal::{AboveTop, at_most};

#[derive(Drop)]
pub struct Mirror {
    top: u64,
}

impl Mirror {
    pub fn new(top: u64) -> Self
        ensures { mirror result.top ≡ mirror top }
    {
        Mirror { top }
    }
}

impl Coding for Mirror {
    ghost means = { λ s. mirror s.top };

    ghost lawful = { λ s. mirror_lawful s.top };

    fn top(&self) -> u64 {
        self.top
    }

    fn code(&self, x: u64) -> Result<u64, AboveTop> {
        Ok(self.top - at_most(self.top, x)?)
    }

    fn back(&self, y: u64) -> Result<u64, AboveTop> {
        self.code(y)
    }
}

// A mirror in a mirror shows each number as it is.
pub fn mirrored_twice(top: u64, x: u64) -> Result<u64, AboveTop>
    ensures { result ≡ coded (clear top) x }
{
    Chain::new(Mirror::new(top), Mirror::new(top)).code(x)
}
