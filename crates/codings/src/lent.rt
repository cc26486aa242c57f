// A coding that is lent is a coding, so piles can be made of codings that somebody else keeps.
ghost use Rattle.std.specs.Prelude.{◌≡◌};

use crate::coding::Coding;
use crate::refusal::AboveTop;

impl<'a, A: Coding> Coding for &'a A {
    ghost means = { λ s. A.Coding.means s.now };

    ghost lawful = { λ s. A.Coding.lawful s.now };

    fn top(&self) -> u64 {
        (**self).top()
    }

    fn code(&self, x: u64) -> Result<u64, AboveTop> {
        (**self).code(x)
    }

    fn back(&self, y: u64) -> Result<u64, AboveTop> {
        (**self).back(y)
    }
}
