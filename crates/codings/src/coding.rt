// What every coding can be asked, and what it answers.
ghost use Rattle.std.specs.Prelude.{◌≡◌};
ghost use Rattle.codings.specs.Asking.{coded, backed};
ghost use Rattle.meanings.specs.Meaning.{Meaning, Lawful};

use crate::refusal::AboveTop;

// A coding is whatever has a top and a one-to-one rule on the numbers up to it. Whoever adds one says what
// it means and shows that this is lawful; all code above a coding is proved from that alone.
pub trait Coding {
    // The top, the rule and the way back.
    ghost means: { Self → Meaning };

    // Codes stay within the top, back undoes the rule, and the rule undoes back.
    ghost lawful: { (s : Self) → Lawful (means s) };

    fn top(&self) -> u64
        ensures { result ≡ (means self.now).top };

    // The code of x.
    fn code(&self, x: u64) -> Result<u64, AboveTop>
        ensures { result ≡ coded (means self.now) x };

    // The number whose code is y.
    fn back(&self, y: u64) -> Result<u64, AboveTop>
        ensures { result ≡ backed (means self.now) y };
}
