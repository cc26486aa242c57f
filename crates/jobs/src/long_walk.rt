// Narrowings whose codes may take long to work out.
ghost use Rattle.std.specs.Prelude.{◌≡◌};
ghost use Rattle.jobs.specs.Long.{outnumbers};

// The code of a narrowed coding is found by steps through the numbers below it, about as many as these outnumber the
// numbers of the new top; more than a million steps for a code are long.
const MILLION: u128 = 1_000_000;

// Whether the numbers below outnumber those of the new top by more than a million to one.
pub fn is_long(below_top: u64, to: u64) -> bool
    ensures { result ≡ outnumbers below_top to }
{
    let numbers = u128::from(to.min(below_top)) + 1;
    u128::from(below_top) + 1 > MILLION * numbers
}
