// Many numbers through one coding.
ghost use Rattle.std.specs.Prelude.{◌≡◌, ◌≤◌, MatchOption, map};
ghost use Rattle.std.specs.List.{All};
ghost use Rattle.clib.specs.Many.{FirstAbove};

use codings::coding::Coding;

// Replaces all numbers by their codes.
pub(crate) fn code_each<C: Coding>(coding: &C, numbers: &mut [u64])
    requires within { All (λ x. x ≤ (C.means coding.now).top) numbers.old }
    ensures { numbers.new ≡ map (C.means coding.now).rule numbers.old }
{
    for x in numbers.iter_mut() {
        *x = coding.code(*x).unwrap();
    }
}

// The first number above the top.
pub(crate) fn first_above(top: u64, numbers: &[u64]) -> Option<usize>
    ensures { MatchOption result (All (λ x. x ≤ top) numbers.now) (λ i. FirstAbove top numbers.now i) }
{
    numbers.iter().position(|x| *x > top)
}
