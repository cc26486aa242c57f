// What holds of every coding and of every pile of codings, shown at a number.
#![tactic(auto)]

ghost use Rattle.std.specs.Prelude.{◌≡◌, min};
ghost use Rattle.codings.specs.Asking.{coded};
ghost use Rattle.laws.specs.Shown.{Agree, Shown, sides};
ghost use Rattle.meanings.specs.Layers.{chained, turned, narrowed};
ghost use Rattle.meanings.specs.Meaning.{Lawful, EachOnce};
ghost use Rattle.meanings.specs.Piles.{AnyThree, EveryPile};
ghost use Rattle.meanings.specs.Supplied.{clear};

use crate::sides::{FiveLaws, Sides};
use codings::chain::Chain;
use codings::coding::Coding;
use codings::narrowed::Narrowed;
use codings::refusal::AboveTop;
use codings::turned::Turned;
use meanings::narrowed_top;

pub mod sides;

// The code of x turned back: x again, or the refusal where x is above the top. It is so at every number, since both ways undo
// each other and each number up to the top is exactly once a code: the contract names that law of the coding too.
pub fn there_and_back<C: Coding>(coding: &C, x: u64) -> Result<u64, AboveTop>
    ensures is { result ≡ coded (clear (C.Coding.means coding.now).top) x }
    ensures both_ways { Lawful (C.Coding.means coding.now) }
    ensures once { EachOnce (C.Coding.means coding.now) }
{
    coding.back(coding.code(x)?)
}

// The code of the number whose code is y: y again, or the refusal where y is above the top. By `there_and_back` of the
// coding turned it would be no shorter.
pub fn back_and_there<C: Coding>(coding: &C, y: u64) -> Result<u64, AboveTop>
    ensures is { result ≡ coded (clear (C.Coding.means coding.now).top) y }
    ensures both_ways { Lawful (C.Coding.means coding.now) }
    ensures once { EachOnce (C.Coding.means coding.now) }
{
    coding.code(coding.back(y)?)
}

// Both sides of each of the five laws at the number x. They agree at every number: the contract names the
// theorem on every pile of codings, and the same of any three codings and any two numbers to narrow to.
pub fn laws_at<A: Coding, B: Coding, C: Coding>(
    a: &A,
    b: &B,
    c: &C,
    t: u64,
    u: u64,
    x: u64,
) -> FiveLaws
    ensures every_pile { EveryPile }
    ensures any_three { AnyThree (A.Coding.means a.now) (B.Coding.means b.now) (C.Coding.means c.now) t u }
    ensures shown { Shown (A.Coding.means a.now) (B.Coding.means b.now) (C.Coding.means c.now) t u x result }
{
    FiveLaws {
        regrouped: regrouped(a, b, c, x),
        turned_twice: turned_twice(a, x),
        turned_chain: turned_chain(a, b, x),
        turned_narrowed: turned_narrowed(a, t, x),
        narrowed_twice: narrowed_twice(a, t, u, x),
    }
}

fn regrouped<A: Coding, B: Coding, C: Coding>(a: &A, b: &B, c: &C, x: u64) -> Sides
    ensures { Agree (chained (A.Coding.means a.now) (chained (B.Coding.means b.now) (C.Coding.means c.now))) (chained (chained (A.Coding.means a.now) (B.Coding.means b.now)) (C.Coding.means c.now)) x result }
{
    let left = Chain::new(a, Chain::new(b, c));
    let right = Chain::new(Chain::new(a, b), c);
    asked(&left, &right, x)
}

fn turned_twice<A: Coding>(a: &A, x: u64) -> Sides
    ensures { Agree (turned (turned (A.Coding.means a.now))) (A.Coding.means a.now) x result }
{
    asked(&Turned::new(Turned::new(a)), a, x)
}

fn turned_chain<A: Coding, B: Coding>(a: &A, b: &B, x: u64) -> Sides
    ensures { Agree (turned (chained (A.Coding.means a.now) (B.Coding.means b.now))) (chained (turned (B.Coding.means b.now)) (turned (A.Coding.means a.now))) x result }
{
    let left = Turned::new(Chain::new(a, b));
    let right = Chain::new(Turned::new(b), Turned::new(a));
    asked(&left, &right, x)
}

fn turned_narrowed<A: Coding>(a: &A, t: u64, x: u64) -> Sides
    ensures { Agree (turned (narrowed t (A.Coding.means a.now))) (narrowed t (turned (A.Coding.means a.now))) x result }
{
    let left = Turned::new(Narrowed::new(a, t));
    let right = Narrowed::new(Turned::new(a), t);
    asked(&left, &right, x)
}

fn narrowed_twice<A: Coding>(a: &A, t: u64, u: u64, x: u64) -> Sides
    ensures { Agree (narrowed u (narrowed t (A.Coding.means a.now))) (narrowed (min t u) (A.Coding.means a.now)) x result }
{
    let left = Narrowed::new(Narrowed::new(a, t), u);
    let right = Narrowed::new(a, narrowed_top(t, u));
    asked(&left, &right, x)
}

// What two codings answer at x.
fn asked<L: Coding, R: Coding>(left: &L, right: &R, x: u64) -> Sides
    ensures { result ≡ sides (L.Coding.means left.now) (R.Coding.means right.now) x }
{
    Sides {
        left: left.code(x),
        right: right.code(x),
    }
}
