// What a coding means, and what holds of every pile of codings: the definitions stand in specs/ and the lemmas
// in proofs/, for the crates above. The code is what the tops of layers come to.
#![tactic(auto)]

ghost use Rattle.std.specs.Prelude.{◌≡◌, min, max};

// The top of a chain: the larger of its parts' tops.
pub fn chained_top(first: u64, then: u64) -> u64
    ensures { result ≡ max first then }
{
    first.max(then)
}

// The top of a coding narrowed to `to`: the smaller of `to` and the top below.
pub fn narrowed_top(to: u64, below: u64) -> u64
    ensures { result ≡ min to below }
{
    to.min(below)
}
