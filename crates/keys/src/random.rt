// The random parts of CPA.
ghost use Rattle.std.specs.Prelude.{◌≡◌, ℕ, ◌<◌};
ghost use Rattle.keys.specs.Expanding.{random_row, random_rows, Placed};

use crate::lengths::schedule_bits;
use crate::strings::number_at;
use boxes::kind::Cpa;
use draft::draft::Draft;

// Those of the three rounds, from the randomizer, which follows the schedule key.
pub fn random_parts(draft: &Draft, key: &[u8]) -> [Cpa; 3]
    ensures rows { result ≡ random_rows draft.now.parts key.now }
    ensures placed { (j : ℕ) → Placed draft.now.parts key.now j }
{
    [
        round_parts(draft, key, 0),
        round_parts(draft, key, 1),
        round_parts(draft, key, 2),
    ]
}

// In round j the randomizer's bits from 2j widths on and those a width further.
#[tactic(auto, using(crate::proofs::Bytes::rows))]
fn round_parts(draft: &Draft, key: &[u8], j: usize) -> Cpa
    requires { j < 3 }
    ensures { result ≡ random_row draft.now.parts key.now j }
{
    let parts = draft.parts();
    let bits = parts.width.into();
    let width: usize = parts.width.into();
    let from = schedule_bits(parts);
    Cpa {
        r0: number_at(key, from + 2 * j * width, bits),
        r1: number_at(key, from + (2 * j + 1) * width, bits),
    }
}
