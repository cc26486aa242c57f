// A pile that was built of a written one.
ghost use Rattle.std.specs.Prelude.{◌≡◌, ◌-◌, ◌^◌, min};
ghost use Rattle.jobs.specs.Leaves.{leaf_means, leaf_lawful};
ghost use Rattle.jobs.specs.Long.{long_count};
ghost use Rattle.piles.specs.Trees.{layers};

use crate::leaf::Leaf;
use crate::long_walk::is_long;
use codings::coding::Coding;
use piles::error::PileError;
use piles::pile::Pile;
use std::alloc::Global;

// The pile, and how many of its narrowings are long; where these are more than a usize holds, the greatest usize.
#[derive(Drop)]
pub struct Built {
    pub pile: Pile<Leaf>,
    pub long: usize,
    ghost counted: { long ≡ min (long_count (layers leaf_means leaf_lawful pile.tree)) (2 ^ 64 - 1) },
}

// A layer on what was built; each counts the long narrowings below it again.
impl Built {
    ghost use Rattle.std.specs.Prelude.{◌+◌, max};
    ghost use Rattle.jobs.specs.Building.{built_meaning, built_height};
    ghost use Rattle.meanings.specs.Layers.{chained, turned, narrowed};
    ghost use Rattle.piles.specs.Stacking.{Stacked};

    pub(crate) fn leaf(coding: Leaf) -> Built
        ensures meaning { built_meaning result ≡ leaf_means coding }
        ensures tall { built_height result ≡ 1 }
    {
        Built {
            pile: Pile::leaf(coding),
            long: 0,
        }
    }

    pub(crate) fn chain(self, heap: Global, then: Built) -> Result<Built, PileError>
        ensures { let tall = max (built_height self) (built_height then) + 1 in Stacked tall result (λ b. (built_meaning b ≡ chained (built_meaning self) (built_meaning then)) × (built_height b ≡ tall)) }
    {
        let long = self.long.saturating_add(then.long);
        let pile = self.pile.chain(heap, then.pile)?;
        Ok(Built { pile, long })
    }

    pub(crate) fn turned(self, heap: Global) -> Result<Built, PileError>
        ensures { let tall = built_height self + 1 in Stacked tall result (λ b. (built_meaning b ≡ turned (built_meaning self)) × (built_height b ≡ tall)) }
    {
        let long = self.long;
        let pile = self.pile.turned(heap)?;
        Ok(Built { pile, long })
    }

    pub(crate) fn narrowed(self, heap: Global, to: u64) -> Result<Built, PileError>
        ensures { let tall = built_height self + 1 in Stacked tall result (λ b. (built_meaning b ≡ narrowed to (built_meaning self)) × (built_height b ≡ tall)) }
    {
        let here = usize::from(is_long(self.pile.top(), to));
        let long = self.long.saturating_add(here);
        let pile = self.pile.narrowed(heap, to)?;
        Ok(Built { pile, long })
    }
}
