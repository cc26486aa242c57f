// What both flows work with.
ghost use Rattle.std.specs.Prelude.{◌≡◌, ◌^◌, ◌<◌};
ghost use Rattle.bits.specs.Listed.{order};
ghost use Rattle.flows.specs.Steps.{added, reordered, substituted, masked};
ghost use Rattle.meanings.specs.Layers.{chained};

use crate::block::Block;
use crate::steps::{Addition, Masking, Reordering, Substitution};
use bits::order::Order;
use bits::width::Width;
use boxes::kind::Invertible;
use boxes::row::Boxes;
use codings::chain::Chain;
use codings::coding::Coding;

// The width and its boxes, the constant C0, the orders 0 to 3 and the round keys.
#[derive(Clone, Copy)]
pub struct Setting {
    pub(crate) width: Width,
    pub(crate) boxes: Boxes,
    pub(crate) c0: u64,
    pub(crate) order0: Order,
    pub(crate) order1: Order,
    pub(crate) order2: Order,
    pub(crate) order3: Order,
    pub(crate) k0: u64,
    pub(crate) k1: u64,
    pub(crate) k2: u64,
    ghost whole: { boxes.size ≡ width.bits },
    ghost sized0: { order0.size.bits ≡ width.bits },
    ghost sized1: { order1.size.bits ≡ width.bits },
    ghost sized2: { order2.size.bits ≡ width.bits },
    ghost sized3: { order3.size.bits ≡ width.bits },
    ghost small: { k2 < 2 ^ width.bits },
}

// The steps that a flow is made of.
impl Setting {
    pub(crate) fn adds(&self, constant: u64) -> Block<Addition>
        ensures { ⟦<Block<Addition> as Coding>⟧.means result ≡ added self.now.width.bits constant }
    {
        Block::new(Addition::new(self.width, constant))
    }

    pub(crate) fn reorders(&self, by: Order) -> Block<Reordering>
        requires sized { by.size.bits ≡ self.now.width.bits }
        ensures { ⟦<Block<Reordering> as Coding>⟧.means result ≡ reordered self.now.width.bits (order by) }
    {
        Block::new(Reordering::new(by))
    }

    pub(crate) fn substitutes<K: Invertible + Copy>(&self, kind: K) -> Block<Substitution<K>>
        ensures { ⟦<Block<Substitution<K>> as Coding>⟧.means result ≡ substituted self.now.width.bits (K.does kind) (K.undoes kind) }
    {
        Block::new(Substitution::new(self.width, self.boxes, kind))
    }

    pub(crate) fn masks(&self, mask: u64) -> Block<Masking>
        requires small { mask < 2 ^ self.now.width.bits }
        ensures { ⟦<Block<Masking> as Coding>⟧.means result ≡ masked self.now.width.bits mask }
    {
        Block::new(Masking::new(self.width, mask))
    }
}

// One step and those after it.
pub(crate) fn in_turn<A: Coding, B: Coding>(first: A, then: B) -> Chain<A, B>
    ensures { ⟦<Chain<A, B> as Coding>⟧.means result ≡ chained (A.Coding.means first) (B.Coding.means then) }
{
    Chain::new(first, then)
}
