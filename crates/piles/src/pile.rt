// A pile chosen at run time: codings of one type, chained, turned and narrowed in any way.
ghost use Rattle.std.specs.Prelude.{◌≡◌, ◌+◌, ◌≤◌, max};
ghost use Rattle.piles.specs.Trees.{layers, tree_meaning, height_of};
ghost use Rattle.piles.specs.Stacking.{Stacked, LeafMade, ChainMade, TurnedMade, NarrowedMade, highest};
ghost use Rattle.meanings.proofs.Piles.{pile_lawful};

use crate::error::PileError;
use crate::tree::{Tree, Way};
use codings::coding::Coding;
use codings::refusal::AboveTop;
use std::alloc::Global;

#[derive(Drop)]
pub struct Pile<C> {
    tree: Tree<C>,
    height: u32,
    ghost counted: { height ≡ height_of tree },
    ghost low: { height ≤ highest },
}

const HIGHEST: u32 = 1000;

// Whether a pile may be so many layers high.
fn allowed(height: u32) -> Result<u32, PileError>
    ensures { Stacked height result (λ n. n ≡ height) }
{
    if height <= HIGHEST {
        Ok(height)
    } else {
        Err(PileError::TooHigh)
    }
}

impl<C: Coding + Drop> Pile<C> {
    // One coding by itself.
    pub fn leaf(coding: C) -> Pile<C>
        ensures { LeafMade C.Coding.means C.Coding.lawful coding result.tree }
    {
        Pile {
            tree: Tree::Leaf(coding),
            height: 1,
        }
    }

    // How many layers stand above one another; a leaf is one.
    pub fn height(&self) -> u32
        ensures { result ≡ height_of self.now.tree }
    {
        self.height
    }

    // This pile, then another. It and the two below lay their layer on the tree in the same three lines: the layer as a
    // closure would need the heap and what may be refused said in a clause of its own.
    pub fn chain(self, heap: Global, then: Pile<C>) -> Result<Pile<C>, PileError>
        ensures { Stacked (max (height_of self.tree) (height_of then.tree) + 1) result (λ p. ChainMade C.Coding.means C.Coding.lawful self.tree then.tree p.tree) }
    {
        let height = allowed(self.height.max(then.height) + 1)?;
        let tree = self.tree.chain(heap, then.tree)?;
        Ok(Pile { tree, height })
    }

    // This pile the other way round.
    pub fn turned(self, heap: Global) -> Result<Pile<C>, PileError>
        ensures { Stacked (height_of self.tree + 1) result (λ p. TurnedMade C.Coding.means C.Coding.lawful self.tree p.tree) }
    {
        let height = allowed(self.height + 1)?;
        let tree = self.tree.turned(heap)?;
        Ok(Pile { tree, height })
    }

    // This pile on the numbers up to `to`.
    pub fn narrowed(self, heap: Global, to: u64) -> Result<Pile<C>, PileError>
        ensures { Stacked (height_of self.tree + 1) result (λ p. NarrowedMade C.Coding.means C.Coding.lawful to self.tree p.tree) }
    {
        let height = allowed(self.height + 1)?;
        let tree = self.tree.narrowed(heap, to)?;
        Ok(Pile { tree, height })
    }
}

impl<C: Coding + Drop> Coding for Pile<C> {
    ghost means = { λ s. tree_meaning C.Coding.means C.Coding.lawful s.tree };

    ghost lawful = { λ s. pile_lawful (layers C.Coding.means C.Coding.lawful s.tree) };

    fn top(&self) -> u64 {
        self.tree.top()
    }

    fn code(&self, x: u64) -> Result<u64, AboveTop> {
        self.tree.sent(Way::There, x)
    }

    fn back(&self, y: u64) -> Result<u64, AboveTop> {
        self.tree.sent(Way::Back, y)
    }
}
