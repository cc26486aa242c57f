// The layers of a pile that is put together at run time, over one type of leaf codings.
ghost use Rattle.std.specs.Prelude.{◌≡◌, MatchResult};
ghost use Rattle.codings.specs.Asking.{coded};
ghost use Rattle.piles.specs.Stacking.{ChainMade, TurnedMade, NarrowedMade};
ghost use Rattle.piles.specs.Trees.{facing, other_way, tree_meaning};

use crate::error::PileError;
use codings::coding::Coding;
use codings::refusal::{AboveTop, at_most};
use meanings::{chained_top, narrowed_top};
use std::alloc::Global;

#[derive(Drop)]
pub enum Tree<C> {
    // A coding.
    Leaf(C),
    // The first coding, then the second.
    Chain(Box<Tree<C>>, Box<Tree<C>>),
    // The coding below the other way round.
    Turned(Box<Tree<C>>),
    // The coding below on the numbers up to this one.
    Narrowed(Box<Tree<C>>, u64),
}

// Which way a number goes through a pile: from a number to its code, or from a code to its number. It is matched on, since
// a function for each way would have the same arms twice.
#[derive(Clone, Copy)]
pub enum Way {
    There,
    Back,
}

impl Way {
    fn turned(self) -> Way
        ensures { result ≡ other_way self }
    {
        match self {
            Way::There => Way::Back,
            Way::Back => Way::There,
        }
    }
}

impl<C: Coding + Drop> Tree<C> {
    // This tree, then another.
    #[tactic(auto, using(crate::proofs::Stacking::chain_made))]
    pub(crate) fn chain(self, heap: Global, then: Tree<C>) -> Result<Tree<C>, PileError>
        ensures { MatchResult result (λ p. ChainMade C.Coding.means C.Coding.lawful self then p) (λ e. e ≡ PileError.NoMemory) }
    {
        Ok(Tree::Chain(Box::new(heap, self)?, Box::new(heap, then)?))
    }

    // This tree the other way round.
    #[tactic(auto, using(crate::proofs::Stacking::turned_made))]
    pub(crate) fn turned(self, heap: Global) -> Result<Tree<C>, PileError>
        ensures { MatchResult result (λ p. TurnedMade C.Coding.means C.Coding.lawful self p) (λ e. e ≡ PileError.NoMemory) }
    {
        Ok(Tree::Turned(Box::new(heap, self)?))
    }

    // This tree on the numbers up to `to`.
    #[tactic(auto, using(crate::proofs::Stacking::narrowed_made))]
    pub(crate) fn narrowed(self, heap: Global, to: u64) -> Result<Tree<C>, PileError>
        ensures { MatchResult result (λ p. NarrowedMade C.Coding.means C.Coding.lawful to self p) (λ e. e ≡ PileError.NoMemory) }
    {
        Ok(Tree::Narrowed(Box::new(heap, self)?, to))
    }
}

impl<C: Coding> Tree<C> {
    pub(crate) fn top(&self) -> u64
        ensures { result ≡ (tree_meaning C.Coding.means C.Coding.lawful self.now).top }
    {
        match self {
            Tree::Leaf(coding) => coding.top(),
            Tree::Chain(first, then) => chained_top(first.top(), then.top()),
            Tree::Turned(below) => below.top(),
            Tree::Narrowed(below, to) => narrowed_top(*to, below.top()),
        }
    }

    // The code of x, or the number whose code is x. The arms of chains and narrowed trees are those codings' own code once
    // more: no recursion goes through a trait's method, and a closure does not tell which coding it asks, by which the walk
    // of a narrowed one is shown to end.
    pub(crate) fn sent(&self, way: Way, x: u64) -> Result<u64, AboveTop>
        ensures { result ≡ coded (facing way (tree_meaning C.Coding.means C.Coding.lawful self.now)) x }
    {
        match self {
            Tree::Leaf(coding) => match way {
                Way::There => coding.code(x),
                Way::Back => coding.back(x),
            },
            Tree::Chain(first, then) => {
                let (near, far) = match way {
                    Way::There => (first, then),
                    Way::Back => (then, first),
                };
                match near.sent(way, x) {
                    Ok(met) => Ok(far.sent(way, met).unwrap_or(met)),
                    Err(_) => far.sent(way, x),
                }
            }
            Tree::Turned(below) => below.sent(way.turned(), x),
            Tree::Narrowed(below, to) => {
                let top = narrowed_top(*to, below.top());
                at_most(top, x)?;
                let mut y = below.sent(way, x)?;
                while y > top {
                    y = below.sent(way, y)?;
                }
                Ok(y)
            }
        }
    }
}
