// Piles of codings that are put together at run time: `pile` is such a pile, and `tree` holds its layers.
#![tactic(auto)]

pub mod error;
pub mod pile;
pub mod tree;
