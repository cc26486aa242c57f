// The key of a K-Cipher: the questions put to it, its three round keys, and the random parts of CPA. `expand` and `random`
// are what a cipher calls, `orders` has the orders of a draft, and `refusal` says why a key is not expanded.
#![tactic(auto)]

pub mod expand;
mod expansion;
mod lengths;
pub mod orders;
mod questions;
pub mod random;
pub mod refusal;
mod schedule;
mod strings;
