// Numbers of 1 to 64 bits. `width` has their arithmetic, which wraps, and `order` the orders of their bits.
#![tactic(auto)]

pub mod order;
pub mod width;
