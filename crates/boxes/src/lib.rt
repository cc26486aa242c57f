// The boxes of the cipher: how a width is cut into boxes, and what a row of boxes does to a number.
#![tactic(auto)]

pub mod cell;
pub mod kind;
pub mod layout;
pub mod row;
pub mod shape;
