// Tests of bits, orders, fields and boxes from outside, in a crate of their own since a crate with tests is proved twice.
#![tactic(auto)]

#[cfg(test)]
mod cuts;
#[cfg(test)]
mod expected;
#[cfg(test)]
mod fields;
#[cfg(test)]
mod orders;
