// The library from outside: a coding of our own, piled with the supplied ones, and the examples.
#![tactic(auto)]

#[cfg(test)]
mod examples;
pub mod mirror;
#[cfg(test)]
mod piled;
