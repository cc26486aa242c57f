// Jobs: the text file in which a mill names its codings and says what is to be done with a release. `written` is a pile
// written out, `parse` reads one and `build` builds it; `job` reads a job's head and steps, and `row` a row of numbers.
#![tactic(auto)]

pub mod build;
pub mod built;
pub(crate) mod cursor;
pub mod job;
pub mod leaf;
pub mod long_walk;
pub mod parse;
pub mod place;
pub mod row;
#[cfg(test)]
mod trials;
#[cfg(test)]
mod trials_text;
pub mod unbuilt;
pub mod written;
