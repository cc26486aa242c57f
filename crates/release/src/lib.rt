// Releases: rows of codes in row memory that the caller lends. `states` has releases and their two states, open and
// sealed; `calls` has what can be asked of them, `lists` lists of calls with the whole promise, and `raw` the bodies
// behind both, on the `plain` numbers of a release. Nothing here names a cipher: everything is proved from what the
// trait `Coding` says.
#![tactic(auto)]

mod calls;
pub mod column_codings;
pub mod columns;
mod lists;
pub mod plain;
pub mod ran;
mod raw;
pub mod states;

pub use lists::open_and_call;
