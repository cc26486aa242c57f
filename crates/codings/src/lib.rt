// Codings: what turns numbers into codes and back. `coding` has the trait that every coding implements,
// `clear` and `plus` are the plain codings, `chain`, `turned` and `narrowed` the layers over any codings, and
// `lent` makes a coding of one that is lent.
#![tactic(auto)]

pub mod chain;
pub mod clear;
pub mod coding;
pub mod lent;
pub mod narrowed;
pub mod plus;
pub mod refusal;
pub mod turned;
