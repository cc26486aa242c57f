// What a release promises: rows and their records, the calls on a release with their answers and refusals, and
// the book, against which every list of calls is held. The definitions stand in specs/ and the lemmas in proofs/.
#![tactic(auto)]

pub mod call;
pub mod entry;
pub mod refusal;
pub mod role;
pub mod row;
