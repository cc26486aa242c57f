// What the bytes of a draft spell: the types, the definitions in specs/ and the lemmas in proofs/. The reader is the crate
// above.
#![tactic(auto)]

pub mod command;
pub mod fault;
pub mod parts;
