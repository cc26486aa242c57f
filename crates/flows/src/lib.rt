// The published K-Cipher: its definitions stand in specs/ and what holds of them in proofs/, for the crates above. The code
// is the marked cases, which anyone can work out again.
#![tactic(auto)]

pub mod case;
pub mod marked;
