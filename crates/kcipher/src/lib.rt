// The K-Cipher as a coding, for every width from 24 to 64 and both flows. `make` makes one of a draft and a key.
#![tactic(auto)]

pub mod block;
pub mod bytes;
pub mod cipher;
pub mod cpa;
pub mod flex;
pub mod make;
pub mod setting;
pub mod steps;
