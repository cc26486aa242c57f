// Drafts from outside, whole and spoilt, as tests.
#![tactic(auto)]

#[cfg(test)]
mod sample;
#[cfg(test)]
mod shown;
#[cfg(test)]
mod spoilt;
#[cfg(test)]
mod whole;
