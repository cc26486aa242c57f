// Releases from outside: the examples as tests. Each test is proved safe and then run.
#![tactic(auto)]

#[cfg(test)]
mod lists;
#[cfg(test)]
mod refusals;
#[cfg(test)]
mod rows;
#[cfg(test)]
mod sequence;
#[cfg(test)]
mod shared;
#[cfg(test)]
mod shown;
