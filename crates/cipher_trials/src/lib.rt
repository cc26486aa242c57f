// K-Ciphers from outside: the marked cases, the refusals of keys and work spaces, and ciphers beside their steps, as tests.
#![tactic(auto)]

#[cfg(test)]
mod bytes;
#[cfg(test)]
mod keys_refused;
#[cfg(test)]
mod marked;
#[cfg(test)]
mod sample;
#[cfg(test)]
mod steps;
#[cfg(test)]
mod work_spaces;
