// How a refusal is told.
use book::refusal::Refusal;
use std::{fmt, io};

// One line, in one write: what was refused, the number and the words. A coding's refusal is told as that of a release.
pub fn tell_refused(rt: &impl Print, what: &impl fmt::Display, refusal: Refusal) -> io::Result<()> {
    println!(rt; "{what}: refused {}: {refusal}", refusal.number())
}
