// How a refusal is told.
use book::refusal::Refusal;
use codings::refusal::AboveTop;
use std::io;

// The rest of a line, behind what was refused.
pub fn tell_refused(rt: &impl Print, refusal: Refusal) -> io::Result<()> {
    println!(rt; "refused {}: {refusal}", refusal.number())
}

// What a coding answers, as a line of its own.
pub fn tell_answer(rt: &impl Print, answer: Result<u64, AboveTop>) -> io::Result<()> {
    match answer {
        Ok(number) => println!(rt; "{number}"),
        Err(refusal) => tell_refused(rt, refusal.into()),
    }
}
