// The library for C, and for Rust by way of C: many numbers coded or turned back under a draft and a key, and a draft read to its
// fault. include/waderdesk.h declares it.
#![tactic(auto)]

ghost use Rattle.clib.specs.Calls.{Coded, TurnedBack, DraftRead};

mod answer;
mod ciphered;
mod numbers;
mod refused;

use answer::Answer;
use ciphered::{code_all, turn_all_back};
use draft::read::read;

// The numbers are coded in place, under the cipher of a draft and a key. Where anything is refused none is written.
#[unsafe(no_mangle)]
pub extern "C" fn waderdesk_code(draft: &[u8], key: &[u8], numbers: &mut [u64]) -> Answer
    ensures { Coded draft.now key.now numbers.old numbers.new result }
{
    Answer::to(code_all(draft, key, numbers))
}

// The codes are turned back in place. Where anything is refused none is written.
#[unsafe(no_mangle)]
pub extern "C" fn waderdesk_back(draft: &[u8], key: &[u8], numbers: &mut [u64]) -> Answer
    ensures { TurnedBack draft.now key.now numbers.old numbers.new result }
{
    Answer::to(turn_all_back(draft, key, numbers))
}

// Whether the bytes spell a draft, or the first fault.
#[unsafe(no_mangle)]
pub extern "C" fn waderdesk_read_draft(draft: &[u8]) -> Answer
    ensures { DraftRead draft.now result }
{
    match read(draft) {
        Ok(_) => Answer::DONE,
        Err(fault) => Answer::fault(fault),
    }
}
