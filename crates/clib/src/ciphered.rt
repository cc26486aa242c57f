// Many numbers through the cipher of a draft and a key.
ghost use Rattle.std.specs.Prelude.{◌≡◌, MatchResult};
ghost use Rattle.clib.specs.Calls.{AllCoded, AllBack, Unwritten};
ghost use Rattle.clib.specs.Many.{AllThrough, FirstAboveOf};

use crate::numbers::{code_each, first_above};
use crate::refused::Refused;
use codings::coding::Coding;
use codings::refusal::AboveTop;
use codings::turned::Turned;
use kcipher::bytes::cipher_of;

pub(crate) fn code_all(draft: &[u8], key: &[u8], numbers: &mut [u64]) -> Result<(), Refused>
    ensures { MatchResult result (λ _. AllCoded draft.now key.now numbers.old numbers.new) (λ e. Unwritten draft.now key.now numbers.old numbers.new e) }
{
    let cipher = cipher_of(draft, key)?;
    through(&cipher, numbers)
}

pub(crate) fn turn_all_back(draft: &[u8], key: &[u8], numbers: &mut [u64]) -> Result<(), Refused>
    ensures { MatchResult result (λ _. AllBack draft.now key.now numbers.old numbers.new) (λ e. Unwritten draft.now key.now numbers.old numbers.new e) }
{
    let turned = Turned::new(cipher_of(draft, key)?);
    through(&turned, numbers)
}

// All numbers are asked for their top before the first is coded.
fn through<C: Coding>(coding: &C, numbers: &mut [u64]) -> Result<(), Refused>
    ensures { MatchResult result (λ _. AllThrough (C.means coding.now) numbers.old numbers.new) (λ e. FirstAboveOf (C.means coding.now) numbers.old numbers.new e) }
{
    match first_above(coding.top(), numbers) {
        Some(which) => Err(Refused::Number {
            which,
            refusal: AboveTop,
        }),
        None => {
            code_each(coding, numbers);
            Ok(())
        }
    }
}
