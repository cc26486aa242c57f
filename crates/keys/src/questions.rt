// What is asked of a key.
ghost use Rattle.std.specs.Prelude.{◌≡◌, MatchResult, None as Nothing, Some as Something};
ghost use Rattle.flows.specs.Keys.{spare};
ghost use Rattle.keys.specs.Asking.{asked_key};

use crate::lengths::{key_bits, key_bytes, spare_bits};
use crate::refusal::KeyRefusal;
use crate::strings::number_at;
use spelling::parts::Parts;

// The two questions about the key itself, in their sequence.
pub(crate) fn check_key(parts: &Parts, key: &[u8]) -> Result<(), KeyRefusal>
    ensures { MatchResult result (λ _. asked_key parts.now key.now ≡ Nothing) (λ e. asked_key parts.now key.now ≡ Something e) }
{
    if key.len() != key_bytes(parts) {
        return Err(KeyRefusal::WrongLength);
    }
    if spare(parts, key) != 0 {
        return Err(KeyRefusal::SpareBits);
    }
    Ok(())
}

// What stands in the bits behind the key's own.
fn spare(parts: &Parts, key: &[u8]) -> u64
    ensures { result ≡ spare parts.now key.now }
{
    number_at(key, key_bits(parts), spare_bits(parts))
}
