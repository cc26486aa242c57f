// The bits that the round keys are cut from, as they lie in the 24 bytes of a work space.
ghost use Rattle.std.specs.Prelude.{◌≡◌, ◌≤◌, ◌++◌, length, take, drop, None as Nothing};
ghost use Rattle.std.specs.Int.{to_le_bytes, w64};
ghost use Rattle.keys.specs.Asking.{asked_key};
ghost use Rattle.keys.specs.Expanding.{Scheduled};

use crate::expansion::expanded;
use draft::draft::Draft;

// Writes the bits that the round keys are cut from: those of the schedule key, and above 32 bits what the expansion gives.
pub(crate) fn write_schedule(draft: &Draft, key: &[u8], bytes: &mut [u8])
    requires room { length bytes.old ≡ 24 }
    requires accepted { asked_key draft.now.parts key.now ≡ Nothing }
    ensures { Scheduled draft.now.parts key.now bytes.new }
{
    if draft.parts().width > 32 {
        write_wide(key, expanded(draft, key), bytes);
    } else {
        write_narrow(key, bytes);
    }
}

fn write_narrow(key: &[u8], bytes: &mut [u8])
    requires room { length bytes.old ≡ 24 }
    requires long { 12 ≤ length key.now }
    ensures { bytes.new ≡ take 12 key.now ++ drop 12 bytes.old }
{
    bytes[..12].copy_from_slice(&key[..12]);
}

// What the expansion gives stands lowest byte first.
fn write_wide(key: &[u8], more: u64, bytes: &mut [u8])
    requires room { length bytes.old ≡ 24 }
    requires long { 16 ≤ length key.now }
    ensures { bytes.new ≡ take 16 key.now ++ to_le_bytes w64 more }
{
    let (low, high) = bytes.split_at_mut(16);
    low.copy_from_slice(&key[..16]);
    high.copy_from_slice(&more.to_le_bytes());
}
