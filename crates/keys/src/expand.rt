// The round keys of a key.
ghost use Rattle.std.specs.Prelude.{◌≡◌, ◌≤◌, length, replicate};
ghost use Rattle.keys.specs.Asking.{work_after};
ghost use Rattle.keys.specs.Expanding.{Expanded, Keyed, Scheduled};

use crate::questions::check_key;
use crate::refusal::KeyRefusal;
use crate::schedule::write_schedule;
use crate::strings::number_at;
use draft::draft::Draft;
use spelling::parts::Parts;

#[derive(Clone, Copy)]
pub struct RoundKeys {
    pub k0: u64,
    pub k1: u64,
    pub k2: u64,
}

// The round keys of a key, worked out in the first 24 bytes of a lent work space. Once that is long enough, these are zeros
// when the call ends, however it ends; what lies behind them is not touched.
pub fn expand(draft: &Draft, key: &[u8], work: &mut [u8]) -> Result<RoundKeys, KeyRefusal>
    ensures answer { Expanded draft.now.parts key.now (length work.old) result }
    ensures work { work.new ≡ work_after work.old }
{
    match work.first_chunk_mut() {
        Some(space) => expand_in(draft, key, space),
        None => Err(KeyRefusal::ShortWorkSpace),
    }
}

// The bytes of a work space while a key lies in them: however the call ends, they are zeros afterwards.
struct WorkSpace<'a>(&'a mut [u8; 24]);

impl Drop for WorkSpace<'_> {
    fn drop(self)
        ensures { self.exit.0.now ≡ replicate 24 0 }
    {
        let WorkSpace(bytes) = self;
        bytes.fill(0);
    }
}

fn expand_in(draft: &Draft, key: &[u8], space: &mut [u8; 24]) -> Result<RoundKeys, KeyRefusal>
    ensures answer { Expanded draft.now.parts key.now 24 result }
    ensures work { space.new ≡ replicate 24 0 }
{
    let parts = draft.parts();
    let work = WorkSpace(space);
    check_key(parts, key)?;
    write_schedule(draft, key, work.0);
    Ok(cut(parts, key, work.0))
}

// The round keys lie side by side in the bytes.
#[tactic(auto, using(crate::proofs::Scheduling::cut_key))]
fn cut(parts: &Parts, key: &[u8], bytes: &[u8]) -> RoundKeys
    requires fits { parts.now.width ≤ 64 }
    requires scheduled { Scheduled parts.now key.now bytes.now }
    ensures { Keyed parts.now key.now result }
{
    let bits = parts.width.into();
    let width = parts.width.into();
    RoundKeys {
        k0: number_at(bytes, 0, bits),
        k1: number_at(bytes, width, bits),
        k2: number_at(bytes, 2 * width, bits),
    }
}
