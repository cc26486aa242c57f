// Making a K-Cipher of a draft and a key.
ghost use Rattle.std.specs.Prelude.{◌≡◌, length};
ghost use Rattle.flows.specs.Published.{setting, published};
ghost use Rattle.meanings.specs.Meaning.{Equal};
ghost use Rattle.keys.specs.Asking.{work_after};
ghost use Rattle.keys.specs.Expanding.{Keyed};
ghost use Rattle.kcipher.specs.Ciphers.{cipher_means};
ghost use Rattle.kcipher.specs.Making.{Made, OfDraft};
ghost use Rattle.kcipher.specs.Settings.{numbers};

use crate::block::Block;
use crate::cipher::KCipher;
use crate::cpa::CpaFlow;
use crate::flex::FlexFlow;
use crate::setting::Setting;
use bits::width::Width;
use boxes::row::Boxes;
use draft::draft::Draft;
use keys::expand::{RoundKeys, expand};
use keys::orders::Orders;
use keys::random::random_parts;
use keys::refusal::KeyRefusal;
use spelling::parts::Flow;

// The cipher of a draft and a key. The key is expanded in the lent work space, and the cipher keeps round keys and random parts of
// its own.
pub fn make(draft: &Draft, key: &[u8], work: &mut [u8]) -> Result<KCipher, KeyRefusal>
    ensures answer { Made draft.now.parts key.now (length work.old) result }
    ensures work { work.new ≡ work_after work.old }
{
    let keys = expand(draft, key, work)?;
    Ok(cipher_of(draft, key, keys))
}

// The cipher of these round keys.
fn cipher_of(draft: &Draft, key: &[u8], keys: RoundKeys) -> KCipher
    requires keyed { Keyed draft.now.parts key.now keys }
    ensures is { Equal (cipher_means result) (published draft.now.parts key.now) }
    ensures of { OfDraft draft.now.parts key.now result }
{
    let setting = setting_of(draft, key, keys);
    match draft.parts().flow {
        Flow::Flex => KCipher::Flex(Block::new(FlexFlow::new(setting))),
        Flow::Cpa => KCipher::Cpa(Block::new(CpaFlow::new(setting, random_parts(draft, key)))),
    }
}

// The key is there for the contract alone.
fn setting_of(draft: &Draft, key: &[u8], keys: RoundKeys) -> Setting
    requires keyed { Keyed draft.now.parts key.now keys }
    ensures { numbers result ≡ setting draft.now.parts key.now }
{
    let parts = draft.parts();
    let width = Width::new(parts.width.into()).unwrap();
    let boxes = Boxes::of_width(parts.width.into()).unwrap();
    let Orders {
        order0,
        order1,
        order2,
        order3,
    } = Orders::of_draft(draft);
    let RoundKeys { k0, k1, k2 } = keys;
    Setting {
        width,
        boxes,
        c0: parts.c0,
        order0,
        order1,
        order2,
        order3,
        k0,
        k1,
        k2,
    }
}
