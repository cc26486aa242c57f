// A cipher from the bytes of its draft and those of its key, as a mill sends them.
ghost use Rattle.std.specs.Prelude.{◌≡◌, MatchResult};
ghost use Rattle.kcipher.specs.Bytes.{CipherOf, NoneBy, no_cipher_text};
ghost use Rattle.kcipher.specs.declared.bytes.NoCipher.TheVariants.{Draft as DraftFault, Key as KeyRefused};

use crate::cipher::KCipher;
use crate::make::make;
use draft::read::read;
use keys::refusal::KeyRefusal;
use spelling::fault::Fault;
use std::error::Error;
use std::fmt;

#[derive(Clone, Copy, PartialEq, Eq, Debug)]
pub enum NoCipher {
    Draft(Fault),
    Key(KeyRefusal),
}

// The cipher, or why there is none. The key is expanded in a work space of the call's own.
pub fn cipher_of(draft: &[u8], key: &[u8]) -> Result<KCipher, NoCipher>
    ensures { MatchResult result (CipherOf draft.now key.now) (NoneBy draft.now key.now) }
{
    let draft = read(draft)?;
    Ok(make(&draft, key, &mut [0; 24])?)
}

impl From<Fault> for NoCipher {
    ghost from_gives = { λ fault e. e ≡ DraftFault fault };

    fn from(fault: Fault) -> NoCipher {
        NoCipher::Draft(fault)
    }
}

impl From<KeyRefusal> for NoCipher {
    ghost from_gives = { λ refusal e. e ≡ KeyRefused refusal };

    fn from(refusal: KeyRefusal) -> NoCipher {
        NoCipher::Key(refusal)
    }
}

// One line: `refused N: words`, and for a draft `refused N offset O layer L: words`.
impl fmt::Display for NoCipher {
    ghost output = { no_cipher_text ⟦<Fault as fmt::Display>⟧.output };

    fn fmt<W: fmt::Write>(&self, f: &mut fmt::Formatter<W>) -> fmt::Result {
        match self {
            NoCipher::Draft(fault) => write!(f, "refused {fault}"),
            NoCipher::Key(refusal) => write!(f, "refused {}: {refusal}", refusal.number()),
        }
    }
}

impl Error for NoCipher {}
