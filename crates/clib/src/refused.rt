// Why numbers are not coded.
ghost use Rattle.std.specs.Prelude.{◌≡◌};
ghost use Rattle.clib.specs.declared.refused.Refused.TheVariants.{Cipher as NoCipherThere};

use codings::refusal::AboveTop;
use kcipher::bytes::NoCipher;

#[derive(Clone, Copy)]
pub(crate) enum Refused {
    // The draft or the key.
    Cipher(NoCipher),
    // A number, the first above the top.
    Number { which: usize, refusal: AboveTop },
}

impl From<NoCipher> for Refused {
    ghost from_gives = { λ why e. e ≡ NoCipherThere why };

    fn from(why: NoCipher) -> Refused {
        Refused::Cipher(why)
    }
}
