// A draft that was accepted.
ghost use Rattle.std.specs.Prelude.{◌≡◌};
ghost use Rattle.spelling.specs.Sound.{SoundParts};

use spelling::parts::Parts;

// Its parts, of which the width is one of 24 to 64, C0 fits into it, and the lists are orders: 0 to 3 of the width, and above
// 32 bits 4 and 5 of 64 bits.
#[derive(Clone, Copy)]
pub struct Draft {
    parts: Parts,
    ghost sound: { SoundParts parts },
}

impl Draft {
    pub(crate) fn sound(parts: Parts) -> Draft
        requires sound { SoundParts parts }
        ensures { result.parts ≡ parts }
    {
        Draft { parts }
    }

    // What the draft says.
    pub fn parts(&self) -> &Parts
        ensures { result.now ≡ self.now.parts }
    {
        &self.parts
    }
}
