// Why a key is not expanded.
ghost use Rattle.std.specs.Prelude.{◌≡◌, Some as Shown};
ghost use Rattle.std.specs.Fmt.{styled_text};
ghost use Rattle.keys.specs.Refusal.{number_of, words_of};

use std::error::Error;
use std::fmt;

// The questions of an expansion, in their sequence.
#[derive(Clone, Copy, PartialEq, Eq, Debug)]
pub enum KeyRefusal {
    // 10: the work space has fewer than 24 bytes.
    ShortWorkSpace,
    // 11: the key has not the bytes that its bits fill.
    WrongLength,
    // 12: a bit of the last byte that the key has no use for is not 0.
    SpareBits,
}

impl KeyRefusal {
    pub fn number(&self) -> u8
        ensures { result ≡ number_of self.now }
    {
        match self {
            KeyRefusal::ShortWorkSpace => 10,
            KeyRefusal::WrongLength => 11,
            KeyRefusal::SpareBits => 12,
        }
    }
}

impl fmt::Display for KeyRefusal {
    ghost output = { λ s. Shown (words_of s) };

    ghost styled_output = { λ s style. Shown (styled_text style (words_of s)) };

    fn fmt<W: fmt::Write>(&self, f: &mut fmt::Formatter<W>) -> fmt::Result {
        f.pad(match self {
            KeyRefusal::ShortWorkSpace => "the work space has fewer than 24 bytes",
            KeyRefusal::WrongLength => "the key has not the bytes that its bits fill",
            KeyRefusal::SpareBits => "a spare bit of the key's last byte is not 0",
        })
    }
}

impl Error for KeyRefusal {}
