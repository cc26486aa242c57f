// The codings that a written pile is made of.
use codings::clear::Clear;
use codings::coding::Coding;
use codings::plus::Plus;
use codings::refusal::AboveTop;
use kcipher::cipher::KCipher;

// A cipher is large, so it stands on the heap: each layer of a pile has room for a leaf, and a leaf is moved as the pile is built.
#[derive(Drop)]
pub enum Leaf {
    Clear(Clear),
    Plus(Plus),
    Cipher(Box<KCipher>),
}

impl Coding for Leaf {
    ghost use Rattle.jobs.specs.Leaves.{leaf_means, leaf_lawful};

    ghost means = { leaf_means };

    ghost lawful = { leaf_lawful };

    fn top(&self) -> u64 {
        match self {
            Leaf::Clear(coding) => coding.top(),
            Leaf::Plus(coding) => coding.top(),
            Leaf::Cipher(coding) => coding.top(),
        }
    }

    fn code(&self, x: u64) -> Result<u64, AboveTop> {
        match self {
            Leaf::Clear(coding) => coding.code(x),
            Leaf::Plus(coding) => coding.code(x),
            Leaf::Cipher(coding) => coding.code(x),
        }
    }

    fn back(&self, y: u64) -> Result<u64, AboveTop> {
        match self {
            Leaf::Clear(coding) => coding.back(y),
            Leaf::Plus(coding) => coding.back(y),
            Leaf::Cipher(coding) => coding.back(y),
        }
    }
}
