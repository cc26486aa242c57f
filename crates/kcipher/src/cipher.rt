// A K-Cipher of either flow.
use crate::block::Block;
use crate::cpa::CpaFlow;
use crate::flex::FlexFlow;
use codings::coding::Coding;
use codings::refusal::AboveTop;

#[derive(Drop)]
pub enum KCipher {
    Flex(Block<FlexFlow>),
    Cpa(Block<CpaFlow>),
}

impl Coding for KCipher {
    ghost use Rattle.kcipher.specs.Ciphers.{cipher_means, cipher_lawful};

    ghost means = { cipher_means };

    ghost lawful = { cipher_lawful };

    fn top(&self) -> u64 {
        match self {
            KCipher::Flex(cipher) => cipher.top(),
            KCipher::Cpa(cipher) => cipher.top(),
        }
    }

    fn code(&self, x: u64) -> Result<u64, AboveTop> {
        match self {
            KCipher::Flex(cipher) => cipher.code(x),
            KCipher::Cpa(cipher) => cipher.code(x),
        }
    }

    fn back(&self, y: u64) -> Result<u64, AboveTop> {
        match self {
            KCipher::Flex(cipher) => cipher.back(y),
            KCipher::Cpa(cipher) => cipher.back(y),
        }
    }
}
