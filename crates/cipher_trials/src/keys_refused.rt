// Keys of another length, and with spare bits set.
use crate::sample::{long_key, plain, there};
use draft::draft::Draft;
use kcipher::make::make;
use keys::refusal::KeyRefusal;
use spelling::parts::Flow;
use std::test::Fail;

// Widths, flows and the bits of their keys.
const KEYS: [(u8, Flow, usize); 9] = [
    (24, Flow::Flex, 96),
    (25, Flow::Flex, 96),
    (32, Flow::Flex, 96),
    (33, Flow::Flex, 128),
    (64, Flow::Flex, 128),
    (25, Flow::Cpa, 246),
    (26, Flow::Cpa, 252),
    (33, Flow::Cpa, 326),
    (64, Flow::Cpa, 512),
];

#[test]
fn a_key_has_the_bytes_that_its_bits_fill(rt: HostRuntime) -> Result<(), Fail> {
    let bytes = long_key(1);
    for (width, flow, bits) in KEYS {
        let draft = plain(rt.alloc(), width, flow)?;
        for length in 0..=bytes.len() {
            let key = there(bytes.get(..length))?;
            let refused = if length == bits.div_ceil(8) {
                None
            } else {
                Some(KeyRefusal::WrongLength)
            };
            assert_eq!(rt; make(&draft, key, &mut [0; 24]).err(), refused);
        }
    }
    Ok(())
}

#[test]
fn keys_of_12_and_31_bytes_fit_at_width_25(rt: HostRuntime) -> Result<(), Fail> {
    let flex = plain(rt.alloc(), 25, Flow::Flex)?;
    assert_eq!(rt; number(&flex, &[0; 13]), Some(11));
    assert_eq!(rt; number(&flex, &[0; 12]), None);
    let cpa = plain(rt.alloc(), 25, Flow::Cpa)?;
    assert_eq!(rt; number(&cpa, &[0; 30]), Some(11));
    assert_eq!(rt; number(&cpa, &[0; 31]), None);
    Ok(())
}

// The number of the refusal, where there is one.
fn number(draft: &Draft, key: &[u8]) -> Option<u8> {
    Some(make(draft, key, &mut [0; 24]).err()?.number())
}

// Each bit of the last byte: those of the key may be set, and the spare ones may not.
#[test]
fn each_spare_bit_is_refused(rt: HostRuntime) -> Result<(), Fail> {
    for (width, flow, bits) in KEYS {
        let draft = plain(rt.alloc(), width, flow)?;
        let length = bits.div_ceil(8);
        for bit in 0..8 {
            let mut bytes = long_key(0);
            *there(bytes.get_mut(length.saturating_sub(1)))? = 1 << bit;
            let refused = if 8 * length.saturating_sub(1) + bit < bits {
                None
            } else {
                Some(KeyRefusal::SpareBits)
            };
            let key = there(bytes.get(..length))?;
            assert_eq!(rt; make(&draft, key, &mut [0; 24]).err(), refused);
        }
    }
    Ok(())
}

// The words alone, and under a width filled up from the left.
#[test]
fn a_refusal_reads_as_its_words(rt: HostRuntime) -> Result<(), Fail> {
    let heap = rt.alloc();
    let table = [
        (
            KeyRefusal::ShortWorkSpace,
            "the work space has fewer than 24 bytes",
            "                      the work space has fewer than 24 bytes",
        ),
        (
            KeyRefusal::WrongLength,
            "the key has not the bytes that its bits fill",
            "                the key has not the bytes that its bits fill",
        ),
        (
            KeyRefusal::SpareBits,
            "a spare bit of the key's last byte is not 0",
            "                 a spare bit of the key's last byte is not 0",
        ),
    ];
    for (refusal, words, wide) in table {
        assert_eq!(rt; format!(in heap; "{refusal}")?.as_str(), words);
        assert_eq!(rt; format!(in heap; "{refusal:#}")?.as_str(), words);
        assert_eq!(rt; format!(in heap; "{refusal:>60}")?.as_str(), wide);
    }
    Ok(())
}
