// Ciphers there and back again, and beside the chains of their steps.
use crate::sample::{crossing, key_length, plain, spelt, there};
use codings::coding::Coding;
use codings::refusal::AboveTop;
use draft::draft::Draft;
use kcipher::cipher::KCipher;
use kcipher::make::make;
use spelling::parts::Flow;
use std::test::Fail;

// A cipher with a key that is not plain.
fn cipher(draft: &Draft) -> Result<KCipher, Fail> {
    let parts = draft.parts();
    let mut bytes = [0; 64];
    for (i, byte) in bytes.iter_mut().enumerate() {
        *byte = (37 * (i % 64) % 256) as u8;
    }
    let key = there(bytes.get_mut(..key_length(parts.width, parts.flow)))?;
    // No spare bit is set.
    if let Some(last) = key.last_mut() {
        *last &= 0x03;
    }
    Ok(make(draft, key, &mut [0; 24])?)
}

#[test]
fn every_width_and_flow_goes_there_and_back(rt: HostRuntime) -> Result<(), Fail> {
    for width in 24..=64 {
        let top = u64::MAX >> (64 - u32::from(width));
        for flow in [Flow::Flex, Flow::Cpa] {
            let cipher = cipher(&plain(rt.alloc(), width, flow)?)?;
            assert_eq!(rt; cipher.top(), top);
            for x in [0, 1, 0x5a5a5a, top / 3, top] {
                assert_eq!(rt; cipher.back(cipher.code(x)?), Ok(x));
                assert_eq!(rt; cipher.code(cipher.back(x)?), Ok(x));
            }
            if let Some(above) = top.checked_add(1) {
                assert_eq!(rt; cipher.code(above), Err(AboveTop));
                assert_eq!(rt; cipher.back(above), Err(AboveTop));
            }
        }
    }
    Ok(())
}

#[test]
fn a_cipher_is_the_chain_of_its_steps(rt: HostRuntime) -> Result<(), Fail> {
    for flow in [Flow::Flex, Flow::Cpa] {
        let cipher = cipher(&spelt(rt.alloc(), 64, flow, 9, &crossing())?)?;
        for x in [0, 1, 0x0123_4567_89ab_cdef, u64::MAX] {
            let (code, number) = match &cipher {
                KCipher::Flex(flex) => (flex.chain().code(x), flex.chain().back(x)),
                KCipher::Cpa(cpa) => (cpa.chain().code(x), cpa.chain().back(x)),
            };
            assert_eq!(rt; code, cipher.code(x));
            assert_eq!(rt; number, cipher.back(x));
        }
    }
    Ok(())
}

#[test]
fn a_step_is_a_coding_of_its_own(rt: HostRuntime) -> Result<(), Fail> {
    let KCipher::Flex(flex) = cipher(&plain(rt.alloc(), 24, Flow::Flex)?)? else {
        return Err(Fail::new("no Flex"));
    };
    let steps = flex.steps();
    assert_eq!(rt; steps.order0.code(0x123456), Ok(0x123456));
    assert_eq!(rt; steps.add_c0.code(0xffffff), Ok(0xffffff));
    assert_eq!(rt; steps.boxes0.code(0x53), Ok(0xca));
    assert_eq!(rt; steps.boxes0.back(0xca), Ok(0x53));
    assert_eq!(rt; steps.mask_k2.code(0x1000000), Err(AboveTop));
    Ok(())
}
