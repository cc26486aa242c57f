// The ciphers of the tour: a draft and a key for the colours of a mill, and others for its weavers.
ghost use Rattle.std.specs.Prelude.{◌<◌};

use kcipher::bytes::cipher_of;
use kcipher::cipher::KCipher;
use std::alloc::{AllocError, Global};

// 12 bytes, for Flex at width 24.
const COLOUR_KEY: &[u8] = b"colour key 1";

// 41 bytes, for CPA at width 33: 326 bits, and two spare ones that are 0.
const WEAVER_KEY: &[u8] = b"forty-one bytes key the numbers of hands!";

pub fn colour_cipher(heap: Global) -> anyhow::Result<KCipher> {
    let mut bytes = draft_head(heap, 24, b'F')?;
    for order in b'0'..=b'3' {
        push_order(&mut bytes, order, 24)?;
    }
    bytes.push(b'Z')?;
    Ok(cipher_of(&bytes, COLOUR_KEY)?)
}

pub fn weaver_cipher(heap: Global) -> anyhow::Result<KCipher> {
    let mut bytes = draft_head(heap, 33, b'P')?;
    bytes.extend_from_slice(b"B\x01\x00\x00\x00\x00\x00\x00\x80")?;
    for order in b'0'..=b'3' {
        push_order(&mut bytes, order, 33)?;
    }
    push_order(&mut bytes, b'4', 64)?;
    push_order(&mut bytes, b'5', 64)?;
    bytes.push(b'Z')?;
    Ok(cipher_of(&bytes, WEAVER_KEY)?)
}

// The width, the flow, and 5 for the constant C0.
fn draft_head(heap: Global, width: u8, flow: u8) -> Result<Vec<u8>, AllocError> {
    let mut bytes = Vec::new(heap);
    bytes.extend_from_slice(&[b'W', width, flow])?;
    bytes.extend_from_slice(b"A\x05\x00\x00\x00\x00\x00\x00\x00")?;
    Ok(bytes)
}

// An order that sends bit i to bit 5i + 1 modulo its size, which has no factor 5.
fn push_order(bytes: &mut Vec<u8>, letter: u8, size: u8) -> Result<(), AllocError>
    requires { 0 < size }
{
    bytes.push(letter)?;
    for i in 0..size {
        bytes.push(((5 * usize::from(i) + 1) % usize::from(size)) as u8)?;
    }
    for _ in size..64 {
        bytes.push(0)?;
    }
    Ok(())
}
