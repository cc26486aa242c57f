// Drafts and keys for the tests.
use draft::draft::Draft;
use draft::read::read;
use spelling::parts::Flow;
use std::alloc::{AllocError, Global};
use std::test::Fail;

// A draft with C0 = 0 in which every order sends each bit to itself.
pub(crate) fn plain(alloc: Global, width: u8, flow: Flow) -> Result<Draft, Fail> {
    spelt(alloc, width, flow, 0, &each_to_itself(width))
}

// The same with a C1, where the width has a use for it, and an order 1 of its own.
pub(crate) fn spelt(
    alloc: Global,
    width: u8,
    flow: Flow,
    c1: u64,
    order1: &[u8; 64],
) -> Result<Draft, Fail> {
    let mut bytes = Vec::new(alloc);
    bytes.extend_from_slice(&[b'W', width, letter(flow)])?;
    push_constant(&mut bytes, b'A', 0)?;
    push_order(&mut bytes, b'0', &each_to_itself(width))?;
    push_order(&mut bytes, b'1', order1)?;
    push_order(&mut bytes, b'2', &each_to_itself(width))?;
    push_order(&mut bytes, b'3', &each_to_itself(width))?;
    if width > 32 {
        push_constant(&mut bytes, b'B', c1)?;
        push_order(&mut bytes, b'4', &each_to_itself(64))?;
        push_order(&mut bytes, b'5', &each_to_itself(64))?;
    }
    bytes.push(b'Z')?;
    Ok(read(&bytes)?)
}

// The list of an order that sends each bit of a size to itself.
pub(crate) fn each_to_itself(size: u8) -> [u8; 64] {
    let mut list = [0; 64];
    for (i, place) in list.iter_mut().enumerate().take(size.into()) {
        *place = (i % 64) as u8;
    }
    list
}

// The list of the order that sends bit 8a + c to 8c + a.
pub(crate) fn crossing() -> [u8; 64] {
    let mut list = [0; 64];
    for (i, place) in list.iter_mut().enumerate() {
        *place = (8 * (i % 8) + i / 8 % 8) as u8;
    }
    list
}

fn letter(flow: Flow) -> u8 {
    match flow {
        Flow::Flex => b'F',
        Flow::Cpa => b'P',
    }
}

fn push_constant(bytes: &mut Vec<u8>, letter: u8, number: u64) -> Result<(), AllocError> {
    bytes.push(letter)?;
    bytes.extend_from_slice(&number.to_le_bytes())
}

fn push_order(bytes: &mut Vec<u8>, letter: u8, list: &[u8; 64]) -> Result<(), AllocError> {
    bytes.push(letter)?;
    bytes.extend_from_slice(list)
}

// The bytes of a key: 96 bits up to width 32, else 128, and in CPA 6 widths of bits more.
pub(crate) fn key_length(width: u8, flow: Flow) -> usize {
    let schedule = if width > 32 { 128 } else { 96 };
    let random = match flow {
        Flow::Flex => 0,
        Flow::Cpa => 6 * usize::from(width),
    };
    (schedule + random + 7) / 8
}

// A longest key, which is 64 bytes long, and two bytes more: all zeros but for the first.
pub(crate) fn long_key(first: u8) -> [u8; 66] {
    let mut key = [0; 66];
    key[0] = first;
    key
}

// What there is.
pub(crate) fn there<T: Drop>(found: Option<T>) -> Result<T, Fail> {
    found.ok_or_else(|| Fail::new("nothing there"))
}
