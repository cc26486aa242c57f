// How long a key is, and its parts.
ghost use Rattle.std.specs.Prelude.{◌≡◌, ◌≤◌};
ghost use Rattle.flows.specs.Keys.{schedule_bits, random_bits, key_bits, key_bytes, spare_bits};

use spelling::parts::{Flow, Parts};

pub(crate) fn schedule_bits(parts: &Parts) -> usize
    ensures is { result ≡ schedule_bits parts.now.width }
    ensures most { result ≤ 128 }
{
    if parts.width > 32 { 128 } else { 96 }
}

fn random_bits(parts: &Parts) -> usize
    ensures is { result ≡ random_bits parts.now.flow parts.now.width }
    ensures most { result ≤ 1530 }
{
    match parts.flow {
        Flow::Flex => 0,
        Flow::Cpa => 6 * parts.width as usize,
    }
}

pub(crate) fn key_bits(parts: &Parts) -> usize
    ensures is { result ≡ key_bits parts.now }
    ensures most { result ≤ 1658 }
{
    schedule_bits(parts) + random_bits(parts)
}

pub(crate) fn key_bytes(parts: &Parts) -> usize
    ensures is { result ≡ key_bytes parts.now }
    ensures most { result ≤ 208 }
{
    (key_bits(parts) + 7) / 8
}

pub(crate) fn spare_bits(parts: &Parts) -> u32
    ensures is { result ≡ spare_bits parts.now }
    ensures most { result ≤ 7 }
{
    (8 * key_bytes(parts) - key_bits(parts)) as u32
}
