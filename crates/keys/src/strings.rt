// Numbers in strings of bits: bit i of a string of bytes is bit i mod 8 of byte i div 8, and behind the last byte all bits are 0.
ghost use Rattle.std.specs.Prelude.{◌≡◌, ◌^◌, ◌<◌, ◌≤◌};
ghost use Rattle.flows.specs.Strings.{byte_bit, number_at};

pub(crate) fn bit_at(bytes: &[u8], i: usize) -> u64
    ensures { result ≡ byte_bit bytes.now i }
{
    let byte = bytes.get(i / 8).copied().unwrap_or(0);
    u64::from((byte >> (i % 8)) & 1)
}

// The number of so many bits from a place on, its lowest bit first.
pub(crate) fn number_at(bytes: &[u8], from: usize, bits: u32) -> u64
    requires short { bits ≤ 64 }
    requires near { from < 2 ^ 32 }
    ensures is { result ≡ number_at (byte_bit bytes.now) from bits }
    ensures small { result < 2 ^ bits }
{
    let mut number = 0;
    for i in (0..bits).rev() {
        number = 2 * number + bit_at(bytes, from + i as usize);
    }
    number
}
