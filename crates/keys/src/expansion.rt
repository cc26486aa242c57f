// The expansion of a key above 32 bits.
ghost use Rattle.std.specs.Prelude.{◌≡◌, ◌<◌};
ghost use Rattle.flows.specs.Keys.{expanded};

use crate::orders::order_of;
use crate::strings::number_at;
use bits::width::Width;
use boxes::kind::Flex;
use boxes::row::Boxes;
use draft::draft::Draft;

// The lowest 64 bits of the key plus C1, through order 4, the Flex boxes of 64 bits, and order 5.
pub(crate) fn expanded(draft: &Draft, key: &[u8]) -> u64
    requires { 32 < draft.now.parts.width }
    ensures { result ≡ expanded draft.now.parts key.now }
{
    let parts = draft.parts();
    let size = Width::new(64).unwrap();
    let first = order_of(size, parts.orders[4]);
    let last = order_of(size, parts.orders[5]);
    let sum = number_at(key, 0, 64).wrapping_add(parts.c1);
    last.apply(boxes_of_64().send(&Flex, first.apply(sum)))
}

fn boxes_of_64() -> Boxes
    ensures { result.size ≡ 64 }
{
    Boxes::of_width(64).unwrap()
}
