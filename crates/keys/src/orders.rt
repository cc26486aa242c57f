// The orders of a draft. They stand here and not with the drafts, since the key's expansion takes two and the cipher the others.
ghost use Rattle.std.specs.Prelude.{◌≡◌};
ghost use Rattle.bits.specs.Orders.{Sound};

use bits::order::Order;
use bits::width::Width;
use draft::draft::Draft;

// The orders 0 to 3, which are of the draft's width.
#[derive(Clone, Copy)]
pub struct Orders {
    pub order0: Order,
    pub order1: Order,
    pub order2: Order,
    pub order3: Order,
}

impl Orders {
    ghost use Rattle.keys.specs.Ordering.{OrdersOf};

    pub fn of_draft(draft: &Draft) -> Orders
        ensures { OrdersOf draft.now.parts result }
    {
        let parts = draft.parts();
        let width = Width::new(parts.width.into()).unwrap();
        Orders {
            order0: order_of(width, parts.orders[0]),
            order1: order_of(width, parts.orders[1]),
            order2: order_of(width, parts.orders[2]),
            order3: order_of(width, parts.orders[3]),
        }
    }
}

// An order by its list, which a draft that was accepted has found sound.
#[tactic(auto, using(crate::proofs::Sure::no_fault))]
pub(crate) fn order_of(size: Width, places: [u8; 64]) -> Order
    requires sound { Sound size.bits places }
    ensures { (result.size ≡ size) × (result.places ≡ places) }
{
    Order::new(size, places).unwrap()
}
