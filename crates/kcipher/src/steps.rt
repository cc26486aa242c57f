// The steps of the cipher. Each is a map of the numbers of its width, and only the cipher makes one.
ghost use Rattle.std.specs.Prelude.{◌≡◌, ◌^◌, ◌<◌};
ghost use Rattle.std.specs.Int.Bits.{bit_xor};
ghost use Rattle.bits.specs.Listed.{order};
ghost use Rattle.bits.specs.Orders.{moved, gathered};
ghost use Rattle.bits.specs.Words.{wrapped_sum, wrapped_difference};
ghost use Rattle.boxes.specs.Boxes.{Boxed};
ghost use Rattle.boxes.specs.Kinds.{sum_undone, xor_undone};
ghost use Rattle.flows.specs.Flows.{through_boxes};
ghost use Rattle.flows.proofs.Flows.{boxes_undone, order_undone, order_is};

use crate::block::Map;
use bits::order::Order;
use bits::width::Width;
use boxes::kind::{BoxKind, Invertible};
use boxes::row::Boxes;

// A constant is added, and the carry out of the width dropped.
#[derive(Clone, Copy)]
pub struct Addition {
    width: Width,
    constant: u64,
}

impl Addition {
    pub(crate) fn new(width: Width, constant: u64) -> Self
        ensures { (result.width ≡ width) × (result.constant ≡ constant) }
    {
        Addition { width, constant }
    }
}

impl Map for Addition {
    ghost bits = { λ s. s.width.bits };

    ghost does = { λ s x. wrapped_sum s.width.bits x s.constant };

    ghost undoes = { λ s y. wrapped_difference s.width.bits y s.constant };

    ghost undone = { λ s. sum_undone s.width.bits s.constant };

    fn width(&self) -> Width {
        self.width
    }

    fn send(&self, x: u64) -> u64 {
        self.width.add(x, self.constant)
    }

    fn back(&self, y: u64) -> u64 {
        self.width.sub(y, self.constant)
    }
}

// The bits are put in an order.
#[derive(Clone, Copy)]
pub struct Reordering {
    order: Order,
}

impl Reordering {
    pub(crate) fn new(order: Order) -> Self
        ensures { result.order ≡ order }
    {
        Reordering { order }
    }
}

impl Map for Reordering {
    ghost bits = { λ s. s.order.size.bits };

    ghost does = { λ s. moved (order s.order) };

    ghost undoes = { λ s. gathered (order s.order) };

    ghost undone = { λ s. order_undone s.order.size.bits (order s.order) (order_is s.order) };

    fn width(&self) -> Width {
        self.order.size()
    }

    fn send(&self, x: u64) -> u64 {
        self.order.apply(x)
    }

    fn back(&self, y: u64) -> u64 {
        self.order.undo(y)
    }
}

// A number is sent through the boxes of its width.
#[derive(Drop)]
pub struct Substitution<K: Invertible> {
    width: Width,
    boxes: Boxes,
    kind: K,
    ghost whole: { boxes.size ≡ width.bits },
    ghost inverts: { Boxed (K.does kind) (K.undoes kind) },
}

impl<K: Invertible + Copy> Substitution<K> {
    pub(crate) fn new(width: Width, boxes: Boxes, kind: K) -> Self
        requires { boxes.size ≡ width.bits }
        ensures { (result.width ≡ width) × (result.boxes ≡ boxes) × (result.kind ≡ kind) }
    {
        Substitution { width, boxes, kind }
    }
}

impl<K: Invertible + Copy> Map for Substitution<K> {
    ghost bits = { λ s. s.boxes.size };

    ghost does = { λ s. through_boxes s.boxes.size (K.does s.kind) };

    ghost undoes = { λ s. through_boxes s.boxes.size (K.undoes s.kind) };

    ghost undone = { λ s. boxes_undone s.boxes.size s.boxes.least s.boxes.fits (K.does s.kind) (K.undoes s.kind) s.inverts };

    fn width(&self) -> Width {
        self.width
    }

    fn send(&self, x: u64) -> u64 {
        self.boxes.send(&self.kind, x)
    }

    fn back(&self, y: u64) -> u64 {
        self.boxes.back(&self.kind, y)
    }
}

// A mask of the width is laid over by exclusive or.
#[derive(Clone, Copy)]
pub struct Masking {
    width: Width,
    mask: u64,
    ghost small: { mask < 2 ^ width.bits },
}

impl Masking {
    pub(crate) fn new(width: Width, mask: u64) -> Self
        requires { mask < 2 ^ width.bits }
        ensures { (result.width ≡ width) × (result.mask ≡ mask) }
    {
        Masking { width, mask }
    }
}

impl Map for Masking {
    ghost bits = { λ s. s.width.bits };

    ghost does = { λ s x. bit_xor x s.mask };

    ghost undoes = { λ s y. bit_xor y s.mask };

    ghost undone = { λ s. xor_undone s.width.bits s.mask s.small };

    fn width(&self) -> Width {
        self.width
    }

    fn send(&self, x: u64) -> u64 {
        x ^ self.mask
    }

    fn back(&self, y: u64) -> u64 {
        y ^ self.mask
    }
}
