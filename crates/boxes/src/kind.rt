// What the two flows do in a box.
ghost use Rattle.std.specs.Prelude.{◌≡◌, ℕ, ◌/◌, ◌%◌, ◌^◌, ◌<◌};
ghost use Rattle.boxes.specs.Boxes.{flex_box, cpa_box, cpa_box_back, Boxed};
ghost use Rattle.boxes.specs.Kinds.{flex_boxed, cpa_boxed, turned_boxed};

use crate::cell::Cell;

// A kind of box: what it does to a value, by the place of its lowest bit and its width. A cell and its place meet only in
// a row's loop, so a pair of them would be put together there and taken apart in each kind.
pub trait BoxKind {
    ghost does: { Self → ℕ → ℕ → ℕ → ℕ };

    // The value in the lowest bits of x, sent through the box.
    fn send(&self, cell: Cell, place: u32, x: u64) -> u64
        ensures is { result ≡ does self.now place cell.width.bits (x % 2 ^ cell.width.bits) }
        ensures small { result < 2 ^ cell.width.bits };
}

// A kind of box that has a way back.
pub trait Invertible: BoxKind {
    ghost undoes: { Self → ℕ → ℕ → ℕ → ℕ };

    // The value in the lowest bits of y, sent back through the box.
    fn back(&self, cell: Cell, place: u32, y: u64) -> u64
        ensures is { result ≡ undoes self.now place cell.width.bits (y % 2 ^ cell.width.bits) }
        ensures small { result < 2 ^ cell.width.bits };

    // Both ways keep the values of a box, and undo each other on them.
    ghost inverts: { (s : Self) → Boxed (Self.does s) (undoes s) };
}

// A Flex box, which is its own way back.
#[derive(Clone, Copy)]
pub struct Flex;

impl BoxKind for Flex {
    ghost does = { λ s. flex_box };

    fn send(&self, cell: Cell, place: u32, x: u64) -> u64 {
        cell.invert(x)
    }
}

impl Invertible for Flex {
    ghost undoes = { λ s. flex_box };

    ghost inverts = { λ s. flex_boxed };

    fn back(&self, cell: Cell, place: u32, y: u64) -> u64 {
        self.send(cell, place, y)
    }
}

// A CPA box: the random parts of a round, of which a box takes the bits at its place.
#[derive(Clone, Copy)]
pub struct Cpa {
    pub r0: u64,
    pub r1: u64,
}

impl BoxKind for Cpa {
    ghost does = { λ s. cpa_box s.r0 s.r1 };

    fn send(&self, cell: Cell, place: u32, x: u64) -> u64 {
        let Cpa { r0, r1 } = self.at(place);
        let width = cell.width();
        width.rotate_left(width.add(cell.invert(x ^ r0), r1), 2)
    }
}

impl Invertible for Cpa {
    ghost undoes = { λ s. cpa_box_back s.r0 s.r1 };

    ghost inverts = { λ s. cpa_boxed s.r0 s.r1 };

    fn back(&self, cell: Cell, place: u32, y: u64) -> u64 {
        let Cpa { r0, r1 } = self.at(place);
        let width = cell.width();
        cell.invert(width.sub(width.rotate_right(y, 2), r1)) ^ width.cut(r0)
    }
}

impl Cpa {
    // The random parts from a place on; behind bit 63 their bits are 0.
    fn at(self, place: u32) -> Cpa
        ensures { (result.r0 ≡ self.r0 / 2 ^ place) × (result.r1 ≡ self.r1 / 2 ^ place) }
    {
        Cpa {
            r0: from_place(self.r0, place),
            r1: from_place(self.r1, place),
        }
    }
}

// The bits of r from a place on.
#[tactic(auto, using(crate::proofs::Sent::none_left))]
fn from_place(r: u64, place: u32) -> u64
    ensures { result ≡ r / 2 ^ place }
{
    r.checked_shr(place).unwrap_or(0)
}

// A kind of box the other way round.
#[derive(Clone, Copy)]
pub struct Turned<K>(pub K);

impl<K: Invertible> BoxKind for Turned<K> {
    ghost does = { λ s. K.undoes s.0 };

    fn send(&self, cell: Cell, place: u32, x: u64) -> u64 {
        self.0.back(cell, place, x)
    }
}

impl<K: Invertible> Invertible for Turned<K> {
    ghost undoes = { λ s. K.does s.0 };

    ghost inverts = { λ s. turned_boxed (K.does s.0) (K.undoes s.0) (K.inverts s.0) };

    fn back(&self, cell: Cell, place: u32, y: u64) -> u64 {
        self.0.send(cell, place, y)
    }
}
