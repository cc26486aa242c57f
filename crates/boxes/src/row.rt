// A row of boxes, the lowest first, and what it does to a number.
ghost use Rattle.std.specs.Prelude.{◌≡◌, ◌^◌, ◌<◌, ◌≤◌, ◌⊎◌, MatchOption, slice_index};
ghost use Rattle.boxes.specs.Boxes.{layer, Rows, Undone};
ghost use Rattle.boxes.specs.Layouts.{layout, widths};
ghost use Rattle.field.specs.Widths.{low_part};

use crate::cell::Cell;
use crate::kind::{BoxKind, Invertible, Turned};
use crate::layout::boxes_of;
use crate::shape::Shape;

// `count` boxes that add up to `size` bits: the lowest is `last`, and the others are `wide`, which is not read where there are
// none: as an Option it would be asked again at each box.
#[derive(Clone, Copy)]
pub struct Boxes {
    size: u32,
    count: u32,
    last: Cell,
    wide: Cell,
    ghost least: { 24 ≤ size },
    ghost fits: { size ≤ 64 },
    ghost lowest: { last.width.bits ≡ (layout size).last },
    ghost number: { count ≡ (layout size).count },
    ghost others: { 1 < count → wide.width.bits ≡ (layout size).wide },
}

impl Boxes {
    // The boxes of a width from 24 to 64, and none for others.
    pub fn of_width(width: u32) -> Option<Boxes>
        ensures { MatchOption result ((width < 24) ⊎ (64 < width)) (λ b. (b.size ≡ width) × Rows width (widths (layout width))) }
    {
        let shape = boxes_of(width)?;
        let last = Cell::of_width(shape.last)?;
        let wide = wide_of(shape, last);
        Some(Boxes {
            size: width,
            count: shape.count,
            last,
            wide,
        })
    }

    // Box i, the lowest first. A row holds two cells and no list: a chain of one cell and copies of the other was tried, and the
    // proof did not close.
    #[tactic(auto, using(crate::proofs::Rows::wide_at))]
    fn cell(&self, i: u32) -> Cell
        requires { i < self.now.count }
        ensures { result.width.bits ≡ slice_index (widths (layout self.now.size)) i }
    {
        if i == 0 { self.last } else { self.wide }
    }

    // A number sent through the boxes. Of x the lowest bits count, as many as the boxes have.
    pub fn send<K: BoxKind>(&self, kind: &K, x: u64) -> u64
        ensures is { result ≡ layer (K.does kind.now) 0 (widths (layout self.now.size)) x }
        ensures small { result < 2 ^ self.now.size }
    {
        let mut out = 0;
        let mut left = x;
        let mut place = 0;
        for i in 0..self.count {
            let cell = self.cell(i);
            let bits = cell.width().bits();
            out += kind.send(cell, place, left) << place;
            left >>= bits;
            place += bits;
        }
        out
    }

    // A number sent back through the boxes, which undoes `send`. Of y the lowest bits count.
    pub fn back<K: Invertible + Copy>(&self, kind: &K, y: u64) -> u64
        ensures is { result ≡ layer (K.undoes kind.now) 0 (widths (layout self.now.size)) y }
        ensures small { result < 2 ^ self.now.size }
        ensures undone { let ms = widths (layout self.now.size) in Undone self.now.size (layer (K.does kind.now) 0 ms) (layer (K.undoes kind.now) 0 ms) }
    {
        self.send(&Turned(*kind), y)
    }
}

// The box of the width of all but the last, which counts where there is more than one.
fn wide_of(shape: Shape, last: Cell) -> Cell
    ensures { 0 < low_part shape.wide → result.width.bits ≡ shape.wide }
{
    Cell::of_width(shape.wide).unwrap_or(last)
}
