// One box.
ghost use Rattle.std.specs.Prelude.{◌≡◌, ◌%◌, ◌^◌, ◌<◌, MatchOption};
ghost use Rattle.boxes.specs.Boxes.{flex};
ghost use Rattle.field.specs.Widths.{low_part};

use bits::width::Width;
use field::field::Field;

// A box of some width, with the field of that width.
#[derive(Clone, Copy)]
pub struct Cell {
    field: Field,
    width: Width,
    ghost same: { field.width ≡ width.bits },
}

impl Cell {
    // The box of a width that has a field.
    pub fn of_width(width: u32) -> Option<Cell>
        ensures { MatchOption result (low_part width ≡ 0) (λ c. (c.width.bits ≡ width) × (0 < low_part width)) }
    {
        let field = Field::of_width(width)?;
        let width = Width::new(width)?;
        Some(Cell { field, width })
    }

    pub fn width(self) -> Width
        ensures { result ≡ self.width }
    {
        self.width
    }

    // The inverse of the box value in the lowest bits of x, and 0 for 0.
    pub fn invert(self, x: u64) -> u64
        ensures is { result ≡ flex self.width.bits (x % 2 ^ self.width.bits) }
        ensures small { result < 2 ^ self.width.bits }
    {
        self.field.inverse(x)
    }
}
