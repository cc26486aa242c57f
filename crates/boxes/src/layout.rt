// The boxes of a width.
ghost use Rattle.std.specs.Prelude.{◌≡◌, ◌<◌, ◌≤◌, ◌⊎◌, MatchOption};
ghost use Rattle.boxes.specs.Layouts.{layout, widths, Cut};
ghost use Rattle.boxes.specs.Boxes.{Rows};

use crate::shape::Shape;

// The width of all boxes but the last, the last width, and the count.
macro_rules! shape {
    ($wide:literal, $last:literal, $count:literal) => {
        Shape {
            wide: $wide,
            last: $last,
            count: $count,
        }
    };
}

// By width from 24 on, as the search gives them.
const SHAPES: [Shape; 41] = [
    shape!(8, 8, 3),
    shape!(25, 25, 1),
    shape!(8, 10, 3),
    shape!(9, 9, 3),
    shape!(14, 14, 2),
    shape!(8, 5, 4),
    shape!(10, 10, 3),
    shape!(8, 7, 4),
    shape!(8, 8, 4),
    shape!(8, 9, 4),
    shape!(8, 10, 4),
    shape!(9, 8, 4),
    shape!(9, 9, 4),
    shape!(8, 5, 5),
    shape!(8, 6, 5),
    shape!(8, 7, 5),
    shape!(8, 8, 5),
    shape!(8, 9, 5),
    shape!(14, 14, 3),
    shape!(9, 7, 5),
    shape!(8, 12, 5),
    shape!(9, 9, 5),
    shape!(8, 6, 6),
    shape!(8, 7, 6),
    shape!(8, 8, 6),
    shape!(8, 9, 6),
    shape!(10, 10, 5),
    shape!(9, 6, 6),
    shape!(8, 12, 6),
    shape!(9, 8, 6),
    shape!(9, 9, 6),
    shape!(8, 7, 7),
    shape!(8, 8, 7),
    shape!(8, 9, 7),
    shape!(8, 10, 7),
    shape!(9, 14, 6),
    shape!(10, 10, 6),
    shape!(9, 7, 7),
    shape!(8, 14, 7),
    shape!(9, 9, 7),
    shape!(8, 8, 8),
];

// The boxes of a width from 24 to 64, and none for others. That a width is none of these stands in the contract of each test for
// it: no type can carry it there.
pub fn boxes_of(width: u32) -> Option<Shape>
    ensures { MatchOption result ((width < 24) ⊎ (64 < width)) (λ s. (24 ≤ width) × (width ≤ 64) × (s ≡ layout width) × Cut width s × Rows width (widths s)) }
{
    let row = width.checked_sub(24)?;
    SHAPES.get(row as usize).copied()
}
