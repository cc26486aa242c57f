// How a width is cut into boxes.

// The lowest box has `last` bits, and the others, `wide` bits each, follow upwards; `count` boxes in all.
#[derive(Clone, Copy, PartialEq, Eq, Debug)]
pub struct Shape {
    pub wide: u32,
    pub last: u32,
    pub count: u32,
}
