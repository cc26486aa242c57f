// The two sides of equations between codings, asked about one number.
use codings::refusal::AboveTop;

#[derive(Clone, Copy, PartialEq, Eq, Debug)]
pub struct Sides {
    pub left: Result<u64, AboveTop>,
    pub right: Result<u64, AboveTop>,
}

// One pair of sides for each of the five laws.
#[derive(Clone, Copy, PartialEq, Eq, Debug)]
pub struct FiveLaws {
    // In a chain of three it makes no difference which two are taken together.
    pub regrouped: Sides,
    // Two turns come to none.
    pub turned_twice: Sides,
    // A chain is turned by turning its parts and swapping them.
    pub turned_chain: Sides,
    // Turning and narrowing to a number may be done in either order.
    pub turned_narrowed: Sides,
    // Of two narrowings the smaller bound alone counts.
    pub narrowed_twice: Sides,
}
