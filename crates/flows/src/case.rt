// What a marked case says: it is a list of claims.
use boxes::shape::Shape;
use spelling::parts::Flow;

// A draft and a key that are plain but for little: C0 is 0, every order sends each bit to itself, and the bytes of the key are
// 0.
#[derive(Clone, Copy)]
pub struct Plain {
    pub width: u8,
    pub flow: Flow,
    // The first byte of the key.
    pub first: u8,
    pub c1: u64,
    // Whether order 1 sends bit 8a + c to 8c + a, for a and c from 0 to 7.
    pub crossed: bool,
}

// The coding plus: x is coded as (x + k) mod (top + 1).
#[derive(Clone, Copy)]
pub struct Shift {
    pub top: u64,
    pub k: u64,
}

// What is applied to a number.
#[derive(Clone, Copy)]
pub enum Rule {
    // The inverse in the field of a width.
    Inverse(u32),
    // The CPA box of a width with its random parts r0 and r1.
    CpaBox(u32, u64, u64),
    // The order 1, 2, 0 and then each bit to itself, of so many bits.
    ThreeTurned(u32),
    // A K-Cipher.
    Cipher(Plain),
    // Plus, narrowed to a smaller top.
    Narrowed(Shift, u64),
    // Plus, and then another.
    Chained(Shift, Shift),
}

#[derive(Clone, Copy)]
pub enum Claim {
    // The boxes of a width.
    Boxes(u32, Shape),
    // A rule, a number, and what comes of it.
    Sends(Rule, u64, u64),
}
