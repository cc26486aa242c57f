// The field of a box width.
ghost use Rattle.std.specs.Prelude.{◌≡◌, ◌+◌, ◌-◌, ◌*◌, ◌/◌, ◌%◌, ◌^◌, ◌<◌, ◌≤◌, MatchOption};
ghost use Rattle.field.specs.Code.{low_of, Near, taps, fold, reduced, spaced, spaced_out, Root};
ghost use Rattle.std.specs.Int.Bits.{bit_xor};
ghost use Rattle.field.specs.Fields.{mul, square, squared, ones, inverse, IsInverse};
ghost use Rattle.field.specs.Polynomials.{product, Leaves};
ghost use Rattle.field.specs.Widths.{low_part};

// A low part written out as 1 + x^first + x^second + x^third, so that a product with it is three shifts.
#[derive(Clone, Copy)]
struct Terms {
    first: u32,
    second: u32,
    third: u32,
}

impl Terms {
    // 1 + x^first: the other two are equal and cancel. So one sum of four terms does for all low parts, and no product asks how
    // many there are.
    fn two(first: u32) -> Terms
        ensures { result ≡ record { first = first; second = 0; third = 0 } }
    {
        Terms::four(first, 0, 0)
    }

    fn four(first: u32, second: u32, third: u32) -> Terms
        ensures { result ≡ record { first = first; second = second; third = third } }
    {
        Terms {
            first,
            second,
            third,
        }
    }
}

#[derive(Clone, Copy)]
pub struct Field {
    width: u32,
    low: u64,
    terms: Terms,
    ghost few: { width ≤ 32 },
    ghost spelt: { low ≡ low_of terms },
    ghost near: { Near width terms },
    ghost known: { low ≡ low_part width },
    ghost some: { 0 < low },
}

impl Field {
    // The field of a box width, for the widths that have one.
    #[inline(always)]
    pub fn of_width(width: u32) -> Option<Field>
        ensures { MatchOption result (low_part width ≡ 0) (λ f. (f.width ≡ width) × (f.low ≡ low_part width)) }
    {
        let (low, terms) = match width {
            5 => (0x05, Terms::two(2)),
            6 | 7 | 9 => (0x03, Terms::two(1)),
            8 => (0x1b, Terms::four(1, 3, 4)),
            10 | 12 | 25 => (0x09, Terms::two(3)),
            14 => (0x21, Terms::two(5)),
            _ => return None,
        };
        Some(Field { width, low, terms })
    }

    pub fn width(self) -> u32
        ensures { result ≡ self.width }
    {
        self.width
    }

    // The low part as a number.
    pub fn low(self) -> u64
        ensures { result ≡ self.low }
    {
        self.low
    }

    // The steps below take values of at most so many bits, and each says so: a type of values would carry its field, and
    // each call would ask in its place that two fields are the same.

    // The lowest bits of v, as many as the width has: bits' `Width::cut`, but this crate rests on no other.
    #[tactic(auto, using(std::proofs::lemmas::Nat::and_mask, std::proofs::lemmas::Nat::one_shl))]
    #[inline(always)]
    fn own_bits(self, v: u64) -> u64
        ensures { result ≡ v % 2 ^ self.width }
    {
        v & ((1 << self.width) - 1)
    }

    // What stands above the width comes back as its product with the low part.
    #[inline(always)]
    fn fold(self, v: u64) -> u64
        requires within { v < 2 ^ (self.width + self.width) }
        ensures { result ≡ fold self.width self.terms v }
    {
        let high = v >> self.width;
        self.own_bits(v) ^ self.taps(high)
    }

    // The product of h and the low part.
    #[inline(always)]
    fn taps(self, h: u64) -> u64
        requires within { h < 2 ^ self.width }
        ensures { result ≡ taps self.terms h }
    {
        let terms = self.terms;
        (h ^ (h << terms.first)) ^ ((h << terms.second) ^ (h << terms.third))
    }

    // What v leaves modulo the polynomial. The low part reaches up to half the width at most, so two folds do.
    #[inline(always)]
    fn reduce(self, v: u64) -> u64
        requires within { v < 2 ^ (self.width + self.width) }
        ensures { result ≡ reduced self.width self.low v }
    {
        self.fold(self.fold(v))
    }

    // The product of a and b with nothing taken off.
    #[inline(always)]
    fn times(self, a: u64, b: u64) -> u64
        requires a_within { a < 2 ^ self.width }
        requires b_within { b < 2 ^ self.width }
        ensures is { result ≡ product self.width a b }
        ensures reduces { reduced self.width self.low result ≡ mul self.width self.low a b }
        ensures leaves { Leaves self.width self.low (product self.width a b) (reduced self.width self.low result) }
    {
        // A loop over the bits of b: a `fold` was tried, and what it asks of its closure did not close.
        let mut sum = 0;
        for i in 0..self.width {
            sum ^= ((b >> i) & 1) * (a << i);
        }
        sum
    }

    // The product in the field.
    #[tactic(auto, using(crate::proofs::Values::smalls))]
    #[inline(always)]
    fn product(self, a: u64, b: u64) -> u64
        requires a_within { a < 2 ^ self.width }
        requires b_within { b < 2 ^ self.width }
        ensures is { result ≡ mul self.width self.low a b }
        ensures leaves { Leaves self.width self.low (product self.width a b) result }
    {
        self.reduce(self.times(a, b))
    }

    // The square of a with nothing taken off: zeros between its bits.
    #[inline(always)]
    fn spread(self, a: u64) -> u64
        requires within { a < 2 ^ self.width }
        ensures small { result < 2 ^ (self.width + self.width) }
        ensures reduces { reduced self.width self.low result ≡ square self.width self.low a }
    {
        spaced_out(a)
    }

    #[inline(always)]
    fn square(self, a: u64) -> u64
        requires within { a < 2 ^ self.width }
        ensures { result ≡ square self.width self.low a }
    {
        self.reduce(self.spread(a))
    }

    // a squared k times.
    #[tactic(auto, using(crate::proofs::Values::smalls))]
    #[inline(always)]
    fn squared(self, a: u64, k: u32) -> u64
        requires within { a < 2 ^ self.width }
        ensures { result ≡ squared self.width self.low k a }
    {
        let mut power = a;
        for _ in 0..k {
            power = self.square(power);
        }
        power
    }

    // a^(2^k - 1), by an addition chain: the exponent's ones, k of them, are made longer from k / 16 and k / 8 on to k.
    #[tactic(auto, using(crate::proofs::Values::smalls))]
    #[inline(always)]
    fn ones(self, a: u64, k: u32) -> u64
        requires within { a < 2 ^ self.width }
        requires some { 0 < k }
        requires few { k < 32 }
        ensures is { result ≡ ones self.width self.low k a }
        ensures root { k + 1 ≡ self.width → Root self.width self.low a result }
    {
        let mut power = a;
        for i in (0..5u32).rev() {
            if k >> i > 1 {
                power = self.longer(a, k >> i, power);
            }
        }
        power
    }

    // A link of the chain: k ones are half of them moved up by as many places and the half again, and one more where k is odd.
    #[tactic(auto, using(crate::proofs::Values::smalls))]
    #[inline(always)]
    fn longer(self, a: u64, k: u32, half: u64) -> u64
        requires within { a < 2 ^ self.width }
        requires half_is { half ≡ ones self.width self.low (k / 2) a }
        ensures { result ≡ ones self.width self.low k a }
    {
        let even = self.product(self.squared(half, k / 2), half);
        if k % 2 == 0 {
            even
        } else {
            self.product(self.square(even), a)
        }
    }

    // The product of two box values, the lowest bits of a and b.
    pub fn multiply(self, a: u64, b: u64) -> u64
        ensures is { result ≡ mul self.width self.low (a % 2 ^ self.width) (b % 2 ^ self.width) }
        ensures leaves { Leaves self.width self.low (product self.width (a % 2 ^ self.width) (b % 2 ^ self.width)) result }
    {
        self.product(self.own_bits(a), self.own_bits(b))
    }

    // The inverse of a box value, the lowest bits of a, and 0 for 0. Each width has an arm, in which the compiler knows the field's
    // numbers and unrolls the chain and the products.
    pub fn inverse(self, a: u64) -> u64
        ensures is { result ≡ inverse self.width self.low (a % 2 ^ self.width) }
        ensures inverts { IsInverse self.width self.low (a % 2 ^ self.width) result }
        ensures again { inverse self.width self.low result ≡ a % 2 ^ self.width }
    {
        match self.width {
            5 => self.known(5).inverted(a),
            6 => self.known(6).inverted(a),
            7 => self.known(7).inverted(a),
            8 => self.known(8).inverted(a),
            9 => self.known(9).inverted(a),
            10 => self.known(10).inverted(a),
            12 => self.known(12).inverted(a),
            14 => self.known(14).inverted(a),
            25 => self.known(25).inverted(a),
            _ => self.inverted(a),
        }
    }

    // This field again, by a width that the compiler knows.
    #[inline(always)]
    fn known(self, width: u32) -> Field
        requires own { width ≡ self.width }
        ensures { (result.width ≡ self.width) × (result.low ≡ self.low) }
    {
        Field::of_width(width).unwrap_or(self)
    }

    #[tactic(auto, using(crate::proofs::Values::smalls))]
    #[inline(always)]
    fn inverted(self, a: u64) -> u64
        ensures is { result ≡ inverse self.width self.low (a % 2 ^ self.width) }
        ensures inverts { IsInverse self.width self.low (a % 2 ^ self.width) result }
        ensures again { inverse self.width self.low result ≡ a % 2 ^ self.width }
    {
        self.square(self.ones(self.own_bits(a), self.width - 1))
    }
}

// Zeros between the bits of a, which has at most 32: halves moved apart, then quarters, and so on down to single bits.
#[inline(always)]
fn spaced_out(a: u64) -> u64
    ensures { result ≡ spaced_out a }
{
    let halves = spaced(a, 16, 0x0000_ffff_0000_ffff);
    let quarters = spaced(halves, 8, 0x00ff_00ff_00ff_00ff);
    let fours = spaced(quarters, 4, 0x0f0f_0f0f_0f0f_0f0f);
    let pairs = spaced(fours, 2, 0x3333_3333_3333_3333);
    spaced(pairs, 1, 0x5555_5555_5555_5555)
}

// a and a moved up, and of both the bits that are kept.
#[inline(always)]
fn spaced(a: u64, by: u32, keep: u64) -> u64
    requires short { by < 64 }
    ensures { result ≡ spaced by keep a }
{
    (a ^ (a << by)) & keep
}
