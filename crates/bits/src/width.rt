// A number of bits, and the arithmetic of the numbers of so many bits.
ghost use Rattle.std.specs.Prelude.{◌≡◌, ◌-◌, ◌%◌, ◌^◌, ◌<◌, ◌≤◌, ◌⊎◌, MatchOption};
ghost use Rattle.bits.specs.Words.{Added, Taken, turned_left, TurnedLeft, TurnedRight};

// From 1 to 64 bits.
#[derive(Clone, Copy)]
pub struct Width {
    bits: u32,
    ghost some: { 1 ≤ bits },
    ghost fits: { bits ≤ 64 },
}

impl Width {
    // None for 0 and above 64.
    pub fn new(bits: u32) -> Option<Width>
        ensures { MatchOption result ((bits ≡ 0) ⊎ (64 < bits)) (λ w. (w.bits ≡ bits) × (1 ≤ bits) × (bits ≤ 64)) }
    {
        if bits == 0 || bits > 64 {
            None
        } else {
            Some(Width { bits })
        }
    }

    pub fn bits(self) -> u32
        ensures { result ≡ self.bits }
    {
        self.bits
    }

    // The largest number of so many bits: all of them set.
    #[tactic(auto, using(crate::proofs::Words::ones_shr))]
    pub fn mask(self) -> u64
        ensures { result ≡ 2 ^ self.bits - 1 }
    {
        u64::MAX >> (64 - self.bits)
    }

    // The lowest bits of x, as many as the width has.
    #[tactic(auto, using(std::proofs::lemmas::Nat::and_mask))]
    pub fn cut(self, x: u64) -> u64
        ensures { result ≡ x % 2 ^ self.bits }
    {
        x & self.mask()
    }

    // a + b, wrapped.
    #[tactic(auto, using(crate::proofs::Words::added))]
    pub fn add(self, a: u64, b: u64) -> u64
        ensures { Added self.bits a b result }
    {
        self.cut(a.wrapping_add(b))
    }

    // a - b, wrapped.
    pub fn sub(self, a: u64, b: u64) -> u64
        ensures { Taken self.bits a b result }
    {
        self.cut(a.wrapping_sub(b))
    }

    // The bits of x moved up by k places; those that pass the end come round.
    #[tactic(auto, using(crate::proofs::Words::turns_left))]
    pub fn rotate_left(self, x: u64, k: u32) -> u64
        ensures { TurnedLeft self.bits k x result }
    {
        self.turn(x, k)
    }

    // The bits of x moved down by k places; those that pass the end come round.
    pub fn rotate_right(self, x: u64, k: u32) -> u64
        ensures { TurnedRight self.bits k x result }
    {
        self.turn(x, self.bits - k % self.bits)
    }

    // What both rotations come to. A shift by all 64 bits is not allowed, so a full turn is a case of its own.
    fn turn(self, x: u64, k: u32) -> u64
        ensures { result ≡ turned_left self.bits k x }
    {
        let y = self.cut(x);
        let j = k % self.bits;
        if j == 0 {
            return y;
        }
        self.cut(y << j) | (y >> (self.bits - j))
    }
}
