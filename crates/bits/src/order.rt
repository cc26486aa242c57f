// Orders of the bits of a number.
ghost use Rattle.std.specs.Prelude.{◌≡◌, ◌*◌, ◌%◌, ◌^◌, ◌<◌, length, take, MatchOption, MatchResult};
ghost use Rattle.bits.specs.Bits.{bit};
ghost use Rattle.bits.specs.Orders.{IsOrder, Applied, Undone, FirstFault, Sound, fault_at};

use crate::width::Width;

// Bit i of a number moves to bit places[i]. The places after the size do not count and are 0. The list is an array, since the
// reading of a draft takes no heap.
#[derive(Clone, Copy)]
pub struct Order {
    size: Width,
    places: [u8; 64],
    ghost long: { length places ≡ 64 },
    ghost sound: { Sound size.bits places },
}

// The first place that is too large, stands before too, or is not 0 after the size.
#[derive(PartialEq, Eq, Debug, Drop)]
pub struct NotAnOrder {
    pub place: usize,
}

impl Order {
    ghost use Rattle.bits.specs.Listed.{order};

    pub fn new(size: Width, places: [u8; 64]) -> Result<Order, NotAnOrder>
        ensures { MatchResult result (λ o. (o.size ≡ size) × (o.places ≡ places) × Sound size.bits places × IsOrder size.bits (take size.bits places)) (λ e. FirstFault size.bits places e.place) }
    {
        match first_fault(size, &places) {
            Some(place) => Err(NotAnOrder { place }),
            None => Ok(Order { size, places }),
        }
    }

    pub fn size(&self) -> Width
        ensures { result ≡ self.now.size }
    {
        self.size
    }

    pub fn places(&self) -> &[u8; 64]
        ensures { result.now ≡ self.now.places }
    {
        &self.places
    }

    // x with each bit moved to its place. Of x the lowest bits count, as many as the size says. Both ways are a chain of
    // their own: one for both would take a closure that swaps `from` and `to`, and be no shorter.
    pub fn apply(&self, x: u64) -> u64
        ensures { Applied self.now.size.bits (order self.now) x result }
    {
        self.used()
            .iter()
            .enumerate()
            .map(|(i, place)| moved_bit(x, i, *place as usize))
            .sum()
    }

    // y with each bit fetched back from its place.
    pub fn undo(&self, y: u64) -> u64
        ensures { Undone self.now.size.bits (order self.now) y result }
    {
        self.used()
            .iter()
            .enumerate()
            .map(|(i, place)| moved_bit(y, *place as usize, i))
            .sum()
    }

    // The places that count.
    #[tactic(auto, using(crate::proofs::Orders::sound_order))]
    fn used(&self) -> &[u8]
        ensures is { result.now ≡ order self.now }
        ensures order { IsOrder self.now.size.bits result.now }
    {
        let Order { size, places } = self;
        &places[..size.bits() as usize]
    }
}

// Bit `from` of x, moved to `to`.
#[tactic(auto, using(std::proofs::lemmas::Nat::and_mask))]
fn moved_bit(x: u64, from: usize, to: usize) -> u64
    requires from_within { from < 64 }
    requires to_within { to < 64 }
    ensures { result ≡ bit x from * 2 ^ to % 2 ^ 64 }
{
    ((x >> from) & 1) << to
}

// The first place at fault. It goes by number, since each place is held to all earlier ones.
fn first_fault(size: Width, places: &[u8; 64]) -> Option<usize>
    ensures { MatchOption result (Sound size.bits places.now) (λ p. FirstFault size.bits places.now p) }
{
    (0..places.len()).find(|i| is_fault(size, places, *i))
}

// Whether the place at i is at fault.
fn is_fault(size: Width, places: &[u8; 64], i: usize) -> bool
    requires { i < 64 }
    ensures { result ≡ fault_at size.bits places.now i }
{
    let place = places[i];
    if i < size.bits() as usize {
        place as u32 >= size.bits() || places[..i].contains(&place)
    } else {
        place != 0
    }
}
