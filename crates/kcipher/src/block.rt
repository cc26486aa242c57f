// Codings of all numbers of a width.
ghost use Rattle.std.specs.Prelude.{◌≡◌, ℕ};
ghost use Rattle.boxes.specs.Boxes.{Undone};
ghost use Rattle.flows.specs.Steps.{block};
ghost use Rattle.flows.proofs.Flows.{block_lawful};

use bits::width::Width;
use codings::coding::Coding;
use codings::refusal::{AboveTop, at_most};

// What maps the numbers of a width to themselves, one to one, and back. What it makes of larger numbers says nothing.
pub trait Map {
    ghost bits: { Self → ℕ };

    ghost does: { Self → ℕ → ℕ };

    ghost undoes: { Self → ℕ → ℕ };

    // Both ways keep the numbers of the width, and undo each other on them.
    ghost undone: { (s : Self) → Undone (bits s) (does s) (undoes s) };

    fn width(&self) -> Width
        ensures { result.bits ≡ bits self.now };

    fn send(&self, x: u64) -> u64
        ensures { result ≡ does self.now x };

    fn back(&self, y: u64) -> u64
        ensures { result ≡ undoes self.now y };
}

// The coding that a map makes: its top is the largest number of the width. Only this crate makes one, for the cipher and its
// steps.
#[derive(Drop)]
pub struct Block<M> {
    pub(crate) map: M,
}

impl<M: Map> Block<M> {
    pub(crate) fn new(map: M) -> Self
        ensures { result.map ≡ map }
    {
        Block { map }
    }
}

impl<M: Map> Coding for Block<M> {
    ghost means = { λ s. block (M.bits s.map) (M.does s.map) (M.undoes s.map) };

    ghost lawful = { λ s. block_lawful _ _ _ (M.undone s.map) };

    fn top(&self) -> u64 {
        self.map.width().mask()
    }

    fn code(&self, x: u64) -> Result<u64, AboveTop> {
        at_most(self.top(), x)?;
        Ok(self.map.send(x))
    }

    fn back(&self, y: u64) -> Result<u64, AboveTop> {
        at_most(self.top(), y)?;
        Ok(self.map.back(y))
    }
}
