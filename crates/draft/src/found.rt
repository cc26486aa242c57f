// What was found of a draft so far.
ghost use Rattle.std.specs.Prelude.{◌≡◌, ◌+◌, ◌<◌, ◌≤◌, length, true, false, nat_lt, slice_index_or, slice_set, unwrap_or, ◌⊎◌, OnSome, IfSome, IfNone, OnOk, OnErr, if◌then◌else◌, Some as Given, None as Missing};
ghost use Rattle.spelling.specs.Commands.{index_of, place_of, part_operands, has_use, order_size};
ghost use Rattle.spelling.specs.Steps.{after_width, found};
ghost use Rattle.spelling.specs.Turns.{complete};
ghost use Rattle.spelling.specs.declared.command.Command.TheVariants.{Part as PartCommand};
ghost use Rattle.spelling.specs.declared.command.Part.TheVariants.{C0 as PartC0, Order as PartOrder};

use crate::cursor::Cursor;
use bits::order::Order;
use bits::width::Width;
use spelling::command::{OrderName, Part};
use spelling::fault::{Fault, Reason};
use spelling::parts::{Flow, Parts};

// The width, and what was given of the other parts.
#[derive(Drop)]
pub(crate) struct Found {
    width: Width,
    flow: Option<Flow>,
    c0: Option<u64>,
    c1: Option<u64>,
    orders: [Option<[u8; 64]>; 6],
    ghost least: { 24 ≤ width.bits },
}

impl Found {
    ghost use Rattle.draft.specs.Founds.{given_of, parts_of, reading_at, then_parts};
    ghost use Rattle.draft.specs.Cursors.{with_operand, right_operand, as_number};

    // Nothing but the width, if it is 24 to 64.
    pub(crate) fn of_width(bits: u8) -> Option<Found>
        ensures none { IfNone result ((bits < 24) ⊎ (64 < bits)) }
        ensures range { OnSome result ((24 ≤ bits) × (bits ≤ 64)) }
        ensures blank { IfSome result (λ f. reading_at 2 f ≡ after_width bits) }
    {
        let width = Width::new(bits.into()).filter(|width| width.bits() >= 24)?;
        Some(Found {
            width,
            flow: None,
            c0: None,
            c1: None,
            orders: [None; 6],
        })
    }

    pub(crate) fn has(&self, part: Part) -> bool
        ensures { result ≡ slice_index_or (given_of self.now) (place_of part) false }
    {
        match part {
            Part::Flow(_) => self.flow.is_some(),
            Part::C0 => self.c0.is_some(),
            Part::C1 => self.c1.is_some(),
            Part::Order(name) => self.orders[name as usize].is_some(),
        }
    }

    // C1 and the orders 4 and 5 are for widths above 32.
    pub(crate) fn has_use(&self, part: Part) -> bool
        ensures { result ≡ has_use self.now.width.bits (PartCommand part) }
    {
        match part {
            Part::C1 | Part::Order(OrderName::R4 | OrderName::R5) => self.is_wide(),
            _ => true,
        }
    }

    fn is_wide(&self) -> bool
        ensures { result ≡ nat_lt 32 self.now.width.bits }
    {
        self.width.bits() > 32
    }

    // The orders 4 and 5 are of 64 bits, the others of the width.
    fn size_of(&self, name: OrderName) -> Width
        ensures { result.bits ≡ order_size self.now.width.bits (index_of name) }
    {
        match name {
            OrderName::R4 | OrderName::R5 => Width::new(64).unwrap(),
            _ => self.width,
        }
    }

    // C0, if it fits into the width.
    fn read_c0(&self, cursor: Cursor<'_>) -> Result<u64, Fault>
        ensures { result ≡ as_number (right_operand cursor.entry self.now.width.bits PartC0) }
    {
        let c0 = cursor.number()?;
        cursor.asked(c0 <= self.width.mask(), Reason::TooLarge)?;
        Ok(c0)
    }

    // The list of an order, if it is one.
    fn read_order(&self, name: OrderName, cursor: Cursor<'_>) -> Result<[u8; 64], Fault>
        ensures { result ≡ right_operand cursor.entry self.now.width.bits (PartOrder name) }
    {
        let list = cursor.operand()?;
        // A match, since a closure under `map_err` would ask for its own clause on the fault.
        match Order::new(self.size_of(name), list) {
            Ok(_) => Ok(list),
            Err(fault) => Err(cursor.fault(fault.into())),
        }
    }

    // Puts a part that is new and of use, once its operand is there and right.
    #[tactic(auto, using(crate::proofs::Orders::put_steps))]
    pub(crate) fn put(&mut self, part: Part, cursor: Cursor<'_>) -> Result<(), Fault>
        requires there { cursor.at < length cursor.bytes.now }
        ensures parts { then_parts result (parts_of self.new) ≡ with_operand cursor.entry (part_operands part) (λ _. found cursor.entry.bytes.now (reading_at cursor.entry.at self.old) part) }
        ensures given { OnOk result (given_of self.new ≡ slice_set (given_of self.old) (place_of part) true) }
        ensures there { OnOk result (cursor.entry.at + part_operands part < length cursor.entry.bytes.now) }
        ensures kept { OnErr result (self.new ≡ self.old) }
    {
        match part {
            Part::Flow(flow) => self.flow = Some(flow),
            Part::C0 => self.c0 = Some(self.read_c0(cursor)?),
            Part::C1 => self.c1 = Some(cursor.number()?),
            Part::Order(name) => self.orders[name as usize] = Some(self.read_order(name, cursor)?),
        }
        Ok(())
    }

    // What was given of a part that widths above 32 need; up to 32 bits nothing is, and the part is zero.
    fn needed_if_wide<T: Drop>(&self, given: Option<T>, zero: T) -> Option<T>
        ensures { result ≡ if nat_lt 32 self.now.width.bits then given else Given (unwrap_or given zero) }
    {
        if self.is_wide() {
            given
        } else {
            Some(given.unwrap_or(zero))
        }
    }

    // The parts, where everything that the width needs was given.
    pub(crate) fn parts(&self) -> Option<Parts>
        ensures { result ≡ if complete self.now.width.bits (given_of self.now) then Given (parts_of self.now) else Missing }
    {
        let [r0, r1, r2, r3, r4, r5] = self.orders;
        Some(Parts {
            width: self.width.bits() as u8,
            flow: self.flow?,
            c0: self.c0?,
            c1: self.needed_if_wide(self.c1, 0)?,
            orders: [
                r0?,
                r1?,
                r2?,
                r3?,
                self.needed_if_wide(r4, [0; 64])?,
                self.needed_if_wide(r5, [0; 64])?,
            ],
        })
    }
}

// How many bytes the operand of a part has.
pub(crate) fn operand_length(part: Part) -> usize
    ensures { result ≡ part_operands part }
{
    match part {
        Part::Flow(_) => 0,
        Part::C0 | Part::C1 => 8,
        Part::Order(_) => 64,
    }
}
