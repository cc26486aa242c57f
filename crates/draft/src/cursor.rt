// Going over the bytes of a draft.
ghost use Rattle.std.specs.Prelude.{◌≡◌, ◌+◌, ◌==◌, ◌<◌, ◌≤◌, length, Ok as Yes};
ghost use Rattle.spelling.specs.Commands.{number};
ghost use Rattle.spelling.specs.Turns.{ask};

use spelling::command::Command;
use spelling::fault::{Fault, Reason};

// The bytes, and where in them a command starts, or they end.
#[derive(Clone, Copy)]
pub(crate) struct Cursor<'a> {
    bytes: &'a [u8],
    at: usize,
    ghost within: { at ≤ length bytes.now },
}

impl<'a> Cursor<'a> {
    ghost use Rattle.draft.specs.Cursors.{command_from, with_operand};

    pub(crate) fn new(bytes: &'a [u8]) -> Cursor<'a>
        ensures of { result.bytes ≡ bytes.entry }
        ensures at { result.at ≡ 0 }
    {
        Cursor { bytes, at: 0 }
    }

    // After a command whose operand has so many bytes.
    pub(crate) fn after(self, operand: usize) -> Cursor<'a>
        requires { self.at + operand < length self.bytes.now }
        ensures of { result.bytes ≡ self.entry.bytes }
        ensures at { result.at ≡ self.entry.at + 1 + operand }
    {
        Cursor {
            bytes: self.bytes,
            at: self.at + 1 + operand,
        }
    }

    pub(crate) fn is_end(self) -> bool
        ensures { result ≡ (self.entry.at == length self.entry.bytes.now) }
    {
        self.at == self.bytes.len()
    }

    pub(crate) fn fault(self, reason: Reason) -> Fault
        ensures reason { result.reason ≡ reason }
        ensures offset { result.offset ≡ self.entry.at }
    {
        Fault {
            reason,
            offset: self.at,
        }
    }

    // A question: a fault where the answer is no.
    pub(crate) fn asked(self, answer: bool, reason: Reason) -> Result<(), Fault>
        ensures { result ≡ ask answer reason self.entry.at (Yes tt) }
    {
        if answer {
            Ok(())
        } else {
            Err(self.fault(reason))
        }
    }

    // The command that starts here.
    pub(crate) fn command(self) -> Result<Command, Fault>
        ensures { result ≡ command_from self.entry }
    {
        self.asked(self.at < self.bytes.len(), Reason::NoByte)?;
        // Written out, since what `fault` ensures does not reach through the closure.
        Command::try_from(self.bytes[self.at] as char).map_err(|reason| Fault {
            reason,
            offset: self.at,
        })
    }

    // The bytes of its operand.
    pub(crate) fn operand<const N: usize>(self) -> Result<[u8; N], Fault>
        ensures { result ≡ with_operand self.entry N (λ os. Yes os) }
    {
        self.asked(N < self.bytes.len() - self.at, Reason::NoByte)?;
        let from = self.at + 1;
        Ok(<[u8; N]>::try_from(&self.bytes[from..from + N]).unwrap())
    }

    // The eight bytes of its operand as a number, the lowest first.
    pub(crate) fn number(self) -> Result<u64, Fault>
        ensures { result ≡ with_operand self.entry 8 (λ os. Yes (number os)) }
    {
        Ok(u64::from_le_bytes(self.operand()?))
    }
}
