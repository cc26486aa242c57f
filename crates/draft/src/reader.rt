// Reading command by command.
ghost use Rattle.std.specs.Prelude.{◌≡◌, ◌<◌, length, IfOk};
ghost use Rattle.spelling.specs.Turns.{start, turn, given_command};
ghost use Rattle.spelling.specs.declared.command.Command.TheVariants.{End as EndCommand};

use crate::cursor::Cursor;
use crate::found::{Found, operand_length};
use spelling::command::Command;
use spelling::fault::{Fault, Reason};
use spelling::parts::Parts;

// Where the next command starts, and what was found before it.
#[derive(Drop)]
pub(crate) struct Reader<'a> {
    cursor: Cursor<'a>,
    found: Found,
    ghost begun: { 0 < cursor.at },
}

impl<'a> Reader<'a> {
    ghost use Rattle.draft.specs.Readers.{reading_of, begun, led, ended};

    // Reads the first command, which is W.
    pub(crate) fn begin(bytes: &'a [u8]) -> Result<Reader<'a>, Fault>
        ensures leads { begun result ≡ turn bytes.now start }
        ensures of { IfOk result (λ r. r.cursor.bytes ≡ bytes.entry) }
    {
        let cursor = Cursor::new(bytes);
        let command = cursor.command()?;
        cursor.asked(matches!(command, Command::Width), Reason::OutOfSequence)?;
        let [bits] = cursor.operand::<1>()?;
        let found = Found::of_width(bits).ok_or(cursor.fault(Reason::BadWidth))?;
        Ok(Reader {
            cursor: cursor.after(1),
            found,
        })
    }

    // Reads one more command: None where it does not end the draft.
    pub(crate) fn turn(&mut self) -> Result<Option<Parts>, Fault>
        ensures leads { led result (reading_of self.new) ≡ turn self.old.cursor.bytes.now (reading_of self.old) }
        ensures of { self.new.cursor.bytes ≡ self.old.cursor.bytes }
    {
        let cursor = self.cursor;
        match cursor.command()? {
            Command::Width => Err(cursor.fault(Reason::OutOfSequence)),
            Command::Part(part) => {
                cursor.asked(!self.found.has(part), Reason::OutOfSequence)?;
                cursor.asked(self.found.has_use(part), Reason::NoUse)?;
                self.found.put(part, cursor)?;
                self.cursor = cursor.after(operand_length(part));
                Ok(None)
            }
            Command::End => Ok(Some(self.end()?)),
        }
    }

    // Reads Z.
    fn end(&self) -> Result<Parts, Fault>
        requires there { self.now.cursor.at < length self.now.cursor.bytes.now }
        ensures { ended result ≡ given_command self.now.cursor.bytes.now (reading_of self.now) EndCommand }
    {
        let parts = self
            .found
            .parts()
            .ok_or(self.cursor.fault(Reason::Missing))?;
        let after = self.cursor.after(0);
        after.asked(after.is_end(), Reason::GoesOn)?;
        Ok(parts)
    }
}
