// Reading a row of a table: numbers with commas between them.
ghost use Rattle.std.specs.Prelude.{◌≡◌, [], IfErr, MatchResult};
ghost use Rattle.jobs.specs.Rows.{RowRead, FieldRead, FieldWrong};

use crate::cursor::{Cursor, Source};
use crate::place::{BadText, Place, Sign, Wrong};

// The numbers of a line take the place of those that were there; where the line is refused, none are left. An empty field is a number
// that nobody knows, and is put as 0. The number of the line is for the place of a fault.
pub fn read_row(line: &str, number: usize, numbers: &mut Vec<u64>) -> Result<(), BadText>
    ensures read { RowRead line.now number numbers.new.items result }
    ensures emptied { IfErr result (λ _. numbers.new.items ≡ []) }
{
    match read_fields(line, number, numbers) {
        Ok(()) => Ok(()),
        Err(bad) => {
            numbers.clear();
            Err(bad)
        }
    }
}

// The same, but of a line that is refused the numbers before the fault are left.
fn read_fields(line: &str, number: usize, numbers: &mut Vec<u64>) -> Result<(), BadText>
    ensures { RowRead line.now number numbers.new.items result }
{
    let start = Place {
        line: number,
        column: 1,
    };
    let mut cursor = Cursor::new(Source::new(line, start));
    numbers.clear();
    loop {
        let (next, after) = field(cursor)?;
        if numbers.push(next).is_err() {
            return Err(cursor.bad(Wrong::NoMemory));
        }
        if after.past_spaces().is_end() {
            return Ok(());
        }
        cursor = after.past_sign(Sign::Comma)?;
    }
}

// A number, or nothing but spaces.
fn field(cursor: Cursor<'_>) -> Result<(u64, Cursor<'_>), BadText>
    ensures { MatchResult result (λ r. FieldRead cursor.entry r.1 r.0) (FieldWrong cursor.entry) }
{
    let here = cursor.past_spaces();
    let (word, after) = here.word();
    if word.is_empty() {
        Ok((0, after))
    } else {
        cursor.number()
    }
}
