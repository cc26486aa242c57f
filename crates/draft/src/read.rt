// Reading a draft.
ghost use Rattle.std.specs.Prelude.{MatchResult};
ghost use Rattle.spelling.specs.Told.{TheDraft, TheFault, Told};

use crate::draft::Draft;
use crate::reader::Reader;
use spelling::fault::Fault;
use spelling::parts::Parts;

// The draft that the bytes spell, or the first fault. Nothing is changed and nothing allocated.
pub fn read(bytes: &[u8]) -> Result<Draft, Fault>
    ensures { MatchResult result (λ d. TheDraft bytes.now d.parts) (TheFault bytes.now) }
{
    Ok(Draft::sound(parts_of(bytes)?))
}

// Command by command, until one ends the draft or is at fault.
fn parts_of(bytes: &[u8]) -> Result<Parts, Fault>
    ensures { Told bytes.now result }
{
    let mut reader = Reader::begin(bytes)?;
    loop {
        if let Some(parts) = reader.turn()? {
            return Ok(parts);
        }
    }
}
