// The commands of a draft.
ghost use Rattle.spelling.specs.Commands.{ReadAs};

use crate::fault::Reason;
use crate::parts::Flow;

// The orders 0 to 5.
#[derive(Clone, Copy)]
pub enum OrderName {
    R0,
    R1,
    R2,
    R3,
    R4,
    R5,
}

// What a draft gives between its width and its end, each once and in any order.
#[derive(Clone, Copy)]
pub enum Part {
    // F for Flex, P for CPA.
    Flow(Flow),
    // A and eight bytes, the lowest first.
    C0,
    // B and eight bytes, the lowest first.
    C1,
    // A digit from 0 to 5 and the 64 bytes of that order's list.
    Order(OrderName),
}

// A command, each a letter of one byte in the draft.
#[derive(Clone, Copy)]
pub enum Command {
    // W and one byte: the width.
    Width,
    Part(Part),
    // Z: the draft ends.
    End,
}

// The command of a letter.
impl TryFrom<char> for Command {
    type Error = Reason;

    ghost try_from_gives = { ReadAs };

    fn try_from(letter: char) -> Result<Command, Reason> {
        match letter {
            'W' => Ok(Command::Width),
            'F' => Ok(Command::Part(Part::Flow(Flow::Flex))),
            'P' => Ok(Command::Part(Part::Flow(Flow::Cpa))),
            'A' => Ok(Command::Part(Part::C0)),
            'B' => Ok(Command::Part(Part::C1)),
            '0' => Ok(Command::Part(Part::Order(OrderName::R0))),
            '1' => Ok(Command::Part(Part::Order(OrderName::R1))),
            '2' => Ok(Command::Part(Part::Order(OrderName::R2))),
            '3' => Ok(Command::Part(Part::Order(OrderName::R3))),
            '4' => Ok(Command::Part(Part::Order(OrderName::R4))),
            '5' => Ok(Command::Part(Part::Order(OrderName::R5))),
            'Z' => Ok(Command::End),
            _ => Err(Reason::NoCommand),
        }
    }
}
