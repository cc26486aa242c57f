// Why bytes are no draft.
ghost use Rattle.std.specs.Prelude.{◌≡◌, Some as Shown};
ghost use Rattle.std.specs.Fmt.{styled_text};
ghost use Rattle.spelling.specs.Faults.{number_of, layer_of, place_in, words_of, name_of, line_of};
ghost use Rattle.spelling.specs.declared.fault.Reason.TheVariants.{NoOrder as OrderFault};

use bits::order::NotAnOrder;
use std::fmt;

// Where a fault lies: in the bytes, in a command, or in the list of an order.
#[derive(Clone, Copy, PartialEq, Eq, Debug)]
pub enum Layer {
    Bytes,
    Commands,
    Orders,
}

#[derive(Clone, Copy, PartialEq, Eq, Debug)]
pub enum Reason {
    // 1: there is no byte to read, or not all bytes of an operand.
    NoByte,
    // 2: the byte is no command letter.
    NoCommand,
    // 3: W is not first, or comes later, or the command was given already.
    OutOfSequence,
    // 4: this width has no use for the command.
    NoUse,
    // 5: the width is not 24 to 64.
    BadWidth,
    // 6: C0 does not fit into the width.
    TooLarge,
    // 7: the list is no order; with its first place at fault, as `Order::new` finds it.
    NoOrder(usize),
    // 8: something needed has not been given.
    Missing,
    // 9: the draft goes on after Z.
    GoesOn,
}

// A fault at the offset of its command; for bytes after Z at that of the first.
#[derive(Clone, Copy, PartialEq, Eq, Debug)]
pub struct Fault {
    pub reason: Reason,
    pub offset: usize,
}

impl Reason {
    pub fn number(self) -> u8
        ensures { result ≡ number_of self }
    {
        match self {
            Reason::NoByte => 1,
            Reason::NoCommand => 2,
            Reason::OutOfSequence => 3,
            Reason::NoUse => 4,
            Reason::BadWidth => 5,
            Reason::TooLarge => 6,
            Reason::NoOrder(_) => 7,
            Reason::Missing => 8,
            Reason::GoesOn => 9,
        }
    }

    pub fn layer(self) -> Layer
        ensures { result ≡ layer_of self }
    {
        match self {
            Reason::NoByte | Reason::GoesOn => Layer::Bytes,
            Reason::NoOrder(_) => Layer::Orders,
            _ => Layer::Commands,
        }
    }

    // The list place of a list that is no order.
    pub fn place(self) -> Option<usize>
        ensures { result ≡ place_in self }
    {
        match self {
            Reason::NoOrder(place) => Some(place),
            _ => None,
        }
    }

    pub fn words(self) -> &'static str
        ensures { result.now ≡ words_of self }
    {
        match self {
            Reason::NoByte => "the draft ends too early",
            Reason::NoCommand => "this is no command letter",
            Reason::OutOfSequence => "W comes first, and each command once",
            Reason::NoUse => "this width has no use for the command",
            Reason::BadWidth => "the width is not 24 to 64",
            Reason::TooLarge => "C0 does not fit into the width",
            Reason::NoOrder(_) => "the list is no order",
            Reason::Missing => "something needed has not been given",
            Reason::GoesOn => "the draft goes on after Z",
        }
    }
}

impl From<NotAnOrder> for Reason {
    ghost from_gives = { λ fault reason. reason ≡ OrderFault fault.place };

    fn from(fault: NotAnOrder) -> Self {
        Self::NoOrder(fault.place)
    }
}

impl Layer {
    pub fn name(self) -> &'static str
        ensures { result.now ≡ name_of self }
    {
        match self {
            Layer::Bytes => "bytes",
            Layer::Commands => "commands",
            Layer::Orders => "orders",
        }
    }
}

impl fmt::Display for Layer {
    ghost output = { λ layer. Shown (name_of layer) };

    ghost styled_output = { λ layer style. Shown (styled_text style (name_of layer)) };

    fn fmt<W: fmt::Write>(&self, f: &mut fmt::Formatter<W>) -> fmt::Result {
        f.pad(self.name())
    }
}

// One line: its number, offset and layer, the place where there is one, and the words.
impl fmt::Display for Fault {
    ghost output = { λ fault. Shown (line_of fault) };

    fn fmt<W: fmt::Write>(&self, f: &mut fmt::Formatter<W>) -> fmt::Result {
        let number = self.reason.number();
        let layer = self.reason.layer();
        write!(f, "{number} offset {} layer {layer}", self.offset)?;
        if let Some(place) = self.reason.place() {
            write!(f, " place {place}")?;
        }
        write!(f, ": {}", self.reason.words())
    }
}
