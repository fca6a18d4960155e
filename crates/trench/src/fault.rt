// Why a command cannot be read.
ghost use Rattle.std.specs.Prelude.{◌≡◌};
ghost use Rattle.trench.specs.Words.{most_of};

use std::error::Error;
use std::fmt;

/// What a number in a command stands for.
// Fields, forms and faults of its own, beside those of the commands for cables: fields and forms have other cases, which one type
// for both would mix, and the faults that both have are over them.
#[derive(Clone, Copy, PartialEq, Eq, Debug)]
pub enum Field {
    Frame,
    C6,
    Data,
    C6Bits,
    Code,
    Value,
}

impl Field {
    /// The largest number that the field takes.
    pub fn most(self) -> u8
        ensures { result ≡ most_of self }
    {
        match self {
            Field::C6Bits => 63,
            _ => u8::MAX,
        }
    }
}

/// The commands that take a fixed number of words.
#[derive(Clone, Copy, PartialEq, Eq, Debug)]
pub enum Form {
    HeaderWrite,
    HeaderRead,
    Superframe,
}

/// What is wrong with a line.
#[derive(Clone, Copy, PartialEq, Eq, Debug)]
pub enum Fault {
    NotText,
    NoMemory,
    Unknown,
    Takes(Form),
    NotNumber(Field),
    NotByte,
}

impl fmt::Display for Form {
    fn fmt<W: fmt::Write>(&self, f: &mut fmt::Formatter<W>) -> fmt::Result {
        f.write_str(match self {
            Form::HeaderWrite => "header write FRAME C6 DATA",
            Form::HeaderRead => "header read FRAME BYTE BYTE",
            Form::Superframe => "superframe C6BITS CODE V0 V1 V2 V3 V4",
        })
    }
}

impl fmt::Display for Field {
    fn fmt<W: fmt::Write>(&self, f: &mut fmt::Formatter<W>) -> fmt::Result {
        f.write_str(match self {
            Field::Frame => "FRAME",
            Field::C6 => "C6",
            Field::Data => "DATA",
            Field::C6Bits => "C6BITS",
            Field::Code => "CODE",
            Field::Value => "each of V0 to V4",
        })
    }
}

impl fmt::Display for Fault {
    fn fmt<W: fmt::Write>(&self, f: &mut fmt::Formatter<W>) -> fmt::Result {
        match self {
            Fault::NotText => f.write_str("the line is not text"),
            Fault::NoMemory => f.write_str("no memory for the line"),
            Fault::Unknown => f.write_str("no such command"),
            Fault::Takes(form) => write!(f, "the command is {form}"),
            Fault::NotNumber(field) => {
                let most = field.most();
                write!(f, "{field} is a number from 0 to {most}")
            }
            Fault::NotByte => f.write_str("a byte is two hexadecimal digits"),
        }
    }
}

impl Error for Fault {}
