// Why a command for a cable cannot be done.
ghost use Rattle.std.specs.Prelude.{◌≡◌};
ghost use Rattle.cable_commands.specs.Reading.{most_of};
ghost use Rattle.cable_commands.specs.declared.fault.CableFault.TheVariants.{NoMemory};

use cable::MOST_PAIRS;
use std::alloc::AllocError;
use std::error::Error;
use std::fmt;

/// What a number in a command stands for.
#[derive(Clone, Copy, PartialEq, Eq, Debug)]
pub enum Field {
    Pairs,
    Ticks,
    Row,
    Delay,
    Extra,
    Pair,
    Count,
    Index,
}

impl Field {
    /// The largest number that the field takes.
    pub fn most(self) -> u64
        ensures { result ≡ most_of self }
    {
        match self {
            Field::Delay | Field::Extra => u64::from(u16::MAX),
            _ => u64::MAX,
        }
    }
}

/// The commands, by what they take.
// Not matched at once as the commands of `trench` are: a fault names the command, whatever is wrong behind its name.
#[derive(Clone, Copy, PartialEq, Eq, Debug)]
pub enum Form {
    Lay,
    Put,
    Tick,
    Take,
    Peek,
    Since,
    Pairs,
    Left,
    Free,
    Delay,
}

/// What is wrong with a command for a cable.
#[derive(Clone, Copy, PartialEq, Eq, Debug)]
pub enum CableFault {
    NotWay,
    NotKind,
    Takes(Form),
    NotNumber(Field),
    NotByte,
    TooMany(Field),
    NoCable,
    NoMemory,
}

impl fmt::Display for Field {
    fn fmt<W: fmt::Write>(&self, f: &mut fmt::Formatter<W>) -> fmt::Result {
        f.write_str(match self {
            Field::Pairs => "PAIRS",
            Field::Ticks => "TICKS",
            Field::Row => "ROW",
            Field::Delay => "DELAY",
            Field::Extra => "EXTRA",
            Field::Pair => "PAIR",
            Field::Count => "COUNT",
            Field::Index => "K",
        })
    }
}

impl fmt::Display for Form {
    fn fmt<W: fmt::Write>(&self, f: &mut fmt::Formatter<W>) -> fmt::Result {
        f.write_str(match self {
            Form::Lay =>
                "lay WAY KIND PAIRS TICKS ROW DELAY... [/ PAIRS TICKS ROW DELAY...] [stretch EXTRA...]",
            Form::Put => "put WAY PAIR BYTE",
            Form::Tick => "tick WAY [COUNT]",
            Form::Take => "take WAY PAIR",
            Form::Peek => "peek WAY PAIR",
            Form::Since => "since WAY PAIR K",
            Form::Pairs => "pairs WAY",
            Form::Left => "left WAY",
            Form::Free => "free WAY PAIR",
            Form::Delay => "delay WAY PAIR",
        })
    }
}

impl fmt::Display for CableFault {
    fn fmt<W: fmt::Write>(&self, f: &mut fmt::Formatter<W>) -> fmt::Result {
        match self {
            CableFault::NotWay => f.write_str("WAY is down or up"),
            CableFault::NotKind => f.write_str("KIND is reel, tape or joint"),
            CableFault::Takes(form) => write!(f, "the command is {form}"),
            CableFault::NotNumber(field) => {
                let most = field.most();
                write!(f, "{field} is a number from 0 to {most}")
            }
            CableFault::NotByte => f.write_str("a byte is two hexadecimal digits"),
            CableFault::TooMany(field) => write!(f, "{field} is given at most {MOST_PAIRS} times"),
            CableFault::NoCable => f.write_str("no cable"),
            CableFault::NoMemory => f.write_str("no memory for the row"),
        }
    }
}

impl Error for CableFault {}

impl From<AllocError> for CableFault {
    ghost from_gives = { λ _ fault. fault ≡ NoMemory };

    fn from(_error: AllocError) -> Self {
        Self::NoMemory
    }
}
