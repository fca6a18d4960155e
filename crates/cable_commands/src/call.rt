// What can be asked of any cable, and what it answers.
ghost use Rattle.std.specs.Prelude.{◌≡◌};
ghost use Rattle.cable_commands.specs.Calls.{reply_to, after_call, told_by, case_of, case_for};

use cable::Cable;
use cable::refusal::CableRefusal;
use cable::run::pass;
use std::fmt;

/// What is asked of a cable.
// No closure: a call is read before there is a cable to make it on, and a closure that is made and handed out is refused.
#[derive(Clone, Copy, PartialEq, Eq, Debug)]
pub enum Call {
    Put(usize, u8),
    Tick(u64),
    Take(usize),
    Peek(usize),
    Since(usize, usize),
    Pairs,
    Left,
    Free(usize),
    Delay(usize),
}

/// What a cable answers: to a put or to ticks, to a take or a peek, to a since, and to the rest.
#[derive(Clone, Copy, PartialEq, Eq, Debug)]
pub enum Reply {
    Done(Result<(), CableRefusal>),
    Byte(Option<u8>),
    Since(Option<i64>),
    Number(u64),
}

/// Asks something of a cable.
pub fn ask<K: Cable>(cable: &mut K, call: Call) -> Reply
    ensures said { told_by result ≡ reply_to call (K.Cable.model cable.old) }
    ensures after { K.Cable.model cable.new ≡ after_call call (K.Cable.model cable.old) }
    ensures case { case_of result ≡ case_for call }
{
    match call {
        Call::Put(pair, value) => Reply::Done(cable.put(pair, value)),
        Call::Tick(ticks) => Reply::Done(pass(cable, ticks)),
        Call::Take(pair) => Reply::Byte(cable.take(pair)),
        Call::Peek(pair) => Reply::Byte(cable.peek(pair)),
        Call::Since(pair, k) => Reply::Since(cable.since(pair, k)),
        Call::Pairs => Reply::Number(cable.pairs() as u64),
        Call::Left => Reply::Number(cable.left()),
        Call::Free(pair) => Reply::Number(cable.free(pair) as u64),
        Call::Delay(pair) => Reply::Number(u64::from(cable.delay(pair))),
    }
}

impl fmt::Display for Reply {
    fn fmt<W: fmt::Write>(&self, f: &mut fmt::Formatter<W>) -> fmt::Result {
        match self {
            Reply::Done(Ok(())) => f.write_str("ok"),
            // As `trench` prints the refusals of headers: a type for what the two print alike would be longer than they are.
            Reply::Done(Err(refusal)) => {
                let number = refusal.number();
                match refusal {
                    CableRefusal::NoPlace(pair) => write!(f, "refused {number} {pair} ({refusal})"),
                    _ => write!(f, "refused {number} ({refusal})"),
                }
            }
            Reply::Byte(Some(byte)) => write!(f, "{byte:02X}"),
            Reply::Since(Some(since)) => write!(f, "{since}"),
            Reply::Byte(None) | Reply::Since(None) => f.write_str("none"),
            Reply::Number(number) => write!(f, "{number}"),
        }
    }
}
