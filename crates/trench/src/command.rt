// Commands: from the words of a line to what is answered.
ghost use Rattle.std.specs.Prelude.{◌≡◌};
ghost use Rattle.words.specs.Words.{texts};
ghost use Rattle.trench.specs.Commands.{outcome, crc6_checked, header_write_command, header_read_command, superframe_command, answer_to};

use crate::answer::Answer;
use crate::fault::{Fault, Field, Form};
use crate::word::{byte, number};
use frame::crc6;
use frame::event::{Event, headers};
use frame::header::{read, write};

// header write FRAME C6 DATA, from what stands after `header write`.
fn header_write(words: &[&str]) -> Result<Answer, Fault>
    ensures { outcome result ≡ header_write_command words.now }
{
    let [frame, c6, data] = words else {
        return Err(Fault::Takes(Form::HeaderWrite));
    };
    let frame = number(Field::Frame, frame)?;
    let c6 = number(Field::C6, c6)?;
    let data = number(Field::Data, data)?;
    Ok(Answer::Header(write(frame, c6, data)))
}

// header read FRAME BYTE BYTE, from what stands after `header read`.
fn header_read(words: &[&str]) -> Result<Answer, Fault>
    ensures { outcome result ≡ header_read_command words.now }
{
    let [frame, first, second] = words else {
        return Err(Fault::Takes(Form::HeaderRead));
    };
    let frame = number(Field::Frame, frame)?;
    let first = byte(first)?;
    let second = byte(second)?;
    Ok(Answer::Carried(read(frame, u16::from_be_bytes([first, second]))))
}

// crc6 BYTE BYTE ...
#[tactic(auto, using(crate::proofs::Checking::word_next, crate::proofs::Checking::word_fault, crate::proofs::Checking::words_all))]
fn crc6_over(words: &[&str]) -> Result<Answer, Fault>
    ensures { outcome result ≡ crc6_checked (texts words.now) }
{
    let mut register = crc6::start();
    for word in words {
        register = crc6::feed_byte(register, byte(word)?);
    }
    Ok(Answer::Crc6(crc6::finish(register)))
}

// superframe C6BITS CODE V0 V1 V2 V3 V4, from what stands after `superframe`.
fn superframe(words: &[&str]) -> Result<Answer, Fault>
    ensures { outcome result ≡ superframe_command words.now }
{
    let [bits, code, v0, v1, v2, v3, v4] = words else {
        return Err(Fault::Takes(Form::Superframe));
    };
    let crc = number(Field::C6Bits, bits)?;
    let code = number(Field::Code, code)?;
    let values = [*v0, *v1, *v2, *v3, *v4].try_map(|word| number(Field::Value, word))?;
    Ok(Answer::Headers(headers(crc, Event { code, values })))
}

/// What a command answers, from the words of its line.
#[tactic(auto, using(crate::proofs::Lone::lone))]
pub fn answer_to(words: &[&str]) -> Result<Answer, Fault>
    ensures { outcome result ≡ answer_to words.now }
{
    match words {
        ["header", "write", rest @ ..] => header_write(rest),
        ["header", "read", rest @ ..] => header_read(rest),
        ["superframe", rest @ ..] => superframe(rest),
        ["crc6", rest @ ..] => crc6_over(rest),
        _ => Err(Fault::Unknown),
    }
}
