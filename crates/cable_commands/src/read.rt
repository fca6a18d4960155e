// Commands: from the words of a line to what is wanted of a cable.
ghost use Rattle.std.specs.Prelude.{◌≡◌, ◌+◌, take, drop};
ghost use Rattle.std.specs.Result.{result_ok};
ghost use Rattle.cable_commands.specs.Reading.{form_of, way_of, field_of, ticks_of, place_of, place_in, row_of, length_of, joint_of, kind_of, lay_of, call_of, request_of, command_of, command_in};
ghost use Rattle.cable_commands.specs.declared.fault.Field.TheVariants.{Pair};

use crate::cables::{Command, Request, Way};
use crate::call::Call;
use crate::fault::{CableFault, Field, Form};
use crate::kind::{Kind, Length};
use cable::MOST_PAIRS;
use std::str::FromStr;

/// The word names no command for a cable.
#[derive(Clone, Copy, PartialEq, Eq, Debug)]
pub struct NotForm;

// The command that a word names.
impl FromStr for Form {
    type Err = NotForm;

    ghost from_str_gives = { λ text form. result_ok form ≡ form_of text };

    fn from_str(word: &str) -> Result<Form, NotForm> {
        match word {
            "lay" => Ok(Form::Lay),
            "put" => Ok(Form::Put),
            "tick" => Ok(Form::Tick),
            "take" => Ok(Form::Take),
            "peek" => Ok(Form::Peek),
            "since" => Ok(Form::Since),
            "pairs" => Ok(Form::Pairs),
            "left" => Ok(Form::Left),
            "free" => Ok(Form::Free),
            "delay" => Ok(Form::Delay),
            _ => Err(NotForm),
        }
    }
}

// The way that a word names.
impl FromStr for Way {
    type Err = CableFault;

    ghost from_str_gives = { λ text way. way ≡ way_of text };

    fn from_str(word: &str) -> Result<Way, CableFault> {
        match word {
            "down" => Ok(Way::Down),
            "up" => Ok(Way::Up),
            _ => Err(CableFault::NotWay),
        }
    }
}

// A number that a field takes.
// A line of the same form stands in `trench`, over its fields and faults: a trait over both would be longer than the line.
fn number(field: Field, word: &str) -> Result<u64, CableFault>
    ensures { result ≡ field_of field word.now }
{
    words::number(word, field.most()).ok_or(CableFault::NotNumber(field))
}

// A number of ticks: a delay or an extra.
fn ticks(field: Field, word: &str) -> Result<u16, CableFault>
    ensures { result ≡ ticks_of field word.now }
{
    u16::try_from(number(field, word)?).map_err(|_| CableFault::NotNumber(field))
}

// The place of the first word that is `wanted`.
fn place_of(words: &[&str], wanted: &str) -> Option<usize>
    ensures { result ≡ place_in wanted.now words.now }
{
    words.iter().position(|word| *word == wanted)
}

// The words before the first that is `wanted`, and those after it; all the words and none where there is none.
fn parted<'a, 'b>(words: &'a [&'b str], wanted: &str) -> (&'a [&'b str], &'a [&'b str])
    ensures before { result.0.now ≡ take (place_of wanted.now words.now) words.now }
    ensures after { result.1.now ≡ drop (place_of wanted.now words.now + 1) words.now }
{
    match place_of(words, wanted) {
        Some(place) => (&words[..place], &words[place + 1..]),
        None => words.split_at(words.len()),
    }
}

// At most as many numbers as a cable may have pairs; those that are not given are 0.
#[tactic(auto, using(crate::proofs::Filling::filled_more, crate::proofs::Filling::filled_fault, crate::proofs::Filling::filled_all))]
fn row_of(field: Field, words: &[&str]) -> Result<[u16; MOST_PAIRS], CableFault>
    ensures { result ≡ row_of field words.now }
{
    if words.len() > MOST_PAIRS {
        return Err(CableFault::TooMany(field));
    }
    let mut row = [0; MOST_PAIRS];
    // Tried: `row.iter_mut().zip(words)`, after which nothing is known of the row, and `array::try_from_fn`, which says of each
    // element that some state of the closure gave it, and so nothing of the words that the closure holds.
    for (pair, word) in words.iter().enumerate() {
        row[pair] = ticks(field, word)?;
    }
    Ok(row)
}

// A length of cable: PAIRS TICKS ROW DELAY...
fn length_of(words: &[&str]) -> Result<Length, CableFault>
    ensures { result ≡ length_of words.now }
{
    let [pairs, ticks, row, delays @ ..] = words else {
        return Err(CableFault::Takes(Form::Lay));
    };
    Ok(Length {
        pairs: number(Field::Pairs, pairs)? as usize,
        ticks: number(Field::Ticks, ticks)?,
        row: number(Field::Row, row)? as usize,
        delays: row_of(Field::Delay, delays)?,
    })
}

// Two lengths with a stroke between them.
fn joint_of(words: &[&str]) -> Result<Kind, CableFault>
    ensures { result ≡ joint_of words.now }
{
    let (first, second) = parted(words, "/");
    Ok(Kind::Joint(length_of(first)?, length_of(second)?))
}

// A kind of cable, with its lengths.
fn kind_of(kind: &str, words: &[&str]) -> Result<Kind, CableFault>
    ensures { result ≡ kind_of kind.now words.now }
{
    match kind {
        "reel" => Ok(Kind::Reel(length_of(words)?)),
        "tape" => Ok(Kind::Tape(length_of(words)?)),
        "joint" => joint_of(words),
        _ => Err(CableFault::NotKind),
    }
}

// What stands after `lay WAY`: a kind of cable, and the extras of a stretch.
fn lay_of(words: &[&str]) -> Result<Request, CableFault>
    ensures { result ≡ lay_of words.now }
{
    let (cable, extras) = parted(words, "stretch");
    let [kind, lengths @ ..] = cable else {
        return Err(CableFault::NotKind);
    };
    let kind = kind_of(kind, lengths)?;
    Ok(Request::Lay(kind, row_of(Field::Extra, extras)?))
}

// The pair that a call names.
fn pair_of(word: &str) -> Result<usize, CableFault>
    ensures { result ≡ field_of Pair word.now }
{
    Ok(number(Field::Pair, word)? as usize)
}

// What stands after the way of a call.
fn call_of(form: Form, words: &[&str]) -> Result<Call, CableFault>
    ensures { result ≡ call_of form words.now }
{
    match (form, words) {
        (Form::Put, [pair, value]) => {
            let pair = pair_of(pair)?;
            let value = words::byte(value).ok_or(CableFault::NotByte)?;
            Ok(Call::Put(pair, value))
        }
        (Form::Tick, []) => Ok(Call::Tick(1)),
        (Form::Tick, [count]) => Ok(Call::Tick(number(Field::Count, count)?)),
        (Form::Since, [pair, k]) => Ok(Call::Since(
            pair_of(pair)?,
            number(Field::Index, k)? as usize,
        )),
        (Form::Pairs, []) => Ok(Call::Pairs),
        (Form::Left, []) => Ok(Call::Left),
        (Form::Take, [pair]) => Ok(Call::Take(pair_of(pair)?)),
        (Form::Peek, [pair]) => Ok(Call::Peek(pair_of(pair)?)),
        (Form::Free, [pair]) => Ok(Call::Free(pair_of(pair)?)),
        (Form::Delay, [pair]) => Ok(Call::Delay(pair_of(pair)?)),
        _ => Err(CableFault::Takes(form)),
    }
}

// What stands after the way.
fn request_of(form: Form, words: &[&str]) -> Result<Request, CableFault>
    ensures { result ≡ request_of form words.now }
{
    match form {
        Form::Lay => lay_of(words),
        _ => call_of(form, words).map(Request::Ask),
    }
}

// What stands after the word that names a command.
fn command_of(form: Form, words: &[&str]) -> Result<Command, CableFault>
    ensures { result ≡ command_of form words.now }
{
    let [way, words @ ..] = words else {
        return Err(CableFault::Takes(form));
    };
    let way = way.parse()?;
    let request = request_of(form, words)?;
    Ok(Command { way, request })
}

/// The command that the words of a line are, or none where the first names no command for a cable.
pub fn command(words: &[&str]) -> Option<Result<Command, CableFault>>
    ensures { result ≡ command_in words.now }
{
    let (name, words) = words.split_first()?;
    let form = name.parse().ok()?;
    Some(command_of(form, words))
}
