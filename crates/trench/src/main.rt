// Reads commands from standard input, one a line, and prints what each answers.
#![tactic(auto)]

mod answer;
mod command;
mod fault;
mod word;

use cable_commands::cables::Cables;
use cable_commands::read::command;
use command::answer_to;
use fault::Fault;
use std::fmt::Display;
use std::io;
use std::io::{BufRead, BufReader, ErrorKind};

// Prints what is wrong with a line.
fn complain<F: Display + Drop>(rt: &HostRuntime, fault: F) -> io::Result<()> {
    println!(rt; "error: {fault}")
}

// Prints what a command answers, or what is wrong with it.
fn tell<T: Display + Drop, F: Display + Drop>(
    rt: &HostRuntime,
    answered: Result<T, F>,
) -> io::Result<()> {
    match answered {
        Ok(answer) => println!(rt; "{answer}"),
        Err(fault) => complain(rt, fault),
    }
}

// Answers the words of one line.
fn answer_words(rt: &HostRuntime, cables: &mut Cables, words: &[&str]) -> io::Result<()> {
    match command(words) {
        Some(command) => tell(
            rt,
            command.and_then(|command| cables.perform(rt.alloc(), command)),
        ),
        None => tell(rt, answer_to(words)),
    }
}

// The words of one line.
fn words_of<'a>(rt: &HostRuntime, line: &'a [u8]) -> Result<Vec<&'a str>, Fault> {
    let text = std::str::from_utf8(line).map_err(|_| Fault::NotText)?;
    text.split_whitespace()
        .collect(rt.alloc())
        .map_err(|_| Fault::NoMemory)
}

// Answers one line. An empty line, and one that begins with `#`, is passed over.
fn respond(rt: &HostRuntime, cables: &mut Cables, line: &[u8]) -> io::Result<()> {
    let words = match words_of(rt, line) {
        Ok(words) => words,
        Err(fault) => return complain(rt, fault),
    };
    match words.as_slice() {
        [] => Ok(()),
        [first, ..] if first.starts_with('#') => Ok(()),
        words => answer_words(rt, cables, words),
    }
}

// Reads lines to the end of the input and answers each. What is left of a line that finds no memory is passed over, and
// the line answered by that.
fn main(rt: HostRuntime) -> io::Result<()> {
    let mut input = BufReader::new(rt.alloc(), rt.stdin())?;
    let mut line = Vec::new(rt.alloc());
    let mut cables = Cables::new();
    // `split` and `lines` end at a line that finds no memory, where this goes on; a `loop` would need the handle `Wait`.
    for _ in 0..u64::MAX {
        match input.read_until(b'\n', &mut line) {
            Ok(0) => break,
            Ok(_) => respond(&rt, &mut cables, line.as_slice())?,
            Err(e) if e.kind() == ErrorKind::OutOfMemory && !line.is_empty() => {
                input.skip_until(b'\n')?;
                complain(&rt, Fault::NoMemory)?;
            }
            Err(e) => return Err(e),
        }
        line.clear();
    }
    Ok(())
}
