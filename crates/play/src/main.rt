// Plays a script from standard input: lines that make files, problems and search states, call the product on them and print what it answers. A command is
// a function; each module plays those of its subject.
#![tactic(auto)]

use file::Loaded;
use filling::read_full;
use problem::Problem;
use script::{Failure, Fault};
use state::Search;
use std::io::{Input, IsTerminal};
use std::rt::Files;
use std::time::Clock;
use std::{io, str};

mod calls;
mod changes;
mod digest;
mod file;
mod one_call;
mod plan;
mod script;
mod searches;
mod state_words;
mod states;
mod words;

// The longest script.
const LONGEST: usize = 1_048_576;

// say TEXT
fn say(rt: &impl Print, rest: &[u8]) -> Result<(), Failure> {
    if let Some((_, text)) = rest.split_first() {
        rt.write_all(text)?;
    }
    println!(rt)?;
    Ok(())
}

// What play holds.
#[derive(Clone, Copy)]
struct Player {
    file: Loaded,
    problem: Problem,
    state: Search,
    kept: Search,
}

impl Player {
    const NEW: Player = Player {
        file: Loaded::EMPTY,
        problem: plan::ZEROS,
        state: states::ZEROS,
        kept: states::ZEROS,
    };

    // Plays a command by the module that knows it.
    fn play_command(
        &mut self,
        rt: &(impl Clock + Files + Print),
        stderr: &(impl IsTerminal + Print),
        word: &[u8],
        rest: &[u8],
    ) -> Result<(), Failure> {
        let word = str::from_utf8(word).or(Err(Fault::NoCommand))?;
        if let Some(command) = file::Command::named(word) {
            return self.play_file(rt, stderr, command, rest);
        }
        if let Some(command) = plan::Command::named(word) {
            return plan::play(rt, command, rest, &mut self.problem);
        }
        if let Some(command) = changes::Command::named(word) {
            return changes::play(rt, command, rest, &mut self.problem, &mut self.state);
        }
        if let Some(command) = states::Command::named(word) {
            return states::play(rt, command, rest, &mut self.state, &mut self.kept);
        }
        if let Some(command) = one_call::Command::named(word) {
            return one_call::play(rt, command, rest, &mut self.state);
        }
        if let Some(command) = searches::Command::named(word) {
            return searches::play(rt, command, rest, &mut self.state);
        }
        match word {
            "say" => say(rt, rest),
            _ => Err(Failure::Fault(Fault::NoCommand)),
        }
    }

    // Plays a line, and prints why if it cannot be played.
    fn play_line(
        &mut self,
        rt: &(impl Clock + Files + Print),
        stderr: &(impl IsTerminal + Print),
        number: usize,
        line: &[u8],
    ) -> io::Result<()> {
        let (word, rest) = script::split_word(line);
        match self.play_command(rt, stderr, word, rest) {
            Ok(()) => Ok(()),
            Err(Failure::Fault(fault)) => println!(rt; "line {number}: {fault}"),
            Err(Failure::Io(error)) => Err(error),
        }
    }
}

// Whether a line is empty or a comment.
fn is_passed_over(line: &[u8]) -> bool {
    matches!(line, [] | [b'#', ..])
}

// Plays the lines in turn, but for those that are passed over. A last one needs no newline.
fn play(
    rt: &(impl Clock + Files + Print),
    stderr: &(impl IsTerminal + Print),
    text: &[u8],
) -> io::Result<()> {
    let mut player = Player::NEW;
    let mut number: usize = 1;
    let mut rest = text;
    while let Some(end) = rest.iter().position(|byte| *byte == b'\n') {
        let line = &rest[..end];
        if !is_passed_over(line) {
            player.play_line(rt, stderr, number, line)?;
        }
        rest = &rest[end + 1..];
        number = number.saturating_add(1);
    }
    if is_passed_over(rest) {
        return Ok(());
    }
    player.play_line(rt, stderr, number, rest)
}

// Plays standard input, if the buffer has more room than it needs.
fn play_input(
    rt: &(impl Clock + Files + Input + Print),
    stderr: &(impl IsTerminal + Print),
    text: &mut [u8],
) -> io::Result<()> {
    let read = read_full(&mut rt.reader(), text)?;
    if LONGEST < read {
        return println!(rt; "script too long");
    }
    play(rt, stderr, &text[..read])
}

// The same for a buffer whose length is known by its type. (A proof that lends a million numbers as a slice counts them.)
fn play_into(
    rt: &(impl Clock + Files + Input + Print),
    stderr: &(impl IsTerminal + Print),
    text: &mut [u8; LONGEST + 1],
) -> io::Result<()> {
    play_input(rt, stderr, text)
}

fn main(rt: HostRuntime) -> io::Result<()> {
    let mut text = [0u8; LONGEST + 1];
    play_into(&rt, &rt.stderr(), &mut text)
}
