// The file, and the commands that make, change and read it.
use crate::script::{Failure, Fault, at_most, next_word, no_numbers, numbers, one_number};
use crate::{Player, calls, plan, state_words, states};
use block::build;
use filling::read_full;
use std::fs::File;
use std::io::{Error, ErrorKind, IsTerminal};
use std::rt::Files;
use std::time::Clock;
use std::{io, str};

pub(crate) enum Command {
    Load,
    Length,
    Byte,
    Word,
    Seal,
    Read,
    Open,
    Verdict,
    Solutions,
}

impl Command {
    pub(crate) fn named(word: &str) -> Option<Command> {
        match word {
            "load" => Some(Command::Load),
            "length" => Some(Command::Length),
            "byte" => Some(Command::Byte),
            "word" => Some(Command::Word),
            "seal" => Some(Command::Seal),
            "read" => Some(Command::Read),
            "open" => Some(Command::Open),
            "verdict" => Some(Command::Verdict),
            "solutions" => Some(Command::Solutions),
            _ => None,
        }
    }
}

// Opens a file to read it. std takes no name that is not UTF-8.
fn open_named<R: Files>(rt: &R, name: &[u8]) -> io::Result<R::File> {
    match str::from_utf8(name) {
        Ok(path) => File::open(rt, path),
        Err(_) => Err(Error::from(ErrorKind::InvalidFilename)),
    }
}

// The file: the bytes that there are, and how many of them it has.
#[derive(Clone, Copy)]
pub(crate) struct Loaded {
    bytes: [u8; 65537],
    length: usize,
}

impl Loaded {
    pub(crate) const EMPTY: Loaded = Loaded {
        bytes: [0; 65537],
        length: 0,
    };

    fn content(&self) -> &[u8] {
        &self.bytes[..self.length.min(65537)]
    }

    // load NAME
    // A frame of its own, here and where else inlining is forbidden: what all lines share would have it at every line.
    #[inline(never)]
    fn load(&mut self, rt: &impl Files, rest: &[u8]) -> Result<(), Failure> {
        let (name, rest) = next_word(rest).ok_or(Fault::NoFile)?;
        let Ok(mut opened) = open_named(rt, name) else {
            return Err(Failure::Fault(Fault::NoFile));
        };
        no_numbers(rest)?;
        self.bytes = [0; 65537];
        self.length = read_full(&mut opened, &mut self.bytes)?;
        Ok(())
    }

    // length L
    fn set_length(&mut self, rest: &[u8]) -> Result<(), Fault> {
        let length = one_number(rest)?;
        self.length = at_most(length, 65537)?;
        Ok(())
    }

    // byte AT Z
    fn put_byte(&mut self, rest: &[u8]) -> Result<(), Fault> {
        let [at, value] = numbers::<2>(rest)?;
        let byte = u8::try_from(value).or(Err(Fault::Range))?;
        *self.bytes.get_mut(at).ok_or(Fault::Range)? = byte;
        Ok(())
    }

    // word AT Z
    fn put_word(&mut self, rest: &[u8]) -> Result<(), Fault> {
        let [at, value] = numbers::<2>(rest)?;
        build::put_u32(&mut self.bytes, at_most(at, 65533)?, value);
        Ok(())
    }

    // seal K J
    fn seal(&mut self, rest: &[u8]) -> Result<(), Fault> {
        let [k, index] = numbers::<2>(rest)?;
        let (blocks, _) = self.bytes.as_chunks_mut::<512>();
        build::seal(blocks.get_mut(k).ok_or(Fault::Range)?, index);
        Ok(())
    }
}

// verdict
#[inline(never)]
fn verdict(rt: &(impl Clock + Print), stderr: &(impl IsTerminal + Print), file: &[u8]) {
    console::print_verdict(rt, stderr, file);
}

// solutions
#[inline(never)]
fn solutions(rt: &(impl Clock + Print), stderr: &(impl IsTerminal + Print), file: &[u8]) {
    console::print_solutions(rt, stderr, file);
}

impl Player {
    // read
    #[inline(never)]
    fn read(&mut self, rt: &impl Print) -> io::Result<()> {
        let read = reading::read(self.file.content());
        let error = calls::number(&read);
        self.problem = read.unwrap_or(plan::ZEROS);
        let digest = plan::digest(&self.problem);
        println!(rt; "read {error} digest {digest}")
    }

    // open
    #[inline(never)]
    fn open(&mut self, rt: &impl Print) -> io::Result<()> {
        let opened = search::open(self.file.content());
        let error = calls::number(&opened);
        self.state = opened.unwrap_or(states::ZEROS);
        let digest = state_words::digest(&self.state)?;
        println!(rt; "open {error} digest {digest}")
    }

    pub(crate) fn play_file(
        &mut self,
        rt: &(impl Clock + Files + Print),
        stderr: &(impl IsTerminal + Print),
        command: Command,
        rest: &[u8],
    ) -> Result<(), Failure> {
        match command {
            Command::Load => self.file.load(rt, rest)?,
            Command::Length => self.file.set_length(rest)?,
            Command::Byte => self.file.put_byte(rest)?,
            Command::Word => self.file.put_word(rest)?,
            Command::Seal => self.file.seal(rest)?,
            Command::Read => {
                no_numbers(rest)?;
                self.read(rt)?;
            }
            Command::Open => {
                no_numbers(rest)?;
                self.open(rt)?;
            }
            Command::Verdict => {
                no_numbers(rest)?;
                verdict(rt, stderr, self.file.content());
            }
            Command::Solutions => {
                no_numbers(rest)?;
                solutions(rt, stderr, self.file.content());
            }
        }
        Ok(())
    }
}
