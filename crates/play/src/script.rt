// The lines of a script: a word, and more words after it. What follows a word starts with the space after it, or is empty.
ghost use Rattle.std.specs.Prelude.{◌≤◌, IfOk};

use std::{fmt, io, str};

// The size of the least number.
const LEAST: usize = 9_223_372_036_854_775_808;

// Why a line is not played.
#[derive(Clone, Copy, Debug, PartialEq, Eq)]
pub(crate) enum Fault {
    NoCommand,
    NoField,
    NoFile,
    Number,
    Range,
}

impl fmt::Display for Fault {
    fn fmt<W: fmt::Write>(&self, f: &mut fmt::Formatter<W>) -> fmt::Result {
        match self {
            Fault::NoCommand => write!(f, "no such command"),
            Fault::NoField => write!(f, "no such field"),
            Fault::NoFile => write!(f, "no such file"),
            Fault::Number => write!(f, "number"),
            Fault::Range => write!(f, "out of range"),
        }
    }
}

// What ends a line early: a fault, which is told, or a read or a write that fails, which ends the script.
#[derive(Debug, Drop)]
pub(crate) enum Failure {
    Fault(Fault),
    Io(io::Error),
}

impl From<Fault> for Failure {
    fn from(fault: Fault) -> Failure {
        Failure::Fault(fault)
    }
}

impl From<io::Error> for Failure {
    fn from(error: io::Error) -> Failure {
        Failure::Io(error)
    }
}

// A text's first word, and what follows it.
pub(crate) fn split_word(text: &[u8]) -> (&[u8], &[u8]) {
    match text.iter().position(|byte| *byte == b' ') {
        Some(end) => text.split_at(end),
        None => (text, &[]),
    }
}

// The next word, and what follows it.
pub(crate) fn next_word(rest: &[u8]) -> Option<(&[u8], &[u8])> {
    let (_, text) = rest.split_first()?;
    Some(split_word(text))
}

// The same of a field's name. None is other than text.
pub(crate) fn next_name(rest: &[u8]) -> Option<(&str, &[u8])> {
    let (word, rest) = next_word(rest)?;
    Some((str::from_utf8(word).ok()?, rest))
}

// The number that digits are.
fn size(digits: &[u8]) -> Option<usize> {
    if !digits.iter().all(|byte| byte.is_ascii_digit()) {
        return None;
    }
    str::from_utf8(digits).ok()?.parse().ok()
}

// A number's 64 bits, in two's complement where it is negative.
fn number(word: &[u8]) -> Option<usize> {
    let Some(digits) = word.strip_prefix(b"-") else {
        return size(word);
    };
    let size = size(digits)?;
    if LEAST < size {
        return None;
    }
    Some(size.wrapping_neg())
}

// The numbers of a line that has N of them.
pub(crate) fn numbers<const N: usize>(rest: &[u8]) -> Result<[usize; N], Fault> {
    let mut numbers = [0usize; N];
    let mut left = rest;
    for place in &mut numbers {
        let (word, after) = next_word(left).ok_or(Fault::Number)?;
        *place = number(word).ok_or(Fault::Number)?;
        left = after;
    }
    if left.is_empty() {
        Ok(numbers)
    } else {
        Err(Fault::Number)
    }
}

// Where a line has no numbers.
pub(crate) fn no_numbers(rest: &[u8]) -> Result<(), Fault> {
    let [] = numbers::<0>(rest)?;
    Ok(())
}

// The number of a line that has one.
pub(crate) fn one_number(rest: &[u8]) -> Result<usize, Fault> {
    let [number] = numbers::<1>(rest)?;
    Ok(number)
}

// A number, if it is not past a limit.
pub(crate) fn at_most(number: usize, most: usize) -> Result<usize, Fault>
    ensures { IfOk result (λ n. n ≤ most) }
{
    if most < number {
        return Err(Fault::Range);
    }
    Ok(number)
}
