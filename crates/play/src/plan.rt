// The problem, and the commands that set its fields and write it.
use crate::calls;
use crate::digest::Digest;
use crate::script::{Failure, Fault, at_most, next_name, numbers, one_number};
use crate::words::{put, put_in_row};
use problem::Problem;

pub(crate) enum Command {
    Set,
    Write,
}

impl Command {
    pub(crate) fn named(word: &str) -> Option<Command> {
        match word {
            "set" => Some(Command::Set),
            "write" => Some(Command::Write),
            _ => None,
        }
    }
}

enum Field {
    N,
    M,
    Budget,
    Lower,
    Upper,
    Threshold,
    Divisor,
    Row,
}

impl Field {
    fn named(word: &str) -> Option<Field> {
        match word {
            "n" => Some(Field::N),
            "m" => Some(Field::M),
            "budget" => Some(Field::Budget),
            "lower" => Some(Field::Lower),
            "upper" => Some(Field::Upper),
            "threshold" => Some(Field::Threshold),
            "divisor" => Some(Field::Divisor),
            "row" => Some(Field::Row),
            _ => None,
        }
    }
}

// The problem before anything is read.
pub(crate) const ZEROS: Problem = Problem {
    n: 0,
    m: 0,
    budget: 0,
    lower: [0; 32],
    upper: [0; 32],
    constraints: [0; 2112],
    divisors: [0; 64],
    thresholds: [0; 32],
};

// The digest of all of it.
pub(crate) fn digest(p: &Problem) -> Digest {
    let mut digest = Digest::NONE;
    digest.add_words(&[p.n, p.m, p.budget]);
    digest.add_words(&p.lower);
    digest.add_words(&p.upper);
    digest.add_words(&p.constraints);
    digest.add_words(&p.divisors);
    digest.add_words(&p.thresholds);
    digest
}

// set FIELD [J [I]] Z
fn set(rest: &[u8], p: &mut Problem) -> Result<(), Fault> {
    let (name, rest) = next_name(rest).ok_or(Fault::NoField)?;
    match Field::named(name).ok_or(Fault::NoField)? {
        Field::N => p.n = one_number(rest)?,
        Field::M => p.m = one_number(rest)?,
        Field::Budget => p.budget = one_number(rest)?,
        Field::Lower => put(&mut p.lower, numbers(rest)?)?,
        Field::Upper => put(&mut p.upper, numbers(rest)?)?,
        Field::Threshold => put(&mut p.thresholds, numbers(rest)?)?,
        Field::Divisor => put(&mut p.divisors, numbers(rest)?)?,
        Field::Row => put_in_row(&mut p.constraints, numbers(rest)?)?,
    }
    Ok(())
}

// write L
#[inline(never)]
fn write(rt: &impl Print, rest: &[u8], p: &Problem) -> Result<(), Failure> {
    let length = one_number(rest)?;
    let length = at_most(length, 65536)?;
    let mut bytes = [238u8; 65536];
    let buffer = &mut bytes[..length];
    let error = calls::number(&writing::write(*p, buffer));
    let mut digest = Digest::NONE;
    digest.add_bytes(buffer);
    println!(rt; "write {error} digest {digest}")?;
    Ok(())
}

pub(crate) fn play(
    rt: &impl Print,
    command: Command,
    rest: &[u8],
    p: &mut Problem,
) -> Result<(), Failure> {
    match command {
        Command::Set => set(rest, p)?,
        Command::Write => write(rt, rest, p)?,
    }
    Ok(())
}
