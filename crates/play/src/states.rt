// The commands that change and print the state.
use crate::script::{Failure, Fault, next_name, no_numbers, numbers, one_number};
use crate::state_words;
use crate::words::{put, put_in_row};
use state::{Level, Search, Status};
use std::io;

pub(crate) enum Command {
    Put,
    Litter,
    Keep,
    Back,
    State,
    Digest,
}

impl Command {
    pub(crate) fn named(word: &str) -> Option<Command> {
        match word {
            "put" => Some(Command::Put),
            "litter" => Some(Command::Litter),
            "keep" => Some(Command::Keep),
            "back" => Some(Command::Back),
            "state" => Some(Command::State),
            "digest" => Some(Command::Digest),
            _ => None,
        }
    }
}

// The fields of the state.
enum Field {
    N,
    M,
    Budget,
    Conflicts,
    Propagations,
    Made,
    Depth,
    Status,
    Threshold,
    Divisor,
    Number,
    Row,
}

impl Field {
    fn named(word: &str) -> Option<Field> {
        match word {
            "n" => Some(Field::N),
            "m" => Some(Field::M),
            "budget" => Some(Field::Budget),
            "conflicts" => Some(Field::Conflicts),
            "propagations" => Some(Field::Propagations),
            "made" => Some(Field::Made),
            "depth" => Some(Field::Depth),
            "status" => Some(Field::Status),
            "threshold" => Some(Field::Threshold),
            "divisor" => Some(Field::Divisor),
            "number" => Some(Field::Number),
            "row" => Some(Field::Row),
            _ => None,
        }
    }
}

// The fields of a level.
enum LevelField {
    Lower,
    Upper,
    Below,
    Above,
    Decided,
}

impl LevelField {
    fn named(word: &str) -> Option<LevelField> {
        match word {
            "lower" => Some(LevelField::Lower),
            "upper" => Some(LevelField::Upper),
            "below" => Some(LevelField::Below),
            "above" => Some(LevelField::Above),
            "decided" => Some(LevelField::Decided),
            _ => None,
        }
    }
}

const NO_LEVEL: Level = Level {
    lower: [0; 32],
    upper: [0; 32],
    below: [0; 32],
    above: [0; 32],
    decided: 0,
};

// The state before any is opened.
pub(crate) const ZEROS: Search = Search {
    n: 0,
    m: 0,
    budget: 0,
    conflicts: 0,
    propagations: 0,
    made: 0,
    depth: 0,
    status: Status::Undecided,
    thresholds: [0; 32],
    rows: [0; 4224],
    divisors: [0; 64],
    numbers: [0; 64],
    levels: [NO_LEVEL; 33],
};

fn status(rest: &[u8]) -> Result<Status, Fault> {
    let number = one_number(rest)?;
    match number {
        0 => Ok(Status::Undecided),
        1 => Ok(Status::Infeasible),
        2 => Ok(Status::Solved),
        _ => Err(Fault::Range),
    }
}

// [J [I]] Z
fn put_field(field: Field, rest: &[u8], s: &mut Search) -> Result<(), Fault> {
    match field {
        Field::N => s.n = one_number(rest)?,
        Field::M => s.m = one_number(rest)?,
        Field::Budget => s.budget = one_number(rest)?,
        Field::Conflicts => s.conflicts = one_number(rest)?,
        Field::Propagations => s.propagations = one_number(rest)?,
        Field::Made => s.made = one_number(rest)?,
        Field::Depth => s.depth = one_number(rest)?,
        Field::Status => s.status = status(rest)?,
        Field::Threshold => put(&mut s.thresholds, numbers(rest)?)?,
        Field::Divisor => put(&mut s.divisors, numbers(rest)?)?,
        Field::Number => put(&mut s.numbers, numbers(rest)?)?,
        Field::Row => put_in_row(&mut s.rows, numbers(rest)?)?,
    }
    Ok(())
}

fn level(levels: &mut [Level], d: usize) -> Result<&mut Level, Fault> {
    levels.get_mut(d).ok_or(Fault::Range)
}

// D [I] Z
fn put_level_field(field: LevelField, rest: &[u8], levels: &mut [Level]) -> Result<(), Fault> {
    match field {
        LevelField::Lower => {
            let [d, i, word] = numbers::<3>(rest)?;
            put(&mut level(levels, d)?.lower, [i, word])
        }
        LevelField::Upper => {
            let [d, i, word] = numbers::<3>(rest)?;
            put(&mut level(levels, d)?.upper, [i, word])
        }
        LevelField::Below => {
            let [d, i, word] = numbers::<3>(rest)?;
            put(&mut level(levels, d)?.below, [i, word])
        }
        LevelField::Above => {
            let [d, i, word] = numbers::<3>(rest)?;
            put(&mut level(levels, d)?.above, [i, word])
        }
        LevelField::Decided => {
            let [d, word] = numbers::<2>(rest)?;
            level(levels, d)?.decided = word;
            Ok(())
        }
    }
}

// put FIELD [D or J [I]] Z
fn put_number(rest: &[u8], s: &mut Search) -> Result<(), Fault> {
    let (name, rest) = next_name(rest).ok_or(Fault::NoField)?;
    if let Some(field) = Field::named(name) {
        return put_field(field, rest, s);
    }
    let field = LevelField::named(name).ok_or(Fault::NoField)?;
    put_level_field(field, rest, &mut s.levels)
}

// litter Z
fn litter(rest: &[u8], s: &mut Search) -> Result<(), Fault> {
    let number = one_number(rest)?;
    state_words::litter(s, number);
    Ok(())
}

// state
fn show(rt: &impl Print, s: &Search) -> io::Result<()> {
    print!(rt; "state")?;
    state_words::show_read(rt, s)?;
    println!(rt)
}

// digest
fn show_digest(rt: &impl Print, s: &Search) -> io::Result<()> {
    let digest = state_words::digest(s)?;
    println!(rt; "digest {digest}")
}

pub(crate) fn play(
    rt: &impl Print,
    command: Command,
    rest: &[u8],
    state: &mut Search,
    kept: &mut Search,
) -> Result<(), Failure> {
    match command {
        Command::Put => put_number(rest, state)?,
        Command::Litter => litter(rest, state)?,
        Command::Keep => {
            no_numbers(rest)?;
            *kept = *state;
        }
        Command::Back => {
            no_numbers(rest)?;
            *state = *kept;
        }
        Command::State => {
            no_numbers(rest)?;
            show(rt, state)?;
        }
        Command::Digest => {
            no_numbers(rest)?;
            show_digest(rt, state)?;
        }
    }
    Ok(())
}
