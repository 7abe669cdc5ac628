// The commands that check, open and change the problem in hand.
ghost use Rattle.std.specs.Prelude.{◌≤◌, OnOk};

use crate::script::{Failure, Fault, no_numbers, numbers, one_number};
use crate::{calls, state_words, states};
use problem::Problem;
use state::Search;
use std::io;

pub(crate) enum Command {
    Check,
    Begin,
    Append,
    Replace,
    Choose,
    Close,
}

impl Command {
    pub(crate) fn named(word: &str) -> Option<Command> {
        match word {
            "check" => Some(Command::Check),
            "begin" => Some(Command::Begin),
            "append" => Some(Command::Append),
            "replace" => Some(Command::Replace),
            "choose" => Some(Command::Choose),
            "close" => Some(Command::Close),
            _ => None,
        }
    }
}

// check
#[inline(never)]
fn check(rt: &impl Print, p: &Problem) -> io::Result<()> {
    let error = calls::number(&problem::check(*p));
    println!(rt; "check {error}")
}

// begin
#[inline(never)]
fn begin(rt: &impl Print, p: &Problem, state: &mut Search) -> io::Result<()> {
    let opened = search::open_problem(*p);
    let error = calls::number(&opened);
    *state = opened.unwrap_or(states::ZEROS);
    let digest = state_words::digest(state)?;
    println!(rt; "begin {error} digest {digest}")
}

// What stands in row j of the arrays, with its divisor.
fn row_at(p: &Problem, j: usize) -> Result<([i64; 33], i64), Fault> {
    if layout::MAX_CONSTRAINTS <= j {
        return Err(Fault::Range);
    }
    let mut row = [0i64; 33];
    row.copy_from_slice(&p.constraints[layout::ROW * j..layout::ROW * (j + 1)]);
    Ok((row, p.divisors[j]))
}

// A fault where the arrays do not hold the problem.
fn in_arrays(p: &Problem) -> Result<(), Fault>
    ensures { OnOk result ((p.now.n ≤ 32) × (p.now.m ≤ 64)) }
{
    if layout::MAX_VARIABLES < p.n || layout::MAX_CONSTRAINTS < p.m {
        return Err(Fault::Range);
    }
    Ok(())
}

// append J
#[inline(never)]
fn append(rest: &[u8], p: &mut Problem) -> Result<(), Fault> {
    let j = one_number(rest)?;
    let (row, divisor) = row_at(p, j)?;
    if layout::MAX_VARIABLES < p.n || layout::MAX_CONSTRAINTS <= p.m {
        return Err(Fault::Range);
    }
    *p = modify::append(*p, row, divisor);
    Ok(())
}

// replace J I
#[inline(never)]
fn replace(rest: &[u8], p: &mut Problem) -> Result<(), Fault> {
    let [j, i] = numbers::<2>(rest)?;
    let (row, divisor) = row_at(p, i)?;
    in_arrays(p)?;
    if layout::MAX_CONSTRAINTS <= j {
        return Err(Fault::Range);
    }
    *p = modify::replace(*p, j, row, divisor);
    Ok(())
}

// The bits of a number, the lowest first.
fn bits(number: usize) -> [bool; 64] {
    let mut mask = [false; 64];
    for j in 0..64 {
        mask[j] = number >> j & 1 == 1;
    }
    mask
}

// choose MASK
#[inline(never)]
fn choose(rest: &[u8], p: &mut Problem) -> Result<(), Fault> {
    let mask = one_number(rest)?;
    in_arrays(p)?;
    *p = modify::keep(*p, bits(mask));
    Ok(())
}

// close I
#[inline(never)]
fn close(rest: &[u8], p: &mut Problem) -> Result<(), Fault> {
    let i = one_number(rest)?;
    in_arrays(p)?;
    if p.n <= i {
        return Err(Fault::Range);
    }
    *p = modify::close(*p, i);
    Ok(())
}

pub(crate) fn play(
    rt: &impl Print,
    command: Command,
    rest: &[u8],
    p: &mut Problem,
    state: &mut Search,
) -> Result<(), Failure> {
    match command {
        Command::Check => {
            no_numbers(rest)?;
            check(rt, p)?;
        }
        Command::Begin => {
            no_numbers(rest)?;
            begin(rt, p, state)?;
        }
        Command::Append => append(rest, p)?,
        Command::Replace => replace(rest, p)?,
        Command::Choose => choose(rest, p)?,
        Command::Close => close(rest, p)?,
    }
    Ok(())
}
