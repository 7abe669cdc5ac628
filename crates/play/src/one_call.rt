// The commands that make one call on the state and print its answer.
use crate::digest::Digest;
use crate::script::{Failure, at_most, no_numbers, numbers, one_number};
use crate::{calls, state_words};
use answers::{Ran, Verdict};
use shown::{Excluded, Exclusion};
use state::Search;
use std::io;

// What stands in a buffer of numbers before it is lent.
const NUMBER: i64 = -4_611_686_018_427_387_904;

pub(crate) enum Command {
    Step,
    Run,
    Trace,
    List,
    Exclude,
    Each,
}

impl Command {
    pub(crate) fn named(word: &str) -> Option<Command> {
        match word {
            "step" => Some(Command::Step),
            "run" => Some(Command::Run),
            "trace" => Some(Command::Trace),
            "list" => Some(Command::List),
            "exclude" => Some(Command::Exclude),
            "each" => Some(Command::Each),
            _ => None,
        }
    }
}

// The digest of an answer: its values. A refusal is so many zeros.
fn digest_of(ran: Option<&Ran>, zeros: usize) -> Digest {
    let mut digest = Digest::NONE;
    match ran {
        Some(ran) => digest.add_words(&calls::values(ran)),
        None => {
            for _ in 0..zeros {
                digest.add_word(0);
            }
        }
    }
    digest
}

// Prints an answer, with as many values of a solution as there are variables.
pub(crate) fn show_answer(rt: &impl Print, ran: &Ran) -> io::Result<()> {
    match ran.verdict {
        Verdict::GoOn => print!(rt; " go on")?,
        Verdict::NoSolution => print!(rt; " none")?,
        Verdict::OutOfBudget => print!(rt; " spent")?,
        Verdict::Solution(_) => {
            print!(rt; " solution")?;
            for value in calls::values(ran).iter().take(ran.state.n) {
                print!(rt; " {value}")?;
            }
        }
    }
    print!(rt; " ends {} set {}", ran.count, ran.propagations)
}

// Prints whether a call left the state as it was, what is not read with it.
fn show_kept(rt: &impl Print, before: &Search, after: &Search) -> io::Result<()> {
    if before == after {
        print!(rt; " same")
    } else {
        print!(rt; " changed")
    }
}

// Prints the rest of a call's line, with what it counts besides; the state becomes the one after it. Where it is refused it stays as it was.
fn finish(
    rt: &impl Print,
    s: &mut Search,
    ran: Option<Ran>,
    counted: Option<(&str, usize)>,
    mut digest: Digest,
) -> io::Result<()> {
    let Some(ran) = ran else {
        return println!(rt; " refused 9 same digest {digest}");
    };
    show_answer(rt, &ran)?;
    if let Some((what, count)) = counted {
        print!(rt; " {what} {count}")?;
    }
    state_words::add_read(&mut digest, &ran.state)?;
    *s = ran.state;
    println!(rt; " digest {digest}")
}

// step
#[inline(never)]
fn step(rt: &impl Print, s: &mut Search) -> io::Result<()> {
    let (ran, block) = calls::step(s);
    let mut digest = digest_of(ran.as_ref(), 34);
    digest.add_word(usize::from(block.is_some()));
    digest.add_bytes(&block.unwrap_or([0; 512]));
    print!(rt; "step")?;
    finish(rt, s, ran, None, digest)
}

// run
#[inline(never)]
fn run(rt: &impl Print, s: &mut Search) -> io::Result<()> {
    let ran = calls::run(s);
    let digest = digest_of(ran.as_ref(), 34);
    print!(rt; "run")?;
    finish(rt, s, ran, None, digest)
}

// trace L
#[inline(never)]
fn trace(rt: &impl Print, length: usize, s: &mut Search) -> io::Result<()> {
    let mut buffer = [238u8; 65536];
    let bytes = &mut buffer[..length.min(65536)];
    let (ran, blocks) = calls::trace(s, bytes);
    let mut digest = digest_of(ran.as_ref(), 35);
    digest.add_bytes(bytes);
    print!(rt; "trace")?;
    finish(rt, s, ran, Some(("blocks", blocks)), digest)
}

// list L
#[inline(never)]
fn list(rt: &impl Print, length: usize, s: &mut Search) -> io::Result<()> {
    let mut buffer = [NUMBER; 8192];
    let numbers = &mut buffer[..length.min(8192)];
    let (ran, struck) = calls::list(s, numbers);
    let mut digest = digest_of(ran.as_ref(), 35);
    digest.add_words(numbers);
    print!(rt; "list")?;
    finish(rt, s, ran, Some(("struck", struck)), digest)
}

fn show_unstruck(rt: &impl Print, answer: &str, before: &Search, after: &Search) -> io::Result<()> {
    print!(rt; " {answer}")?;
    show_kept(rt, before, after)
}

// exclude
#[inline(never)]
fn exclude(rt: &impl Print, s: &mut Search) -> io::Result<()> {
    print!(rt; "exclude")?;
    let Ok(Excluded { answer, state }) = search::exclude(*s) else {
        return println!(rt; " refused 9 same");
    };
    match answer {
        Exclusion::Struck => {
            let digest = state_words::digest(&state)?;
            print!(rt; " struck digest {digest}")?;
        }
        Exclusion::Ended => show_unstruck(rt, "ended", s, &state)?,
        Exclusion::Unsolved => show_unstruck(rt, "no form", s, &state)?,
    }
    *s = state;
    println!(rt)
}

// each L K
fn each(rt: &impl Print, length: usize, count: usize, s: &Search) -> io::Result<()> {
    let mut after = *s;
    step(rt, &mut after)?;
    after = *s;
    run(rt, &mut after)?;
    after = *s;
    trace(rt, length, &mut after)?;
    after = *s;
    exclude(rt, &mut after)?;
    after = *s;
    list(rt, count, &mut after)
}

#[inline(never)]
pub(crate) fn play(
    rt: &impl Print,
    command: Command,
    rest: &[u8],
    s: &mut Search,
) -> Result<(), Failure> {
    match command {
        Command::Step => {
            no_numbers(rest)?;
            step(rt, s)?;
        }
        Command::Run => {
            no_numbers(rest)?;
            run(rt, s)?;
        }
        Command::Trace => {
            let length = one_number(rest)?;
            trace(rt, at_most(length, 65536)?, s)?;
        }
        Command::List => {
            let length = one_number(rest)?;
            list(rt, at_most(length, 8192)?, s)?;
        }
        Command::Exclude => {
            no_numbers(rest)?;
            exclude(rt, s)?;
        }
        Command::Each => {
            let [length, count] = numbers::<2>(rest)?;
            each(rt, at_most(length, 65536)?, at_most(count, 8192)?, s)?;
        }
    }
    Ok(())
}
