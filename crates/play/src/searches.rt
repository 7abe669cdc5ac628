// The commands that call until there is a verdict.
use crate::calls;
use crate::digest::Digest;
use crate::one_call::show_answer;
use crate::script::{Failure, Fault, at_most, no_numbers, numbers, one_number};
use answers::{Ran, Verdict};
use shown::{Excluded, Exclusion};
use state::Search;
use std::io;

pub(crate) enum Command {
    Steps,
    Traces,
    Lists,
}

impl Command {
    pub(crate) fn named(word: &str) -> Option<Command> {
        match word {
            "steps" => Some(Command::Steps),
            "traces" => Some(Command::Traces),
            "lists" => Some(Command::Lists),
            _ => None,
        }
    }
}

// Which call is made each time, with how many bytes or numbers lent.
#[derive(Clone, Copy)]
enum Way {
    Step,
    Trace(usize),
    List(usize),
}

// Whether to call again; `Ended` where the last solution was struck out as the last of all, `Refused` where the state was refused.
#[derive(Clone, Copy, PartialEq, Eq)]
enum Next {
    Call,
    Stop,
    Ended,
    Refused,
}

// Where the calls have come: what the last gave, the digest of the blocks or the solutions, and how many solutions were shown.
#[derive(Clone, Copy)]
struct Searched {
    last: Ran,
    digest: Digest,
    shown: usize,
    next: Next,
}

impl Searched {
    fn new(s: &Search) -> Searched {
        Searched {
            last: Ran {
                verdict: Verdict::GoOn,
                count: 0,
                propagations: 0,
                state: *s,
            },
            digest: Digest::NONE,
            shown: 0,
            next: Next::Call,
        }
    }

    // Takes a call's answer, if the state was not refused.
    fn take(&mut self, ran: Option<Ran>) {
        let Some(ran) = ran else {
            self.next = Next::Refused;
            return;
        };
        self.next = if console::goes_on(ran.verdict) {
            Next::Call
        } else {
            Next::Stop
        };
        self.last = ran;
    }

    fn step(&mut self) {
        let (ran, block) = calls::step(&self.last.state);
        if let Some(block) = block {
            self.digest.add_bytes(&block);
        }
        self.take(ran);
    }

    fn trace(&mut self, bytes: &mut [u8]) {
        let (ran, blocks) = calls::trace(&self.last.state, bytes);
        let end = blocks.saturating_mul(block::LENGTH).min(bytes.len());
        self.digest.add_bytes(&bytes[..end]);
        self.take(ran);
    }

    // A solution that ends a listing is struck out.
    fn list(&mut self, numbers: &mut [i64]) {
        let (ran, struck) = calls::list(&self.last.state, numbers);
        let end = struck.saturating_mul(self.last.state.n).min(numbers.len());
        self.digest.add_words(&numbers[..end]);
        self.shown = self.shown.saturating_add(struck);
        self.take(ran);
        if self.next == Next::Stop {
            if let Verdict::Solution(values) = self.last.verdict {
                self.strike(&values);
            }
        }
    }

    fn strike(&mut self, values: &[i64; 32]) {
        let n = self.last.state.n.min(32);
        self.digest.add_words(&values[..n]);
        self.shown = self.shown.saturating_add(1);
        if let Ok(Excluded { answer, state }) = search::exclude(self.last.state) {
            self.last.state = state;
            self.next = match answer {
                Exclusion::Struck => Next::Call,
                Exclusion::Ended => Next::Ended,
                Exclusion::Unsolved => Next::Stop,
            };
        }
    }

    fn call(&mut self, way: Way) {
        match way {
            Way::Step => self.step(),
            Way::Trace(length) => {
                let mut bytes = [0u8; 65536];
                self.trace(&mut bytes[..length.min(65536)]);
            }
            Way::List(length) => {
                let mut numbers = [0i64; 8192];
                self.list(&mut numbers[..length.min(8192)]);
            }
        }
    }
}

// Calls until there is a verdict.
fn search(way: Way, s: &Search) -> Searched {
    let mut searched = Searched::new(s);
    for _ in 0..console::MAX_TURNS {
        searched.call(way);
        if searched.next != Next::Call {
            break;
        }
    }
    searched
}

// steps, traces L, lists L: the last answer and the digest, with the count of solutions before it for a listing.
fn play_search(rt: &impl Print, way: Way, s: &mut Search) -> io::Result<()> {
    let searched = search(way, s);
    *s = searched.last.state;
    match way {
        Way::Step => print!(rt; "steps")?,
        Way::Trace(_) => print!(rt; "traces")?,
        Way::List(_) => print!(rt; "lists")?,
    }
    if searched.next == Next::Refused {
        return println!(rt; " refused 9");
    }
    if let Way::List(_) = way {
        print!(rt; " {}", searched.shown)?;
    }
    show_answer(rt, &searched.last)?;
    print!(rt; " digest {}", searched.digest)?;
    if searched.next == Next::Ended {
        print!(rt; " ended")?;
    }
    println!(rt)
}

// The length of a line that has one.
fn length(rest: &[u8], least: usize, most: usize) -> Result<usize, Fault> {
    let length = one_number(rest)?;
    if length < least {
        return Err(Fault::Range);
    }
    at_most(length, most)
}

#[inline(never)]
pub(crate) fn play(
    rt: &impl Print,
    command: Command,
    rest: &[u8],
    s: &mut Search,
) -> Result<(), Failure> {
    let way = match command {
        Command::Steps => {
            no_numbers(rest)?;
            Way::Step
        }
        Command::Traces => Way::Trace(length(rest, 512, 65536)?),
        Command::Lists => Way::List(length(rest, 1, 8192)?),
    };
    play_search(rt, way, s)?;
    Ok(())
}
