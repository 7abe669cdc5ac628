// What goes to standard error: what failed, and how far a long search is. What cannot be written there is lost: there is nowhere else to tell it.
use std::io::{IsTerminal, Print};
use std::time::Clock;

// If so, standard output took not all of what was to be written.
pub(crate) fn tell_output(stderr: &impl Print, failed: bool) {
    if failed {
        let _ = stderr.write_all(b"standard output cannot be written\n");
    }
}

pub(crate) fn tell_input(stderr: &impl Print) {
    let _ = stderr.write_all(b"standard input cannot be read\n");
}

// How many conflicts of the budget are counted.
pub(crate) fn tell_conflicts(stderr: &impl Print, count: usize, budget: usize) {
    let _ = stderr.println(format_args!("{count} conflicts of {budget}"));
}

// The same of a listing, after how many solutions are struck out.
pub(crate) fn tell_solutions(stderr: &impl Print, struck: usize, count: usize, budget: usize) {
    let _ = stderr.print(format_args!("{struck} solutions, "));
    tell_conflicts(stderr, count, budget);
}

// When it is told how far a search is: about once a second, where somebody looks at standard error.
#[derive(Clone, Copy)]
pub(crate) struct Watch {
    watched: bool,
    last: u64,
}

impl Watch {
    pub(crate) fn new(rt: &impl Clock, stderr: &impl IsTerminal) -> Self {
        Watch {
            watched: stderr.is_terminal(),
            last: seconds(rt),
        }
    }

    pub(crate) fn is_watched(&self) -> bool {
        self.watched
    }

    // Whether it is to be told now: a second has passed since it was so last.
    pub(crate) fn is_due(&mut self, rt: &impl Clock) -> bool {
        if !self.watched {
            return false;
        }
        let last = self.last;
        self.last = seconds(rt);
        self.last != last
    }
}

// The time in seconds, 0 where there is no clock.
fn seconds(rt: &impl Clock) -> u64 {
    rt.since_1970().map_or(0, |time| time.as_secs())
}
