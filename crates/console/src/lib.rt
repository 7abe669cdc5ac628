// What the programs do with the bytes of a problem file: print its verdict, write its journal, or print its solutions.
#![tactic(auto)]

use answers::{Traced, Verdict};
use output::Output;
use problem::Refusal;
use report::Line;
use state::Search;
use std::io::{IsTerminal, Print};
use std::time::Clock;
use told::Watch;

mod input;
mod listing;
mod output;
mod told;

pub use input::{on_input, read_input};
pub use listing::print_solutions;

// One byte more than the longest input. Of a longer one this many bytes are read, which is no whole number of blocks: so it counts as truncated.
pub const INPUT_LENGTH: usize = 65537;

// More turns than any budget has conflicts: a turn that does not end the search counts one.
pub const MAX_TURNS: usize = 2_000_000_000;

// How many journal blocks a call of `trace` may give, and their bytes: enough that the call's own cost does not show, few enough to touch little memory.
const BLOCKS: usize = 128;

const BLOCKS_LENGTH: usize = BLOCKS * block::LENGTH;

// Whether turns are left to take.
pub fn goes_on(verdict: Verdict) -> bool {
    matches!(verdict, Verdict::GoOn)
}

// Prints why a file is refused.
fn print_refused(rt: &impl Print, stderr: &impl Print, refusal: Refusal) {
    let mut output = Output::new(rt);
    output.put(Line::Refused(refusal.number()));
    output.finish(stderr);
}

// Prints the last three lines alone: a verdict, and the counts of conflicts and of bounds set.
pub fn print_ending(
    rt: &impl Print,
    stderr: &impl Print,
    verdict: Verdict,
    n: usize,
    count: usize,
    set: usize,
) {
    Output::new(rt).end(stderr, verdict, n, count, set);
}

// Runs an opened search to its verdict and prints it, with a line for each conflict on the way. About once a second it tells, where somebody looks, how
// many conflicts are counted.
fn print_search(rt: &(impl Clock + Print), stderr: &(impl IsTerminal + Print), opened: Search) {
    let n = opened.n;
    let budget = opened.budget;
    let mut output = Output::new(rt);
    output.put(Line::Plan {
        n,
        m: opened.m,
        budget,
    });
    let mut watch = Watch::new(rt, stderr);
    let mut s = opened;
    let mut blocks = [0u8; BLOCKS_LENGTH];
    for _ in 0..MAX_TURNS {
        // no state of an opened search is refused
        let Ok(
            Traced {
                run: ran,
                blocks: count,
            },
        ) = search::trace(s, &mut blocks)
        else {
            return;
        };
        for block in blocks.chunks_exact(block::LENGTH).take(count) {
            output.put(Line::end(block));
        }
        if !goes_on(ran.verdict) {
            output.end(stderr, ran.verdict, n, ran.count, ran.propagations);
            return;
        }
        if output.has_failed() {
            told::tell_output(stderr, true);
            return;
        }
        if watch.is_due(rt) {
            told::tell_conflicts(stderr, ran.count, budget);
        }
        s = ran.state;
    }
}

// Prints the verdict of a file, document 01's 'Writer and program'.
pub fn print_verdict(rt: &(impl Clock + Print), stderr: &(impl IsTerminal + Print), file: &[u8]) {
    match search::open(file) {
        Ok(opened) => print_search(rt, stderr, opened),
        Err(refusal) => print_refused(rt, stderr, refusal),
    }
}

// Writes the journal of a file to standard output; that of a file with an error is empty.
pub fn write_journal(rt: &impl Print, stderr: &impl Print, file: &[u8]) {
    let Ok(mut s) = search::open(file) else {
        return;
    };
    let mut blocks = [0u8; BLOCKS_LENGTH];
    // Stays: the loop of print_search once more: shared, it would take a closure that writes through its captures and says whether to go on, no plainer.
    for _ in 0..MAX_TURNS {
        let Ok(traced) = search::trace(s, &mut blocks) else {
            return;
        };
        // `trace` gives no more blocks than the buffer holds
        let end = traced.blocks.min(BLOCKS) * block::LENGTH;
        if rt.write_all(&blocks[..end]).is_err() {
            told::tell_output(stderr, true);
            return;
        }
        if !goes_on(traced.run.verdict) {
            return;
        }
        s = traced.run.state;
    }
}
