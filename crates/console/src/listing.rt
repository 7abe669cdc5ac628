// Every solution of a problem, in dictionary order.
use crate::output::Output;
use crate::told::Watch;
use crate::{print_refused, told};
use answers::Verdict;
use report::Line;
use shown::Exclusion;
use state::Search;
use std::io::{IsTerminal, Print};
use std::time::Clock;

// How many numbers the solutions of a call of `list` may have: enough that the call's own cost does not show, few enough to touch little memory.
const NUMBERS: usize = 2048;

// The same where somebody looks: few, so that it is told often how far the listing is.
const WATCHED: usize = 64;

// More solutions than a computer strikes out: 2^62, at one each nanosecond 146 years. A listing that got there, or with so many bounds set, would end with its
// counts, and without one of the words `ended`, `none` and `spent`.
const MAX_STRUCK: usize = 4611686018427387904;

// Puts the lines of the first `count` solutions in a list of numbers, n for each; those that the list holds.
fn put_solutions(output: &mut Output<impl Print>, solutions: &[i64], count: usize, n: usize) {
    let mut rest = solutions;
    for _ in 0..count {
        let Some((values, others)) = rest.split_at_checked(n) else {
            return;
        };
        output.put(Line::Solution(values));
        rest = others;
    }
}

// Prints the solutions of an opened search: lists those that the buffer holds, strikes out the one after them and goes on, until there is no further one, no
// decision led to the last, or the budget is used up. Between the calls it tells, about once a second and where somebody looks, how far it is.
#[inline(never)]
fn print_listing(rt: &(impl Clock + Print), stderr: &(impl IsTerminal + Print), opened: Search) {
    let n = opened.n;
    let budget = opened.budget;
    let mut output = Output::new(rt);
    output.put(Line::Plan {
        n,
        m: opened.m,
        budget,
    });
    let mut watch = Watch::new(rt, stderr);
    let mut numbers = [0i64; NUMBERS];
    let length = if watch.is_watched() { WATCHED } else { NUMBERS };
    // no state of an opened search is refused but for its count of bounds set
    let Ok(mut listed) = search::list(opened, &mut numbers[..length]) else {
        return;
    };
    let mut struck: usize = 0;
    // Stays: a while: a round strikes out as many solutions as the buffer holds, and one more
    while struck < MAX_STRUCK {
        // `list` strikes out no more than the buffer holds
        let count = listed.struck.min(NUMBERS);
        put_solutions(&mut output, &numbers, count, n);
        output.put_verdict(listed.last.verdict, n);
        struck += count;
        if !matches!(listed.last.verdict, Verdict::Solution(_)) {
            break;
        }
        // where the state is refused for its count of bounds set, the listing is not at its end
        let Ok(excluded) = search::exclude(listed.last.state) else {
            break;
        };
        match excluded.answer {
            Exclusion::Struck => {}
            Exclusion::Ended => {
                output.put(Line::Ended);
                break;
            }
            Exclusion::Unsolved => break,
        }
        if output.has_failed() {
            told::tell_output(stderr, true);
            return;
        }
        struck += 1;
        if watch.is_due(rt) {
            told::tell_solutions(stderr, struck, listed.last.count, budget);
        }
        let Ok(next) = search::list(excluded.state, &mut numbers[..length]) else {
            break;
        };
        listed = next;
    }
    output.put(Line::Ends(listed.last.count));
    output.put(Line::Struck(struck));
    output.put(Line::Set(listed.last.propagations));
    output.finish(stderr);
}

// Prints the solutions of a file.
pub fn print_solutions(rt: &(impl Clock + Print), stderr: &(impl IsTerminal + Print), file: &[u8]) {
    match search::open(file) {
        Ok(opened) => print_listing(rt, stderr, opened),
        Err(refusal) => print_refused(rt, stderr, refusal),
    }
}
