// The checks of one problem against plain enumeration: runs with several budgets, the cuts of the journal, and a listing.
use crate::points::Enumerated;
use crate::{calls, points};
use answers::{Listed, Ran, Verdict};
use problem::Problem;
use std::io;

// What problems showed: how many disagreed and how many had a solution, their conflicts, their solutions, the bounds set up to the first verdict, and those set
// by the listing.
#[derive(Clone, Copy, Default)]
pub struct Sums {
    pub wrong: usize,
    pub solvable: usize,
    pub conflicts: usize,
    pub listed: usize,
    pub set: usize,
    pub set_by_listing: usize,
}

impl Sums {
    pub fn add(&mut self, more: Sums) {
        self.wrong = self.wrong.saturating_add(more.wrong);
        self.solvable = self.solvable.saturating_add(more.solvable);
        self.conflicts = self.conflicts.saturating_add(more.conflicts);
        self.listed = self.listed.saturating_add(more.listed);
        self.set = self.set.saturating_add(more.set);
        self.set_by_listing = self.set_by_listing.saturating_add(more.set_by_listing);
    }
}

// Whether conflicts and solutions are no more than the points, and the bounds set no more than N5 allows for so many.
fn is_bounded(p: &Problem, e: &Enumerated, ends: usize, set: usize) -> bool {
    ends <= e.points && set <= ends.saturating_mul(points::slack(p))
}

// Whether a run with a budget is spent at its conflicts, where the first run counted more, or else answers what enumeration finds and counts as the first.
fn is_run_right(p: &Problem, e: &Enumerated, first: &Ran, budget: usize) -> bool {
    let Ok(r) = calls::open(p, budget).and_then(search::run) else {
        return false;
    };
    let same = r.count <= budget && r.count == first.count && r.propagations == first.propagations;
    match r.verdict {
        Verdict::NoSolution => same && e.found == 0,
        Verdict::Solution(values) => same && e.first == Some(values),
        Verdict::OutOfBudget => r.count == budget && budget < first.count,
        Verdict::GoOn => false,
    }
}

// Whether runs are right with these budgets: the points, one less, half of them, 1 and 0.
fn are_runs_right(p: &Problem, e: &Enumerated, first: &Ran) -> bool {
    let budgets = [e.points, e.points.wrapping_sub(1), e.points / 2, 1, 0];
    budgets
        .iter()
        .all(|budget| is_run_right(p, e, first, *budget))
}

// Whether the blocks of a journal are numbered, and their cuts as further constraints leave all solutions.
fn are_cuts_right(p: &Problem, found: usize, journal: &[u8; 8192], blocks: usize) -> bool {
    let mut q = *p;
    for k in 0..16 {
        let start = block::LENGTH * k;
        if k < blocks && block::number::u32_at(journal, start + block::journal::COUNT) != k + 1 {
            return false;
        }
        for i in 0..7 {
            q.constraints[33 * (p.m % 7 + k) + i] = block::number::i32_at(
                journal,
                start + block::journal::CONSTANT + 4 * i,
            );
        }
    }
    q.m = p.m.saturating_add(blocks);
    points::enumerate(&q).found == found
}

// Whether a listing shows the solutions of enumeration and is complete. A last one that no decision led to is not struck out: it stands in the answer alone.
fn is_listed(p: &Problem, e: &Enumerated, l: &Listed, buffer: &[i64; 768]) -> bool {
    let mut wanted = e.solutions;
    match l.last.verdict {
        Verdict::NoSolution => l.struck == e.found && wanted.are(buffer),
        Verdict::Solution(values) => {
            wanted.take_last(p.n);
            calls::is_ended(l.last.state)
                && l.struck.saturating_add(1) == e.found
                && e.last == Some(values)
                && wanted.are(buffer)
        }
        _ => false,
    }
}

// Checks problem k of a family, prints what is wrong, and returns what it showed. What a refused problem shows counts nothing.
pub fn check(rt: &impl Print, p: &Problem, k: usize) -> io::Result<Sums> {
    let e = points::enumerate(p);
    let opened = calls::open(p, e.points);
    let first = opened.and_then(search::run);
    let mut journal = [0u8; 8192];
    let traced = opened.and_then(|s| search::trace(s, &mut journal));
    let mut buffer = [points::MARK; 768];
    let listed = opened.and_then(|s| search::list(s, &mut buffer));
    let (conflicts, set) = first.map_or((0, 0), |r| (r.count, r.propagations));
    let (listed_conflicts, set_by_listing) = listed.map_or(
        (0, 0),
        |l| (l.last.count, l.last.propagations),
    );
    let blocks = traced.map_or(0, |t| t.blocks);
    let solvable = usize::from(0 < e.found);
    let ends = conflicts.saturating_add(solvable);
    let listed_ends = listed_conflicts.saturating_add(e.found);
    let is_run = is_bounded(p, &e, ends, set) && first.is_ok_and(|r| are_runs_right(p, &e, &r));
    let is_cut = blocks == conflicts && are_cuts_right(p, e.found, &journal, blocks);
    let is_listed = is_bounded(p, &e, listed_ends, set_by_listing)
        && listed.is_ok_and(|l| is_listed(p, &e, &l, &buffer));
    let mut wrong = 0;
    for (what, is_right) in [("run", is_run), ("cut", is_cut), ("listing", is_listed)] {
        if !is_right {
            println!(rt; "disagreement: problem {k}: {what}")?;
            wrong = 1;
        }
    }
    Ok(Sums {
        wrong,
        solvable,
        conflicts,
        listed: e.found,
        set,
        set_by_listing,
    })
}
