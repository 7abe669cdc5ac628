// The product's calls on a small problem.
use problem::{Problem, Refusal};
use shown::Exclusion;
use state::Search;

// The state of a problem, written with a budget and opened.
pub fn open(p: &Problem, budget: usize) -> Result<Search, Refusal> {
    let mut q = *p;
    q.budget = budget;
    let mut file = [0u8; 3584];
    let end = 512 * (q.m % 7 + 1);
    writing::write(q, &mut file)?;
    search::open(&file[..end])
}

// Whether the solution of a state ends the listing: no decision led to it, so it can't be struck out.
pub fn is_ended(s: Search) -> bool {
    search::exclude(s).is_ok_and(|excluded| excluded.answer == Exclusion::Ended)
}
