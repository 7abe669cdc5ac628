// The public calls on a search: open a file or a problem, take a turn, run to a verdict, run with the journal, strike out a solution, and list solutions. None has a
// `requires`: each does its own checking.
#![tactic(auto)]

ghost use Rattle.std.specs.Prelude.{◌≡◌, true, Ok};
ghost use Rattle.model_walk.specs.Search.{open_file};
ghost use Rattle.model_walk.specs.Validity.{admitted};
ghost use Rattle.model_acceptance.specs.Acceptable.{open_given};
ghost use Rattle.problem.specs.View.{problem_of};
ghost use Rattle.state.specs.View.{view};
ghost use Rattle.shown.specs.Opening.{seen_opened};
ghost use Rattle.shown.specs.Excluding.{seen_excluded, exclude_seen};
ghost use Rattle.shown.specs.Listing.{seen_listed, list_seen};
ghost use Rattle.shown.specs.Seen.{seen_stepped, seen_ran, seen_traced, step_seen, run_seen, trace_seen};

use answers::{Listed, Ran, Traced};
use problem::{Problem, Refusal, check};
use shown::{Excluded, Exclusion, Stepped};
use state::{Search, Status};

// Opens the problem file in these bytes.
pub fn open(file: &[u8]) -> Result<Search, Refusal>
    ensures { seen_opened result ≡ open_file file.now }
{
    let found = reading::read(file);
    fresh::begin(found)
}

// Opens a problem in hand, which need not be written to a file and read again.
pub fn open_problem(problem: Problem) -> Result<Search, Refusal>
    ensures { seen_opened result ≡ open_given (problem_of problem) }
{
    check(problem)?;
    fresh::begin(Ok(problem))
}

// Turns repeated, to a verdict or until the buffer has no room for another block.
pub fn trace(s: Search, buffer: &mut [u8]) -> Result<Traced, Refusal>
    ensures { seen_traced result buffer.new ≡ trace_seen s buffer.old }
{
    if !validate::is_admitted(&s) {
        return Err(Refusal::InvalidSearch);
    }
    let limit = buffer.len() / block::LENGTH;
    let a = answers::proceed(s, buffer, limit, true, 0, &mut []);
    Ok(Traced {
        run: answers::answer(a),
        blocks: a.blocks,
    })
}

// One turn: a trace with room for one block.
pub fn step(s: Search) -> Result<Stepped, Refusal>
    ensures { seen_stepped result ≡ step_seen s }
{
    let mut block = [0u8; 512];
    let t = trace(s, &mut block)?;
    Ok(Stepped {
        run: t.run,
        block: (t.blocks == 1).then_some(block),
    })
}

// Turns repeated to a verdict. Each that goes on counts a conflict, so there is at most one more than the budget has left.
pub fn run(s: Search) -> Result<Ran, Refusal>
    ensures { seen_ran result ≡ run_seen s }
{
    if !validate::is_admitted(&s) {
        return Err(Refusal::InvalidSearch);
    }
    let limit = s.budget - s.conflicts + 1;
    let a = answers::proceed(s, &mut [], limit, false, 0, &mut []);
    Ok(answers::answer(a))
}

// Strikes out the solution that the state is marked with: a further turn goes on to the next one.
pub fn exclude(s: Search) -> Result<Excluded, Refusal>
    ensures { seen_excluded result ≡ exclude_seen s }
{
    if !validate::is_admitted(&s) {
        return Err(Refusal::InvalidSearch);
    }
    Ok(strike_out(s))
}

// The same of a state that is taken.
fn strike_out(s: Search) -> Excluded
    requires { admitted (view s) ≡ true }
    ensures { seen_excluded (Ok result) ≡ exclude_seen s }
{
    match s.status {
        Status::Solved => {
            if 0 < s.depth {
                Excluded {
                    answer: Exclusion::Struck,
                    state: exclusion::strike(s),
                }
            } else {
                Excluded {
                    answer: Exclusion::Ended,
                    state: s,
                }
            }
        }
        _ => Excluded {
            answer: Exclusion::Unsolved,
            state: s,
        },
    }
}

// Runs from solution to solution: each is struck out before the next run, while the buffer has room for its values. In place, where `run` and `exclude` by
// turns would copy the state for each. A state that is marked gives its verdict again, and nothing is struck out.
pub fn list(s: Search, solutions: &mut [i64]) -> Result<Listed, Refusal>
    ensures { seen_listed result solutions.new ≡ list_seen s solutions.old }
{
    if !validate::is_admitted(&s) {
        return Err(Refusal::InvalidSearch);
    }
    let room = solutions.len() / s.n;
    let turns = s.budget - s.conflicts + 1;
    let a = answers::proceed(s, &mut [], turns, false, room, solutions);
    Ok(Listed {
        struck: a.struck,
        last: answers::answer(a),
    })
}
