// A fresh opening, as a caller sees it: the search state of a problem that is not refused.
#![tactic(auto)]

ghost use Rattle.std.specs.Prelude.{◌≡◌, IfOk};
ghost use Rattle.model_walk.specs.Search.{opened_by};
ghost use Rattle.opening.specs.Accepted.{Accepted};
ghost use Rattle.shown.specs.Opening.{found as found_problem, seen_opened};

use problem::{Problem, Refusal};
use state::Search;

// Opens what reading or checking found: a refusal stays what it is.
#[tactic(auto, using(shown::proofs::Openings::not_opened, shown::proofs::Openings::opened))]
pub fn begin(found: Result<Problem, Refusal>) -> Result<Search, Refusal>
    requires { IfOk found Accepted }
    ensures { seen_opened result ≡ opened_by (found_problem found) }
{
    let problem = found?;
    Ok(opening::from_problem(problem))
}
