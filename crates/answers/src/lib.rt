// The answers of the calls on a search, and turns from any valid state.
#![tactic(auto)]

ghost use Rattle.std.specs.Prelude.{◌<◌, ◌≤◌, ◌≡◌, get_or};
ghost use Rattle.layout.specs.Rows.{number_in};
ghost use Rattle.fields.specs.Fields.{filled};
ghost use Rattle.model_walk.specs.Listing.{room_at};
ghost use Rattle.state.specs.View.{no_level, status_of, view};
ghost use Rattle.turns.specs.Advancing.{Advances};
ghost use Rattle.answers.specs.Answered.{Proceeds, answered};

use engine::advance::advance;
use state::{Level, Search, Status};
use turns::{Advanced, Ending};

// What a turn, a run or a trace comes to: 'go on', 'none', 'spent', or a solution: its values, zeros past them.
#[derive(Clone, Copy, Debug, PartialEq, Eq)]
pub enum Verdict {
    GoOn,
    NoSolution,
    OutOfBudget,
    Solution([i64; 32]),
}

// What a run gives.
#[derive(Clone, Copy)]
pub struct Ran {
    pub verdict: Verdict,
    pub count: usize,
    pub propagations: usize,
    pub state: Search,
}

// What a trace gives: what a run does, and `blocks` journal blocks stand at the buffer's start.
#[derive(Clone, Copy)]
pub struct Traced {
    pub run: Ran,
    pub blocks: usize,
}

// What a listing gives: the values of the `struck` solutions that were struck out stand at the buffer's start, n for each; `last` is what the run after
// the last of them gives.
#[derive(Clone, Copy)]
pub struct Listed {
    pub struck: usize,
    pub last: Ran,
}

// The lower bounds of the first n variables, zeros past them.
fn lowers(l: Level, n: usize) -> [i64; 32]
    requires { n ≤ 32 }
    ensures { result ≡ filled (number_in l.lower) n 32 }
{
    let mut values = [0i64; 32];
    values[..n].copy_from_slice(&l.lower[..n]);
    values
}

// The values of a solution: the lower bounds of the deepest level. A function of its own, since reading one level of many costs a copy of the state.
fn deepest_lowers(s: Search) -> [i64; 32]
    requires { (s.n ≤ 32) × (s.depth < 33) }
    ensures { result ≡ filled (number_in (get_or s.levels s.depth no_level).lower) s.n 32 }
{
    let depth = s.depth;
    lowers(s.levels[depth], s.n)
}

// Where no turn is taken: the state stays.
fn at_rest(state: Search, ending: Ending) -> Advanced
    ensures { result ≡ record { ending = ending; struck = 0; blocks = 0; state = state } }
{
    Advanced {
        ending,
        struck: 0,
        blocks: 0,
        state,
    }
}

// At most `limit` turns from a valid state, to a verdict, with strikes while there is room; a marked one gives its verdict again.
// Stays: `keep` beside the buffer, here and in `engine`: an Option of a lent buffer would have to be lent anew at each call of the loop, no plainer.
pub fn proceed(
    s: Search,
    buffer: &mut [u8],
    limit: usize,
    keep: bool,
    room: usize,
    solutions: &mut [i64],
) -> Advanced
    requires { Proceeds s limit keep room buffer.old solutions.old }
    ensures { Advances (view s) limit keep (room_at (status_of s.status) room) result buffer.old buffer.new solutions.old solutions.new }
{
    if limit == 0 {
        return at_rest(s, Ending::GoOn);
    }
    match s.status {
        Status::Undecided => advance(s, buffer, limit, keep, room, solutions),
        Status::Infeasible => at_rest(s, Ending::NoSolution),
        Status::Solved => at_rest(s, Ending::Solution),
    }
}

// The answer to a caller from where the turns ended.
#[tactic(auto, unfolding(crate::specs::Answered::answered, crate::specs::Answered::case_of))]
pub fn answer(a: Advanced) -> Ran
    requires { (a.state.n ≤ 32) × (a.state.depth < 33) }
    ensures { result ≡ answered a }
{
    let state = a.state;
    let verdict = match a.ending {
        Ending::GoOn => Verdict::GoOn,
        Ending::NoSolution => Verdict::NoSolution,
        Ending::OutOfBudget => Verdict::OutOfBudget,
        Ending::Solution => Verdict::Solution(deepest_lowers(state)),
    };
    Ran {
        verdict,
        count: state.conflicts,
        propagations: state.propagations,
        state,
    }
}
