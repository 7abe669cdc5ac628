// Turns repeated in place: the loop that `step`, `run`, `trace` and `list` share.
ghost use Rattle.state.specs.View.{view};
ghost use Rattle.turns.specs.Advancing.{Starts, Advances};
ghost use Rattle.engine.specs.Walk.{Runnable, Runs};

use crate::given::Given;
use crate::walk::Walk;
use conflict::is_spent;
use levels::struck::is_last;
use propagate::propagate::Found;
use state::{Search, Status};
use turns::{Advanced, Ending};

// At most `limit` turns, to a verdict, the first `room` solutions struck out on the way. The block of each counted conflict goes to the buffer, if blocks
// are kept. The state changes in place.
// Stays: `keep` beside the buffer, here and in `walk`: an Option of a lent buffer would have to be lent anew at each call of the loop, no plainer.
pub fn advance(
    mut s: Search,
    buffer: &mut [u8],
    limit: usize,
    keep: bool,
    room: usize,
    solutions: &mut [i64],
) -> Advanced
    requires { Starts s limit keep room buffer.old solutions.old }
    ensures { Advances (view s) limit keep room result buffer.old buffer.new solutions.old solutions.new }
{
    let given = Given::new(&s);
    let mut walk = Walk::new(&s, limit);
    walk.begin(&given, &s);
    let ending = run(&mut walk, &given, &mut s, buffer, keep, room, solutions);
    walk.end(&given, &mut s);
    Advanced {
        ending,
        struck: walk.struck,
        blocks: walk.done,
        state: s,
    }
}

// As many turns as are left, or up to a verdict, which marks the state.
fn run(
    walk: &mut Walk,
    given: &Given,
    s: &mut Search,
    buffer: &mut [u8],
    keep: bool,
    room: usize,
    solutions: &mut [i64],
) -> Ending
    requires { Runnable given.now s.old walk.old keep room buffer.old solutions.old }
    ensures { Runs given.now s.old walk.old keep room buffer.old solutions.old s.new walk.new buffer.new solutions.new result }
{
    while walk.done < walk.left {
        match walk.propagate(given, s) {
            Found::Decide(i) => walk.decide(given, s, i),
            Found::Finish => {
                if is_last(s.depth, walk.struck, room, s.propagations) {
                    s.status = Status::Solved;
                    walk.start_turn(s);
                    return Ending::Solution;
                }
                walk.strike_out(given, s, solutions);
            }
            Found::Conflict(j) => {
                if is_spent(s.conflicts, given.budget) {
                    s.levels[s.depth] = walk.level;
                    return Ending::OutOfBudget;
                }
                if !walk.count_conflict(given, s, j, keep, buffer) {
                    return Ending::NoSolution;
                }
            }
        }
    }
    Ending::GoOn
}
