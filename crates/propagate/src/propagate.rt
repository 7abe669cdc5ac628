// Propagation: document 01's move 2, repeated at one level.
ghost use Rattle.std.specs.Prelude.{◌≡◌, ℕ, ◌+◌, ◌≤◌};
ghost use Rattle.model_problems.specs.Lists.{with_default};
ghost use Rattle.model_problems.specs.Ranges.{max_variables};
ghost use Rattle.model_walk.specs.Move.{finish, first_open, slack};
ghost use Rattle.layout.specs.Rows.{box_of, thresholds_of};
ghost use Rattle.state.specs.View.{kept_cuts, number_for, level_of};
ghost use Rattle.propagate.specs.Moves.{open_of, stop_of};
ghost use Rattle.propagate.specs.Propagation.{propagation, propagation_of, most_counted};
ghost use Rattle.propagate.specs.Ready.{Ready, GapFree};
ghost use Rattle.propagate.specs.Tracked.{Tracked};
ghost use Rattle.bits.specs.Divided.{Columns};
ghost use Rattle.propagate.specs.Apart.{kept_over, Apart, Warned};
ghost use Rattle.bits.specs.Masks.{Masked};
ghost use Rattle.propagate.specs.Bounds.{past_gap};

use crate::bounds::set_bound;
use crate::track::Track;
use bits::divided::Divided;
use bits::masks::{Masks, open_mask};
use linear::activity::Bound;
use state::Level;
use state::kept::Kept;
use threshold::{lift, sink};

// Where propagation stops: at a conflict in the constraint at a position, at a decision at a variable, or at the solution.
#[derive(Clone, Copy, Debug, PartialEq, Eq)]
pub enum Found {
    Conflict(usize),
    Decide(usize),
    Finish,
}

// That, and the count of bounds that constraints set so far.
#[derive(Clone, Copy, Debug, PartialEq, Eq)]
pub struct Propagated {
    pub found: Found,
    pub count: usize,
}

// Move 3: the first variable with L < U.
fn first_open(level: &Level, n: usize) -> Option<usize>
    requires { n ≤ max_variables }
    ensures { open_of result ≡ first_open 0 (box_of n level.now.lower level.now.upper) }
{
    for i in 0..n {
        if level.lower[i] < level.upper[i] {
            return Some(i);
        }
    }
    None
}

// Where no constraint sets a bound: a decision at the first open variable, or the solution.
fn decide_or_finish(level: &Level, n: usize) -> Found
    requires { n ≤ max_variables }
    ensures { stop_of result ≡ with_default finish (first_open 0 (box_of n level.now.lower level.now.upper)) }
{
    match first_open(level, n) {
        Some(i) => Found::Decide(i),
        None => Found::Finish,
    }
}

// The bound, jumped over the gap that the threshold t leaves below it.
fn past_gap(t: i64, bound: Bound) -> Bound
    ensures { result ≡ past_gap t bound }
{
    match bound {
        Bound::Lower(v) => Bound::Lower(lift(t, v)),
        Bound::Upper(v) => Bound::Upper(sink(t, v)),
    }
}

// Move 2, repeated on the level in hand until the next move is a conflict, a decision or the end. `told` is the position of the first constraint that
// the level falsifies. What is kept of each inequality follows the level; at a conflict it is stale. A divisor constraint is tested where a bound of one
// of its variables is set. Each bound that is set is counted, on top of the `earlier` ones.
// Stays: eight parameters: what is read and what changes is lent one by one, for the engine changes the one while it lends the other.
pub fn propagate(
    kept: &Kept,
    divided: &Divided,
    masks: &Masks,
    thresholds: &[i64; 32],
    told: usize,
    earlier: usize,
    level: &mut Level,
    track: &mut Track,
) -> Propagated
    requires ready { Ready kept.now.n kept.now.m kept.now.made kept.now.rows.now level.old × GapFree kept.now.n thresholds.now level.old.lower level.old.upper }
    requires warned { Warned (kept_over kept.now.n kept.now.m kept.now.made kept.now.rows.now divided.now.lines divided.now.divisors) kept.now.n kept.now.rows.now level.old.lower level.old.upper track.old.activities track.old.reaches (kept.now.m + kept_cuts kept.now.made) told × Masked kept.now.n kept.now.m (kept.now.m + kept_cuts kept.now.made) kept.now.rows.now masks.now.inputs masks.now.cuts }
    requires apart { Apart kept.now.n kept.now.m kept.now.rows.now divided.now.lines divided.now.divisors × Columns kept.now.n kept.now.m divided.now.lines divided.now.divisors divided.now.columns }
    requires upper_bound { earlier + slack (box_of kept.now.n level.old.lower level.old.upper) ≤ most_counted }
    ensures by_index { propagation_of kept.now.n level.new result ≡ propagation (thresholds_of kept.now.n thresholds.now) (kept_over kept.now.n kept.now.m kept.now.made kept.now.rows.now divided.now.lines divided.now.divisors) (number_for kept.now.m kept.now.made) (level_of kept.now.n level.old) earlier }
    ensures decided { level.new.decided ≡ level.old.decided }
    ensures ready_2 { Ready kept.now.n kept.now.m kept.now.made kept.now.rows.now level.new × GapFree kept.now.n thresholds.now level.new.lower level.new.upper }
    ensures tracked { (Tracked kept.now.n kept.now.rows.now level.new.lower level.new.upper track.new.activities track.new.reaches 0) × ((i : ℕ) → result.found ≡ Found.Decide i → Tracked kept.now.n kept.now.rows.now level.new.lower level.new.upper track.new.activities track.new.reaches (kept.now.m + kept_cuts kept.now.made)) }
{
    let all = kept.count();
    let open = open_mask(level, kept.n);
    let mut falsified = told;
    let mut count = earlier;
    while falsified == all {
        let Some(better) = track.first_improvement(kept, level, masks, open) else {
            let found = decide_or_finish(level, kept.n);
            return Propagated { found, count };
        };
        let i = better.variable;
        let bound = past_gap(thresholds[i], better.bound);
        let reason = kept.number_of(better.constraint);
        let first = set_bound(kept, i, bound, reason, level, track);
        falsified = divided.first_falsified(divided.columns[i], level, kept.n, kept.m, first);
        count += 1;
    }
    let found = Found::Conflict(falsified);
    Propagated { found, count }
}
