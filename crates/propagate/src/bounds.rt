// Changes of a level's bounds. Everything that sets a bound goes through `set`.
ghost use Rattle.std.specs.Prelude.{◌≡◌, ◌+◌, ◌≤◌, ◌-ℤ◌};
ghost use Rattle.layout.specs.Rows.{number_in};
ghost use Rattle.state.specs.View.{kept_cuts};
ghost use Rattle.propagate.specs.Tracked.{Shiftable, Shifted};
ghost use Rattle.propagate.specs.Bounds.{Settable, SettableAt, BoundSet, rise_of, fall_of, bounded};

use crate::track::Track;
use linear::activity::Bound;
use state::Level;
use state::kept::Kept;

// Sets the bound of variable i on one side, and its reason. Returns by how much the bound changed.
pub fn set(
    bounds: &mut [i64; 32],
    reasons: &mut [usize; 32],
    i: usize,
    v: i64,
    reason: usize,
) -> i64
    requires { Settable i v bounds.old reasons.old }
    ensures { (result ≡ v -ℤ number_in bounds.old i) × BoundSet i v reason bounds.old reasons.old bounds.new reasons.new }
{
    let old = bounds[i];
    bounds[i] = v;
    reasons[i] = reason;
    v - old
}

// Sets a bound of variable i, and its reason. Returns the position of the first constraint that is falsified now, or how many are kept.
// Stays: the number of kept constraints stands for none: the result is the limit of the scan that comes next, which an Option would have to become first.
pub(crate) fn set_bound(
    kept: &Kept,
    i: usize,
    bound: Bound,
    reason: usize,
    level: &mut Level,
    track: &mut Track,
) -> usize
    requires settable { SettableAt i bound level.old }
    requires shiftable { Shiftable (kept.now.m + kept_cuts kept.now.made) i (rise_of i bound level.old.lower) (fall_of i bound level.old.upper) kept.now.rows.now track.old.activities }
    ensures level { level.new ≡ bounded level.old i bound reason }
    ensures shifted { Shifted (kept.now.m + kept_cuts kept.now.made) i (rise_of i bound level.old.lower) (fall_of i bound level.old.upper) kept.now.rows.now track.old.activities track.new.activities result }
    ensures reaches { track.new.reaches ≡ track.old.reaches }
{
    // Stays: a call of `shift` in each arm, where the other side's change is 0. One call after the match takes 1.05 times as long.
    match bound {
        Bound::Lower(v) => {
            let rise = set(&mut level.lower, &mut level.below, i, v, reason);
            track.shift(kept, i, rise, 0)
        }
        Bound::Upper(v) => {
            let fall = set(&mut level.upper, &mut level.above, i, v, reason);
            track.shift(kept, i, 0, fall)
        }
    }
}
