// What is tracked of each kept constraint as bounds change, and the scans of document 01's moves 1 and 2 that read it.
ghost use Rattle.std.specs.Prelude.{◌≡◌, ℕ, ◌+◌, ◌≤◌, ◌<◌, pos, ◌≤ℤ◌};
ghost use Rattle.model_problems.specs.Lists.{tab};
ghost use Rattle.model_problems.specs.Ranges.{max_constraints};
ghost use Rattle.model_walk.specs.Move.{first_improvement};
ghost use Rattle.integer.specs.Size.{Within};
ghost use Rattle.linear.specs.Ranges.{widest_activity};
ghost use Rattle.layout.specs.Rows.{number_in, row_at, box_of, max_rows};
ghost use Rattle.state.specs.View.{kept_cuts};
ghost use Rattle.propagate.specs.Moves.{found_of};
ghost use Rattle.propagate.specs.Tracked.{ScanFits, Shiftable, Shifted, Tracked, FirstAbove};
ghost use Rattle.bits.specs.Masks.{Masked, Opens};

use bits::masks::{Masks, both, first, rest};
use layout::ROW;
use linear::activity::{Bound, further, improvement_at, min_activity, term};
use state::Level;
use state::kept::Kept;

// More than any variable can move a constraint.
// Stays: a number for 'not known': it is larger than any slack, so that the scan's one comparison serves it too.
const UNKNOWN: i64 = 1 << 55;

// What move 2 finds: a better bound of a variable, and the position of the constraint that implies it.
#[derive(Clone, Copy, Debug, PartialEq, Eq)]
pub struct Improvement {
    pub constraint: usize,
    pub variable: usize,
    pub bound: Bound,
}

// Of each kept constraint: its minimum activity at the level in hand, and a number that no variable's span exceeds, which may be stale but never too
// small. Both are stale once a constraint is falsified.
#[derive(Drop)]
pub struct Track {
    pub activities: [i64; 128],
    pub reaches: [i64; 128],
}

impl Track {
    // The minimum activities of the constraints from position `from` on; what they reach is not known yet.
    pub fn measure(&mut self, kept: &Kept, level: &Level, from: usize)
        requires fits { (ScanFits kept.now.n (kept.now.m + kept_cuts kept.now.made) kept.now.rows.now level.now.lower level.now.upper) × ((from ≤ kept.now.m + kept_cuts kept.now.made) × Tracked kept.now.n kept.now.rows.now level.now.lower level.now.upper self.old.activities self.old.reaches from) }
        ensures { Tracked kept.now.n kept.now.rows.now level.now.lower level.now.upper self.new.activities self.new.reaches (kept.now.m + kept_cuts kept.now.made) }
    {
        let rows = kept.rows;
        for j in from..kept.count() {
            self.activities[j] = min_activity(rows, ROW * j, &level.lower, &level.upper, kept.n);
            self.reaches[j] = UNKNOWN;
        }
    }

    // The minimum activities after the bounds of variable i changed, the lower one by `rise` and the upper one by `fall`, up to the first constraint that
    // is falsified now. Returns its position, or how many are kept. Past a falsified constraint the activities are stale, and nobody reads them again.
    pub fn shift(&mut self, kept: &Kept, i: usize, rise: i64, fall: i64) -> usize
        requires shiftable { Shiftable (kept.now.m + kept_cuts kept.now.made) i rise fall kept.now.rows.now self.old.activities }
        ensures shifted { Shifted (kept.now.m + kept_cuts kept.now.made) i rise fall kept.now.rows.now self.old.activities self.new.activities result }
        ensures reaches { self.new.reaches ≡ self.old.reaches }
    {
        // Stays: `count` stands for none, since the result is the limit of the scan for an indivisible sum that comes next (`FirstIndivisible`).
        let count = kept.count();
        for j in 0..count {
            let activity = self.activities[j] + term(kept.rows[ROW * j + 1 + i], rise, fall);
            self.activities[j] = activity;
            if 0 < activity {
                return j;
            }
        }
        count
    }

    // Move 1: the position of the first falsified constraint, or the number of kept ones.
    pub fn first_falsified(&self, count: usize) -> usize
        requires { (count ≤ max_rows) × ((j : ℕ) → j < count → Within widest_activity (number_in self.now.activities j)) }
        ensures { FirstAbove count self.now.activities result }
    {
        // Stays: `count` stands for none, since the result is the limit of the scan for an indivisible sum that comes next (`FirstIndivisible`).
        (0..count)
            .find(|j| 0 < self.activities[*j])
            .unwrap_or(count)
    }

    // Move 2: the first improvement, by constraint and then by variable. No kept constraint is falsified. A constraint whose slack is no less than what it
    // reaches improves no bound. Only the open variables that it mentions are looked at: any other moves it nowhere.
    pub fn first_improvement(
        &mut self,
        kept: &Kept,
        level: &Level,
        masks: &Masks,
        open: usize,
    ) -> Option<Improvement>
        requires scan_fits { (ScanFits kept.now.n (kept.now.m + kept_cuts kept.now.made) kept.now.rows.now level.now.lower level.now.upper) × ((Tracked kept.now.n kept.now.rows.now level.now.lower level.now.upper self.old.activities self.old.reaches (kept.now.m + kept_cuts kept.now.made)) × ((j : ℕ) → j < kept.now.m + kept_cuts kept.now.made → number_in self.old.activities j ≤ℤ pos 0)) }
        requires masked { Masked kept.now.n kept.now.m (kept.now.m + kept_cuts kept.now.made) kept.now.rows.now masks.now.inputs masks.now.cuts × Opens kept.now.n level.now.lower level.now.upper «open» }
        requires m_le_max_constraints { kept.now.m ≤ max_constraints }
        ensures result_value { found_of result ≡ first_improvement 0 (tab (row_at kept.now.n kept.now.rows.now) 0 (kept.now.m + kept_cuts kept.now.made)) (box_of kept.now.n level.now.lower level.now.upper) }
        ensures tracked { Tracked kept.now.n kept.now.rows.now level.now.lower level.now.upper self.new.activities self.new.reaches (kept.now.m + kept_cuts kept.now.made) }
        ensures activities { self.new.activities ≡ self.old.activities }
    {
        let mut hit = None;
        // Stays: a nested scan that is left by a label, one of document 01's forms by place.
        'scan: for j in 0..kept.count() {
            let activity = self.activities[j];
            let slack = -activity;
            if self.reaches[j] <= slack {
                continue 'scan;
            }
            let mut left = both(masks.of(kept.m, j), open);
            let mut far = 0;
            while left != 0 {
                let i = first(left);
                left = rest(left);
                let a = kept.rows[ROW * j + 1 + i];
                let low = level.lower[i];
                let high = level.upper[i];
                far = further(far, a, low, high);
                if slack < far {
                    if let Some(bound) = improvement_at(a, low, high, activity) {
                        hit = Some(Improvement {
                            constraint: j,
                            variable: i,
                            bound,
                        });
                        break 'scan;
                    }
                }
            }
            self.reaches[j] = far;
        }
        hit
    }
}
