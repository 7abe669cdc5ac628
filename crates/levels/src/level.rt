// The backjump level, document 01's d, sought from the deepest level outward.
ghost use Rattle.std.specs.Prelude.{true, T, ◌≡◌, ◌≤◌};
ghost use Rattle.model_problems.specs.Ranges.{max_variables};
ghost use Rattle.model_problems.specs.Constraint.{falsified};
ghost use Rattle.model_walk.specs.Conflict.{levels_tested};
ghost use Rattle.linear.specs.Ranges.{RowFits, DivisorFits};
ghost use Rattle.layout.specs.Rows.{divided_at, box_of};
ghost use Rattle.model_problems.specs.Lists.{all_of};
ghost use Rattle.model_problems.specs.Problem.{bounds_in_range};
ghost use Rattle.levels.specs.Level.{box_at, LevelsNested, LeastFalsifying};

use linear::divisibility::is_falsified;
use state::Level;

// The backjump level, and how many levels were tested to find it.
#[derive(Clone, Copy)]
pub struct BackjumpLevel {
    pub level: usize,
    pub tested: usize,
}

// Whether the level falsifies the cut, or the constraint with divisor q.
fn falsifies(level: &Level, cut: &[i64; 33], q: i64, n: usize) -> bool
    requires divisor_fits { DivisorFits q }
    requires row_fits { RowFits n cut.now 0 }
    requires range { T (all_of bounds_in_range (box_of n level.now.lower level.now.upper)) }
    ensures { result ≡ falsified (divided_at n cut.now 0 q) (box_of n level.now.lower level.now.upper) }
{
    is_falsified(cut, 0, q, &level.lower, &level.upper, n)
}

// The backjump level of a cut, or of a constraint with divisor q, that the level at `depth` falsifies: the least depth whose level falsifies it. Each
// level lies inside the one above it, so the levels that falsify it are the deepest ones, and the first that does not ends the search.
pub fn backjump_level(
    cut: &[i64; 33],
    q: i64,
    n: usize,
    depth: usize,
    levels: &[Level; 33],
) -> BackjumpLevel
    requires { DivisorFits q × ((RowFits n cut.now 0) × ((depth ≤ max_variables) × ((LevelsNested n depth levels.now) × (falsified (divided_at n cut.now 0 q) (box_at n levels.now depth) ≡ true)))) }
    ensures { (LeastFalsifying (divided_at n cut.now 0 q) n depth levels.now result.level) × (result.tested ≡ levels_tested depth result.level) }
{
    let mut tested = 0;
    for level in (0..=depth).rev() {
        tested += 1;
        if !falsifies(&levels[level], cut, q, n) {
            return BackjumpLevel {
                level: level + 1,
                tested,
            };
        }
    }
    BackjumpLevel { level: 0, tested }
}
