// The levels of a search state: bounds, reasons, nesting and decisions.
ghost use Rattle.std.specs.Prelude.{◌≡◌, ◌≤◌, length};
ghost use Rattle.model_problems.specs.Lists.{tab, all_of};
ghost use Rattle.model_walk.specs.Validity.{reason_valid, reasons_valid, box_inside, decision_valid};
ghost use Rattle.layout.specs.Rows.{box_of, thresholds_of};
ghost use Rattle.state.specs.View.{reason_of, reasons_in, level_of};
ghost use Rattle.level_conditions.specs.Nested.{level_passes, nested_in};

use layout::range::are_bounds_in_range;
use state::{DECISION, DOMAIN, FLIPPED, Level};
use threshold::range::are_outside;

// Whether a reason is a named one or the number of a constraint, 1 to `last`.
#[tactic(auto, unfolding(model_walk::specs::Validity::reason_valid, state::specs::View::reason_of))]
fn is_reason_valid(k: usize, last: usize) -> bool
    ensures { result ≡ reason_valid last (reason_of k) }
{
    matches!(k, DOMAIN | DECISION | FLIPPED) || k <= last
}

// Stays: two slices side by side: `reasons_in`, which its contract cites, reads the two.
fn are_reasons_valid(below: &[usize], above: &[usize], n: usize, last: usize) -> bool
    requires { (n ≤ length below.now) × (n ≤ length above.now) }
    ensures { result ≡ all_of (reasons_valid last) (tab (reasons_in below.now above.now) 0 n) }
{
    (0..n).all(|i| is_reason_valid(below[i], last) && is_reason_valid(above[i], last))
}

// Whether a level by itself is valid; `last` is the largest number of a constraint.
#[tactic(auto, unfolding(crate::specs::Nested::level_passes, model_walk::specs::Validity::level_allowed, model_walk::specs::Validity::level_valid, state::specs::View::level_of))]
pub fn is_level_valid(l: &Level, thresholds: &[i64; 32], n: usize, last: usize) -> bool
    requires { n ≤ 32 }
    ensures { result ≡ level_passes last (thresholds_of n thresholds.now) (level_of n l.now) }
{
    are_bounds_in_range(&l.lower, &l.upper, n)
        && are_reasons_valid(&l.below, &l.above, n, last)
        && are_outside(thresholds, &l.lower, &l.upper, n)
}

// Whether the bounds of a level lie inside those of the level above.
fn is_box_inside(l: &Level, outer: &Level, n: usize) -> bool
    requires { n ≤ 32 }
    ensures { result ≡ box_inside (box_of n l.now.lower l.now.upper) (box_of n outer.now.lower outer.now.upper) }
{
    (0..n).all(|i| outer.lower[i] <= l.lower[i] && l.upper[i] <= outer.upper[i])
}

// Whether the decided variable is in range, open in the level above, and fixed at its lower bound there.
fn is_decision_valid(l: &Level, outer: &Level, n: usize) -> bool
    requires { n ≤ 32 }
    ensures { result ≡ decision_valid n l.now.decided (box_of n l.now.lower l.now.upper) (box_of n outer.now.lower outer.now.upper) }
{
    let i = l.decided;
    i < n
        && outer.lower[i] < outer.upper[i]
        && l.lower[i] == outer.lower[i]
        && l.upper[i] == outer.lower[i]
}

// Whether a level is one that a decision in the level above it leads to.
#[tactic(auto, unfolding(crate::specs::Nested::nested_in, state::specs::View::level_of))]
pub fn is_nested(l: &Level, outer: &Level, n: usize) -> bool
    requires { n ≤ 32 }
    ensures { result ≡ nested_in n (level_of n l.now) (level_of n outer.now) }
{
    is_box_inside(l, outer, n) && is_decision_valid(l, outer, n)
}
