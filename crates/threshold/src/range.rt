// The tests of thresholds, and of bounds beside them.
ghost use Rattle.std.specs.Prelude.{◌≡◌, ◌≤◌, length};
ghost use Rattle.model_problems.specs.Lists.{all_of, all_pairs};
ghost use Rattle.model_problems.specs.Threshold.{threshold_fits, is_threshold, outside_gap};
ghost use Rattle.layout.specs.Rows.{box_of, thresholds_of};

use crate::is_in_gap;
use layout::MAX_BOUND;
use layout::range::is_none_or_from_two;

// Whether a problem may have this threshold beside these limits.
fn fits(t: i64, lower: i64, upper: i64) -> bool
    ensures { result ≡ threshold_fits t (record { lower = lower; upper = upper }) }
{
    is_none_or_from_two(upper, t) && (t == 0 || lower == 0)
}

// Whether a problem may have the thresholds of n variables beside their limits.
// Stays: slices side by side, here and below: they are the bounds of a level and of a problem, which are two structs.
pub fn all_fit(thresholds: &[i64], lower: &[i64], upper: &[i64], n: usize) -> bool
    requires { (n ≤ length thresholds.now) × ((n ≤ length lower.now) × (n ≤ length upper.now)) }
    ensures { result ≡ all_pairs threshold_fits (thresholds_of n thresholds.now) (box_of n lower.now upper.now) }
{
    (0..n).all(|i| fits(thresholds[i], lower[i], upper[i]))
}

// Whether a search state may carry this threshold.
#[tactic(auto, unfolding(model_problems::specs::Threshold::is_threshold))]
fn is_threshold(t: i64) -> bool
    ensures { result ≡ is_threshold t }
{
    is_none_or_from_two(i64::from(MAX_BOUND), t)
}

// Whether a search state may carry the thresholds of n variables.
pub fn are_thresholds(thresholds: &[i64], n: usize) -> bool
    requires { n ≤ length thresholds.now }
    ensures { result ≡ all_of is_threshold (thresholds_of n thresholds.now) }
{
    thresholds[..n].iter().all(|t| is_threshold(*t))
}

// Whether neither bound of a variable lies in the gap.
#[tactic(auto, unfolding(model_problems::specs::Threshold::allowed, model_problems::specs::Threshold::outside_gap))]
fn is_outside(t: i64, lower: i64, upper: i64) -> bool
    ensures { result ≡ outside_gap t (record { lower = lower; upper = upper }) }
{
    !is_in_gap(t, lower) && !is_in_gap(t, upper)
}

// Whether no bound of n variables lies in the gap.
pub fn are_outside(thresholds: &[i64], lower: &[i64], upper: &[i64], n: usize) -> bool
    requires { (n ≤ length thresholds.now) × ((n ≤ length lower.now) × (n ≤ length upper.now)) }
    ensures { result ≡ all_pairs outside_gap (thresholds_of n thresholds.now) (box_of n lower.now upper.now) }
{
    (0..n).all(|i| is_outside(thresholds[i], lower[i], upper[i]))
}
