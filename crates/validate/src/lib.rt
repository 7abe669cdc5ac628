// Document 01's 'foreign walk' (9): whether a search state is one that a turn or a run takes.
#![tactic(auto)]

ghost use Rattle.std.specs.Prelude.{◌≡◌, true, ◌≤◌, ◌&&◌};
ghost use Rattle.model_problems.specs.Ranges.{max_variables, max_constraints, max_budget};
ghost use Rattle.model_problems.specs.Lists.{all_of};
ghost use Rattle.model_walk.specs.Search.{levels};
ghost use Rattle.model_walk.specs.Validity.{numbers_valid, levels_valid, level_allowed, nested_valid, status_valid, admitted};
ghost use Rattle.state.specs.View.{status_of, core_of, view};
ghost use Rattle.conditions.specs.Passed.{ConstraintsPassed};

use conditions::scalars::{are_numbers_valid, are_sizes_valid};
use conditions::status::is_status_valid;
use layout::MAX_PROPAGATIONS;
use layout::range::{are_divisors_in_range, are_in_range};
use level_conditions::nesting::{is_level_valid, is_nested};
use state::Search;
use state::kept::{dropped, kept_count, kept_cuts};
use threshold::range::are_thresholds;

// Whether the stored numbers of the kept cuts follow one another, up to the number of cuts made.
fn are_cuts_numbered(s: &Search) -> bool
    requires { (s.now.m ≤ max_constraints) × (s.now.made ≤ max_budget) }
    ensures { result ≡ numbers_valid (core_of s.now) }
{
    are_numbers_valid(&s.numbers, s.m + dropped(s.made) + 1, kept_cuts(s.made))
}

// Whether each level is valid by itself, and each but the outermost nested in the one above it.
fn are_levels_valid(s: &Search) -> bool
    requires { (s.now.n ≤ max_variables) × (s.now.depth ≤ s.now.n) × (s.now.m ≤ max_constraints) × (s.now.made ≤ max_budget) }
    ensures { result ≡ ((levels_valid (core_of s.now) && all_of (level_allowed (core_of s.now).thresholds) (levels (core_of s.now))) && nested_valid s.now.n (core_of s.now).deepest (core_of s.now).outer) }
{
    let n = s.n;
    let last = s.m + s.made;
    is_level_valid(&s.levels[0], &s.thresholds, n, last)
        && (0..s.depth).all(|d| {
            let l = &s.levels[d + 1];
            is_level_valid(l, &s.thresholds, n, last) && is_nested(l, &s.levels[d], n)
        })
}

// Whether the mark is one that the kept constraints and the bounds of the outermost and the deepest level bear out.
fn is_mark_valid(s: &Search) -> bool
    requires passed { ConstraintsPassed s.now }
    requires depth { s.now.depth ≤ s.now.n }
    requires levels { levels_valid (core_of s.now) ≡ true }
    ensures { result ≡ status_valid (core_of s.now) (status_of s.now.status) }
{
    let kept = kept_count(s.m, s.made);
    let outermost = state::whole(s.levels[0]);
    let deepest = state::whole(s.levels[s.depth]);
    is_status_valid(
        s.status,
        &s.rows,
        &s.divisors,
        s.m,
        kept,
        outermost,
        deepest,
        s.n,
    )
}

// Whether a call takes a search state, made up or not: none of the conditions of a 'foreign walk' holds. Sizes come first, for indices are computed from
// them, and ranges before any activity.
pub fn is_admitted(s: &Search) -> bool
    ensures { result ≡ admitted (view s.now) }
{
    are_sizes_valid(s)
        && are_in_range(&s.rows, kept_count(s.m, s.made), s.n)
        && are_divisors_in_range(&s.divisors, s.m)
        && are_thresholds(&s.thresholds, s.n)
        && are_cuts_numbered(s)
        && are_levels_valid(s)
        && is_mark_valid(s)
        && s.propagations <= MAX_PROPAGATIONS
}
