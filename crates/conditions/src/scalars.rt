// The sizes and counters of a search state, and the numbers of its kept cuts.
ghost use Rattle.std.specs.Prelude.{◌≡◌, ◌≤◌, eqb, length};
ghost use Rattle.model_problems.specs.Lists.{tab, all_pairs};
ghost use Rattle.model_problems.specs.Ranges.{max_cuts};
ghost use Rattle.model_walk.specs.Validity.{scalars_valid};
ghost use Rattle.state.specs.View.{stored_number, view};
ghost use Rattle.conditions.specs.Sizes.{max_first, number_from};

use layout::range::sizes_in_range;
use state::Search;

// Whether n, m, B, the dead ends, the cuts made and the depth are in range.
pub fn are_sizes_valid(s: &Search) -> bool
    ensures { result ≡ scalars_valid (view s.now) }
{
    sizes_in_range(s.n, s.m, s.budget)
        && s.depth <= s.n
        && s.conflicts <= s.budget
        && s.made <= s.conflicts
}

// Whether the first `count` stored numbers follow one another from `first` on.
pub fn are_numbers_valid(numbers: &[usize], first: usize, count: usize) -> bool
    requires { (first ≤ max_first) × (count ≤ max_cuts) × (count ≤ length numbers.now) }
    ensures { result ≡ all_pairs eqb (tab (stored_number numbers.now) 0 count) (tab (number_from first) 0 count) }
{
    (0..count).all(|p| numbers[p] == first + p)
}
