// The solutions that a search strikes out on its way: which of them, and where their values go.
ghost use Rattle.std.specs.Prelude.{◌≡◌, ◌+◌, ◌*◌, ◌≤◌, length};
ghost use Rattle.model_problems.specs.Ranges.{max_variables};
ghost use Rattle.levels.specs.Struck.{ValuesPut, last_of};

use crate::copy_to;
use layout::MAX_PROPAGATIONS;

// Whether a solution at this depth stays: no decision led to it, there is no room for it, or a call would refuse the state for its count of bounds set.
pub fn is_last(depth: usize, struck: usize, room: usize, propagations: usize) -> bool
    ensures { result ≡ last_of depth struck room propagations }
{
    depth == 0 || struck == room || MAX_PROPAGATIONS < propagations
}

// The values of the solution that is struck out after `struck` others, n numbers after theirs.
pub fn put_values(values: &[i64; 32], n: usize, struck: usize, solutions: &mut [i64])
    requires { (n ≤ max_variables) × (n * struck + n ≤ length solutions.old) }
    ensures { ValuesPut n struck values.now solutions.old solutions.new }
{
    let at = n * struck;
    copy_to(values, n, at, solutions);
}
