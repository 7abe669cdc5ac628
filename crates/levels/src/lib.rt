// The backjump level, which is sought among the levels of a search, and the values of solutions that it strikes out.
#![tactic(auto)]

pub mod level;
pub mod struck;

ghost use Rattle.std.specs.Prelude.{◌+◌, ◌≤◌, length};
ghost use Rattle.levels.specs.Copied.{Copied};

// The first `count` numbers, to place `at`.
// Stays: a place beside the array: levels and solutions lie one after the other in it.
pub fn copy_to(from: &[i64], count: usize, at: usize, to: &mut [i64])
    requires { (count ≤ length from.now) × (at + count ≤ length to.old) }
    ensures { Copied count at from.now to.old to.new }
{
    to[at..at + count].copy_from_slice(&from[..count]);
}
