// Whether a conflict can be counted; and a counted one: what is learned from it, the level to go back to, and its journal record.
#![tactic(auto)]

pub mod learn;

ghost use Rattle.std.specs.Prelude.{true, false, ◌≡◌};
ghost use Rattle.conflict.specs.Counting.{Countable, Counted};

use crate::learn::{Learned, learn};
use bits::divided::Divided;
use bits::masks::Masks;
use layout::{ROW, copy_row};
use levels::level::backjump_level;
use record::Record;
use state::Level;
use state::kept::{Store, divisor_of, number_of};

// Whether the budget has no conflict left.
// Stays: a function for one `==`: must-fail/spent_early.edit turns it.
pub fn is_spent(conflicts: usize, budget: usize) -> bool
    ensures { (result ≡ true → conflicts ≡ budget) × (result ≡ false → ¬ (conflicts ≡ budget)) }
{
    conflicts == budget
}

// What a conflict is met in: the sizes, the constraints set apart, and the levels down to the one in hand, which stands at `depth`.
#[derive(Clone, Copy)]
pub struct Branch<'a, 'b> {
    pub n: usize,
    pub m: usize,
    pub divided: &'a Divided,
    pub levels: &'b [Level; 33],
    pub depth: usize,
}

// The conflict in the kept constraint in row j, the `count`-th of the search. The cut is learned and kept, the backjump level sought outward from the
// deepest level, and the record put as block `done` of the buffer, if records are kept. From a divisor constraint nothing is learned: its record has zeros for
// the cut, and the level sought is its own. Returns the backjump level.
// Out of line: inlined, its arrays move those that the scans read, which then take 1.05 times as long on 07-blueprint-hard.
#[inline(never)]
// Stays: eight parameters: what is read and what changes is lent one by one, for the engine changes the one while it lends the other.
pub fn conflict(
    branch: &Branch,
    j: usize,
    count: usize,
    keep: bool,
    done: usize,
    store: &mut Store,
    masks: &mut Masks,
    buffer: &mut [u8],
) -> usize
    requires { Countable branch.now.n branch.now.m store.old.made j branch.now.depth count done keep store.old.rows store.old.numbers branch.now.levels.now branch.now.divided.now.lines branch.now.divided.now.divisors masks.old.cuts buffer.old }
    ensures counted { Counted branch.now.n branch.now.m store.old.made j branch.now.depth count done keep store.old.rows store.old.numbers branch.now.levels.now branch.now.divided.now.lines branch.now.divided.now.divisors masks.old.cuts buffer.old result store.new.made store.new.rows store.new.numbers masks.new.cuts buffer.new }
    ensures inputs { masks.new.inputs ≡ masks.old.inputs }
{
    let Branch {
        n,
        m,
        divided,
        levels,
        depth,
    } = *branch;
    let falsified = number_of(m, store.made, j);
    let q = divisor_of(&divided.divisors, m, j);
    let learned;
    let sought;
    if q != 0 {
        learned = Learned::nothing();
        sought = copy_row(&divided.lines, ROW * j, n);
    } else {
        learned = learn(&levels[depth], n, m, j, store, masks);
        sought = learned.cut;
    }
    let Learned { cut, used, number } = learned;
    let back = backjump_level(&sought, q, n, depth, levels).level;
    let record = Record {
        count,
        falsified,
        number,
        depth,
        back,
        cut,
        used,
    };
    record.emit(buffer, keep, done);
    back
}
