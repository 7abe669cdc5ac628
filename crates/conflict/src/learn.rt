// Learning from a conflict: the cut, its number, and keeping it.
ghost use Rattle.std.specs.Prelude.{List, ◌≡◌, ℕ, ◌+◌, length};
ghost use Rattle.model_problems.specs.Ranges.{max_cuts};
ghost use Rattle.state.specs.View.{kept_cuts};
ghost use Rattle.bits.specs.Masks.{Masked};
ghost use Rattle.conflict.specs.Learning.{Learnable, LearnedFrom, NothingLearned};

use analyze::analysis::{Analysis, Core};
use bits::masks::{Masks, row_mask};
use cuts::keeping::{equal_row, keep_number, keep_row};
use state::Level;
use state::kept::Store;

// The cut and what it was resolved from, and its number.
#[derive(Clone, Copy)]
pub struct Learned {
    pub cut: [i64; 33],
    pub used: [usize; 32],
    pub number: usize,
}

impl Learned {
    // At a constraint with a divisor.
    pub(crate) fn nothing() -> Learned
        ensures { NothingLearned result }
    {
        Learned {
            cut: [0; 33],
            used: [0; 32],
            number: 0,
        }
    }
}

// From the kept constraint in row j, which the level falsifies. A cut that is new is kept, with its number and its mask.
pub fn learn(
    level: &Level,
    n: usize,
    m: usize,
    j: usize,
    store: &mut Store,
    masks: &mut Masks,
) -> Learned
    requires learnable { Learnable n m store.old.made store.old.rows store.old.numbers level.now j }
    requires masks_len { length masks.old.cuts ≡ max_cuts }
    ensures learned { LearnedFrom n m store.old.made store.old.rows store.old.numbers level.now j result store.new.made store.new.rows store.new.numbers }
    ensures marked { (inputs : List ℕ) → Masked n m (m + kept_cuts store.old.made) store.old.rows inputs masks.old.cuts → Masked n m (m + kept_cuts store.new.made) store.new.rows inputs masks.new.cuts }
    ensures inputs { masks.new.inputs ≡ masks.old.inputs }
{
    let made = store.made;
    let kept = store.kept(n, m);
    let core = Core { kept, level };
    let Analysis { cut, used } = core.analyze(j);
    match equal_row(kept.rows, &cut, n, kept.count()) {
        Some(p) => Learned {
            cut,
            used,
            number: kept.number_of(p),
        },
        None => {
            let number = m + made + 1;
            keep_row(&mut store.rows, &cut, m, made);
            keep_number(&mut store.numbers, made, number);
            keep_number(&mut masks.cuts, made, row_mask(&cut, 0, n));
            store.made = made + 1;
            Learned { cut, used, number }
        }
    }
}
