// Analysis of a 'dead end': F starts as a false kept constraint and is combined, variable by variable, with the constraints that set the bounds
// which its lowest value uses. The last F is the cut.
ghost use Rattle.std.specs.Prelude.{true, false, List, ◌≡◌, ℕ, ◌+◌, ◌*◌, ◌<◌, length, unwrap_or};
ghost use Rattle.model_problems.specs.Constraint.{falsified, in_range};
ghost use Rattle.model_walk.specs.Search as model;
ghost use Rattle.model_walk.specs.Conflict.{used_reason, resolve_at};
ghost use Rattle.layout.specs.Rows.{row_length, constraint_at, box_of};
ghost use Rattle.state.specs.View.{reason_of, kept_cuts};
ghost use Rattle.analyze.specs.Analyzable.{Analyzable, Resolvable, ResolventOf, core_at, ResolvedAs};
ghost use Rattle.analyze.specs.Analyzed.{Analyzed};

use derivation::resolving::{combine_at, is_opposite};
use derivation::rounding::round_into_range;
use layout::range::is_in_range;
use layout::{ROW, copy_row};
use linear::activity::is_falsified;
use state::Level;
use state::kept::{Kept, position_of};

// The cut, and for each variable the number of the constraint taken in, 0 for none.
// Stays: 0 for none, as the journal record has it (document 01's journal block).
#[derive(Clone, Copy)]
pub struct Analysis {
    pub cut: [i64; 33],
    pub used: [usize; 32],
}

// What analysis reads of a state: the kept constraints, and the bounds of the level in hand, each with its reason.
#[derive(Clone, Copy)]
pub struct Core<'a, 'b> {
    pub kept: Kept<'a>,
    pub level: &'b Level,
    ghost in_range: { Analyzable kept.n kept.m kept.made kept.rows.now level.now.lower level.now.upper },
}

// The reason of the bound that the lowest value uses at coefficient a.
fn used_reason(a: i64, below: usize, above: usize) -> usize
    ensures { reason_of result ≡ used_reason a (record { lower = reason_of below; upper = reason_of above }) }
{
    if a < 0 { above } else { below }
}

impl Core<'_, '_> {
    // Whether a constraint is in range and not falsified. Rounding changes neither, so what is combined is tried before it is rounded. Only in range does the
    // lowest value fit.
    fn is_holding(&self, c: &[i64; 33]) -> bool
        requires { length c.now ≡ row_length }
        ensures { result ≡ true → (in_range (constraint_at self.now.kept.n c.now 0) ≡ true) × (falsified (constraint_at self.now.kept.n c.now 0) (box_of self.now.kept.n self.now.level.now.lower self.now.level.now.upper) ≡ false) }
    {
        let n = self.kept.n;
        let Level { lower, upper, .. } = self.level;
        is_in_range(c, 0, n) && !is_falsified(c, 0, lower, upper, n)
    }

    // F combined at variable i with the kept constraint in row j, if the signs are opposite and the outcome may be taken.
    fn resolvent(&self, f: &[i64; 33], i: usize, j: usize) -> Option<[i64; 33]>
        requires { Resolvable self.now.kept.n (self.now.kept.m + kept_cuts self.now.kept.made) f.now i j }
        ensures { ResolventOf self.now.kept.n self.now.kept.rows.now self.now.level.now.lower self.now.level.now.upper f.now i j result }
    {
        let Kept { rows, n, .. } = self.kept;
        let Level { lower, upper, .. } = self.level;
        let start = ROW * j;
        if !is_opposite(f[i + 1], rows[start + 1 + i]) {
            return None;
        }
        let mut g = [0; 33];
        combine_at(f, 0, rows, start, i, n, &mut g);
        if self.is_holding(&g) {
            return None;
        }
        round_into_range(&mut g, n);
        if !is_in_range(&g, 0, n) {
            return None;
        }
        is_falsified(&g, 0, lower, upper, n).then_some(g)
    }

    // F combined in place at variable i with the reason of the bound that it uses there, if that is a kept constraint and its outcome may be taken. Returns
    // the constraint's number.
    fn resolve_at(&self, f: &mut [i64; 33], i: usize) -> Option<usize>
        requires { (i < self.now.kept.n) × ((in_range (constraint_at self.now.kept.n f.old 0) ≡ true) × (length f.old ≡ row_length)) }
        ensures { (numbers : List ℕ) (decided : ℕ) (outer : List model.Level) → ResolvedAs self.now.kept.n (resolve_at (core_at self.now.kept.n self.now.kept.m self.now.kept.made self.now.kept.rows.now self.now.level.now.lower self.now.level.now.upper self.now.level.now.below self.now.level.now.above numbers decided outer) i (constraint_at self.now.kept.n f.old 0)) f.new (unwrap_or result 0) }
    {
        let reason = used_reason(f[i + 1], self.level.below[i], self.level.above[i]);
        let j = position_of(self.kept.m, self.kept.made, reason)?;
        *f = self.resolvent(f, i, j)?;
        Some(reason)
    }

    // The 'cut' of the dead end at the kept constraint in row j, and what was taken in.
    pub fn analyze(&self, j: usize) -> Analysis
        requires { j < self.now.kept.m + kept_cuts self.now.kept.made }
        ensures { Analyzed self.now.kept.n self.now.kept.m self.now.kept.made self.now.kept.rows.now self.now.level.now.lower self.now.level.now.upper self.now.level.now.below self.now.level.now.above j result }
    {
        let Kept { rows, n, .. } = self.kept;
        let mut f = copy_row(rows, ROW * j, n);
        let mut used = [0; 32];
        for i in (0..n).rev() {
            used[i] = self.resolve_at(&mut f, i).unwrap_or(0);
        }
        let cut = copy_row(&f, 0, n);
        Analysis { cut, used }
    }
}
