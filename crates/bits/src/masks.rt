// Masks of variables, and the walk through the bits that are set.
ghost use Rattle.std.specs.Prelude.{◌⊎◌, false, ◌≡◌, ℕ, ◌+◌, ◌*◌, ◌^◌, ◌≤◌, ◌<◌, List, ℤ, length};
ghost use Rattle.std.specs.Iterator.{at_most};
ghost use Rattle.model_problems.specs.Ranges.{max_variables, max_constraints, max_cuts};
ghost use Rattle.layout.specs.Rows.{row_length};
ghost use Rattle.bits.specs.Masks.{bit, Mentions, Opens, Masked};
ghost use Rattle.bits.specs.Walk.{First, Rest, Step};

use state::Level;

// The numbers below `count` that pass a test. Each turn makes room at bit 0 for the number below.
pub(crate) fn mask_where<F: Fn(usize) -> bool>(count: usize, test: F) -> usize
    requires few { count ≤ max_constraints }
    requires testable { (i : ℕ) → i < count → F.pre test i }
    ensures few { result < 2 ^ count }
    ensures rest { (i : ℕ) → i < count → bit result i ≡ 0 → F.post test i false }
{
    let mut mask = 0;
    for i in (0..count).rev() {
        mask = 2 * mask + usize::from(test(i));
    }
    mask
}

// The variables that the constraint whose row starts at `start` mentions.
pub fn row_mask(rows: &[i64], start: usize, n: usize) -> usize
    requires { (n ≤ max_variables) × (start + n < length rows.now) }
    ensures { Mentions n rows.now start result }
{
    mask_where(n, |i| rows[start + 1 + i] != 0)
}

// The variables with L < U.
pub fn open_mask(level: &Level, n: usize) -> usize
    requires { n ≤ max_variables }
    ensures { Opens n level.now.lower level.now.upper result }
{
    mask_where(n, |i| level.lower[i] < level.upper[i])
}

// The lowest bit that is set.
pub fn first(mask: usize) -> usize
    requires { 0 < mask }
    ensures { First mask result }
{
    mask.trailing_zeros() as usize
}

// The bits above that one.
pub fn rest(mask: usize) -> usize
    requires { 0 < mask }
    ensures { Rest mask result }
{
    mask & (mask - 1)
}

// The bits of a mask that are set, from the lowest up.
#[derive(Clone, Copy)]
pub(crate) struct SetBits(pub(crate) usize);

impl Iterator for SetBits {
    type Item = usize;

    ghost next_gives = { λ old bit new. Step old.0 bit new.0 };

    ghost remaining = { λ left. at_most left.0 };

    fn next(&mut self) -> Option<usize> {
        if self.0 == 0 {
            return None;
        }
        let bit = first(self.0);
        self.0 = rest(self.0);
        Some(bit)
    }
}

// The bits that two masks share.
pub fn both(a: usize, b: usize) -> usize
    ensures { (result ≤ a) × ((i : ℕ) → bit result i ≡ 0 → (bit a i ≡ 0) ⊎ (bit b i ≡ 0)) }
{
    a & b
}

// The variables that each input and each kept cut mentions.
#[derive(Drop)]
pub struct Masks {
    pub inputs: [usize; 64],
    pub cuts: [usize; 64],
}

impl Masks {
    // The mask of the constraint at position j: of the m inputs, or of the cuts after them.
    pub fn of(&self, m: usize, j: usize) -> usize
        requires { (m ≤ max_constraints) × (j < m + max_cuts) }
        ensures { (n kept : ℕ) (rows : List ℤ) → Masked n m kept rows self.now.inputs self.now.cuts → j < kept → Mentions n rows (row_length * j) result }
    {
        if j < m {
            self.inputs[j]
        } else {
            self.cuts[j - m]
        }
    }
}
