// The variables that the constraints mention, marked when a call starts.
ghost use Rattle.turns.specs.Marking.{Markable, Marks};

use bits::masks::row_mask;
use layout::ROW;

// The masks of `count` constraints from row `from` on.
pub fn marks(rows: &[i64; 4224], n: usize, from: usize, count: usize) -> [usize; 64]
    requires { Markable n from count rows.now }
    ensures { Marks n from count rows.now result }
{
    let mut masks = [0; 64];
    for p in 0..count {
        masks[p] = row_mask(rows, ROW * (from + p), n);
    }
    masks
}
