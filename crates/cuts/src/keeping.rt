// Keeping a cut: 'input lines and the 64 newest cuts are kept', in the rows after the inputs, oldest first.
ghost use Rattle.std.specs.Prelude.{◌≡◌, ◌+◌, ◌*◌, ◌≤◌, ◌<◌, length, IfSome};
ghost use Rattle.model_problems.specs.Lists.{tab};
ghost use Rattle.model_problems.specs.Ranges.{max_variables, max_constraints, max_cuts};
ghost use Rattle.model_walk.specs.Conflict.{first_equal};
ghost use Rattle.layout.specs.Rows.{row_length, constraint_at, row_at, max_rows, rows_length};
ghost use Rattle.cuts.specs.Storing.{NewestKept, RowKept, NumberKept, found_at};

use layout::{MAX_CUTS, ROW, is_equal};

// The place of the newest cut where all are held.
const LAST_CUT: usize = MAX_CUTS - 1;

// The position of the first of the kept constraints that equals the cut.
pub fn equal_row(rows: &[i64; 4224], cut: &[i64; 33], n: usize, kept: usize) -> Option<usize>
    requires { (n ≤ max_variables) × ((kept ≤ max_rows) × ((length rows.now ≡ rows_length) × (length cut.now ≡ row_length))) }
    ensures first { first_equal 0 (tab (row_at n rows.now) 0 kept) (constraint_at n cut.now 0) ≡ found_at result }
    ensures inside { IfSome result (λ j. j < kept) }
{
    (0..kept).find(|&j| is_equal(cut, 0, rows, ROW * j, n))
}

// The newest of the items that `list` has room for, where `made` were made before it: where none is free the oldest goes, and the others move down.
fn keep_newest<T: Copy>(list: &mut [T], item: &[T], made: usize)
    requires { length list.old ≡ length item.now * max_cuts }
    ensures { NewestKept made item.now list.old list.new }
{
    let size = item.len();
    if MAX_CUTS <= made {
        list.copy_within(size.., 0);
    }
    let at = size * made.min(LAST_CUT);
    list[at..at + size].copy_from_slice(item);
}

// The cut kept as the newest, where `made` were made before it.
pub fn keep_row(rows: &mut [i64; 4224], cut: &[i64; 33], m: usize, made: usize)
    requires { (m ≤ max_constraints) × ((length rows.old ≡ rows_length) × (length cut.now ≡ row_length)) }
    ensures { RowKept m made rows.old cut.now rows.new }
{
    keep_newest(&mut rows[ROW * m..ROW * (m + MAX_CUTS)], cut, made);
}

// The newest cut's number stored beside the others.
pub fn keep_number(numbers: &mut [usize; 64], made: usize, number: usize)
    requires { length numbers.old ≡ max_cuts }
    ensures { NumberKept made number numbers.old numbers.new }
{
    keep_newest(numbers, &[number], made);
}
