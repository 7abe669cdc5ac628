// Numbers as words of 64 bits, their two's complement, and back.
use crate::script::Fault;

// A number that is kept as its 64 bits.
pub(crate) trait Word: Copy {
    fn of(word: usize) -> Self;

    fn word(self) -> usize;
}

impl Word for usize {
    fn of(word: usize) -> usize {
        word
    }

    fn word(self) -> usize {
        self
    }
}

impl Word for i64 {
    fn of(word: usize) -> i64 {
        (word as u64).cast_signed()
    }

    fn word(self) -> usize {
        self.cast_unsigned() as usize
    }
}

// Puts a number in a list.
pub(crate) fn put<T: Word>(list: &mut [T], at: [usize; 2]) -> Result<(), Fault> {
    let [i, word] = at;
    *list.get_mut(i).ok_or(Fault::Range)? = T::of(word);
    Ok(())
}

// Puts a number in a row.
pub(crate) fn put_in_row(rows: &mut [i64], at: [usize; 3]) -> Result<(), Fault> {
    let [j, i, word] = at;
    let row = rows
        .chunks_exact_mut(layout::ROW)
        .nth(j)
        .ok_or(Fault::Range)?;
    put(row, [i, word])
}
