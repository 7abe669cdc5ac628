// The words of the search state that are read, in the digest's order: those that do not stand past n, m, the kept cuts and the depth. Where a size is past the
// arrays, these are the eight before them alone.
use crate::digest::Digest;
use crate::words::Word;
use state::kept::kept_cuts;
use state::{Level, Search};
use std::io;

// What takes words one by one.
trait Sink {
    fn take(&mut self, word: usize) -> io::Result<()>;
}

impl Sink for Digest {
    fn take(&mut self, word: usize) -> io::Result<()> {
        self.add_word(word);
        Ok(())
    }
}

// Prints each word with a space before it.
#[derive(Clone, Copy)]
struct Printer<'a, P> {
    rt: &'a P,
}

impl<P: Print> Sink for Printer<'_, P> {
    fn take(&mut self, word: usize) -> io::Result<()> {
        print!(self.rt; " {word}")
    }
}

// Gives a sink the first n words.
fn give<T: Word>(sink: &mut impl Sink, words: &[T], n: usize) -> io::Result<()> {
    for word in words.iter().take(n) {
        sink.take(word.word())?;
    }
    Ok(())
}

// The bounds of a level and their reasons.
fn give_level(sink: &mut impl Sink, level: &Level, n: usize) -> io::Result<()> {
    give(sink, &level.lower, n)?;
    give(sink, &level.upper, n)?;
    give(sink, &level.below, n)?;
    give(sink, &level.above, n)
}

fn give_levels(sink: &mut impl Sink, s: &Search) -> io::Result<()> {
    for (d, level) in s.levels.iter().enumerate() {
        if s.depth < d {
            break;
        }
        give_level(sink, level, s.n)?;
        if 0 < d {
            sink.take(level.decided)?;
        }
    }
    Ok(())
}

// The words before the arrays.
fn sizes(s: &Search) -> [usize; 8] {
    let status = s.status as usize;
    [
        s.n,
        s.m,
        s.budget,
        s.conflicts,
        s.propagations,
        s.made,
        s.depth,
        status,
    ]
}

// Whether the sizes are inside the arrays.
fn are_sizes_inside(s: &Search) -> bool {
    s.n <= 32 && s.m <= 64 && s.depth <= 32
}

fn give_read(sink: &mut impl Sink, s: &Search) -> io::Result<()> {
    give(sink, &sizes(s), 8)?;
    if !are_sizes_inside(s) {
        return Ok(());
    }
    let cuts = kept_cuts(s.made);
    give(sink, &s.thresholds, s.n)?;
    give(sink, &s.divisors, s.m)?;
    give(sink, &s.numbers, cuts)?;
    for row in s
        .rows
        .chunks_exact(layout::ROW)
        .take(s.m.saturating_add(cuts))
    {
        give(sink, row, s.n.saturating_add(1))?;
    }
    give_levels(sink, s)
}

// Adds the words that are read to a digest.
pub(crate) fn add_read(digest: &mut Digest, s: &Search) -> io::Result<()> {
    give_read(digest, s)
}

// The digest of the words that are read.
pub(crate) fn digest(s: &Search) -> io::Result<Digest> {
    let mut digest = Digest::NONE;
    add_read(&mut digest, s)?;
    Ok(digest)
}

// Prints the words that are read, with a space before each.
pub(crate) fn show_read<P: Print>(rt: &P, s: &Search) -> io::Result<()> {
    give_read(&mut Printer { rt }, s)
}

// Fills a list from a place on.
fn fill_from<T: Word>(list: &mut [T], start: usize, word: usize) {
    for place in list.iter_mut().skip(start) {
        *place = T::of(word);
    }
}

// Fills what is not read of a level of which the first n variables are.
fn litter_level(level: &mut Level, n: usize, word: usize) {
    fill_from(&mut level.lower, n, word);
    fill_from(&mut level.upper, n, word);
    fill_from(&mut level.below, n, word);
    fill_from(&mut level.above, n, word);
}

// Sets every word that is not read, where the sizes are inside the arrays.
pub(crate) fn litter(s: &mut Search, word: usize) {
    if !are_sizes_inside(s) {
        return;
    }
    let (n, m, depth) = (s.n, s.m, s.depth);
    let cuts = kept_cuts(s.made);
    fill_from(&mut s.thresholds, n, word);
    fill_from(&mut s.divisors, m, word);
    fill_from(&mut s.numbers, cuts, word);
    for (j, row) in s.rows.chunks_exact_mut(layout::ROW).enumerate() {
        let is_read = j < m.saturating_add(cuts);
        fill_from(row, if is_read { n.saturating_add(1) } else { 0 }, word);
    }
    for (d, level) in s.levels.iter_mut().enumerate() {
        litter_level(level, if d <= depth { n } else { 0 }, word);
        if d == 0 || depth < d {
            level.decided = word;
        }
    }
}
