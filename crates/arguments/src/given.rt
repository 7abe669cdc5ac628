// The arguments that a program was given, 1 the first. One that is wrong is told, and none.
ghost use Rattle.std.specs.Prelude.{◌≤◌, length, IfSome};
ghost use Rattle.filling.specs.Counts.{IsPrefixLen};

use crate::files::read_file;
use crate::told::{LONGEST_WORD, tell_word};
use numerals::{Day, date_in, number_in};
use std::env::{Env, FillError};
use std::io::Print;
use std::rt::Files;

// How many there are, the program's own name not counted.
pub fn count(rt: &impl Env) -> usize {
    let mut none = [0u8; 0];
    for i in 0..usize::MAX {
        if let Err(FillError::NotPresent) = rt.arg(i + 1, &mut none) {
            return i;
        }
    }
    usize::MAX
}

// An argument, put at the start of a buffer; of one that does not fit, the first bytes.
fn first_bytes<'a>(rt: &impl Env, i: usize, buffer: &'a mut [u8]) -> &'a [u8]
    ensures { length result.now ≤ length buffer.old }
{
    let length = match rt.arg(i, buffer) {
        Ok(length) => length,
        Err(FillError::TooLong) => buffer.len(),
        Err(FillError::NotPresent) => 0,
    };
    &buffer[..length]
}

// The same of a word that has to be whole: none that does not fit.
pub(crate) fn whole<'a>(rt: &impl Env, i: usize, buffer: &'a mut [u8]) -> Option<&'a [u8]>
    ensures { IfSome result (λ word. length word.now ≤ length buffer.old) }
{
    match rt.arg(i, buffer) {
        Ok(length) => Some(&buffer[..length]),
        Err(_) => None,
    }
}

// Tells what is wrong with an argument.
pub fn tell(rt: &impl Env, stderr: &impl Print, what: &[u8], i: usize) {
    let mut buffer = [0u8; LONGEST_WORD];
    let word = first_bytes(rt, i, &mut buffer);
    tell_word(stderr, what, word);
}

// What an argument says, read so. That it says nothing of the kind is told; one that is missing or does not fit the buffer says nothing.
fn value_at<T, R: Fn(&[u8]) -> Option<T>>(
    rt: &impl Env,
    stderr: &impl Print,
    i: usize,
    read: R,
    wrong: &[u8],
) -> Option<T>
    requires { R.IsAlwaysCallable read }
{
    let mut buffer = [0u8; LONGEST_WORD];
    let value = whole(rt, i, &mut buffer).and_then(read);
    if value.is_none() {
        tell(rt, stderr, wrong, i);
    }
    value
}

// The number that an argument is.
pub fn number_at(rt: &impl Env, stderr: &impl Print, i: usize) -> Option<i64> {
    value_at(rt, stderr, i, number_in, b"not a whole number of 64 bits")
}

// The date that an argument is.
pub fn date_at(rt: &impl Env, stderr: &impl Print, i: usize) -> Option<Day> {
    value_at(rt, stderr, i, date_in, b"not a date as 2026-05-31")
}

// Reads the file that an argument names. (The first bytes of one that does not fit the buffer are too many for a name, and so refused.)
pub fn file_at(
    rt: &(impl Env + Files),
    stderr: &impl Print,
    i: usize,
    file: &mut [u8],
) -> Option<usize>
    ensures { IfSome result (λ n. IsPrefixLen n file.new) }
{
    let mut buffer = [0u8; LONGEST_WORD];
    let name = first_bytes(rt, i, &mut buffer);
    read_file(rt, stderr, name, file)
}
