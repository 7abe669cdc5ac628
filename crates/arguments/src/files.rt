// The bytes of a file.
ghost use Rattle.std.specs.Prelude.{IfOk, IfSome};
ghost use Rattle.filling.specs.Counts.{IsPrefixLen};

use crate::told::tell_file;
use filling::read_full;
use std::fs::File;
use std::io::{Error, ErrorKind, Print, Result};
use std::rt::Files;
use std::str;

// Reads from the start of a file. std takes no name that is not UTF-8.
fn read_named(rt: &impl Files, name: &[u8], file: &mut [u8]) -> Result<usize>
    ensures { IfOk result (λ n. IsPrefixLen n file.new) }
{
    let Ok(path) = str::from_utf8(name) else {
        return Err(Error::from(ErrorKind::InvalidFilename));
    };
    let mut opened = File::open(rt, path)?;
    read_full(&mut opened, file)
}

// Reads a file to its end, or until the buffer is full, and returns how many bytes that gave. A failure is told, and gives none.
pub fn read_file(
    rt: &impl Files,
    stderr: &impl Print,
    name: &[u8],
    file: &mut [u8],
) -> Option<usize>
    ensures { IfSome result (λ n. IsPrefixLen n file.new) }
{
    match read_named(rt, name, file) {
        Ok(length) => Some(length),
        Err(error) => {
            tell_file(stderr, name, error);
            None
        }
    }
}
