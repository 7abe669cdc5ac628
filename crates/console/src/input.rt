// The bytes of standard input.
ghost use Rattle.std.specs.Prelude.{IfSome};
ghost use Rattle.filling.specs.Counts.{IsPrefixLen};

use crate::INPUT_LENGTH;
use crate::told::tell_input;
use filling::read_full;
use std::io::{Input, Print};

// Reads standard input to its end, or until the buffer is full, and returns how many bytes that gave. A failure is told, and gives none.
pub fn read_input(rt: &impl Input, stderr: &impl Print, file: &mut [u8]) -> Option<usize>
    ensures { IfSome result (λ n. IsPrefixLen n file.new) }
{
    let mut reader = rt.reader();
    match read_full(&mut reader, file) {
        Ok(read) => Some(read),
        Err(_) => {
            tell_input(stderr);
            None
        }
    }
}

// Reads standard input, and does with it what a program does.
pub fn on_input<F: FnOnce(&[u8])>(rt: &impl Input, stderr: &impl Print, then: F)
    requires { F.IsAlwaysCallable then }
{
    let mut file = [0u8; INPUT_LENGTH];
    if let Some(read) = read_input(rt, stderr, &mut file) {
        then(&file[..read]);
    }
}
