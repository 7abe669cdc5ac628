// Lent buffers, filled by what a reader gives.
#![tactic(auto)]

ghost use Rattle.std.specs.Prelude.{◌<◌, length, take, IfOk};
ghost use Rattle.std.specs.Io.KnownBytes.{Consumes, IsAtEnd};
ghost use Rattle.filling.specs.Counts.{IsPrefixLen};

use std::io;
use std::io::Read;

// Reads to the end, or until the buffer is full, and returns how many bytes that gave. The buffer starts with these, in their order.
// Stays: a loop over `read`, since no method of `Read` fills a buffer and tells how far it came where the bytes end.
pub fn read_full<R: Read>(reader: &mut R, buffer: &mut [u8]) -> io::Result<usize>
    ensures within { IfOk result (λ n. IsPrefixLen n buffer.new) }
    ensures bytes { IfOk result (λ n. Consumes (R.remaining reader.old) (R.remaining reader.new) (take n buffer.new)) }
    ensures end { IfOk result (λ n. n < length buffer.new → IsAtEnd (R.remaining reader.new)) }
{
    let mut done = 0;
    while done < buffer.len() {
        let read = reader.read(&mut buffer[done..])?;
        if read == 0 {
            return Ok(done);
        }
        done += read;
    }
    Ok(done)
}
