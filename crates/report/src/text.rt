// Text, gathered in a buffer of N bytes.
ghost use Rattle.std.specs.Prelude.{◌≡◌, ◌+◌, ◌≤◌, ◌<◌, length, MatchBool};
ghost use Rattle.report.specs.Room.{longest_line, Ends};

use crate::LONGEST_LINE;
use itoa::{Buffer, Integer};

#[derive(Drop)]
pub struct Text<const N: usize> {
    bytes: [u8; N],
    end: usize,
    ghost within: { end ≤ N },
}

impl<const N: usize> Text<N> {
    pub fn new() -> Self
        ensures { result.end ≡ 0 }
    {
        Text {
            bytes: [0; N],
            end: 0,
        }
    }

    pub fn as_bytes(&self) -> &[u8]
        ensures { length result.now ≡ self.now.end }
    {
        &self.bytes[..self.end]
    }

    pub fn clear(&mut self)
        ensures { self.new.end ≡ 0 }
    {
        self.end = 0;
    }

    // Whether there is room for a line.
    pub fn has_room(&self) -> bool
        ensures { MatchBool result (self.now.end + longest_line ≤ N) (N < self.now.end + longest_line) }
    {
        LONGEST_LINE <= N - self.end
    }

    pub(crate) fn push(&mut self, text: &[u8])
        requires { self.old.end + length text.now ≤ N }
        ensures { self.new.end ≡ self.old.end + length text.now }
    {
        let start = self.end;
        let end = start + text.len();
        let bytes = &mut self.bytes[..];
        bytes[start..end].copy_from_slice(text);
        self.end = end;
    }

    // Puts a number in decimal.
    pub(crate) fn push_number<I: Integer>(&mut self, n: I)
        requires { self.old.end + I.MAX_STR_LEN ≤ N }
        ensures { Ends I.MAX_STR_LEN self.old.end self.new.end }
    {
        self.push(Buffer::new().format(n).as_bytes());
    }
}
