// A digest: bytes read as one number, the first byte the most significant, modulo 2^48 − 59. A sum on the way is any number of that remainder: what
// stands above 2^48 comes back 59 times, with no division.
use crate::words::Word;
use std::fmt;

const PRIME: usize = 281_474_976_710_597;

// The sum with a byte more.
fn with_byte(sum: usize, byte: u8) -> usize {
    59 * (sum / 1_099_511_627_776) + 256 * (sum % 1_099_511_627_776) + byte as usize
}

// The sum with four bytes more.
fn with_half(sum: usize, half: usize) -> usize {
    59 * (sum / 65_536) + 4_294_967_296 * (sum % 65_536) + half % 4_294_967_296
}

// The sum with a word more.
fn with_word(sum: usize, word: usize) -> usize {
    with_half(with_half(sum, word / 4_294_967_296), word)
}

#[derive(Clone, Copy)]
pub(crate) struct Digest {
    sum: usize,
}

impl Digest {
    // The digest of no bytes.
    pub(crate) const NONE: Digest = Digest { sum: 0 };

    pub(crate) fn add_word(&mut self, word: usize) {
        self.sum = with_word(self.sum, word);
    }

    pub(crate) fn add_bytes(&mut self, bytes: &[u8]) {
        self.sum = bytes
            .iter()
            .fold(self.sum, |sum, byte| with_byte(sum, *byte));
    }

    pub(crate) fn add_words<T: Word>(&mut self, words: &[T]) {
        self.sum = words
            .iter()
            .fold(self.sum, |sum, word| with_word(sum, word.word()));
    }
}

impl fmt::Display for Digest {
    fn fmt<W: fmt::Write>(&self, f: &mut fmt::Formatter<W>) -> fmt::Result {
        let value = self.sum % PRIME;
        write!(f, "{value}")
    }
}
