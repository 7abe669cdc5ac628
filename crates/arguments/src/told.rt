// What is told on standard error. What cannot be written there is lost: there is nowhere else to tell it.
use std::io::{Error, Print, Write};
use std::str;

// The most bytes of a word that are told, which hold any path.
pub(crate) const LONGEST_WORD: usize = 4096;

// More bytes than any error's text has.
const LONGEST_ERROR: usize = 128;

// A byte as it is told: those that could break the line or move a terminal's cursor as `?`.
fn printed(byte: u8) -> u8 {
    if byte.is_ascii_control() { b'?' } else { byte }
}

pub(crate) fn tell(stderr: &impl Print, text: &[u8]) {
    let _ = stderr.write_all(text);
}

// Tells a word as far as a path may be long.
fn tell_printed(stderr: &impl Print, word: &[u8]) {
    let mut line = [0u8; LONGEST_WORD];
    let length = word.len().min(LONGEST_WORD);
    for (to, from) in line.iter_mut().zip(word) {
        *to = printed(*from);
    }
    tell(stderr, &line[..length]);
}

// Tells what is wrong with a word.
pub(crate) fn tell_word(stderr: &impl Print, what: &[u8], word: &[u8]) {
    tell(stderr, what);
    tell(stderr, b": ");
    tell_printed(stderr, word);
    tell(stderr, b" (try --help)\n");
}

// The text of an error, without the number of the system's that std puts after it. Zeros follow it.
fn message(text: &[u8]) -> &str {
    let all = str::from_utf8(text).unwrap_or("");
    match all.split_once(" (os error ") {
        Some((message, _)) => message,
        None => all.trim_end_matches('\0'),
    }
}

// Tells of a file why a call on it failed.
pub(crate) fn tell_file(stderr: &impl Print, name: &[u8], error: Error) {
    let mut text = [0u8; LONGEST_ERROR];
    let mut rest = &mut text[..];
    let _ = write!(rest, "{error}");
    tell_printed(stderr, name);
    tell(stderr, b": ");
    tell(stderr, message(&text).as_bytes());
    tell(stderr, b"\n");
}
