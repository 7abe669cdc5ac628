// What every program is asked in the same way: `--help`, `--version`, and no argument that it does not know.
use crate::given::{count, tell, whole};
use crate::told;
use crate::told::LONGEST_WORD;
use std::env::Env;
use std::io::Print;

const VERSION: &[u8] = b"nefrwgall 1.0\n";

fn print(rt: &impl Print, stderr: &impl Print, text: &[u8]) {
    if rt.write_all(text).is_err() {
        told::tell(stderr, b"standard output cannot be written\n");
    }
}

// What every program answers to a word.
fn answer<'a>(word: &[u8], use_text: &'a [u8]) -> Option<&'a [u8]> {
    match word {
        b"--help" => Some(use_text),
        b"--version" => Some(VERSION),
        _ => None,
    }
}

// Whether a program that takes from `fewest` to `most` arguments goes on: it does not after an answer, and where arguments are missing or too many, which is
// told. Its use is a few lines of text.
pub fn takes(
    rt: &(impl Env + Print),
    stderr: &impl Print,
    fewest: usize,
    most: usize,
    use_text: &[u8],
) -> bool {
    let given = count(rt);
    let mut buffer = [0u8; LONGEST_WORD];
    if let Some(text) = whole(rt, 1, &mut buffer).and_then(|word| answer(word, use_text)) {
        if given == 1 {
            print(rt, stderr, text);
        } else {
            tell(rt, stderr, b"unknown argument", 2);
        }
        return false;
    }
    if given < fewest {
        told::tell(stderr, b"an argument is missing (try --help)\n");
        return false;
    }
    if most < given {
        tell(rt, stderr, b"unknown argument", most + 1);
        return false;
    }
    true
}

// The same of a program that takes no argument.
pub fn proceeds(rt: &(impl Env + Print), stderr: &impl Print, use_text: &[u8]) -> bool {
    takes(rt, stderr, 0, 0, use_text)
}
