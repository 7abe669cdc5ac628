// Reading problem files, document 01's 'plan files'.
#![tactic(auto)]

mod reader;

ghost use Rattle.std.specs.Prelude.{◌≡◌};
ghost use Rattle.model_files.specs.File.{read_file};
ghost use Rattle.problem.specs.View.{seen_read, reading_of};

use file_tests::{checks_match, is_whole, magic_matches, padding_zero, sizes_match};
use problem::{Problem, Refusal, check};

// Reads a problem file: the problem in it, or the first refusal that applies, in the order 1 to 5, 13, 6, 10, 7.
#[tactic(auto, using(crate::proofs::ReadCascade::told))]
pub fn read(file: &[u8]) -> Result<Problem, Refusal>
    ensures { seen_read result ≡ reading_of (read_file file.now) }
{
    if !is_whole(file) {
        return Err(Refusal::Truncated);
    }
    if !checks_match(file) {
        return Err(Refusal::BadChecksum);
    }
    if !magic_matches(file) {
        return Err(Refusal::BadMagic);
    }
    if !sizes_match(file) {
        return Err(Refusal::SizeRange);
    }
    let found = reader::problem_in(file);
    check(found)?;
    if !padding_zero(file) {
        return Err(Refusal::NonzeroPadding);
    }
    Ok(found)
}
