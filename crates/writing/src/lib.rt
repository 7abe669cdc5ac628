// Writing problem files, document 01's 'writer'.
#![tactic(auto)]

ghost use Rattle.std.specs.Prelude.{◌≡◌};
ghost use Rattle.model_files.specs.File.{write_file};
ghost use Rattle.problem.specs.Answer.{written};
ghost use Rattle.problem.specs.View.{problem_of};

use file_blocks::writer;
use problem::{Problem, Refusal, check};

// Writes a problem's blocks at the buffer's start, and leaves the bytes after them; where it is refused the buffer keeps all its bytes.
#[tactic(auto, using(crate::proofs::WriteCascade::told))]
pub fn write(problem: Problem, buffer: &mut [u8]) -> Result<(), Refusal>
    ensures { written result buffer.new ≡ write_file (problem_of problem) buffer.old }
{
    check(problem)?;
    if buffer.len() / block::LENGTH <= problem.m {
        return Err(Refusal::ShortBuffer);
    }
    writer::write_blocks(&problem, buffer);
    Ok(())
}
