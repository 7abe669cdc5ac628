// A program's arguments, and the files that they name. What is wrong is told on standard error in one line, and nothing goes to standard output.
#![tactic(auto)]

mod files;
mod given;
mod request;
mod told;

pub use files::read_file;
pub use given::{count, date_at, file_at, number_at, tell};
pub use request::{proceeds, takes};
