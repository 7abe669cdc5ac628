// What the programs print, put line by line into a buffer, so that many lines cost one system call.
#![tactic(auto)]

mod line;
mod text;

pub use line::Line;
pub use text::Text;

// The most bytes of a line, a solution of 32 values. A program writes its text out when less room is left.
pub const LONGEST_LINE: usize = 713;
