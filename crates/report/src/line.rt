// The lines of the programs `verdict`, document 01's 'Writer and program', and `solutions`.
ghost use Rattle.std.specs.Prelude.{◌+◌, ◌≤◌, length};
ghost use Rattle.report.specs.Room.{longest_number, shown_bytes, longest_content, longest_line, Ends};

use crate::text::Text;
use block::{journal, number};

// How many values a solution can have.
const MAX_VARIABLES: usize = 32;

#[derive(Clone, Copy)]
pub enum Line<'a> {
    // `plan 2 2 5`: n, m and B.
    Plan {
        n: usize,
        m: usize,
        budget: usize,
    },
    // `end 1 line 2 cut 3 depth 1 back 1`: the count, the falsified constraint, the cut, the depth met and d.
    End {
        count: usize,
        constraint: usize,
        cut: usize,
        depth: usize,
        level: usize,
    },
    // `solution 1 0`: the values of the variables, 32 at most.
    Solution(&'a [i64]),
    // `none`: there is no solution.
    None,
    // `spent`: the budget is used up.
    Spent,
    // `ended`: no decision led to the last solution, so none comes after it.
    Ended,
    // `ends 1`: the count of conflicts, document 01's 'dead ends'.
    Ends(usize),
    // `struck 1`: the count of solutions struck out.
    Struck(usize),
    // `set 1`: the count of bounds that constraints set, document 02's N5.
    Set(usize),
    // `refused 4`: an error's number in the documents' tables.
    Refused(usize),
}

impl Line<'_> {
    // The `end` line of a journal block.
    pub fn end(block: &[u8]) -> Self
        requires { shown_bytes ≤ length block.now }
    {
        Line::End {
            count: number::u32_at(block, journal::COUNT),
            constraint: number::u32_at(block, journal::FALSIFIED),
            cut: number::u32_at(block, journal::NUMBER),
            depth: number::u16_at(block, journal::DEPTH),
            level: number::u16_at(block, journal::BACK),
        }
    }
}

impl<const N: usize> Text<N> {
    // Puts a line.
    pub fn put(&mut self, line: Line)
        requires { self.old.end + longest_line ≤ N }
        ensures { Ends longest_line self.old.end self.new.end }
    {
        self.put_content(line);
        self.push(b"\n");
    }

    // Puts a line but for its end.
    fn put_content(&mut self, line: Line)
        requires { self.old.end + longest_content ≤ N }
        ensures { Ends longest_content self.old.end self.new.end }
    {
        match line {
            Line::Plan { n, m, budget } => {
                self.put_field(b"plan ", n);
                self.put_field(b" ", m);
                self.put_field(b" ", budget);
            }
            Line::End {
                count,
                constraint,
                cut,
                depth,
                level,
            } => {
                self.put_field(b"end ", count);
                self.put_field(b" line ", constraint);
                self.put_field(b" cut ", cut);
                self.put_field(b" depth ", depth);
                self.put_field(b" back ", level);
            }
            Line::Solution(values) => self.put_solution(values),
            Line::None => self.push(b"none"),
            Line::Spent => self.push(b"spent"),
            Line::Ended => self.push(b"ended"),
            Line::Ends(count) => self.put_field(b"ends ", count),
            Line::Struck(count) => self.put_field(b"struck ", count),
            Line::Set(count) => self.put_field(b"set ", count),
            Line::Refused(error) => self.put_field(b"refused ", error),
        }
    }

    // Puts a number with a word before it.
    fn put_field(&mut self, word: &[u8], v: usize)
        requires { self.old.end + length word.now + longest_number ≤ N }
        ensures { Ends (length word.now + longest_number) self.old.end self.new.end }
    {
        self.push(word);
        self.push_number(v);
    }

    // Puts the first 32 values, or those that are there.
    fn put_solution(&mut self, values: &[i64])
        requires { self.old.end + longest_content ≤ N }
        ensures { Ends longest_content self.old.end self.new.end }
    {
        self.push(b"solution");
        let shown = &values[..values.len().min(MAX_VARIABLES)];
        for &value in shown {
            self.push(b" ");
            self.push_number(value);
        }
    }
}
