// Standard output, gathered in a text that is written out when it is full.
ghost use Rattle.std.specs.Prelude.{◌≡◌, ◌+◌, ◌≤◌};
ghost use Rattle.report.specs.Room.{longest_line};

use crate::told::tell_output;
use answers::Verdict;
use report::{Line, Text};
use std::io::Print;

// How many bytes of text are gathered before they are written.
const TEXT_LENGTH: usize = 16384;

#[derive(Drop)]
pub(crate) struct Output<'a, P: Print> {
    rt: &'a P,
    text: Text<TEXT_LENGTH>,
    failed: bool,
}

impl<'a, P: Print> Output<'a, P> {
    pub(crate) fn new(rt: &'a P) -> Self {
        Output {
            rt,
            text: Text::new(),
            failed: false,
        }
    }

    // Whether anything could not be written.
    pub(crate) fn has_failed(&self) -> bool {
        self.failed
    }

    // Writes out the text so far. What cannot be written is lost, and remembered to be.
    fn write(&mut self)
        ensures { self.new.text.end ≡ 0 }
    {
        if self.rt.write_all(self.text.as_bytes()).is_err() {
            self.failed = true;
        }
        self.text.clear();
    }

    // Writes out the text so far where too little room is left for a line.
    fn make_room(&mut self)
        ensures { self.new.text.end + longest_line ≤ 16384 }
    {
        if !self.text.has_room() {
            self.write();
        }
    }

    pub(crate) fn put(&mut self, line: Line) {
        self.make_room();
        self.text.put(line);
    }

    // Puts a verdict's line, a solution with its first n values. 'Go on' is no verdict, and has none.
    pub(crate) fn put_verdict(&mut self, verdict: Verdict, n: usize) {
        match verdict {
            Verdict::Solution(values) => self.put(Line::Solution(&values[..n.min(values.len())])),
            Verdict::NoSolution => self.put(Line::None),
            Verdict::OutOfBudget => self.put(Line::Spent),
            Verdict::GoOn => {}
        }
    }

    // Puts the last three lines of a search, and writes out the rest.
    pub(crate) fn end(
        mut self,
        stderr: &impl Print,
        verdict: Verdict,
        n: usize,
        count: usize,
        set: usize,
    ) {
        self.put_verdict(verdict, n);
        self.put(Line::Ends(count));
        self.put(Line::Set(set));
        self.finish(stderr);
    }

    // Writes out the rest, and tells whether anything could not be written.
    pub(crate) fn finish(mut self, stderr: &impl Print) {
        self.write();
        tell_output(stderr, self.failed);
    }
}
