// Journal records ('Journal block'): the 512 bytes of a record, written into a part of a lent buffer.
#![tactic(auto)]

ghost use Rattle.std.specs.Prelude.{◌≡◌, true, ◌+◌, ◌*◌, ◌≤◌, length};
ghost use Rattle.model_problems.specs.Ranges.{max_variables};
ghost use Rattle.model_files.specs.Bytes.{block_length};
ghost use Rattle.model_files.specs.Journal.{record_content, record_bytes};
ghost use Rattle.block.specs.Placed.{Placed};
ghost use Rattle.record.specs.Written.{record_of, head_place, cut_place, coefficients_place, used_place, content_length, head_of, coefficients_of, cut_of, used_of, CutFits, Emitted};

use block::{build, journal};

// The letters DEAD as a 32-bit number, least byte first.
const MAGIC: usize = 1145128260;

// What a record tells: which conflict of the search it was, the numbers of the falsified constraint and of the cut, the depths met and gone back to, the
// cut, and for each variable the number of the constraint taken in, or 0.
#[derive(Clone, Copy)]
pub struct Record {
    pub count: usize,
    pub falsified: usize,
    pub number: usize,
    pub depth: usize,
    pub back: usize,
    pub cut: [i64; 33],
    pub used: [usize; 32],
    ghost counted: { 1 ≤ count },
    ghost cut_fits: { CutFits cut },
}

impl Record {
    // The fields from byte 4 to byte 19.
    fn put_head(&self, out: &mut [u8])
        requires { length out.old ≡ block_length }
        ensures { Placed out.old head_place cut_place (head_of self.now.count self.now.falsified self.now.number self.now.depth self.now.back) out.new }
    {
        build::put_u32(out, journal::COUNT, self.count);
        build::put_u32(out, journal::FALSIFIED, self.falsified);
        build::put_u32(out, journal::NUMBER, self.number);
        build::put_u16(out, journal::DEPTH, self.depth);
        build::put_u16(out, journal::BACK, self.back);
    }

    // The cut's coefficients.
    fn put_coefficients(&self, out: &mut [u8])
        requires { length out.old ≡ block_length }
        ensures { Placed out.old coefficients_place used_place (coefficients_of max_variables self.now.cut) out.new }
    {
        for (i, a) in self.cut[1..].iter().enumerate() {
            build::put_i32(out, journal::COEFFICIENTS + 4 * i, *a);
        }
    }

    // The cut's constant, then its coefficients.
    fn put_cut(&self, out: &mut [u8])
        requires { length out.old ≡ block_length }
        ensures { Placed out.old cut_place used_place (cut_of self.now.cut) out.new }
    {
        build::put_i32(out, journal::CONSTANT, self.cut[0]);
        self.put_coefficients(out);
    }

    // The numbers of the constraints taken in.
    fn put_used(&self, out: &mut [u8])
        requires { length out.old ≡ block_length }
        ensures { Placed out.old used_place content_length (used_of max_variables self.now.used) out.new }
    {
        for (i, number) in self.used.iter().enumerate() {
            build::put_u32(out, journal::USED + 4 * i, *number);
        }
    }

    // All that stands before the zeros.
    fn put_content(&self, out: &mut [u8])
        requires { length out.old ≡ block_length }
        ensures { Placed out.old 0 content_length (record_content (record_of max_variables self.now.count self.now.falsified self.now.number self.now.depth self.now.back self.now.cut self.now.used)) out.new }
    {
        build::put_u32(out, 0, MAGIC);
        self.put_head(out);
        self.put_cut(out);
        self.put_used(out);
    }

    // The record's 512 bytes, whatever stood there.
    pub fn write(&self, out: &mut [u8])
        requires { length out.old ≡ block_length }
        ensures { out.new ≡ record_bytes (record_of max_variables self.now.count self.now.falsified self.now.number self.now.depth self.now.back self.now.cut self.now.used) }
    {
        build::clear(out);
        self.put_content(out);
        build::seal(out, self.count - 1);
    }

    // The record as block `done` of the buffer, where it is to be kept.
    // Stays: `keep` beside the buffer: an Option of a lent buffer would have to be lent anew at each call of the loop, no plainer.
    pub fn emit(&self, buffer: &mut [u8], keep: bool, done: usize)
        requires { keep ≡ true → block_length * (done + 1) ≤ length buffer.old }
        ensures { Emitted keep done (record_bytes (record_of max_variables self.now.count self.now.falsified self.now.number self.now.depth self.now.back self.now.cut self.now.used)) buffer.old buffer.new }
    {
        if keep {
            let a = block::LENGTH * done;
            self.write(&mut buffer[a..a + block::LENGTH]);
        }
    }
}
