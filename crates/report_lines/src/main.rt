// Prints each line of the report, with numbers at the edges of their ranges.
#![tactic(auto)]

use report::{LONGEST_LINE, Line, Text};
use std::io;

fn print_line(rt: &impl Print, line: Line) -> io::Result<()> {
    let mut text = Text::<LONGEST_LINE>::new();
    text.put(line);
    rt.write_all(text.as_bytes())
}

// Plan A of the documents: its five lines in one buffer.
fn plan_a(rt: &impl Print) -> io::Result<()> {
    let mut block = [0u8; 512];
    block[4] = 1;
    block[8] = 2;
    block[12] = 3;
    block[16] = 1;
    block[18] = 1;
    let mut text = Text::<4096>::new();
    text.put(plan(2, 2, 5));
    text.put(Line::end(&block));
    text.put(Line::Solution(&[1, 0]));
    text.put(Line::Ends(1));
    text.put(Line::Set(1));
    rt.write_all(text.as_bytes())
}

fn plan(n: usize, m: usize, budget: usize) -> Line<'static> {
    Line::Plan { n, m, budget }
}

fn plans(rt: &impl Print) -> io::Result<()> {
    print_line(rt, plan(1, 0, 0))?;
    print_line(rt, plan(32, 64, 1000000000))?;
    print_line(rt, plan(9, 10, 4294967295))?;
    print_line(rt, plan(99, 100, 18446744073709551615))
}

// The first bytes of a block: numbers of 32 and of 16 bits, least byte first.
fn conflicts(rt: &impl Print) -> io::Result<()> {
    for block in [
        b"DEAD\x01\x02\x03\x04\x05\x06\x07\x08\x09\x0A\x0B\x0C\x0D\x0E\x0F\x10",
        b"DEAD\xFF\xFF\xFF\xFF\x09\x00\x00\x00\x40\xCA\x9A\x3B\xFF\xFF\x00\x00",
        b"DEAD\x00\xCA\x9A\x3B\x0A\x00\x00\x00\x40\xCA\x9A\x3B\x20\x00\x20\x00",
    ] {
        print_line(rt, Line::end(block))?;
    }
    Ok(())
}

fn solutions(rt: &impl Print) -> io::Result<()> {
    let least = [-16777216i64; 32];
    print_line(rt, Line::Solution(&least[..0]))?;
    print_line(rt, Line::Solution(&least[..1]))?;
    print_line(rt, Line::Solution(&least))?;
    print_line(rt, Line::Solution(&[16777216]))?;
    print_line(
        rt,
        Line::Solution(&[16777216, 0, 9, 10, -1, i64::MAX, i64::MIN]),
    )
}

fn main(rt: HostRuntime) -> io::Result<()> {
    plan_a(&rt)?;
    plans(&rt)?;
    conflicts(&rt)?;
    solutions(&rt)?;
    for line in [
        Line::None,
        Line::Spent,
        Line::Ended,
        Line::Ends(0),
        Line::Ends(1000000000),
        Line::Struck(0),
        Line::Struck(4611686018427387904),
        Line::Set(0),
        Line::Set(4611686018427387904),
        // the most that a call can tell: 2^62, and a run of 10^9 + 1 turns with 2^30 bounds each
        Line::Set(5685427843501129728),
        Line::Set(18446744073709551615),
        Line::Refused(1),
        Line::Refused(9),
        Line::Refused(10),
    ] {
        print_line(&rt, line)?;
    }
    Ok(())
}
