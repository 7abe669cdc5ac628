// Small problems against plain enumeration. A line of standard input is a family of problems, eleven numbers; a line of output says what they showed.
#![tactic(auto)]

mod agree;
mod calls;
mod family;
mod points;

use agree::Sums;
use family::Family;
use std::io;
use std::io::Input;

// Tries the problems of a family and prints what they showed; how many of them disagreed.
fn try_family(rt: &impl Print, family: &Family) -> io::Result<usize> {
    let mut sums = Sums::default();
    for i in 0..family.tried() {
        let k = family.number(i);
        sums.add(agree::check(rt, &family.problem(k), k)?);
    }
    println!(rt;
        "{family} {} {} {}",
        sums.solvable, sums.conflicts, sums.listed
    )?;
    println!(rt; "set {} {}", sums.set, sums.set_by_listing)?;
    Ok(sums.wrong)
}

// Tries the families of a text, a line each; how many problems disagreed. A last line that no newline ends is passed over.
fn try_families(rt: &impl Print, text: &[u8]) -> io::Result<usize> {
    let mut wrong: usize = 0;
    let mut rest = text;
    while let Some(end) = rest.iter().position(|byte| *byte == b'\n') {
        wrong = wrong.saturating_add(try_family(rt, &Family::parse(&rest[..end]))?);
        rest = &rest[end + 1..];
    }
    Ok(wrong)
}

fn main(rt: HostRuntime) -> io::Result<()> {
    println!(rt;
        "variables constraints equations divided gaps boxes far coefficient constant random problems solvable conflicts listed"
    )?;
    let mut families = [0u8; 4096];
    let end = filling::read_full(&mut rt.reader(), &mut families)?;
    let wrong = try_families(&rt, &families[..end])?;
    println!(rt; "{wrong} disagreements")
}
