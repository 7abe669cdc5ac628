// Prints how each argument is understood: as a number, as a date, and as a file's name, by how many bytes of the file there is room for.
#![tactic(auto)]

use std::env::Env;
use std::io;
use std::rt::Files;

fn print_number(rt: &(impl Env + Print), stderr: &impl Print, i: usize) -> io::Result<()> {
    match arguments::number_at(rt, stderr, i) {
        Some(number) => print!(rt; " number {number}"),
        None => print!(rt; " no number"),
    }
}

fn print_date(rt: &(impl Env + Print), stderr: &impl Print, i: usize) -> io::Result<()> {
    match arguments::date_at(rt, stderr, i) {
        Some(date) => print!(rt; ", date {} {} {}", date.year, date.month, date.day),
        None => print!(rt; ", no date"),
    }
}

fn print_file(rt: &(impl Env + Files + Print), stderr: &impl Print, i: usize) -> io::Result<()> {
    let mut file = [0u8; 8];
    match arguments::file_at(rt, stderr, i, &mut file) {
        Some(read) => print!(rt; ", file {read}"),
        None => print!(rt; ", no file"),
    }
}

// Prints the line of an argument.
fn print_line(rt: &(impl Env + Files + Print), stderr: &impl Print, i: usize) -> io::Result<()> {
    print!(rt; "{i}")?;
    print_number(rt, stderr, i)?;
    print_date(rt, stderr, i)?;
    print_file(rt, stderr, i)?;
    println!(rt)
}

fn main(rt: HostRuntime) -> io::Result<()> {
    let stderr = rt.stderr();
    if !arguments::takes(&rt, &stderr, 1, 99, b"use: arguments_lines WORD ..\n") {
        return Ok(());
    }
    for i in 0..arguments::count(&rt) {
        print_line(&rt, &stderr, i + 1)?;
    }
    Ok(())
}
