// Runs both programs on stored files, named by its arguments, and prints each name and what the programs print for that file. The
// expected output was written by the reference program.
#![tactic(auto)]

use std::fs::File;
use std::io::Write;
use std::{env, fs, io};

// One file: its name on a line, its lines after a step, and its pages.
fn show(rt: &HostRuntime, name: &str, from: &mut File) -> io::Result<()> {
    let mut file = [0u8; program_input::FILE];
    let n = program_input::fill(from, &mut file)?;
    let mut printed = rt.stdout();
    writeln!(printed, "{name}")?;
    program_input::print_file::<200000, _, _>(&mut printed, &file[..n], output::print)?;
    program_input::print_file::<39072, _, _>(&mut printed, &file[..n], output_maps::print)
}

// The file of a name; one that cannot be opened is told on standard error.
fn named(rt: &HostRuntime, name: &str) -> io::Result<()> {
    match fs::open(rt, name) {
        Ok(mut from) => show(rt, name, &mut from),
        Err(e) => eprintln!(rt; "{name}: {e}"),
    }
}

fn main(rt: HostRuntime) -> io::Result<()> {
    for name in env::args(&rt)?.skip(1) {
        named(&rt, name.as_str())?;
    }
    Ok(())
}
