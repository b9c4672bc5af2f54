// Runs the calls on a field at and beside the edges of documents 01 and 02, and prints a line for each: the call, what is at the edge,
// its answer and what it left. A refused call's buffers are compared with copies from before it.
#![tactic(auto)]

mod buffers; // buffers.rt: buffers to start from
mod calls; // calls.rt: one line for a call
mod contents; // contents.rt: what accepted calls leave
mod edges; // edges.rt: the last number that passes, and the first that doesn't
mod imports; // imports.rt: imports of wind records
mod maps; // maps.rt: maps for the printer
mod orders; // orders.rt: calls with two faults
mod refusals; // refusals.rt: each refusal of each call
mod show; // show.rt: what a line is made of

use std::io;

// All lines, in order, as far as standard output takes them.
fn run(rt: &impl Print) -> io::Result<()> {
    edges::run(rt)?;
    refusals::run(rt)?;
    orders::run(rt)?;
    contents::run(rt)?;
    imports::run(rt)?;
    maps::run(rt)
}

// Says nothing of what standard output does not take: the lines that it took are compared with the file `stdout`.
fn main(rt: HostRuntime) {
    let _ = run(&rt);
}
