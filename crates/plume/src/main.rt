// Reads one field file from standard input, steps each smoke once in order and prints. All that is printed is `output::print`'s.
#![tactic(auto)]

use std::io;

fn main(rt: HostRuntime) -> io::Result<()> {
    program_input::run::<200000, _, _, _>(&mut rt.stdin(), &mut rt.stdout(), output::print)
}
