// Reads one field file from standard input and prints the page of each smoke in order. All that is printed is `output_maps::print`'s.
#![tactic(auto)]

use std::io;

fn main(rt: HostRuntime) -> io::Result<()> {
    program_input::run::<39072, _, _, _>(&mut rt.stdin(), &mut rt.stdout(), output_maps::print)
}
