// The map program once more, run on more bytes than it has to read: the gate runs a program on one input, and this is another.
#![tactic(auto)]

use std::io;

fn main(rt: HostRuntime) -> io::Result<()> {
    mapping::print_input(&rt)?;
    Ok(())
}
