// The map program: a statement file on standard input; its map, `clash` or the refusal on standard output.
#![tactic(auto)]

use std::io;

fn main(rt: HostRuntime) -> io::Result<()> {
    mapping::print_input(&rt)?;
    Ok(())
}
