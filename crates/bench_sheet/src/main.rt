// Document 01's bench sheet, as calls.
#![tactic(auto)]

use std::io;

fn main(rt: HostRuntime) -> io::Result<()> {
    sheets::run_sheet(&rt)
}
