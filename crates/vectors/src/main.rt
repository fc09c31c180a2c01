// Files, runs, maps and printed texts, as calls: what document 01 does not list. It is bench_sheet's program, which the gate runs on
// one input.
#![tactic(auto)]

use std::io;

fn main(rt: HostRuntime) -> io::Result<()> {
    sheets::run_sheet(&rt)
}
