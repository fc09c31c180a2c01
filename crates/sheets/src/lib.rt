// A sheet: the public calls written as bytes, made one after the other on one run, one map and one file. Each prints a line: two
// numbers of its reply, and a hash of the buffer that was lent. The second model writes the sheets and what they have to print.
#![tactic(auto)]

mod calls; // calls.rt: a sheet's calls, one after the other
mod lines; // lines.rt: a printed line
mod making; // making.rt: the lent buffers, and each call made on them
mod pieces; // pieces.rt: a sheet's bytes, and the hash

use calls::Sheet;
use making::{FILE_SPACE, Lent, MAP_SPACE, RUN_SPACE};
use mapping::input;
use std::io;
use std::io::{Input, Print};

// More than the longest sheet has.
const SHEET_SPACE: usize = 131072;

// Makes every call of a sheet, and prints the line of each.
fn make_calls(out: &impl Print, sheet: Sheet, lent: &mut Lent) -> io::Result<()> {
    for call in sheet {
        let line = lent.make(out, call)?;
        println!(out; "{line}")?;
    }
    Ok(())
}

// Reads a sheet from the input and makes its calls. An error of the input or the output is handed on.
pub fn run_sheet(rt: &(impl Input + Print)) -> io::Result<()> {
    let mut sheet = [0u8; SHEET_SPACE];
    let mut reader = rt.reader();
    let n = input::read_full(&mut reader, &mut sheet)?;
    let mut lent = Lent {
        run: [0; RUN_SPACE],
        map: [0; MAP_SPACE],
        file: [0; FILE_SPACE],
    };
    make_calls(rt, Sheet { rest: &sheet[..n] }, &mut lent)
}
