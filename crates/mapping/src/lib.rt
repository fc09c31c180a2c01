// What the map program prints of a statement file: its map, `clash` or the refusal.
#![tactic(auto)]

pub mod input; // input.rt: a reader's bytes into a buffer

ghost use Rattle.std.specs.Prelude.{◌≤◌, length, ◌≡◌, true, IfOk, OnOk};
ghost use Rattle.std.specs.Io.KnownBytes.{Appends};
ghost use Rattle.base.specs.Puts.{PutFrom};
ghost use Rattle.paper.specs.Programs.{printed_run, printed};
ghost use Rattle.layout.specs.Fields.{table_of, run_of, clash_of};
ghost use Rattle.layout.specs.Soundness.{sound_bytes};
ghost use Rattle.promises.specs.FromFiles.{AtEnd};
ghost use Rattle.mapping.specs.Runs.{Ran, TextOfInput};
ghost use Rattle.mapping.specs.Streams.{Prints};

use layout::Run;
use paper::{Fault, sizes};
use std::io;
use std::io::{Input, Print, Read, Write};

// The last number of the longest file can start at 835, and five bytes may have to be seen to refuse it.
const INPUT_BYTES: usize = sizes::LONGEST_FILE - 1 + sizes::MOST_GROUPS;

// More than the longest text has.
const TEXT_BYTES: usize = 2048;

// Where a text is put, and its length given: there is no heap for a String.
type TextSpace = [u8; TEXT_BYTES];

// What is printed of a run at its end, into `out`; gives its length.
fn print_run(run: &Run, out: &mut TextSpace) -> usize
    requires sound { sound_bytes run.now ≡ true }
    requires over { AtEnd run.now }
    ensures { PutFrom 0 (printed_run (table_of run.now) (run_of run.now) (clash_of run.now)) out.old out.new result }
{
    if layout::has_clashed(run) {
        return printing::print_clash(out);
    }
    // It is not refused: the run is sound and at its end, and has not clashed. It is proved where `unwrap` asks it.
    let mut map = [0u8; layout::MAP_BYTES];
    maps::map(run, &mut map).unwrap();
    printing::print_map(&map, layout::unknowns(run), out)
}

// The file into the run, and the run to its end.
fn run_file(file: &[u8], run: &mut Run) -> Result<(), Fault>
    ensures { Ran file.now result run.new }
{
    statements::load(file, run)?;
    drawing::draw(run);
    Ok(())
}

// What is printed of a file, into `out`; gives its length.
fn print(file: &[u8], out: &mut TextSpace) -> usize
    ensures { PutFrom 0 (printed file.now) out.old out.new result }
{
    let mut run = [0u8; layout::RUN_BYTES];
    match run_file(file, &mut run) {
        Ok(()) => print_run(&run, out),
        Err(fault) => printing::print_refusal(out, usize::from(fault.refusal), fault.at),
    }
}

// Writes what is printed of a file; gives the text's length. An error of the writer is handed on: some of the text may be written.
pub fn write_text<W: Write>(out: &mut W, file: &[u8]) -> io::Result<usize>
    ensures length { IfOk result (λ n. n ≡ length (printed file.now)) }
    ensures bytes { OnOk result (Appends (W.contents out.old) (W.contents out.new) (printed file.now)) }
{
    let mut text = [0u8; TEXT_BYTES];
    let end = print(file, &mut text);
    out.write_all(&text[..end])?;
    Ok(end)
}

// Prints what is printed of a file; gives the text's length. An error of the output is handed on: some of the text may be written.
pub fn print_file(out: &impl Print, file: &[u8]) -> io::Result<usize>
    ensures { IfOk result (λ n. n ≡ length (printed file.now)) }
{
    write_text(&mut io::writer(out), file)
}

// The map program on any reader and writer: writes what is printed of the file that the reader gives; gives the text's length. An
// error of either is handed on.
pub fn run_program<R: Read, W: Write>(reader: &mut R, out: &mut W) -> io::Result<usize>
    ensures { IfOk result (Prints (R.remaining reader.old) (R.remaining reader.new) (W.contents out.old) (W.contents out.new)) }
{
    let mut file = [0u8; INPUT_BYTES];
    let n = input::read_full(reader, &mut file)?;
    write_text(out, &file[..n])
}

// The map program: prints what is printed of the file on the input; gives the text's length. An error of the input or the output is
// handed on.
pub fn print_input(rt: &(impl Input + Print)) -> io::Result<usize>
    ensures { IfOk result TextOfInput }
{
    run_program(&mut rt.reader(), &mut io::writer(rt))
}
