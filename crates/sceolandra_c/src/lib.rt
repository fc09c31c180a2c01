// The public calls for C: each exports the call of `sceolandra` that has its name, and keeps its contract.
#![tactic(auto)]

ghost use Rattle.std.specs.Prelude.{◌≡◌};
ghost use Rattle.paper.specs.Files.{statement_span};
ghost use Rattle.reading.specs.Reads.{span_of};
ghost use Rattle.statements.specs.Writes.{answer, load_bytes, written_bytes};
ghost use Rattle.rules.specs.Bytes.{out, step_bytes, steps_bytes};
ghost use Rattle.maps.specs.Bytes.{mapped, map_bytes_of};

use reading::Span;
use sceolandra::{ListReply, LoadReply, MapReply, StepReply, WriteReply};

// The file into the run: number and the fault's position.
#[unsafe(no_mangle)]
pub extern "C" fn sc_load(file: &[u8], run: &mut [u8]) -> LoadReply
    ensures { answer result.number result.position run.new ≡ load_bytes file.now run.old }
{
    sceolandra::sc_load(file, run)
}

// Where statement n of the file stands: start and size, both 0 if the file is refused or has no statement n.
#[unsafe(no_mangle)]
pub extern "C" fn sc_statement(file: &[u8], n: usize) -> Span
    ensures { span_of result ≡ statement_span file.now n }
{
    sceolandra::sc_statement(file, n)
}

// One step, at a place: number and the rule.
#[unsafe(no_mangle)]
pub extern "C" fn sc_step(run: &mut [u8], place: usize) -> StepReply
    ensures { out result.number result.rule run.new ≡ step_bytes run.old place }
{
    sceolandra::sc_step(run, place)
}

// A list of steps, at places: number and how many were done.
#[unsafe(no_mangle)]
pub extern "C" fn sc_steps(run: &mut [u8], places: &[u32]) -> ListReply
    ensures { out result.number result.done run.new ≡ steps_bytes run.old places.now }
{
    sceolandra::sc_steps(run, places)
}

// The map of a run that has come to its end unclashed: number.
#[unsafe(no_mangle)]
pub extern "C" fn sc_map(run: &[u8], map: &mut [u8]) -> MapReply
    ensures { mapped result.number map.new ≡ map_bytes_of run.now map.old }
{
    sceolandra::sc_map(run, map)
}

// The run, if it is as loaded, back into its file: number and the file's length.
#[unsafe(no_mangle)]
pub extern "C" fn sc_write(run: &[u8], file: &mut [u8]) -> WriteReply
    ensures { answer result.number result.length file.new ≡ written_bytes run.now file.old }
{
    sceolandra::sc_write(run, file)
}
