// The public calls. Each takes every input: its contract, one equation over the definition that it cites, determines the reply and
// every byte of the lent buffers, refused calls too. `number` is 0 for done, else document 01's refusal.
#![tactic(auto)]

ghost use Rattle.std.specs.Prelude.{◌≡◌};
ghost use Rattle.paper.specs.Files.{statement_span};
ghost use Rattle.reading.specs.Reads.{span_of};
ghost use Rattle.statements.specs.Writes.{answer, load_bytes, written_bytes};
ghost use Rattle.rules.specs.Bytes.{out, step_bytes, steps_bytes};
ghost use Rattle.maps.specs.Bytes.{mapped, map_bytes_of};

mod replies; // replies.rt: what is replied to C

use reading::Span;
pub use replies::{ListReply, LoadReply, MapReply, StepReply, WriteReply};

// The file into the run: number and the fault's position.
pub fn sc_load(file: &[u8], run: &mut [u8]) -> LoadReply
    ensures { answer result.number result.position run.new ≡ load_bytes file.now run.old }
{
    LoadReply::from(statements::load(file, run))
}

// Where statement n of the file stands: start and size, both 0 if the file is refused or has no statement n.
pub fn sc_statement(file: &[u8], n: usize) -> Span
    ensures { span_of result ≡ statement_span file.now n }
{
    reading::find_statement(file, n)
}

// One step, at a place: number and the rule.
pub fn sc_step(run: &mut [u8], place: usize) -> StepReply
    ensures { out result.number result.rule run.new ≡ step_bytes run.old place }
{
    StepReply::from(rules::step(run, place))
}

// A list of steps, at places: number and how many were done.
pub fn sc_steps(run: &mut [u8], places: &[u32]) -> ListReply
    ensures { out result.number result.done run.new ≡ steps_bytes run.old places.now }
{
    ListReply::from(rules::steps(run, places))
}

// The map of a run that has come to its end unclashed: number.
pub fn sc_map(run: &[u8], map: &mut [u8]) -> MapReply
    ensures { mapped result.number map.new ≡ map_bytes_of run.now map.old }
{
    MapReply::from(maps::map(run, map))
}

// The run, if it is as loaded, back into its file: number and the file's length.
pub fn sc_write(run: &[u8], file: &mut [u8]) -> WriteReply
    ensures { answer result.number result.length file.new ≡ written_bytes run.now file.old }
{
    WriteReply::from(statements::write(run, file))
}
