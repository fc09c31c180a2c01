// The run that the map program makes: the place drawn, or the first ready one after it, is taken until the run ends. That a run is
// sound stays a clause: it is a fact of bytes that are the caller's, and a type of them would be one for each way to lend them.
ghost use Rattle.std.specs.Prelude.{◌≡◌, ◌<◌, ◌≤◌, true};
ghost use Rattle.paper.specs.Counts.{pairs_of, most_steps};
ghost use Rattle.layout.specs.Offsets.{cabinets_at, unknowns_at, statements_at};
ghost use Rattle.layout.specs.Fields.{byte_at, count_of};
ghost use Rattle.layout.specs.Soundness.{sound_bytes};
ghost use Rattle.drawing.specs.Draws.{ready_from, taken_place, ended_bytes, drawn_bytes};

use super::generator;
use layout::Run;

// The first place from `from` on, going round, that does not wait; the pending count where all wait.
fn ready_from(run: &Run, from: usize) -> usize
    requires { (sound_bytes run.now ≡ true) × (from ≤ count_of run.now) }
    ensures { result ≡ ready_from run.now from }
{
    let n = layout::count(run);
    let mut start = from;
    // Document 01 names this form: a loop gives the place by break, and its label leaves the inner scan. It goes round at most once.
    'scan: loop {
        for place in start..n {
            if !rules::waits(run, place) {
                break 'scan place;
            }
        }
        if start == 0 {
            break n;
        }
        start = 0;
    }
}

// The place that is taken in state x: the drawn one, or the first ready one after it.
fn taken_place(run: &Run, x: u32) -> usize
    requires { (sound_bytes run.now ≡ true) × (0 < count_of run.now) }
    ensures { result ≡ taken_place run.now x }
{
    let n = layout::count(run);
    ready_from(run, generator::drawn_place(x, n))
}

// P = V(V-1)/2, the pairs of v unknowns; 0 unknowns have none.
fn pairs_of(v: usize) -> usize
    requires { v < 256 }
    ensures { result ≡ pairs_of v }
{
    v * v.saturating_sub(1) / 2
}

// (5E + 4SP)(4V + 2) + 3VS: no run from an accepted file takes more steps. Three bytes keep it far below what a usize holds.
fn most_steps(s: usize, v: usize, e: usize) -> usize
    requires { (s < 256) × (v < 256) × (e < 256) }
    ensures { result ≡ most_steps s v e }
{
    let p = pairs_of(v);
    (5 * e + 4 * s * p) * (4 * v + 2) + 3 * v * s
}

// The step count of a run, by its sizes.
fn step_count(run: &Run) -> usize
    ensures { result ≡ most_steps (byte_at run.now cabinets_at) (byte_at run.now unknowns_at) (byte_at run.now statements_at) }
{
    most_steps(
        layout::cabinets(run),
        layout::unknowns(run),
        layout::statements(run),
    )
}

// Whether the run has clashed or has nothing pending.
fn ended(run: &Run) -> bool
    ensures { result ≡ ended_bytes run.now }
{
    layout::has_clashed(run) || layout::count(run) == 0
}

// A sound run is run to its end, one drawn place after the other. The step count bounds it; a refusal, which no run from a file
// meets, ends it too.
pub fn draw(run: &mut Run)
    requires { sound_bytes run.old ≡ true }
    ensures { run.new ≡ drawn_bytes run.old }
{
    let mut state = generator::FIRST_STATE;
    for _ in 0..step_count(run) {
        if ended(run) {
            return;
        }
        state = generator::next_state(state);
        let place = taken_place(run, state);
        if rules::take(run, place).is_err() {
            return;
        }
    }
}
