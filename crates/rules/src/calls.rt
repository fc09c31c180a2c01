// The calls: a step, and a list of steps, of any bytes at all. 12 and 17 refuse them before an item is looked at, in each call in
// its own words: a step gives a refusal, and a list where it stopped.
ghost use Rattle.std.specs.Prelude.{◌≡◌, true};
ghost use Rattle.layout.specs.Soundness.{sound_bytes};
ghost use Rattle.rules.specs.Bytes.{step_bytes, all_taken, steps_bytes};
ghost use Rattle.rules.specs.Results.{taken, listed};

use super::numbered::Rule;
use super::taking::take;
use layout::Run;
use paper::Refusal;

// One step: the item at `place` is taken.
#[tactic(auto, unfolding(crate::specs::Bytes::step_bytes))]
pub fn step(run: &mut [u8], place: usize) -> Result<Rule, Refusal>
    ensures { taken result run.new ≡ step_bytes run.old place }
{
    let Some(run) = run.as_mut_array() else {
        return Err(Refusal::WrongLength);
    };
    if !soundness::sound(run) {
        return Err(Refusal::NotSound);
    }
    take(run, place)
}

// The first refusal of a list of places, and how many places were done before it.
#[derive(Clone, Copy, Debug, PartialEq, Eq)]
pub struct Stopped {
    pub refusal: Refusal,
    pub done: usize,
}

// The items at these places of a sound run are taken one after the other, up to the first refusal. Taking keeps a run sound. A
// place is cast, since there is no From<u32> for usize; the cast is proved to lose nothing.
fn take_all(run: &mut Run, places: &[u32]) -> Result<usize, Stopped>
    requires { sound_bytes run.old ≡ true }
    ensures { listed result run.new ≡ all_taken places.now 0 run.old }
{
    for (done, place) in places.iter().enumerate() {
        if let Err(refusal) = take(run, *place as usize) {
            return Err(Stopped { refusal, done });
        }
    }
    Ok(places.len())
}

// A list of steps, with the run's length and soundness checked once: how many places there were.
#[tactic(auto, unfolding(crate::specs::Bytes::steps_bytes))]
pub fn steps(run: &mut [u8], places: &[u32]) -> Result<usize, Stopped>
    ensures { listed result run.new ≡ steps_bytes run.old places.now }
{
    let Some(run) = run.as_mut_array() else {
        return Err(Stopped {
            refusal: Refusal::WrongLength,
            done: 0,
        });
    };
    if !soundness::sound(run) {
        return Err(Stopped {
            refusal: Refusal::NotSound,
            done: 0,
        });
    }
    take_all(run, places)
}
