// A sound run's owner marks followed to their end, once for all that is asked of them.
ghost use Rattle.std.specs.Prelude.{◌≡◌, true, ◌<◌};
ghost use Rattle.base.specs.Lists.{Bytes};
ghost use Rattle.layout.specs.Soundness.{sound_bytes};
ghost use Rattle.agreement.specs.Given.{SoundRun};
ghost use Rattle.agreement.specs.Ends.{EndsAt, AllEnd};

use layout::Run;
use paper::sizes::MOST_UNKNOWNS;

// A sound run, how many unknowns it has, and the entry at which the owner marks of each unknown end.
#[derive(Drop)]
pub struct RunEnds<'a> {
    pub run: &'a Run,
    pub unknowns: usize,
    pub ends: [u8; MOST_UNKNOWNS],
    pub ghost fits: { Bytes run.now },
    pub ghost sound: { SoundRun run.now unknowns },
    pub ghost followed: { AllEnd run.now unknowns ends },
}

// The entry at which the owner marks from x on end: an unknown without one, or a record. Document 01 names the recursion.
pub fn end_of(run: &Run, v: usize, x: usize) -> usize
    requires { SoundRun run.now v × (x < v) }
    ensures { EndsAt run.now x result }
{
    let Some(m) = layout::owner_at(run, x) else {
        return x;
    };
    if v <= m {
        return m;
    }
    end_of(run, v, m)
}

impl<'a> RunEnds<'a> {
    // The owner marks of each unknown followed. The loop is over the place, since its invariant speaks of the first x; `as` is proved to lose
    // nothing, where a TryFrom would have an Err that gives up.
    pub fn of(run: &'a Run) -> Self
        requires { sound_bytes run.now ≡ true }
        ensures { result.run.now ≡ run.now }
    {
        let v = layout::unknowns(run);
        let mut ends = [0; MOST_UNKNOWNS];
        for x in 0..v {
            ends[x] = end_of(run, v, x) as u8;
        }
        RunEnds {
            run,
            unknowns: v,
            ends,
        }
    }

    // The entry at which the owner marks from x on end.
    pub fn end_of(&self, x: usize) -> usize
        requires { x < self.now.unknowns }
        ensures { EndsAt self.now.run.now x result }
    {
        usize::from(self.ends[x])
    }
}
