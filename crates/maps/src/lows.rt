// The lowest same item of each unknown, asked for once: a part may be a later unknown, so this goes before the rows.
ghost use Rattle.std.specs.Prelude.{◌≡◌, true, ◌<◌};
ghost use Rattle.paper.specs.Maps.{lowest_of};
ghost use Rattle.layout.specs.Given.{Reads, byte_limit};
ghost use Rattle.layout.specs.Soundness.{sound_bytes};
ghost use Rattle.agreement.specs.Ends.{ends_of};
ghost use Rattle.maps.specs.Rows.{lowest_items};

use agreement::RunEnds;
use layout::Run;
use paper::sizes::MOST_UNKNOWNS;

// A sound run with its ends, and the lowest same item of each of its unknowns, then 0.
#[derive(Drop)]
pub struct LowestItems<'a> {
    pub ends: RunEnds<'a>,
    pub lows: [u8; MOST_UNKNOWNS],
    pub ghost are: { lows ≡ lowest_items ends.run.now ends.unknowns },
}

// The lowest unknown that is the same item as x.
fn lowest(ends: &RunEnds, x: usize) -> usize
    requires { x < ends.now.unknowns }
    ensures { Reads (lowest_of (ends_of ends.now.run.now) ends.now.unknowns x) byte_limit result }
{
    (0..x).find(|y| ends.same_item(x, *y)).unwrap_or(x)
}

impl<'a> LowestItems<'a> {
    // The lowest same item of each unknown. The loop is over the place, since its invariant speaks of the first x; `as` is proved to lose
    // nothing, where a TryFrom would have an Err that gives up.
    pub fn of(run: &'a Run) -> Self
        requires { sound_bytes run.now ≡ true }
        ensures { result.ends.run.now ≡ run.now }
    {
        let ends = RunEnds::of(run);
        let mut lows = [0; MOST_UNKNOWNS];
        for x in 0..ends.unknowns {
            lows[x] = lowest(&ends, x) as u8;
        }
        LowestItems { ends, lows }
    }
}
