// The table of met pairs, 128 bytes in words, so that it goes by value from call to call: its bits are reached by shifts.
ghost use Rattle.std.specs.Prelude.{◌≡◌, false, ◌<◌};
ghost use Rattle.paper.specs.Ends.{is_met, meeting};
ghost use Rattle.paper.specs.Sizes.{most_unknowns};
ghost use Rattle.agreement.specs.Met.{met_of, settled_in};

use paper::sizes::MOST_UNKNOWNS;

// For each unknown a word, with a bit for each unknown that is not greater.
#[derive(Clone, Copy)]
pub struct Met {
    pub words: [u32; MOST_UNKNOWNS],
}

impl Met {
    // The table without a pair.
    pub fn new() -> Met
        ensures { met_of result.words ≡ (λ x y. false) }
    {
        Met {
            words: [0; MOST_UNKNOWNS],
        }
    }

    // Whether the pair x, y is in the table, either way round.
    fn is_met(&self, x: usize, y: usize) -> bool
        requires { (x < most_unknowns) × (y < most_unknowns) }
        ensures { result ≡ is_met (met_of self.now.words) x y }
    {
        (self.words[x.max(y)] >> x.min(y)) & 1 == 1
    }

    // Whether x and y are not to be compared: they are one unknown, or a pair in the table.
    pub fn settled(&self, x: usize, y: usize) -> bool
        requires { (x < most_unknowns) × (y < most_unknowns) }
        ensures { result ≡ settled_in (met_of self.now.words) x y }
    {
        x == y || self.is_met(x, y)
    }

    // The table with the pair x, y.
    pub fn meet(mut self, x: usize, y: usize) -> Met
        requires { (x < most_unknowns) × (y < most_unknowns) }
        ensures { met_of result.words ≡ meeting (met_of self.words) x y }
    {
        self.words[x.max(y)] |= 1 << x.min(y);
        self
    }
}
