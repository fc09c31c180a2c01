// What a number out of its range is refused by: one of document 01's refusals, or any number, of a caller that has its own.
ghost use Rattle.std.specs.Prelude.{◌≡◌, ℕ};
ghost use Rattle.paper.specs.Refusals.{refusal_number};

use paper::{Fault, Refusal};

pub trait Refuses: Copy {
    // A refusal, and the position where the faulty number starts.
    type Told;

    ghost number: { Self → ℕ };

    ghost number_told: { Self.Told → ℕ };

    ghost position_told: { Self.Told → ℕ };

    // This refusal, where the faulty number starts at `position`.
    fn told_at(self, position: usize) -> Self::Told
        ensures number { number_told result ≡ number self }
        ensures position { position_told result ≡ position };

    // A number that is none, or too large.
    fn malformed(fault: Fault) -> Self::Told
        ensures number { number_told result ≡ refusal_number fault.refusal }
        ensures position { position_told result ≡ fault.at };
}

impl Refuses for Refusal {
    type Told = Fault;

    ghost number = { refusal_number };

    ghost number_told = { λ fault. refusal_number fault.refusal };

    ghost position_told = { λ fault. fault.at };

    fn told_at(self, position: usize) -> Fault {
        self.at(position)
    }

    fn malformed(fault: Fault) -> Fault {
        fault
    }
}

// A number of the caller's own, and the position.
impl Refuses for usize {
    type Told = (usize, usize);

    ghost number = { λ number. number };

    ghost number_told = { λ told. told.0 };

    ghost position_told = { λ told. told.1 };

    fn told_at(self, position: usize) -> (usize, usize) {
        (self, position)
    }

    fn malformed(fault: Fault) -> (usize, usize) {
        (usize::from(fault.refusal), fault.at)
    }
}
