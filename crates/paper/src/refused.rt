// What is refused, by the numbers of document 01, as in specs/Refusals and under its names; and where in a file.
ghost use Rattle.std.specs.Prelude.{◌≡◌};
ghost use Rattle.paper.specs.Refusals.{refusal_number};

#[derive(Clone, Copy, Debug, PartialEq, Eq)]
pub enum Refusal {
    FileEnds = 1,
    BadNumber = 2,
    BadCabinets = 3,
    BadUnknowns = 4,
    BadRecords = 5,
    TooManyParts = 6,
    PartNotUnknown = 7,
    TooManyStatements = 8,
    NoSuchCabinet = 9,
    NoSuchEntry = 10,
    BytesLeft = 11,
    WrongLength = 12,
    NoSuchPlace = 13,
    StillWaits = 14,
    HasClashed = 15,
    ItemsPending = 16,
    NotSound = 17,
    NoRoom = 18,
    NotAsLoaded = 19,
}

// The number that a caller is told.
impl From<Refusal> for usize {
    ghost from_gives = { λ refusal number. number ≡ refusal_number refusal };

    fn from(refusal: Refusal) -> usize {
        refusal as usize
    }
}

impl Refusal {
    // This refusal, where the faulty number starts at `position`.
    pub fn at(self, position: usize) -> Fault
        ensures refusal { result.refusal ≡ self }
        ensures position { result.at ≡ position }
    {
        Fault {
            refusal: self,
            at: position,
        }
    }
}

// A refusal, and the position where the faulty number starts.
#[derive(Clone, Copy, Debug, PartialEq, Eq)]
pub struct Fault {
    pub refusal: Refusal,
    pub at: usize,
}
