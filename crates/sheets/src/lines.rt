// A printed line: two numbers of a call's reply, and a hash of the buffer that was lent.
ghost use Rattle.std.specs.Prelude.{◌≡◌};
ghost use Rattle.sheets.specs.Hashes.{hash_from};

use super::pieces;
use std::fmt;

#[derive(Clone, Copy)]
pub struct Line {
    pub number: u64,
    pub value: u64,
    pub hash: u64,
}

impl Line {
    // The line of a reply's two numbers, with the hash of the lent buffer. `as`, for no `From` makes a u64 of a usize.
    pub(crate) fn new(number: usize, value: usize, lent: &[u8]) -> Line
        ensures number { result.number ≡ number }
        ensures value { result.value ≡ value }
        ensures hash { result.hash ≡ hash_from 1 lent.now }
    {
        Line {
            number: number as u64,
            value: value as u64,
            hash: pieces::hash(lent),
        }
    }
}

impl fmt::Display for Line {
    fn fmt<W: fmt::Write>(&self, f: &mut fmt::Formatter<W>) -> fmt::Result {
        write!(f, "{} {} {}", self.number, self.value, self.hash)
    }
}
