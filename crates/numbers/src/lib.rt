// Numbers of a statement file, read and written: groups of seven bits, lowest first, one to a byte. A byte's top bit, 128,
// says that another group follows.
#![tactic(auto)]

ghost use Rattle.std.specs.Prelude.{◌≡◌, ◌+◌, ◌≤◌, ◌<◌, length};
ghost use Rattle.base.specs.Puts.{PutFrom};
ghost use Rattle.paper.specs.Sizes.{top_group, number_limit};
ghost use Rattle.paper.specs.Numbers.{largest, number_at, ranged_at, number_bytes};
ghost use Rattle.paper.specs.Found.{as_read};
ghost use Rattle.numbers.specs.Told.{read_or_told};

mod refuses; // refuses.rt: what a number out of its range is refused by

use paper::{Fault, Found, Refusal, sizes};
pub use refuses::Refuses;
use std::ops::Range;

// The largest group that may end a number with `more` groups allowed after it.
fn largest_end(more: usize) -> u64
    ensures { result ≡ largest more top_group }
{
    if more == 0 { sizes::TOP_GROUP } else { 127 }
}

// The number at `at`. Its value is a u64, and no u32: document 02 widens numbers to 48 bits.
pub fn number_at(file: &[u8], at: usize) -> Result<Found<u64>, Fault>
    ensures { as_read result ≡ number_at file.now at }
{
    // The groups before `here` come to `value`.
    let mut value: u64 = 0;
    // What follows counts so many times.
    let mut scale: u64 = 1;
    // The ending group is at least this: 0 for a number's first group, 1 for a later one, which gives the shortest form.
    let mut least: u64 = 0;
    // Counted beside `more`, since a sum of `at` and a count may not fit.
    let mut here = at;
    // After the group at `here` at most `more` may follow.
    for more in (0..sizes::MOST_GROUPS).rev() {
        let Some(byte) = file.get(here) else {
            return Err(Refusal::FileEnds.at(at));
        };
        let group = u64::from(*byte);
        if group < 128 {
            if group < least || largest_end(more) < group {
                return Err(Refusal::BadNumber.at(at));
            }
            return Ok(Found {
                value: value + scale * group,
                next: here + 1,
            });
        }
        value += scale * (group % 128);
        scale *= 128;
        least = 1;
        here += 1;
    }
    Err(Refusal::BadNumber.at(at))
}

// The number at `at`, refused by `refusal` unless it is in `range`.
pub fn ranged_at<R: Refuses>(
    file: &[u8],
    at: usize,
    range: Range<u64>,
    refusal: R,
) -> Result<Found<u64>, R::Told>
    ensures { read_or_told R.number_told R.position_told result ≡ ranged_at range.start range.end (R.number refusal) file.now at }
{
    // Document 01 names this form: each number read is taken apart by let else.
    let read = number_at(file, at);
    let Ok(number) = read else {
        return read.map_err(|fault| R::malformed(fault));
    };
    if range.contains(&number.value) {
        Ok(number)
    } else {
        Err(refusal.told_at(at))
    }
}

// The same of any number: of a caller that has no `Refusal`, told as the number and the position.
pub fn ranged_by_number(
    file: &[u8],
    at: usize,
    range: Range<u64>,
    refusal: usize,
) -> Result<Found<u64>, (usize, usize)>
    ensures { read_or_told (λ told. told.0) (λ told. told.1) result ≡ ranged_at range.start range.end refusal file.now at }
{
    ranged_at(file, at, range, refusal)
}

// The groups of `n` at `at` in `file`, and the position after them. They are not counted: a number below
// the paper's number_limit has at most most_groups of them. `as` is proved to lose nothing: a TryFrom would have an Err that gives up.
pub fn write_number(file: &mut [u8], at: usize, n: u64) -> usize
    requires { (n < number_limit) × (at + length (number_bytes n) ≤ length file.old) }
    ensures { PutFrom at (number_bytes n) file.old file.new result }
{
    if n < 128 {
        file[at] = n as u8;
        return at + 1;
    }
    file[at] = (128 + n % 128) as u8;
    write_number(file, at + 1, n / 128)
}
