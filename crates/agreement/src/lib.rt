// Whether two unknowns agree: one function on unknowns and one on part lists call each other, and the table of met pairs goes
// from call to call by value, as document 01 has it.
#![tactic(auto)]

mod ends; // ends.rt: owner marks followed to their end
mod met; // met.rt: the table of met pairs

ghost use Rattle.std.specs.Prelude.{◌≡◌, false, ◌<◌};
ghost use Rattle.base.specs.Lists.{list_from};
ghost use Rattle.paper.specs.Ends.{agree};
ghost use Rattle.layout.specs.Fields.{part_of};
ghost use Rattle.agreement.specs.Given.{OneRecord};
ghost use Rattle.agreement.specs.Ends.{ends_of};
ghost use Rattle.agreement.specs.Met.{met_of, settled_in};
ghost use Rattle.agreement.specs.Agreed.{UnknownsAgree, PartsAgree};

pub use ends::{RunEnds, end_of};
use met::Met;

// Whether x and y agree, two unknowns that were not met before: they are now, and their ends are compared. The table after comes back,
// as Ok where they agree and as Err where they do not.
#[cycle(agree_parts_agree_unknowns)]
fn agree_unknowns(ends: &RunEnds, x: usize, y: usize, met: Met) -> Result<Met, Met>
    requires { (x < ends.now.unknowns) × (y < ends.now.unknowns) × (settled_in (met_of met.words) x y ≡ false) }
    ensures { UnknownsAgree (ends_of ends.now.run.now) x y (met_of met.words) result }
{
    let next = met.meet(x, y);
    let run = ends.run;
    let v = ends.unknowns;
    let a = ends.end_of(x);
    let b = ends.end_of(y);
    if a < v {
        return if a == b { Ok(next) } else { Err(next) };
    }
    if b < v {
        return Err(next);
    }
    if !layout::same_head(run, a - v, b - v) {
        return Err(next);
    }
    let n = layout::part_count(run, a - v);
    agree_parts(ends, a - v, b - v, n, next)
}

// Whether the parts of records i and k, n each, agree, with the table after in either answer. The table is not copied for a pair that
// is not to be compared. The parts are read by one index, since what is promised after j turns is of the first j parts of both.
#[cycle(agree_parts_agree_unknowns)]
fn agree_parts(ends: &RunEnds, i: usize, k: usize, n: usize, met: Met) -> Result<Met, Met>
    requires { OneRecord ends.now.run.now ends.now.unknowns i n × OneRecord ends.now.run.now ends.now.unknowns k n }
    ensures { PartsAgree (ends_of ends.now.run.now) (list_from (part_of ends.now.run.now i) n 0) (list_from (part_of ends.now.run.now k) n 0) (met_of met.words) result }
{
    let run = ends.run;
    let mut next = met;
    for j in 0..n {
        let p = layout::part_at(run, i, j);
        let q = layout::part_at(run, k, j);
        if !next.settled(p, q) {
            next = agree_unknowns(ends, p, q, next)?;
        }
    }
    Ok(next)
}

impl<'a> RunEnds<'a> {
    // Whether x and y are the same item: they agree, asked with no pair met.
    pub fn same_item(&self, x: usize, y: usize) -> bool
        requires { (x < self.now.unknowns) × (y < self.now.unknowns) }
        ensures { result ≡ agree (ends_of self.now.run.now) self.now.unknowns x y }
    {
        x == y || agree_unknowns(self, x, y, Met::new()).is_ok()
    }
}
