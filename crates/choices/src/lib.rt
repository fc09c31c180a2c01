// Which rule a statement takes: decided from the sizes, the table, its cabinet's store, given as a value, and its memo, and
// changing nothing. Document 01 names this form: the store goes in by value.
#![tactic(auto)]

ghost use Rattle.std.specs.Prelude.{◌≡◌, ◌&&◌, ◌≤◌, ◌<◌, ltb, eqb, get_or};
ghost use Rattle.paper.specs.Sizes.{most_cabinets, most_unknowns, most_records};
ghost use Rattle.layout.specs.Offsets.{unknowns_at, memo_from};
ghost use Rattle.layout.specs.Fields.{byte_at};
ghost use Rattle.layout.specs.Changes.{store_of};
ghost use Rattle.choices.specs.Choices.{less_in, choice_by_mark, choice_by_records, choice_of};
ghost use Rattle.choices.specs.Given.{StatementIn};

use layout::{Mark, Run, Store};
use paper::Statement;

// What a statement does at its cabinet, by its store and memo. `Dereference` carries the entry that the store has. `Waits` stands
// among them, and no None of an Option: to wait is one of document 01's outcomes, which the definitions name with the others.
#[derive(Clone, Copy)]
pub enum Choice {
    Waits,
    Interchange,
    Memo,
    Dereference(u8),
    Identify,
    Conflict,
    Decompose,
    Initiate,
}

// Whether u is less than x, with v unknowns: x is an unknown, and u a record or an unknown with a smaller number. `soundness` has
// a test of its own, since it has to refuse a u above all entries too.
fn less(v: usize, u: usize, x: usize) -> bool
    ensures { result ≡ less_in v u x }
{
    x < v && (u >= v || u < x)
}

// Whether the pair of the sides is in the memo of the statement's cabinet. Looked up for two unknowns alone.
fn met(run: &Run, v: usize, s: Statement) -> bool
    requires { (v ≤ most_unknowns) × (s.cabinet < most_cabinets) × (s.left < v) }
    ensures { result ≡ (ltb s.right v && eqb (byte_at run.now (memo_from s.cabinet s.left s.right)) 1) }
{
    let left = usize::from(s.left);
    let right = usize::from(s.right);
    right < v && layout::pair_at(run, usize::from(s.cabinet), left, right) == 1
}

// The choice for a statement whose right side is less than its left, by the mark of the left in its cabinet's store.
fn by_mark(run: &Run, store: Store, v: usize, s: Statement) -> Choice
    requires { (v ≤ most_unknowns) × (s.cabinet < most_cabinets) × (s.left < v) }
    ensures { result ≡ choice_by_mark v run.now s.cabinet s.left s.right (get_or store.marks s.left 0) }
{
    match store.mark(usize::from(s.left)) {
        Mark::Nothing => Choice::Initiate,
        Mark::Initiated => Choice::Waits,
        Mark::Entry(_) if met(run, v, s) => Choice::Memo,
        Mark::Entry(entry) => Choice::Dereference(entry),
    }
}

// The choice for two records, by their numbers among the records.
#[tactic(auto, using(layout::proofs::ViewedFields::head_byte))]
fn by_records(run: &Run, i: usize, k: usize) -> Choice
    requires { (i < most_records) × (k < most_records) }
    ensures { result ≡ choice_by_records run.now i k }
{
    if layout::same_head(run, i, k) {
        Choice::Decompose
    } else {
        Choice::Conflict
    }
}

// What a statement does at its cabinet, whose store is given.
#[tactic(auto, unfolding(crate::specs::Choices::choice_of))]
pub fn choose(run: &Run, store: Store, s: Statement) -> Choice
    requires { StatementIn run.now s.cabinet s.left s.right × (store.marks ≡ store_of s.cabinet run.now) }
    ensures { result ≡ choice_of (byte_at run.now unknowns_at) run.now s.cabinet s.left s.right }
{
    let v = layout::unknowns(run);
    let a = usize::from(s.left);
    let b = usize::from(s.right);
    if less(v, a, b) {
        Choice::Interchange
    } else if less(v, b, a) {
        by_mark(run, store, v, s)
    } else if a < v {
        Choice::Identify
    } else {
        by_records(run, a - v, b - v)
    }
}
