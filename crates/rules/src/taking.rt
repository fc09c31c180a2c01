// One item is taken: 15, 13, 14 and 18 refuse it, in this order and before anything is changed; else its rule is carried out.
//
// That the run is sound, that an item fits at a place and that a statement is in its ranges stand in the clauses, and no type says
// it: they are facts of bytes that stay a caller's and that the rules change. x and u are two bytes of an item's three, and no
// struct: an ask needs no cabinet.
ghost use Rattle.std.specs.Prelude.{◌≡◌, true, [], ◌+◌, ◌≤◌, ◌<◌};
ghost use Rattle.paper.specs.Sizes.{most_cabinets, most_unknowns, most_records};
ghost use Rattle.layout.specs.Offsets.{cabinets_at, unknowns_at, records_at, owners_at};
ghost use Rattle.layout.specs.Fields.{byte_at, count_of};
ghost use Rattle.layout.specs.Soundness.{sound_bytes};
ghost use Rattle.layout.specs.Given.{Reads, byte_limit};
ghost use Rattle.choices.specs.declared.Choice.TheVariants.{Decompose};
ghost use Rattle.choices.specs.Choices.{choice_of};
ghost use Rattle.choices.specs.Given.{StatementIn};
ghost use Rattle.effects.specs.Changes.{mark};
ghost use Rattle.effects.specs.Given.{Fits};
ghost use Rattle.rules.specs.Plans.{plan, plan_of_choice, plan_of_ask};
ghost use Rattle.rules.specs.Bytes.{out, performed_bytes, taken_bytes};
ghost use Rattle.rules.specs.Numbers.{rule_number};
ghost use Rattle.rules.specs.Results.{taken};
ghost use Rattle.rules.specs.Given.{product_count, full_for, done_bytes, as_done, waits_in, waits_bytes};

use super::numbered::Rule;
use choices::Choice;
use layout::{Run, Store};
use paper::{Item, Refusal, Statement, sizes};

// How many products a statement with the left side a has, by its choice; one that waits has none.
fn products(run: &Run, a: u8, choice: Choice) -> usize
    requires { (byte_at run.now records_at ≤ most_records) × (a < byte_at run.now unknowns_at + byte_at run.now records_at) × (choice ≡ Decompose → byte_at run.now unknowns_at ≤ a) }
    ensures { Reads (product_count run.now a choice) byte_limit result }
{
    match choice {
        Choice::Waits | Choice::Memo | Choice::Identify | Choice::Conflict => 0,
        Choice::Interchange | Choice::Dereference(_) => 1,
        Choice::Decompose => layout::part_count(run, usize::from(a) - layout::unknowns(run)),
        Choice::Initiate => 2,
    }
}

// Whether there is no room for n products once an item goes.
#[tactic(auto, unfolding(crate::specs::Given::full_for))]
fn lacks_room(run: &Run, n: usize) -> bool
    requires { (0 < count_of run.now) × (n < byte_limit) }
    ensures { result ≡ full_for n run.now }
{
    layout::count(run) - 1 + n > sizes::ROOM
}

// A local rule, and the store that it gives back.
#[derive(Clone, Copy)]
struct Carried {
    rule: Rule,
    store: Store,
}

// The rule of a statement's choice, with its cabinet's store in and out by value; where it waits, nothing is changed. Seven of the
// names are a choice's and a rule's: that each choice is carried out by its own rule is what this function promises.
fn by_choice(
    run: &mut Run,
    store: Store,
    place: usize,
    s: Statement,
    choice: Choice,
) -> Result<Carried, Refusal>
    requires { StatementIn run.old s.cabinet s.left s.right × Fits run.old place (product_count run.old s.left choice) × (choice ≡ choice_of (byte_at run.old unknowns_at) run.old s.cabinet s.left s.right) }
    ensures { as_done result run.new ≡ done_bytes store.marks run.old place (plan_of_choice run.old s.cabinet s.left s.right choice) }
{
    let (rule, store) = match choice {
        Choice::Waits => return Err(Refusal::StillWaits),
        Choice::Interchange => (
            Rule::Interchange,
            effects::interchange(run, store, place, s),
        ),
        Choice::Memo => (Rule::Memo, effects::memo(run, store, place)),
        Choice::Dereference(m) => (
            Rule::Dereference,
            effects::dereference(run, store, place, s, m),
        ),
        Choice::Identify => (Rule::Identify, effects::identify(run, store, place)),
        Choice::Conflict => (
            Rule::Conflict,
            effects::conflict(run, store, place, s.cabinet),
        ),
        Choice::Decompose => {
            let v = layout::unknowns(run);
            let i = usize::from(s.left) - v;
            let k = usize::from(s.right) - v;
            let n = layout::part_count(run, i);
            let store = effects::decompose(run, store, place, s.cabinet, i, k, n);
            (Rule::Decompose, store)
        }
        Choice::Initiate => (Rule::Initiate, effects::initiate(run, store, place, s)),
    };
    Ok(Carried { rule, store })
}

// A statement at `place`: its choice by its cabinet's store, 14 and 18, then its rule. What waits has no products, so that there is
// room for them and it is told 14.
fn take_statement(run: &mut Run, place: usize, s: Statement) -> Result<Rule, Refusal>
    requires { StatementIn run.old s.cabinet s.left s.right × Fits run.old place 0 }
    ensures { taken result run.new ≡ performed_bytes run.old place (plan_of_choice run.old s.cabinet s.left s.right (choice_of (byte_at run.old unknowns_at) run.old s.cabinet s.left s.right)) }
{
    let store = layout::load_store(run, usize::from(s.cabinet));
    let choice = choices::choose(run, store, s);
    let n = products(run, s.left, choice);
    if lacks_room(run, n) {
        return Err(Refusal::NoRoom);
    }
    let carried = by_choice(run, store, place, s, choice)?;
    layout::save_store(run, usize::from(s.cabinet), carried.store);
    Ok(carried.rule)
}

// An ask of x and u at `place`: the first wins, where there is room for its news; each later one loses.
#[tactic(auto, using(crate::proofs::CarryLaws::news_count), unfolding(crate::specs::Given::full_for))]
fn take_ask(run: &mut Run, place: usize, x: u8, u: u8) -> Result<Rule, Refusal>
    requires { Fits run.old place 0 × (byte_at run.old cabinets_at ≤ most_cabinets) × (x < most_unknowns) }
    ensures { taken result run.new ≡ performed_bytes run.old place (plan_of_ask run.old x u (byte_at run.old (owners_at + x))) }
{
    if layout::owner_at(run, usize::from(x)).is_some() {
        effects::replace(run, place, &[]);
        return Ok(Rule::Lose);
    }
    let s = layout::cabinets(run);
    if lacks_room(run, s) {
        return Err(Refusal::NoRoom);
    }
    effects::win(run, place, s, x, u);
    Ok(Rule::Win)
}

// A news of x and u at `place` arrives at cabinet c.
fn take_news(run: &mut Run, place: usize, c: u8, x: u8, u: u8) -> Rule
    requires { Fits run.old place 0 × (c < most_cabinets) × (x < most_unknowns) }
    ensures { out 0 (rule_number result) run.new ≡ performed_bytes run.old place (plan 10 [] (mark c x u)) }
{
    let store = layout::load_store(run, usize::from(c));
    let store = effects::arrive(run, store, place, x, u);
    layout::save_store(run, usize::from(c), store);
    Rule::Arrive
}

// The item at `place` of a sound run is taken: 15, 13, then what its kind says. A statement is taken out of its item here and in
// `waits`: a function that gave it as an Option would leave the other two kinds to match here all the same.
#[tactic(auto, unfolding(crate::specs::Bytes::taken_bytes, crate::specs::Plans::plan_of))]
pub fn take(run: &mut Run, place: usize) -> Result<Rule, Refusal>
    requires { sound_bytes run.old ≡ true }
    ensures { taken result run.new ≡ taken_bytes run.old place }
{
    if layout::has_clashed(run) {
        return Err(Refusal::HasClashed);
    }
    if place >= layout::count(run) {
        return Err(Refusal::NoSuchPlace);
    }
    match layout::item_at(run, place) {
        Item::Statement {
            cabinet,
            left,
            right,
        } => take_statement(
            run,
            place,
            Statement {
                cabinet,
                left,
                right,
            },
        ),
        Item::Ask { left, right, .. } => take_ask(run, place, left, right),
        Item::News {
            cabinet,
            left,
            right,
        } => Ok(take_news(run, place, cabinet, left, right)),
    }
}

// Whether a statement waits at its cabinet.
fn statement_waits(run: &Run, s: Statement) -> bool
    requires { StatementIn run.now s.cabinet s.left s.right }
    ensures { result ≡ waits_in (plan_of_choice run.now s.cabinet s.left s.right (choice_of (byte_at run.now unknowns_at) run.now s.cabinet s.left s.right)) }
{
    let store = layout::load_store(run, usize::from(s.cabinet));
    matches!(choices::choose(run, store, s), Choice::Waits)
}

// Whether the item at `place` of a sound run waits: only a statement can.
#[tactic(auto, unfolding(crate::specs::Given::waits_bytes, crate::specs::Plans::plan_of))]
pub fn waits(run: &Run, place: usize) -> bool
    requires { (sound_bytes run.now ≡ true) × (place < count_of run.now) }
    ensures { result ≡ waits_bytes run.now place }
{
    match layout::item_at(run, place) {
        Item::Statement {
            cabinet,
            left,
            right,
        } => statement_waits(
            run,
            Statement {
                cabinet,
                left,
                right,
            },
        ),
        Item::Ask { .. } | Item::News { .. } => false,
    }
}
