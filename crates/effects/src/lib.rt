// What the rules do: each function makes its rule's one change, takes the item away and appends the products in order. A local
// rule, all but 8 and 9, is given its cabinet's store as a value and gives it back; who takes the store out of the run puts it
// back, and what is left then is what specs/Changes says of the rule's change (proofs/StoreLaws). Document 01 names this form:
// the store by value, in and out of each local rule.
//
// `Fits` stands at each rule, and no type says it: it ties a place to a run that the rule changes, and each rule has a number of
// products of its own. x and u, an item's unknown and entry, are two bytes of its three, and no struct: each rule needs others.
#![tactic(auto)]

ghost use Rattle.std.specs.Prelude.{◌≡◌, [], ◌∷◌, ◌+◌, ◌≤◌, ◌<◌, ltb, length, set};
ghost use Rattle.base.specs.Choice.{pick};
ghost use Rattle.paper.specs.Sizes.{most_cabinets, most_unknowns, most_records, most_parts, room};
ghost use Rattle.paper.specs.Rules.{part_statements, news_to};
ghost use Rattle.paper.specs.declared.Item.TheVariants.{Statement as statement, Ask as ask};
ghost use Rattle.layout.specs.Offsets.{unknowns_at};
ghost use Rattle.layout.specs.Fields.{byte_at, count_of, parts_from};
ghost use Rattle.layout.specs.Changes.{removed_at, appended_all};
ghost use Rattle.effects.specs.Changes.{left, nothing, owner, pair, clash, applied};
ghost use Rattle.effects.specs.Given.{Fits};

use layout::{Mark, Run, Store};
use paper::{Item, Statement, sizes};

// The memo of cabinet c gains the pair of x and u if u is an unknown.
fn note_pair(run: &mut Run, c: u8, x: u8, u: u8)
    requires { (byte_at run.old unknowns_at ≤ most_unknowns) × (c < most_cabinets) × (x < most_unknowns) }
    ensures { run.new ≡ applied (pick (ltb u (byte_at run.old unknowns_at)) (pair c x u) nothing) run.old }
{
    if usize::from(u) < layout::unknowns(run) {
        layout::set_pair(run, usize::from(c), usize::from(x), usize::from(u));
    }
}

// The item at `place` goes, and these come, in this order. Where none comes, it is all that 2, 4 and 9 do to the run.
pub fn replace(run: &mut Run, place: usize, products: &[Item])
    requires { Fits run.old place (length products.now) }
    ensures { run.new ≡ appended_all products.now (removed_at place run.old) }
{
    layout::remove_item(run, place);
    for product in products {
        layout::append_item(run, *product);
    }
}

// Rule 1: the statement with its sides exchanged.
pub fn interchange(run: &mut Run, store: Store, place: usize, s: Statement) -> Store
    requires { Fits run.old place 1 }
    ensures { left result.marks run.new ≡ left store.marks (appended_all (statement s.cabinet s.right s.left ∷ []) (removed_at place run.old)) }
{
    let exchanged = Statement {
        left: s.right,
        right: s.left,
        ..s
    };
    replace(run, place, &[Item::from(exchanged)]);
    store
}

// Rule 2: the statement goes, for the memo has its pair.
pub fn memo(run: &mut Run, store: Store, place: usize) -> Store
    requires { Fits run.old place 0 }
    ensures { left result.marks run.new ≡ left store.marks (removed_at place run.old) }
{
    replace(run, place, &[]);
    store
}

// Rule 3: the memo gains the pair if the right side is an unknown; m, the store's entry for the left side, equals the right side.
pub fn dereference(run: &mut Run, store: Store, place: usize, s: Statement, m: u8) -> Store
    requires { Fits run.old place 1 × (byte_at run.old unknowns_at ≤ most_unknowns) × (s.cabinet < most_cabinets) × (s.left < most_unknowns) }
    ensures { left result.marks run.new ≡ left store.marks (appended_all (statement s.cabinet m s.right ∷ []) (removed_at place (applied (pick (ltb s.right (byte_at run.old unknowns_at)) (pair s.cabinet s.left s.right) nothing) run.old))) }
{
    note_pair(run, s.cabinet, s.left, s.right);
    let onward = Statement { left: m, ..s };
    replace(run, place, &[Item::from(onward)]);
    store
}

// Rule 4: the statement goes, for its sides are one unknown. A rule of its own, though it does what rule 2 does.
pub fn identify(run: &mut Run, store: Store, place: usize) -> Store
    requires { Fits run.old place 0 }
    ensures { left result.marks run.new ≡ left store.marks (removed_at place run.old) }
{
    replace(run, place, &[]);
    store
}

// Rule 5: the run clashed in cabinet c.
pub fn conflict(run: &mut Run, store: Store, place: usize, c: u8) -> Store
    requires { Fits run.old place 0 }
    ensures { left result.marks run.new ≡ left store.marks (removed_at place (applied (clash c) run.old)) }
{
    layout::set_clash(run, c);
    replace(run, place, &[]);
    store
}

// Rule 7: the store's mark for the left side becomes 254; an ask, then the statement again.
pub fn initiate(run: &mut Run, store: Store, place: usize, s: Statement) -> Store
    requires { Fits run.old place 2 × (s.left < most_unknowns) }
    ensures { left result.marks run.new ≡ left (set store.marks s.left 254) (appended_all (ask s.cabinet s.left s.right ∷ statement s.cabinet s.left s.right ∷ []) (removed_at place run.old)) }
{
    let ask = Item::Ask {
        cabinet: s.cabinet,
        left: s.left,
        right: s.right,
    };
    replace(run, place, &[ask, Item::from(s)]);
    store.marked(usize::from(s.left), Mark::Initiated)
}

// Rule 10: the store's mark for x becomes u, the entry that the news brings.
pub fn arrive(run: &mut Run, store: Store, place: usize, x: u8, u: u8) -> Store
    requires { Fits run.old place 0 × (x < most_unknowns) }
    ensures { left result.marks run.new ≡ left (set store.marks x u) (removed_at place run.old) }
{
    replace(run, place, &[]);
    store.marked(usize::from(x), Mark::Entry(u))
}

// The part places of record i, copied out, since the run is written while they are read.
fn parts_of(run: &Run, i: usize) -> [u8; sizes::MOST_PARTS]
    requires { i < most_records }
    ensures { result ≡ parts_from run.now i most_parts 0 }
{
    let at = layout::TABLE + layout::RECORD_BYTES * i + layout::SYMBOL_BYTES + 1;
    let mut parts = [0; sizes::MOST_PARTS];
    parts.copy_from_slice(&run[at..at + sizes::MOST_PARTS]);
    parts
}

// One statement at cabinet c for each two parts, first to last.
fn append_parts(run: &mut Run, c: u8, lefts: &[u8], rights: &[u8])
    requires { (count_of run.old + length lefts.now ≤ room) × (length rights.now ≡ length lefts.now) }
    ensures { run.new ≡ appended_all (part_statements c lefts.now rights.now) run.old }
{
    for (left, right) in lefts.iter().zip(rights) {
        layout::append_item(
            run,
            Item::Statement {
                cabinet: c,
                left: *left,
                right: *right,
            },
        );
    }
}

// Rule 6: one statement for each of the n parts that records i and k have: records and not sides, for what it promises is of the
// table's records and of their count, which who chose the rule has at hand.
pub fn decompose(
    run: &mut Run,
    store: Store,
    place: usize,
    c: u8,
    i: usize,
    k: usize,
    n: usize,
) -> Store
    requires { Fits run.old place n × (i < most_records) × (k < most_records) × (n ≤ most_parts) }
    ensures { left result.marks run.new ≡ left store.marks (appended_all (part_statements c (parts_from run.old i n 0) (parts_from run.old k n 0)) (removed_at place run.old)) }
{
    let lefts = parts_of(run, i);
    let rights = parts_of(run, k);
    layout::remove_item(run, place);
    append_parts(run, c, &lefts[..n], &rights[..n]);
    store
}

// News of x and u to cabinets 0 to s - 1. The cast is proved to lose nothing: a TryFrom would have an Err that gives up.
fn tell(run: &mut Run, s: usize, x: u8, u: u8)
    requires { (count_of run.old + s ≤ room) × (s ≤ most_cabinets) }
    ensures { run.new ≡ appended_all (news_to 0 s x u) run.old }
{
    for cabinet in 0..s {
        layout::append_item(
            run,
            Item::News {
                cabinet: cabinet as u8,
                left: x,
                right: u,
            },
        );
    }
}

// Rule 8: the owner mark of x becomes u; news to all s cabinets.
pub fn win(run: &mut Run, place: usize, s: usize, x: u8, u: u8)
    requires { Fits run.old place s × (s ≤ most_cabinets) × (x < most_unknowns) }
    ensures { run.new ≡ appended_all (news_to 0 s x u) (removed_at place (applied (owner x u) run.old)) }
{
    layout::set_owner(run, usize::from(x), u);
    layout::remove_item(run, place);
    tell(run, s, x, u);
}
