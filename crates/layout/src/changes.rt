// Writers: each leaves the run's bytes as specs/Changes says, and all other bytes as they were.
ghost use Rattle.std.specs.Prelude.{◌≡◌, [], ◌∷◌, ◌++◌, ◌+◌, ◌≤◌, ◌<◌, length, replicate};
ghost use Rattle.base.specs.Regions.{put, gone};
ghost use Rattle.paper.specs.Sizes.{most_cabinets, most_unknowns, most_records, most_parts, number_limit, room};
ghost use Rattle.layout.specs.Offsets.{symbol_bytes, item_bytes};
ghost use Rattle.layout.specs.Fields.{bytes_of, count_of};
ghost use Rattle.layout.specs.Given.{count_limit};
ghost use Rattle.layout.specs.Changes.{with_count, bytes_of_item, removed_at, appended, with_store, with_owner, with_pair, with_clash, cleared, with_sizes, with_record};

use super::fields::{NOTHING, Store, count};
use super::offsets::{self, Run};
use paper::{Item, sizes};

// The bytes of `from`, from `at` on.
#[tactic(auto, using(base::proofs::Regions::part_put))]
fn copy_in(run: &mut [u8], at: usize, from: &[u8])
    requires { at + length from.now ≤ length run.old }
    ensures { run.new ≡ put at from.now run.old }
{
    run[at..at + from.len()].copy_from_slice(from);
}

// n bytes v from `at` on. It stands beside std's `fill` to say what is left as `put`, which the definitions are made of.
#[tactic(auto, using(crate::proofs::ChangeLaws::part_filled))]
pub fn fill(run: &mut [u8], at: usize, n: usize, v: u8)
    requires { at + n ≤ length run.old }
    ensures { run.new ≡ put at (replicate n v) run.old }
{
    run[at..at + n].fill(v);
}

// The item at `at` goes: the bytes after it up to `end` move down, and the place that is free becomes 0.
fn close_gap(run: &mut [u8], at: usize, end: usize)
    requires { (at + item_bytes ≤ end) × (end ≤ length run.old) }
    ensures { run.new ≡ gone item_bytes at end run.old }
{
    let stop = end - offsets::ITEM_BYTES;
    // Not std's `copy_within`, with which steps of long runs take twice the time: the compiler makes one move of this loop.
    for i in 0..stop - at {
        run[at + i] = run[at + offsets::ITEM_BYTES + i];
    }
    fill(run, stop, offsets::ITEM_BYTES, 0);
}

// The pending count becomes n. `as` is proved to lose nothing, here and in `set_record`; a TryFrom would have an Err that gives up.
#[tactic(auto, unfolding(crate::specs::Changes::with_count))]
fn set_count(run: &mut Run, n: usize)
    requires { n < count_limit }
    ensures { run.new ≡ with_count n run.old }
{
    copy_in(run, offsets::COUNT, &(n as u16).to_le_bytes());
}

// The pending item at place p goes; later ones move up.
#[tactic(auto, unfolding(crate::specs::Changes::removed_at))]
pub fn remove_item(run: &mut Run, p: usize)
    requires { (count_of run.old ≤ room) × (p < count_of run.old) }
    ensures { run.new ≡ removed_at p run.old }
{
    let n = count(run);
    close_gap(
        run,
        offsets::PENDING + offsets::ITEM_BYTES * p,
        offsets::PENDING + offsets::ITEM_BYTES * n,
    );
    set_count(run, n - 1);
}

// An item's four bytes, from `at` on: the kinds are numbers here, where they are written, and where they are read.
fn put_item(run: &mut [u8], at: usize, item: Item)
    requires { at + item_bytes ≤ length run.old }
    ensures { run.new ≡ put at (bytes_of_item item) run.old }
{
    match item {
        Item::Statement {
            cabinet,
            left,
            right,
        } => copy_in(run, at, &[1, cabinet, left, right]),
        Item::Ask {
            cabinet,
            left,
            right,
        } => copy_in(run, at, &[2, cabinet, left, right]),
        Item::News {
            cabinet,
            left,
            right,
        } => copy_in(run, at, &[3, cabinet, left, right]),
    }
}

// One pending item more, at the end.
#[tactic(auto, unfolding(crate::specs::Changes::appended))]
pub fn append_item(run: &mut Run, item: Item)
    requires { count_of run.old < room }
    ensures { run.new ≡ appended item run.old }
{
    let n = count(run);
    put_item(run, offsets::PENDING + offsets::ITEM_BYTES * n, item);
    set_count(run, n + 1);
}

// The store of cabinet c goes back.
#[tactic(auto, unfolding(crate::specs::Changes::with_store))]
pub fn save_store(run: &mut Run, c: usize, store: Store)
    requires { c < most_cabinets }
    ensures { run.new ≡ with_store c store.marks run.old }
{
    copy_in(
        run,
        offsets::STORES + sizes::MOST_UNKNOWNS * c,
        &store.marks,
    );
}

// The owner mark of unknown x becomes u.
#[tactic(auto, unfolding(crate::specs::Changes::with_owner))]
pub fn set_owner(run: &mut Run, x: usize, u: u8)
    requires { x < most_unknowns }
    ensures { run.new ≡ with_owner x u run.old }
{
    run[offsets::OWNERS + x] = u;
}

// The pair x, y, greater first, is met in the memo of cabinet c.
#[tactic(auto, unfolding(crate::specs::Changes::with_pair))]
pub fn set_pair(run: &mut Run, c: usize, x: usize, y: usize)
    requires { (c < most_cabinets) × (x < most_unknowns) × (y < most_unknowns) }
    ensures { run.new ≡ with_pair c x y run.old }
{
    run[offsets::MEMOS + offsets::MEMO_BYTES * c + sizes::MOST_UNKNOWNS * x + y] = 1;
}

// The run clashed in cabinet c.
#[tactic(auto, unfolding(crate::specs::Changes::with_clash))]
pub fn set_clash(run: &mut Run, c: u8)
    ensures { run.new ≡ with_clash c run.old }
{
    run[offsets::CLASH] = 1;
    run[offsets::CLASH_CABINET] = c;
}

// No record and no item; every mark 255, every memo byte 0.
pub fn clear(run: &mut Run)
    ensures { run.new ≡ cleared }
{
    fill(run, 0, offsets::OWNERS, 0);
    fill(
        run,
        offsets::OWNERS,
        offsets::MEMOS - offsets::OWNERS,
        NOTHING,
    );
    fill(run, offsets::MEMOS, offsets::RUN_BYTES - offsets::MEMOS, 0);
}

// S, V, R and E.
#[tactic(auto, unfolding(crate::specs::Changes::with_sizes))]
pub fn set_sizes(run: &mut Run, s: u8, v: u8, r: u8, e: u8)
    ensures { run.new ≡ with_sizes s v r e run.old }
{
    copy_in(run, offsets::CABINETS, &[s, v, r, e]);
}

// A record's symbol, low byte first, and its part count n, from `at` on.
pub fn put_head(run: &mut [u8], at: usize, symbol: u64, n: u8)
    requires { at + symbol_bytes + 1 ≤ length run.old }
    ensures { run.new ≡ put at (bytes_of symbol_bytes symbol ++ (n ∷ [])) run.old }
{
    let [a, b, c, d, ..] = symbol.to_le_bytes();
    copy_in(run, at, &[a, b, c, d, n]);
}

// Record i: its symbol, its part count and its parts; parts beyond the count stay as they were.
#[tactic(auto, using(crate::proofs::ChangeLaws::record_put))]
pub fn set_record(run: &mut Run, i: usize, symbol: u64, parts: &[u8])
    requires { (i < most_records) × (symbol < number_limit) × (length parts.now ≤ most_parts) }
    ensures { run.new ≡ with_record i (record { symbol = symbol; parts = parts.now }) run.old }
{
    let at = offsets::TABLE + offsets::RECORD_BYTES * i;
    put_head(run, at, symbol, parts.len() as u8);
    copy_in(run, at + offsets::SYMBOL_BYTES + 1, parts);
}
