// Readers: each gives back what specs/Fields says stands in its field of the run's bytes. A byte is read as a usize, since it is then
// an index or compared with one; `Reads` says how small it is.
ghost use Rattle.std.specs.Prelude.{◌≡◌, ◌+◌, ◌≤◌, ◌<◌, not, eqb, length, get_or, set, MatchOption};
ghost use Rattle.paper.specs.Sizes.{most_cabinets, most_unknowns, most_records, most_parts, number_limit, room};
ghost use Rattle.paper.specs.Tables.{same_head};
ghost use Rattle.layout.specs.Offsets.{clash_at, clash_cabinet_at, cabinets_at, unknowns_at, records_at, statements_at, owners_at, memo_from};
ghost use Rattle.layout.specs.Fields.{byte_at, count_of, symbol_of, part_count_of, part_of, record_of, item_at, store_mark};
ghost use Rattle.layout.specs.Changes.{store_of};
ghost use Rattle.layout.specs.Given.{Reads, byte_limit, count_limit, mark_of_code, byte_of_mark, MarkIs};
ghost use Rattle.layout.specs.Soundness.{all_are};

use super::offsets::{self, Run};
use paper::{Item, sizes};

// The marks that are no entry: nothing, and, in stores only, initiated.
pub const NOTHING: u8 = 255;

const INITIATED: u8 = 254;

// Whether the n bytes from `at` on are all v. There is no way out inside the loop, so that it compiles to one that tests many bytes
// at once. n and `at` stand beside the run, as the definition has them.
pub fn all_are(run: &[u8], n: usize, at: usize, v: u8) -> bool
    requires { at + n ≤ length run.now }
    ensures { result ≡ all_are v n at run.now }
{
    let mut clean = true;
    for b in &run[at..at + n] {
        clean &= *b == v;
    }
    clean
}

// S, how many cabinets there are.
pub fn cabinets(run: &Run) -> usize
    ensures { Reads (byte_at run.now cabinets_at) byte_limit result }
{
    usize::from(run[offsets::CABINETS])
}

// V, how many unknowns.
pub fn unknowns(run: &Run) -> usize
    ensures { Reads (byte_at run.now unknowns_at) byte_limit result }
{
    usize::from(run[offsets::UNKNOWNS])
}

// R, how many records.
pub fn records(run: &Run) -> usize
    ensures { Reads (byte_at run.now records_at) byte_limit result }
{
    usize::from(run[offsets::RECORDS])
}

// E, how many statements the file has.
pub fn statements(run: &Run) -> usize
    ensures { Reads (byte_at run.now statements_at) byte_limit result }
{
    usize::from(run[offsets::STATEMENTS])
}

// 0 while the run is running, 1 once it clashed. It and the next are no Option: an unsound run may have any two bytes here, which
// soundness tests.
pub fn clash_byte(run: &Run) -> usize
    ensures { Reads (byte_at run.now clash_at) byte_limit result }
{
    usize::from(run[offsets::CLASH])
}

// Whether the run has clashed.
pub fn has_clashed(run: &Run) -> bool
    ensures { result ≡ not (eqb (byte_at run.now clash_at) 0) }
{
    run[offsets::CLASH] != 0
}

// The cabinet of the clash, else 0.
pub fn clash_cabinet(run: &Run) -> usize
    ensures { Reads (byte_at run.now clash_cabinet_at) byte_limit result }
{
    usize::from(run[offsets::CLASH_CABINET])
}

// How many items are pending: two bytes, low first.
#[tactic(auto, unfolding(crate::specs::Fields::count_of))]
pub fn count(run: &Run) -> usize
    ensures { Reads (count_of run.now) count_limit result }
{
    usize::from(u16::from_le_bytes([run[offsets::COUNT], run[offsets::COUNT + 1]]))
}

// The pending item at place p. A sound run's kinds are 1, 2 and 3: numbers here, where they are read, and where they are written.
#[tactic(auto, unfolding(crate::specs::Fields::item_at))]
pub fn item_at(run: &Run, p: usize) -> Item
    requires { p < room }
    ensures { result ≡ item_at run.now p }
{
    let at = offsets::PENDING + offsets::ITEM_BYTES * p;
    let kind = run[at];
    let cabinet = run[at + 1];
    let left = run[at + 2];
    let right = run[at + 3];
    match kind {
        1 => Item::Statement {
            cabinet,
            left,
            right,
        },
        2 => Item::Ask {
            cabinet,
            left,
            right,
        },
        _ => Item::News {
            cabinet,
            left,
            right,
        },
    }
}

// The symbol of record i: four bytes, low first, picked one by one: a part of the run is no array whose length is known.
#[tactic(auto, using(crate::proofs::FieldLaws::symbol_read))]
pub fn symbol_at(run: &Run, i: usize) -> u64
    requires { i < most_records }
    ensures { Reads (symbol_of run.now i) number_limit result }
{
    let at = offsets::TABLE + offsets::RECORD_BYTES * i;
    u64::from(u32::from_le_bytes([run[at], run[at + 1], run[at + 2], run[at + 3]]))
}

// How many parts record i has.
pub fn part_count(run: &Run, i: usize) -> usize
    requires { i < most_records }
    ensures { Reads (part_count_of run.now i) byte_limit result }
{
    let at = offsets::TABLE + offsets::RECORD_BYTES * i + offsets::SYMBOL_BYTES;
    usize::from(run[at])
}

// Part k of record i.
pub fn part_at(run: &Run, i: usize, k: usize) -> usize
    requires { (i < most_records) × (k < most_parts) }
    ensures { Reads (part_of run.now i k) byte_limit result }
{
    let at = offsets::TABLE + offsets::RECORD_BYTES * i + offsets::SYMBOL_BYTES + 1 + k;
    usize::from(run[at])
}

// Whether records i and k have the same symbol and part count.
#[tactic(auto, using(crate::proofs::ViewedFields::heads_differ, crate::proofs::ViewedFields::heads_counted))]
pub fn same_head(run: &Run, i: usize, k: usize) -> bool
    requires { (i < most_records) × (k < most_records) }
    ensures { result ≡ same_head (record_of run.now i) (record_of run.now k) }
{
    symbol_at(run, i) == symbol_at(run, k) && part_count(run, i) == part_count(run, k)
}

// The owner mark of unknown x: an entry, or none.
pub fn owner_at(run: &Run, x: usize) -> Option<usize>
    requires { x < most_unknowns }
    ensures { MatchOption result (byte_at run.now (owners_at + x) ≡ 255) (λ u. Reads (byte_at run.now (owners_at + x)) 255 u) }
{
    match run[offsets::OWNERS + x] {
        NOTHING => None,
        u => Some(usize::from(u)),
    }
}

// The byte of the pair x, y, greater first, in the memo of cabinet c: a public function, whose number stays.
pub fn pair_at(run: &Run, c: usize, x: usize, y: usize) -> usize
    requires { (c < most_cabinets) × (x < most_unknowns) × (y < most_unknowns) }
    ensures { Reads (byte_at run.now (memo_from c x y)) byte_limit result }
{
    let at = offsets::MEMOS + offsets::MEMO_BYTES * c + sizes::MOST_UNKNOWNS * x + y;
    usize::from(run[at])
}

// What a store has for an unknown.
#[derive(Clone, Copy)]
pub enum Mark {
    Nothing,
    Initiated,
    Entry(u8),
}

impl From<u8> for Mark {
    ghost from_gives = { λ byte mark. mark_of_code mark ≡ store_mark byte };

    fn from(byte: u8) -> Mark {
        match byte {
            NOTHING => Mark::Nothing,
            INITIATED => Mark::Initiated,
            entry => Mark::Entry(entry),
        }
    }
}

impl From<Mark> for u8 {
    ghost from_gives = { λ mark byte. byte ≡ byte_of_mark mark };

    fn from(mark: Mark) -> u8 {
        match mark {
            Mark::Nothing => NOTHING,
            Mark::Initiated => INITIATED,
            Mark::Entry(entry) => entry,
        }
    }
}

// The marks of one cabinet's store.
#[derive(Clone, Copy)]
pub struct Store {
    pub marks: [u8; sizes::MOST_UNKNOWNS],
}

impl Store {
    // The mark of unknown x.
    pub fn mark(self, x: usize) -> Mark
        requires { x < most_unknowns }
        ensures { MarkIs (get_or self.marks x 0) result }
    {
        Mark::from(self.marks[x])
    }

    // The store with `mark` for unknown x.
    pub fn marked(mut self, x: usize, mark: Mark) -> Store
        requires { x < most_unknowns }
        ensures { result.marks ≡ set self.marks x (byte_of_mark mark) }
    {
        self.marks[x] = u8::from(mark);
        self
    }
}

// The store of cabinet c, copied out.
#[tactic(auto, unfolding(crate::specs::Changes::store_of, base::specs::Regions::get))]
pub fn load_store(run: &Run, c: usize) -> Store
    requires { c < most_cabinets }
    ensures { result.marks ≡ store_of c run.now }
{
    let at = offsets::STORES + sizes::MOST_UNKNOWNS * c;
    let mut marks = [0u8; sizes::MOST_UNKNOWNS];
    marks.copy_from_slice(&run[at..at + sizes::MOST_UNKNOWNS]);
    Store { marks }
}
