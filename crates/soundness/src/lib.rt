// Whether a run's 59,752 bytes are sound: one test for each region of document 01's table, each over the definition of its
// name in layout/specs/Soundness. The sizes are tested first, so that no sum of them can overflow.
#![tactic(auto)]

ghost use Rattle.std.specs.Prelude.{◌≡◌, true, false, ◌&&◌, ◌+◌, ◌<◌, ◌≤◌, ltb, leb, eqb, length, MatchOption};
ghost use Rattle.base.specs.Choice.{pick, all_below};
ghost use Rattle.paper.specs.Sizes.{most_cabinets, most_unknowns, most_records, room};
ghost use Rattle.layout.specs.Offsets.{item_from};
ghost use Rattle.layout.specs.Fields.{byte_at};
ghost use Rattle.layout.specs.Soundness.{lesser, clash_ok, sizes_ok, parts_ok, records_ok, owner_ok, owners_ok, mark_ok, store_ok, stores_ok, memo_row_ok, memo_ok, memos_ok, item_ok, items_ok, regions_ok, sound_bytes};

use layout::{Mark, Run};
use paper::sizes;

// Whether the n bytes from `at` on are 0 or 1, in a loop like that of `layout::all_are`: one function of both would be no plainer, since
// its clauses would have to say what a closure answers.
fn bits_at(run: &Run, n: usize, at: usize) -> bool
    requires { at + n ≤ length run.now }
    ensures { result ≡ all_below n (λ i. leb (byte_at run.now (at + i)) 1) }
{
    let mut clean = true;
    for b in &run[at..at + n] {
        clean &= *b <= 1;
    }
    clean
}

// S, V, R and the pending count, in their ranges. The run stays beside them, as the definitions have it: kept here, each clause would
// have to say `self.run.now`. Nor is there a type of indices in range: one would have to be made anew in each loop.
#[derive(Clone, Copy)]
struct Sizes {
    cabinets: usize,
    unknowns: usize,
    records: usize,
    items: usize,
    ghost in_range: { (unknowns ≤ most_unknowns) × (records ≤ most_records) × (items ≤ room) },
}

impl Sizes {
    // The sizes of a run, if they and E are in their ranges: then it is sound if its regions are.
    #[tactic(auto, using(std::proofs::lemmas::Bool::Decides::nat_tests), unfolding(layout::specs::Soundness::sizes_ok, layout::specs::Soundness::sound_bytes))]
    fn of(run: &Run) -> Option<Sizes>
        ensures { MatchOption result (sound_bytes run.now ≡ false) (λ z. sound_bytes run.now ≡ regions_ok z.cabinets z.unknowns z.records z.items run.now) }
    {
        let cabinets = layout::cabinets(run);
        let unknowns = layout::unknowns(run);
        let records = layout::records(run);
        let items = layout::count(run);
        if 1 <= cabinets
            && cabinets <= sizes::MOST_CABINETS
            && unknowns <= sizes::MOST_UNKNOWNS
            && records <= sizes::MOST_RECORDS
            && layout::statements(run) <= sizes::MOST_STATEMENTS
            && items <= sizes::ROOM
        {
            return Some(Sizes {
                cabinets,
                unknowns,
                records,
                items,
            });
        }
        None
    }

    // Whether u is an entry less than the unknown x: a record, or an unknown with a smaller number. Choosing has its own test, which
    // knows both for entries; here either may be any byte.
    #[tactic(auto, using(std::proofs::lemmas::Bool::Decides::nat_tests), unfolding(layout::specs::Soundness::lesser))]
    fn lesser(self, u: usize, x: usize) -> bool
        ensures { result ≡ lesser self.unknowns self.records u x }
    {
        if x >= self.unknowns {
            return false;
        }
        if u < self.unknowns {
            u < x
        } else {
            u < self.unknowns + self.records
        }
    }

    // Whether bytes 0 and 1 are sound: running and 0, or clashed and a cabinet below S. An unsound run may have any two numbers here.
    #[tactic(auto, using(std::proofs::lemmas::Bool::Decides::nat_tests), unfolding(layout::specs::Soundness::clash_ok))]
    fn clash_ok(self, clash: usize, cabinet: usize) -> bool
        ensures { result ≡ clash_ok self.cabinets clash cabinet }
    {
        match clash {
            0 => cabinet == 0,
            1 => cabinet < self.cabinets,
            _ => false,
        }
    }

    // Whether p can stand at part place k of a record with n parts: an unknown below the count, else 0.
    fn part_ok(self, n: usize, k: usize, p: usize) -> bool
        ensures { result ≡ pick (ltb k n) (ltb p self.unknowns) (eqb p 0) }
    {
        if k < n { p < self.unknowns } else { p == 0 }
    }

    // Whether the part count and the four part places of record i are sound.
    fn parts_ok(self, run: &Run, i: usize) -> bool
        requires { i < most_records }
        ensures { result ≡ parts_ok self.unknowns i run.now }
    {
        let n = layout::part_count(run, i);
        n <= sizes::MOST_PARTS
            && (0..sizes::MOST_PARTS).all(|k| self.part_ok(n, k, layout::part_at(run, i, k)))
    }

    // Whether all 64 records are sound: the parts of those below R; the bytes from there on are 0.
    fn records_ok(self, run: &Run) -> bool
        ensures { result ≡ records_ok self.unknowns self.records run.now }
    {
        (0..self.records).all(|i| self.parts_ok(run, i))
            && layout::all_are(
                run,
                layout::RECORD_BYTES * (sizes::MOST_RECORDS - self.records),
                layout::TABLE + layout::RECORD_BYTES * self.records,
                0,
            )
    }

    // Whether the owner mark of x is sound: none, or an entry less than x.
    #[tactic(auto, using(std::proofs::lemmas::Bool::Decides::nat_tests), unfolding(layout::specs::Soundness::owner_ok))]
    fn owner_ok(self, run: &Run, x: usize) -> bool
        requires { x < most_unknowns }
        ensures { result ≡ owner_ok self.unknowns self.records run.now x }
    {
        layout::owner_at(run, x).is_none_or(|u| self.lesser(u, x))
    }

    // Whether all 32 owner marks are sound.
    fn owners_ok(self, run: &Run) -> bool
        ensures { result ≡ owners_ok self.unknowns self.records run.now }
    {
        (0..sizes::MOST_UNKNOWNS).all(|x| self.owner_ok(run, x))
    }

    // Whether the byte m can stand for x in the store of cabinet c: nothing, or, below S, initiated for an unknown or an entry less
    // than x.
    #[tactic(auto, using(std::proofs::lemmas::Bool::Decides::nat_tests), unfolding(layout::specs::Soundness::mark_ok, layout::specs::Soundness::lesser))]
    fn mark_ok(self, c: usize, x: usize, m: u8) -> bool
        ensures { result ≡ pick (ltb c self.cabinets) (mark_ok self.unknowns self.records x m) (eqb m 255) }
    {
        match Mark::from(m) {
            Mark::Nothing => true,
            Mark::Initiated => c < self.cabinets && x < self.unknowns,
            Mark::Entry(u) => c < self.cabinets && self.lesser(usize::from(u), x),
        }
    }

    // Whether the 32 marks of cabinet c's store are sound.
    fn store_ok(self, run: &Run, c: usize) -> bool
        requires { c < most_cabinets }
        ensures { result ≡ store_ok self.cabinets self.unknowns self.records run.now c }
    {
        let at = layout::STORES + sizes::MOST_UNKNOWNS * c;
        (0..sizes::MOST_UNKNOWNS).all(|x| self.mark_ok(c, x, run[at + x]))
    }

    // Whether all eight stores are sound.
    fn stores_ok(self, run: &Run) -> bool
        ensures { result ≡ stores_ok self.cabinets self.unknowns self.records run.now }
    {
        (0..sizes::MOST_CABINETS).all(|c| self.store_ok(run, c))
    }

    // How many bytes for the greater unknown x in cabinet c's memo can be 1: one for each smaller unknown, or none if there is no
    // such cabinet or no such unknown.
    fn pairs_of(self, c: usize, x: usize) -> usize
        ensures { (result ≡ pick (ltb c self.cabinets && ltb x self.unknowns) x 0) × (result ≤ x) }
    {
        if c < self.cabinets && x < self.unknowns {
            x
        } else {
            0
        }
    }

    // Whether the 32 bytes for the greater unknown x in cabinet c's memo are sound: 0 or 1 where a pair can stand, then 0.
    #[tactic(auto, using(crate::proofs::SoundMemos::row_stops, crate::proofs::SoundMemos::row_rest))]
    fn memo_row_ok(self, run: &Run, c: usize, x: usize) -> bool
        requires { (c < most_cabinets) × (x < most_unknowns) }
        ensures { result ≡ memo_row_ok self.cabinets self.unknowns run.now c x }
    {
        let at = layout::MEMOS + layout::MEMO_BYTES * c + sizes::MOST_UNKNOWNS * x;
        let n = self.pairs_of(c, x);
        bits_at(run, n, at) && layout::all_are(run, sizes::MOST_UNKNOWNS - n, at + n, 0)
    }

    // Whether cabinet c's memo is sound. Most memos have no pair, which one test shows.
    fn memo_ok(self, run: &Run, c: usize) -> bool
        requires { c < most_cabinets }
        ensures { result ≡ memo_ok self.cabinets self.unknowns run.now c }
    {
        let at = layout::MEMOS + layout::MEMO_BYTES * c;
        layout::all_are(run, layout::MEMO_BYTES, at, 0)
            || (0..sizes::MOST_UNKNOWNS).all(|x| self.memo_row_ok(run, c, x))
    }

    // Whether all eight memos are sound.
    fn memos_ok(self, run: &Run) -> bool
        ensures { result ≡ memos_ok self.cabinets self.unknowns run.now }
    {
        (0..sizes::MOST_CABINETS).all(|c| self.memo_ok(run, c))
    }

    // Whether an item of kind k at cabinet c, with left a and right b, is sound: a statement of two entries, or an ask or a news
    // with an unknown at left and a lesser entry at right. The kind is its byte, since an unsound item has no `Item`.
    #[tactic(auto, using(std::proofs::lemmas::Bool::Decides::nat_tests), unfolding(layout::specs::Soundness::item_ok))]
    fn item_ok(self, k: u8, c: usize, a: usize, b: usize) -> bool
        ensures { result ≡ item_ok self.cabinets self.unknowns self.records k c a b }
    {
        if c >= self.cabinets {
            return false;
        }
        match k {
            1 => a < self.unknowns + self.records && b < self.unknowns + self.records,
            2 | 3 => self.lesser(b, a),
            _ => false,
        }
    }

    // Whether the item at place p is sound: four bytes by their indices, since a part of the run is no array whose length is known.
    fn item_at_ok(self, run: &Run, p: usize) -> bool
        requires { p < room }
        ensures { result ≡ item_ok self.cabinets self.unknowns self.records (byte_at run.now (item_from p)) (byte_at run.now (item_from p + 1)) (byte_at run.now (item_from p + 2)) (byte_at run.now (item_from p + 3)) }
    {
        let at = layout::PENDING + layout::ITEM_BYTES * p;
        let c = usize::from(run[at + 1]);
        let a = usize::from(run[at + 2]);
        let b = usize::from(run[at + 3]);
        self.item_ok(run[at], c, a, b)
    }

    // Whether all 12,672 places of pending items are sound: the items below the count; the bytes from there on are 0.
    fn items_ok(self, run: &Run) -> bool
        ensures { result ≡ items_ok self.cabinets self.unknowns self.records self.items run.now }
    {
        (0..self.items).all(|p| self.item_at_ok(run, p))
            && layout::all_are(
                run,
                layout::ITEM_BYTES * (sizes::ROOM - self.items),
                layout::PENDING + layout::ITEM_BYTES * self.items,
                0,
            )
    }

    // Whether the regions that depend on the sizes are sound.
    #[tactic(auto, unfolding(layout::specs::Soundness::regions_ok))]
    fn regions_ok(self, run: &Run) -> bool
        ensures { result ≡ regions_ok self.cabinets self.unknowns self.records self.items run.now }
    {
        self.clash_ok(layout::clash_byte(run), layout::clash_cabinet(run))
            && self.records_ok(run)
            && self.owners_ok(run)
            && self.stores_ok(run)
            && self.memos_ok(run)
            && self.items_ok(run)
    }
}

// Whether the run is sound. Sizes out of range are refused before any sum of them is taken.
pub fn sound(run: &Run) -> bool
    ensures { result ≡ sound_bytes run.now }
{
    Sizes::of(run).is_some_and(|sizes| sizes.regions_ok(run))
}
