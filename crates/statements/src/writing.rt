// Writing: a run that is as loading some file leaves it, back into that file. That a run is sound stays a clause, since the bytes are
// the caller's; so do the bounds of i and p, for which a type of index would be made anew at each loop.
ghost use Rattle.std.specs.Prelude.{◌≡◌, true, ◌≤◌, ◌<◌, length};
ghost use Rattle.paper.specs.Sizes.{most_records, most_parts, number_limit, room};
ghost use Rattle.paper.specs.Numbers.{number_bytes};
ghost use Rattle.paper.specs.Files.{record_bytes, statement_bytes, table_bytes, file_bytes, padded_file};
ghost use Rattle.layout.specs.Fields.{part_count_of, record_of, table_of};
ghost use Rattle.layout.specs.Soundness.{sound_bytes};
ghost use Rattle.statements.specs.Pieces.{HasRoom, Adds};
ghost use Rattle.statements.specs.Writes.{is_statement, all_statements, as_loaded, statement_at, file_of, write_answer, written_bytes};

use layout::Run;
use paper::{Item, Refusal, sizes};

// A lent file: room for the longest.
type LongestFile = [u8; sizes::LONGEST_FILE];

// Whether the pending item at place p is a statement.
fn is_statement(run: &Run, p: usize) -> bool
    requires { p < room }
    ensures { result ≡ is_statement run.now p }
{
    matches!(layout::item_at(run, p), Item::Statement { .. })
}

// Whether the first n pending items are.
fn all_statements(run: &Run, n: usize) -> bool
    requires { n ≤ room }
    ensures { result ≡ all_statements n run.now }
{
    (0..n).all(|p| is_statement(run, p))
}

// Whether the run is as loading some file leaves it.
#[tactic(auto, unfolding(crate::specs::Writes::as_loaded))]
fn as_loaded(run: &Run) -> bool
    ensures { result ≡ as_loaded run.now }
{
    let e = layout::statements(run);
    !layout::has_clashed(run)
        && layout::count(run) == e
        && layout::all_are(
            run,
            layout::MEMOS - layout::OWNERS,
            layout::OWNERS,
            layout::NOTHING,
        )
        && layout::all_are(run, layout::PENDING - layout::MEMOS, layout::MEMOS, 0)
        && all_statements(run, e)
}

// A file in the making, and where its next number goes. It stands beside printing's Text, which is alike: a type's methods stand in
// its own crate, and each of the two has its own. `as` below, for no `From` makes a u64 of a usize; each method says what it adds.
#[derive(Drop)]
struct Writer<'a> {
    file: &'a mut [u8],
    at: usize,
}

impl Writer<'_> {
    // A number in its groups.
    fn number(&mut self, n: u64)
        requires { (n < number_limit) × HasRoom self.old (number_bytes n) }
        ensures { Adds self.old (number_bytes n) self.new }
    {
        self.at = numbers::write_number(self.file, self.at, n);
    }

    // Record i: its symbol, its part count and its parts.
    fn record(&mut self, run: &Run, i: usize)
        requires { (i < most_records) × (part_count_of run.now i ≤ most_parts) × HasRoom self.old (record_bytes (record_of run.now i)) }
        ensures { Adds self.old (record_bytes (record_of run.now i)) self.new }
    {
        let count = layout::part_count(run, i);
        self.number(layout::symbol_at(run, i));
        self.number(count as u64);
        for k in 0..count {
            self.number(layout::part_at(run, i, k) as u64);
        }
    }

    // The statement at place p: its cabinet and its two sides.
    fn statement(&mut self, run: &Run, p: usize)
        requires { (p < room) × HasRoom self.old (statement_bytes (statement_at run.now p)) }
        ensures { Adds self.old (statement_bytes (statement_at run.now p)) self.new }
    {
        // Its kind is known, so the three bytes are read where they stand: an item would have to be matched first.
        let from = layout::PENDING + layout::ITEM_BYTES * p;
        self.number(u64::from(run[from + 1]));
        self.number(u64::from(run[from + 2]));
        self.number(u64::from(run[from + 3]));
    }

    // The table: S, V, R and the records.
    fn table(&mut self, run: &Run)
        requires { (sound_bytes run.now ≡ true) × HasRoom self.old (table_bytes (table_of run.now)) }
        ensures { Adds self.old (table_bytes (table_of run.now)) self.new }
    {
        let records = layout::records(run);
        self.number(layout::cabinets(run) as u64);
        self.number(layout::unknowns(run) as u64);
        self.number(records as u64);
        for i in 0..records {
            self.record(run, i);
        }
    }

    // The whole file: the table, E and the statements.
    fn whole(&mut self, run: &Run)
        requires { (sound_bytes run.now ≡ true) × HasRoom self.old (file_bytes (file_of run.now)) }
        ensures { Adds self.old (file_bytes (file_of run.now)) self.new }
    {
        let statements = layout::statements(run);
        self.table(run);
        self.number(statements as u64);
        for p in 0..statements {
            self.statement(run, p);
        }
    }
}

// The file of a run that is as loaded, and zeros up to the longest file's length; gives the file's length.
fn write_padded(run: &Run, file: &mut LongestFile) -> usize
    requires { (sound_bytes run.now ≡ true) × (as_loaded run.now ≡ true) }
    ensures end { result ≡ length (file_bytes (file_of run.now)) }
    ensures bytes { file.new ≡ padded_file (file_of run.now) }
{
    let mut writer = Writer { file, at: 0 };
    writer.whole(run);
    let end = writer.at;
    file[end..].fill(0);
    end
}

// The run's file, and zeros up to the longest file's length; gives the file's length. A refused call leaves every byte.
#[tactic(auto, unfolding(crate::specs::Writes::written_bytes))]
pub fn write(run: &[u8], file: &mut [u8]) -> Result<usize, Refusal>
    ensures { write_answer result file.new ≡ written_bytes run.now file.old }
{
    let run = run.as_array().ok_or(Refusal::WrongLength)?;
    let file = file.as_mut_array().ok_or(Refusal::WrongLength)?;
    if !soundness::sound(run) {
        return Err(Refusal::NotSound);
    }
    if !as_loaded(run) {
        return Err(Refusal::NotAsLoaded);
    }
    Ok(write_padded(run, file))
}
