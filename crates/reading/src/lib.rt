// The statement file, read: the sizes, a record, a statement, each with where the read ended; the whole file; statement n.
// File and position stay two parameters: callers name both, and a cursor would be a type more and no line less. A refused
// number is handed on by `?`. `as` is proved to lose nothing here: a TryFrom would have an Err that gives up.
#![tactic(auto)]

ghost use Rattle.std.specs.Prelude.{◌≡◌, MatchOption, ◌+◌, ◌≤◌};
ghost use Rattle.paper.specs.Sizes.{most_cabinets, most_unknowns, most_records, most_parts};
ghost use Rattle.paper.specs.Found.{as_read};
ghost use Rattle.paper.specs.Files.{record_form, reading, empty_span, statement_span, statement_part};
ghost use Rattle.reading.specs.Reads.{read_as, sizes_form, heading, parts_form, RecordFound, statement_form_of, statement_of, Skipped, checked_file, span_of};

use paper::{Fault, Found, Refusal, Statement, sizes};

// One more than the paper's most_cabinets.
const CABINETS_BELOW: u64 = sizes::MOST_CABINETS as u64 + 1;

// One more than the paper's most_unknowns.
const UNKNOWNS_BELOW: u64 = sizes::MOST_UNKNOWNS as u64 + 1;

// One more than the paper's most_records.
const RECORDS_BELOW: u64 = sizes::MOST_RECORDS as u64 + 1;

// One more than the paper's most_parts.
const PARTS_BELOW: u64 = sizes::MOST_PARTS as u64 + 1;

// One more than the paper's most_statements.
const STATEMENTS_BELOW: u64 = sizes::MOST_STATEMENTS as u64 + 1;

// S, V and R.
#[derive(Clone, Copy)]
pub struct Sizes {
    pub cabinets: usize,
    pub unknowns: usize,
    pub records: usize,
}

impl Sizes {
    // How many entries there are: V + R.
    pub fn entries(self) -> usize
        requires { (self.unknowns ≤ most_unknowns) × (self.records ≤ most_records) }
        ensures { result ≡ self.unknowns + self.records }
    {
        self.unknowns + self.records
    }
}

// A record: its symbol, its part count, and its parts, 0 beyond the count. An array with its count: there is no heap.
#[derive(Clone, Copy)]
pub struct RecordRead {
    pub symbol: u64,
    pub count: usize,
    pub parts: [u8; sizes::MOST_PARTS],
}

// S, V, R and E, where the table of records starts, and where the list of statements starts.
#[derive(Clone, Copy)]
pub struct Checked {
    pub sizes: Sizes,
    pub statements: usize,
    pub table: usize,
    pub list: usize,
}

// A part of a file: where it starts, and its length. C takes it by its layout.
#[repr(C)]
#[derive(Clone, Copy)]
pub struct Span {
    pub start: usize,
    pub size: usize,
}

// S, V and R, at the start of the file.
fn read_sizes(file: &[u8]) -> Result<Found<Sizes>, Fault>
    ensures { read_as heading result ≡ reading sizes_form file.now 0 }
{
    let s = numbers::ranged_at(file, 0, 1..CABINETS_BELOW, Refusal::BadCabinets)?;
    let v = numbers::ranged_at(file, s.next, 0..UNKNOWNS_BELOW, Refusal::BadUnknowns)?;
    let r = numbers::ranged_at(file, v.next, 0..RECORDS_BELOW, Refusal::BadRecords)?;
    let value = Sizes {
        cabinets: s.value as usize,
        unknowns: v.value as usize,
        records: r.value as usize,
    };
    Ok(Found {
        value,
        next: r.next,
    })
}

// The record of that symbol with `count` parts at `at`, each below v.
fn read_parts(
    file: &[u8],
    at: usize,
    v: usize,
    symbol: u64,
    count: usize,
) -> Result<Found<RecordRead>, Fault>
    requires { (v ≤ most_unknowns) × (count ≤ most_parts) }
    ensures { RecordFound (parts_form v symbol count) file.now at result }
{
    let mut parts = [0u8; sizes::MOST_PARTS];
    let mut here = at;
    // A range, and not the places: the loop's invariant speaks of the first i parts.
    for i in 0..count {
        let part = numbers::ranged_at(file, here, 0..v as u64, Refusal::PartNotUnknown)?;
        parts[i] = part.value as u8;
        here = part.next;
    }
    let value = RecordRead {
        symbol,
        count,
        parts,
    };
    Ok(Found { value, next: here })
}

// The record at `at`, with v unknowns: its symbol, its part count and its parts.
pub fn read_record(file: &[u8], at: usize, v: usize) -> Result<Found<RecordRead>, Fault>
    requires { v ≤ most_unknowns }
    ensures { RecordFound (record_form v) file.now at result }
{
    let symbol = numbers::ranged_at(file, at, 0..sizes::NUMBER_LIMIT, Refusal::BadNumber)?;
    let count = numbers::ranged_at(file, symbol.next, 0..PARTS_BELOW, Refusal::TooManyParts)?;
    read_parts(file, count.next, v, symbol.value, count.value as usize)
}

// The statement at `at`, with s cabinets and n entries: its cabinet and its two sides.
pub fn read_statement(file: &[u8], at: usize, s: usize, n: usize) -> Result<Found<Statement>, Fault>
    requires { (s ≤ most_cabinets) × (n ≤ most_unknowns + most_records) }
    ensures { read_as statement_of result ≡ reading (statement_form_of s n) file.now at }
{
    let cabinet = numbers::ranged_at(file, at, 0..s as u64, Refusal::NoSuchCabinet)?;
    let left = numbers::ranged_at(file, cabinet.next, 0..n as u64, Refusal::NoSuchEntry)?;
    let right = numbers::ranged_at(file, left.next, 0..n as u64, Refusal::NoSuchEntry)?;
    let value = Statement {
        cabinet: cabinet.value as u8,
        left: left.value as u8,
        right: right.value as u8,
    };
    Ok(Found {
        value,
        next: right.next,
    })
}

// Where `count` reads from `at` on end, each from where the one before ended.
fn skip<T: Copy, F: Fn(usize) -> Result<Found<T>, Fault>>(
    at: usize,
    count: usize,
    read: F,
) -> Result<usize, Fault>
    requires { F.IsAlwaysCallable read }
    ensures { Skipped (F.post read) count at result }
{
    let mut here = at;
    for _ in 0..count {
        here = read(here)?.next;
    }
    Ok(here)
}

// The whole file: sizes, records, E, statements, and no byte left.
pub fn check_file(file: &[u8]) -> Result<Found<Checked>, Fault>
    ensures { as_read result ≡ checked_file file.now }
{
    let sizes = read_sizes(file)?;
    let Sizes {
        cabinets,
        unknowns,
        records,
    } = sizes.value;
    let entries = sizes.value.entries();
    let count_at = skip(sizes.next, records, |at| read_record(file, at, unknowns))?;
    let count = numbers::ranged_at(
        file,
        count_at,
        0..STATEMENTS_BELOW,
        Refusal::TooManyStatements,
    )?;
    let statements = count.value as usize;
    let end = skip(
        count.next,
        statements,
        |at| read_statement(file, at, cabinets, entries),
    )?;
    if end < file.len() {
        return Err(Refusal::BytesLeft.at(end));
    }
    let value = Checked {
        sizes: sizes.value,
        statements,
        table: sizes.next,
        list: count.next,
    };
    Ok(Found { value, next: end })
}

// Where statement n stands; none if the file is refused or has no statement n.
fn located(file: &[u8], n: usize) -> Option<Span>
    ensures { MatchOption result (empty_span ≡ statement_span file.now n) (λ x. span_of x ≡ statement_span file.now n) }
{
    let checked = check_file(file).ok()?.value;
    if checked.statements <= n {
        return None;
    }
    let cabinets = checked.sizes.cabinets;
    let entries = checked.sizes.entries();
    let start = skip(
        checked.list,
        n,
        |at| read_statement(file, at, cabinets, entries),
    )
    .ok()?;
    let end = read_statement(file, start, cabinets, entries).ok()?.next;
    Some(Span {
        start,
        size: end - start,
    })
}

// Where statement n stands. It cannot fail as a whole: of a refused file and of a statement that is not there, C is told the empty
// part at 0.
pub fn find_statement(file: &[u8], n: usize) -> Span
    ensures { span_of result ≡ statement_span file.now n }
{
    located(file, n).unwrap_or(Span { start: 0, size: 0 })
}

// Statement n of the file, as a part of the file; an empty part if the file is refused or has no statement n.
pub fn statement(file: &[u8], n: usize) -> &[u8]
    ensures { result.now ≡ statement_part file.now n }
{
    let span = find_statement(file, n);
    &file[span.start..span.start + span.size]
}
