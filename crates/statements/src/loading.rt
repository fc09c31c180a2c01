// Loading: the whole file is checked first, and only then read again into the run, so that a refused file leaves every byte.
ghost use Rattle.std.specs.Prelude.{◌≡◌, map, ◌+◌, ◌≤◌};
ghost use Rattle.paper.specs.Sizes.{most_cabinets, most_unknowns, most_records, room};
ghost use Rattle.paper.specs.Runs.{as_item};
ghost use Rattle.paper.specs.Files.{times, record_form, reading};
ghost use Rattle.layout.specs.Fields.{count_of};
ghost use Rattle.layout.specs.Changes.{with_records, appended_all};
ghost use Rattle.reading.specs.Reads.{WasRead, list_of, statement_form_of};
ghost use Rattle.statements.specs.Writes.{load_answer, load_bytes};

use layout::Run;
use paper::{Fault, Found, Item, Refusal};
use reading::{Checked, check_file, read_record, read_statement};

// The `count` records at `at` of the file, with v unknowns, as the run's first ones. They were read before, so that no read of
// them can be refused: it is proved where `unwrap` asks it. Statements have a function of their own, below: another reader and
// another writer, and what is alike is proved once, in proofs/Filled. v, s, n and the count are the forms' own parameters.
fn fill_records(run: &mut Run, file: &[u8], at: usize, v: usize, count: usize)
    requires { (v ≤ most_unknowns) × (count ≤ most_records) × WasRead (reading (times count (record_form v)) file.now at) }
    ensures { run.new ≡ with_records 0 (list_of (reading (times count (record_form v)) file.now at)) run.old }
{
    let mut here = at;
    for i in 0..count {
        let Found { value, next } = read_record(file, here, v).unwrap();
        layout::set_record(run, i, value.symbol, &value.parts[..value.count]);
        here = next;
    }
}

// The `count` statements at `at` of the file, with s cabinets and n entries, as the run's last pending items. They were read
// before too.
fn fill_statements(run: &mut Run, file: &[u8], at: usize, s: usize, n: usize, count: usize)
    requires { (count_of run.old + count ≤ room) × (s ≤ most_cabinets) × (n ≤ most_unknowns + most_records) × WasRead (reading (times count (statement_form_of s n)) file.now at) }
    ensures { run.new ≡ appended_all (map as_item (list_of (reading (times count (statement_form_of s n)) file.now at))) run.old }
{
    let mut here = at;
    for _ in 0..count {
        let Found { value, next } = read_statement(file, here, s, n).unwrap();
        layout::append_item(run, Item::from(value));
        here = next;
    }
}

// The file into the run: its sizes, its records, and its statements as pending items. A refused file leaves every byte.
pub fn load(file: &[u8], run: &mut [u8]) -> Result<(), Fault>
    ensures { load_answer result run.new ≡ load_bytes file.now run.old }
{
    let Some(run) = run.as_mut_array() else {
        return Err(Refusal::WrongLength.at(0));
    };
    let Checked {
        sizes,
        statements,
        table,
        list,
    } = check_file(file)?.value;
    layout::clear(run);
    // `as` is proved to lose nothing: a TryFrom would have an Err that gives up.
    layout::set_sizes(
        run,
        sizes.cabinets as u8,
        sizes.unknowns as u8,
        sizes.records as u8,
        statements as u8,
    );
    fill_records(run, file, table, sizes.unknowns, sizes.records);
    fill_statements(run, file, list, sizes.cabinets, sizes.entries(), statements);
    Ok(())
}
