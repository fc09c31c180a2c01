// The rows of the map, each in its 11 bytes.
ghost use Rattle.std.specs.Prelude.{◌≡◌, true, ◌+◌, ◌≤◌, ◌<◌};
ghost use Rattle.base.specs.Regions.{put};
ghost use Rattle.layout.specs.Offsets.{records_at, row_bytes, map_bytes};
ghost use Rattle.layout.specs.Fields.{byte_at, table_of, run_of};
ghost use Rattle.layout.specs.MapRows.{map_of};
ghost use Rattle.layout.specs.Soundness.{sound_bytes};
ghost use Rattle.agreement.specs.Given.{OneRecord};
ghost use Rattle.maps.specs.Rows.{lows_of, record_look_of, Drawn};

use super::lows::LowestItems;
use layout::{Map, Run};

// The kind of a row that is not open: a byte of the map, as the C interface has it.
const RECORD: u8 = 1;

// From a row's kind to its parts: the kind, the symbol, the part count.
const HEAD_BYTES: usize = 1 + layout::SYMBOL_BYTES + 1;

// The lowest same item of each of the n parts of record i, from `at` on. The loop is over the place, since its invariant speaks of the first
// j parts.
fn write_lows(items: &LowestItems, i: usize, n: usize, map: &mut Map, at: usize)
    requires { OneRecord items.now.ends.run.now items.now.ends.unknowns i n × (at + n ≤ map_bytes) }
    ensures { map.new ≡ put at (lows_of items.now.ends.run.now items.now.ends.unknowns i) map.old }
{
    let run = items.ends.run;
    for j in 0..n {
        let p = layout::part_at(run, i, j);
        map[at + j] = items.lows[p];
    }
}

// The row of record i after its first byte, from `at` on: the kind, the symbol, the part count, the parts. `as` is proved to lose nothing; a
// TryFrom would have an Err that gives up.
fn write_record(items: &LowestItems, i: usize, map: &mut Map, at: usize)
    requires { (i < byte_at items.now.ends.run.now records_at) × (at + row_bytes ≤ map_bytes + 1) }
    ensures { map.new ≡ put at (record_look_of items.now.ends.run.now items.now.ends.unknowns i) map.old }
{
    let run = items.ends.run;
    let n = layout::part_count(run, i);
    map[at] = RECORD;
    layout::put_head(map, at + 1, layout::symbol_at(run, i), n as u8);
    write_lows(items, i, n, map, at + HEAD_BYTES);
}

// Row x, of a map in which the rows before it are drawn and all else is 0.
fn write_row(items: &LowestItems, x: usize, map: &mut Map)
    requires { (x < items.now.ends.unknowns) × Drawn items.now.ends.run.now x map.old }
    ensures { Drawn items.now.ends.run.now (x + 1) map.new }
{
    let v = items.ends.unknowns;
    let at = layout::ROW_BYTES * x;
    map[at] = items.lows[x];
    let a = items.ends.end_of(x);
    if a < v {
        return;
    }
    write_record(items, a - v, map, at + 1);
}

// The whole map: all 0 at first, then row by row.
pub fn draw(run: &Run, map: &mut Map)
    requires { sound_bytes run.now ≡ true }
    ensures { map.new ≡ map_of (table_of run.now) (run_of run.now) }
{
    let items = LowestItems::of(run);
    map.fill(0);
    for x in 0..items.ends.unknowns {
        write_row(&items, x, map);
    }
}
