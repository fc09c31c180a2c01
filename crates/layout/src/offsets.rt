// Where the fields of the run stand, and how long the map is, computed as in specs/Offsets; its `table_at` is TABLE here, and so on.
use paper::sizes;

pub const SYMBOL_BYTES: usize = 4;

pub const RECORD_BYTES: usize = SYMBOL_BYTES + 1 + sizes::MOST_PARTS;

pub const ITEM_BYTES: usize = 4;

pub const MEMO_BYTES: usize = sizes::MOST_UNKNOWNS * sizes::MOST_UNKNOWNS;

pub const CLASH: usize = 0;

pub const CLASH_CABINET: usize = 1;

pub const CABINETS: usize = 2;

pub const UNKNOWNS: usize = 3;

pub const RECORDS: usize = 4;

pub const STATEMENTS: usize = 5;

pub const COUNT: usize = 6;

pub const TABLE: usize = 8;

pub const OWNERS: usize = TABLE + sizes::MOST_RECORDS * RECORD_BYTES;

pub const STORES: usize = OWNERS + sizes::MOST_UNKNOWNS;

pub const MEMOS: usize = STORES + sizes::MOST_CABINETS * sizes::MOST_UNKNOWNS;

pub const PENDING: usize = MEMOS + sizes::MOST_CABINETS * MEMO_BYTES;

pub const RUN_BYTES: usize = PENDING + sizes::ROOM * ITEM_BYTES;

pub const ROW_BYTES: usize = 2 + SYMBOL_BYTES + 1 + sizes::MOST_PARTS;

pub const MAP_BYTES: usize = sizes::MOST_UNKNOWNS * ROW_BYTES;

// A run's bytes, and a map's.
pub type Run = [u8; RUN_BYTES];

pub type Map = [u8; MAP_BYTES];
