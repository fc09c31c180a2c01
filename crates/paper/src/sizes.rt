// The limits and sizes of document 01, as in specs/Sizes and under its names.
pub const MOST_CABINETS: usize = 8;

pub const MOST_UNKNOWNS: usize = 32;

pub const MOST_RECORDS: usize = 64;

pub const MOST_STATEMENTS: usize = 64;

pub const MOST_PARTS: usize = 4;

pub const MOST_GROUPS: usize = 5;

pub const TOP_GROUP: u64 = 15;

pub const NUMBER_LIMIT: u64 = 4294967296;

pub const ROOM: usize = 12672;

pub const LONGEST_FILE: usize = 3
    + MOST_RECORDS * (MOST_GROUPS + 1 + MOST_PARTS)
    + 1
    + MOST_STATEMENTS * 3;
