// The run's 59,752 bytes: named readers and writers of each field. What is sound is defined in specs/, and tested by `soundness`.
#![tactic(auto)]

mod changes; // changes.rt: writers of each field
mod fields; // fields.rt: readers of each field
mod offsets; // offsets.rt: where each field stands

pub use changes::{
    append_item, clear, fill, put_head, remove_item, save_store, set_clash, set_owner, set_pair,
    set_record, set_sizes,
};
pub use fields::{
    Mark, NOTHING, Store, all_are, cabinets, clash_byte, clash_cabinet, count, has_clashed,
    item_at, load_store, owner_at, pair_at, part_at, part_count, records, same_head, statements,
    symbol_at, unknowns,
};
pub use offsets::{
    ITEM_BYTES, MAP_BYTES, MEMO_BYTES, MEMOS, Map, OWNERS, PENDING, RECORD_BYTES, ROW_BYTES,
    RUN_BYTES, Run, STORES, SYMBOL_BYTES, TABLE,
};
