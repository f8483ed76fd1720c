//! Keys, records, limits and the tables that hold records.
#![tactic(auto)]

mod compact_map;
mod flaky_table;
mod gap;
mod key;
mod key_order;
mod key_text;
pub mod laws;
mod limits;
mod memory;
mod number;
mod record;
mod record_sink;
mod side;
mod slot;
mod sorted_table;
mod table;
mod table_calls;
mod table_state;
mod transaction;
mod widths;

pub use flaky_table::FlakyTable;
pub use gap::Gap;
pub use key::{Key, KeyFault};
pub use key_order::order_of;
pub use limits::{LimitFault, Limits, MOST_BEGINS, MOST_LOG_RECORDS, MOST_RECORDS};
pub use memory::Memory;
pub use record::{Record, RecordFault};
pub use record_sink::RecordSink;
pub use side::Side;
pub use sorted_table::SortedTable;
pub use table::{Table, TableFault};
pub use table_calls::{NO_CALLS, TableCalls};
pub use table_state::TableState;
pub use transaction::{Entry, TxId};
pub use widths::{KEY_WIDTH, PAGE_WIDTH, RECORD_WIDTH};
