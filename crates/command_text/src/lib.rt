//! The command language: what a script line says, and how replies are written.
#![tactic(auto)]

mod argument;
mod command;
mod dump;
pub mod laws;
mod list;
mod reading;
mod reply;
mod unit;
mod word;

pub use command::{Command, LineFault};
pub use dump::{dump_foot, dump_head, push_put, write_dump};
pub use list::{EntryList, KeyList};
pub use reading::{LONGEST_LINE, read_bounded_line, read_line};
pub use reply::{Reply, Unkept, append_reply, push_entry, push_list_end, write_reply};
pub use unit::write_unit;
