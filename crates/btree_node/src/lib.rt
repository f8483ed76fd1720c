//! The pages of a record file: node pages, and the header page.
#![tactic(auto)]

mod brothers;
mod changing;
mod decoding;
mod encoding;
mod header;
mod header_page;
pub mod laws;
mod layout;
mod node;
mod node_page;
mod page_change;
mod page_writer;
mod part;
mod read_first;
mod searching;
mod spelt;
mod splitting;

pub use brothers::{catenate, distribute};
pub use changing::{drop_first, insert_in, insert_son_in, keep_first, remove_in, replace_in};
pub use decoding::{decode, decode_into, decode_old, decode_version};
pub use encoding::encode;
pub use header::{Header, HeaderFault};
pub use header_page::{
    COUNT_AT, ORDER_AT, PAGES_AT, ROOT_AT, STATE_AT, VERSION_AT, read_header, write_header,
};
pub use layout::{
    FIRST_VERSION, GREATEST_ORDER, Layout, MOST_KEYS, RECORD_AT, SECOND_VERSION, SON_WIDTH,
    layout_of,
};
pub use node::{ELEMENT_ROOM, Node, NodeFault, NodeKind, SON_ROOM};
pub use node_page::is_node_page;
pub use page_change::{PageChange, change_page};
pub use searching::place_of;
pub use spelt::{count_in, key_in, kind_in, place_in, record_in, son_in};
pub use splitting::split;
