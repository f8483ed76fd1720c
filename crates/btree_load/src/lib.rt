//! A B-tree that is built from sorted records, page by page from the left.
#![tactic(auto)]

mod appending;
mod filling;
pub mod laws;
mod rows;
mod sorted;

pub use filling::fill;
pub use sorted::is_sorted;
