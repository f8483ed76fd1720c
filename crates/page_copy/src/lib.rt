//! A file of pages as another one.
#![tactic(auto)]

mod copying;
pub mod laws;

pub use copying::{CopyFault, copy_pages};
