//! Deletion from a B-tree in the pages of a store.
#![tactic(auto)]

mod deletion;
pub mod file_laws;
pub mod laws;
mod opening;
mod table;

pub use deletion::deleting::{delete, delete_in_place};
pub use opening::open_fault::OpenFault;
pub use opening::open_file::OpenStop;
pub use table::tree_table::{CloseStop, CreateFault, CreateStop, TreeTable};
