//! Files of pages, and changed pages in memory.
#![tactic(auto)]

mod append_fault;
mod blank;
mod commit_store;
mod count;
mod file_store;
mod flaky_store;
mod free_numbers;
mod kept_pages;
pub mod laws;
mod mem_store;
mod page_edit;
mod pages;
mod seal_store;
mod slot;
mod step;
mod store;
mod store_fault;
mod store_state;
mod write_back;

pub use append_fault::AppendFault;
pub use commit_store::CommitStore;
pub use file_store::FileStore;
pub use flaky_store::FlakyStore;
pub use mem_store::MemStore;
pub use page_edit::{FetchFault, PageEdit, WriteFault};
pub use pages::Pages;
pub use seal_store::SealStore;
pub use step::Step;
pub use store::Store;
pub use store_fault::{Shape, StoreFault};
pub use store_state::StoreState;
