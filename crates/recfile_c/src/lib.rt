//! Calls from C. A call on a closed handle answers CLOSED, and its results are empty.
#![tactic(auto)]

mod closing;
mod file_table;
mod handle;
mod held;
mod journal;
pub mod laws;
mod lists;
mod looks;
mod opening;
mod ordered;
mod outcome;
mod paged;
mod records;
mod shown;
mod transactions;
mod version;
