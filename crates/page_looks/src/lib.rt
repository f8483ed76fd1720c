//! Looks at a file that may be damaged: what stands in it, and what is wrong with it.
#![tactic(auto)]

mod explain;
mod finding;
mod key_label;
mod log_head;
mod page_view;
mod picture;
mod reach;
mod show;
mod shown;
mod spelt;
mod tree_look;
mod tree_walk;
mod unopened;
mod why;

pub use explain::explain_file;
pub use reach::{Reach, reach_file};
pub use shown::{Drawing, show_file};
pub use spelt::{Kind, is_whole, kind_of};
pub use why::{Wanted, tell_why};
