//! Sessions over a page file on a disk: what a stop left of it is put right, its commits are kept beside it, and it is closed.
#![tactic(auto)]

mod beginning;
mod calls_out;
mod closing;
mod file_fault;
mod limits;
mod lines;
mod log_head;
mod log_keeper;
mod overlaying;
mod settling;

pub use beginning::{begin_beside, end_unread};
pub use calls_out::{CallsOut, close_beside_calls, close_calls, settle_calls};
pub use closing::{close_table, give_back, told};
pub use file_fault::FileFault;
pub use limits::greatest_limits;
pub use lines::{cut_line, next_line};
pub use log_keeper::LogKeeper;
pub use overlaying::{OverlayFault, overlay_text};
pub use settling::{close_beside, end_beside, settle};
