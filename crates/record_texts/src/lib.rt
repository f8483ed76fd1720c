//! Records in the forms of other programs: lines of tabs, of commas, and of JSON.
#![tactic(auto)]

mod form;
pub mod laws;
mod reading;
mod writing;

pub use form::Form;
pub use reading::{Cause, Loaded, Separator, TextFault, read_records};
pub use writing::push_record;
