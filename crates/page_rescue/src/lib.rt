//! The records of the pages of a damaged file that are whole.
#![tactic(auto)]

pub mod laws;
mod rescue;
mod taking;

pub use rescue::{RescueFault, Rescued, rescue_pages};
