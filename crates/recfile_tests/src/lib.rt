//! The tests: each crate by its public contract, and scripts over every table.
#![tactic(auto)]

#[cfg(test)]
mod commands;
#[cfg(test)]
mod crashes;
#[cfg(test)]
mod fault_texts;
#[cfg(test)]
mod files_in_memory;
#[cfg(test)]
mod logs;
#[cfg(test)]
mod nodes;
#[cfg(test)]
mod running;
#[cfg(test)]
mod stores;
#[cfg(test)]
mod tables;
#[cfg(test)]
mod trees;
#[cfg(test)]
mod values;

#[cfg(test)]
use std::process::Abort;

/// Expects this text.
#[cfg(test)]
fn expect_text(rt: &impl Abort, text: &str, wanted: &str) {
    assert_eq!(rt; text, wanted);
}

/// Expects this text of what has a name.
#[cfg(test)]
fn expect_named(rt: &impl Abort, name: &str, text: &str, wanted: &str) {
    assert_eq!(rt; (name, text), (name, wanted));
}
