//! Transactions, owners of keys and savepoints.
#![tactic(auto)]

mod holding;
mod key_order;
pub mod laws;
mod log;
mod log_record;
mod mark;
mod open_tx;
mod phase;
mod records;
mod refusal;
mod told;
mod undo_chain;

pub use log::TxLog;
pub use log_record::LogRecord;
pub use open_tx::MOST_SAVEPOINTS;
pub use phase::{BeginFault, Phase, UndoStep};
pub use refusal::{ChangeRefusal, LookRefusal};
