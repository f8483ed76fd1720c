//! Transactions over any table.
#![tactic(auto)]

mod at_most;
mod call;
mod entry_sink;
mod entry_vec;
mod fault;
mod file;
mod keeper;
pub mod laws;
mod refusal;

pub use at_most::{AtMost, SinkStop};
pub use call::{Answer, AnswerLost, Call, make_call, run_calls};
pub use entry_sink::EntrySink;
pub use fault::{
    AbortFault, Cause, ChangesFault, ClaimFault, CommitFault, CommittedFault, EntriesFault,
    GetFault, KeysOfFault, PutFault, ReleaseFault, RemoveFault, ResumeFault, RollbackToFault,
    SavepointFault, Status, StatusFault,
};
pub use file::{RecordFile, StillOpen};
pub use keeper::{KeepFault, Keeper, KeeperFault, Unlogged};
pub use refusal::{Refusal, ToRefusal};
pub use tx_log::BeginFault;
