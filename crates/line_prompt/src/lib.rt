//! What a person at a terminal sees beside the replies of a shell: a prompt, help, and the form of a line that has none.
#![tactic(auto)]

mod by_line;
mod chain;
mod ending;
mod heard;
mod help;
pub mod laws;
mod picture;
mod prompted;
mod watch;

pub use by_line::ByLine;
pub use ending::tell_end;
pub use heard::Heard;
pub use prompted::Prompted;
pub use watch::Watch;
