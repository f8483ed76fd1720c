use std::io::{IsTerminal, Stderr, Write};

/// Where faults are told, and to a person also how far long work is.
pub trait Screen: Write {
    /// Whether a person sees it.
    fn is_seen(&self) -> bool;
}

impl Screen for Stderr {
    fn is_seen(&self) -> bool {
        self.is_terminal()
    }
}

impl Screen for Vec<u8> {
    fn is_seen(&self) -> bool {
        false
    }
}
