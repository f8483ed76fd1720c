use crate::program::USAGE;
use crate::tell::tell;
use std::io;
use std::io::Write;
use thiserror::Error;

/// Why the words that the program is called with can't be handed to it, by its name.
#[derive(Clone, Copy, Debug, PartialEq, Eq, Error)]
enum WordsFault {
    /// A word isn't UTF-8, as a path may be.
    #[error("NotUtf8")]
    NotUtf8,
    #[error("Memory")]
    Memory,
}

impl From<io::Error> for WordsFault {
    fn from(error: io::Error) -> WordsFault {
        if error.kind() == io::ErrorKind::InvalidData {
            WordsFault::NotUtf8
        } else {
            WordsFault::Memory
        }
    }
}

/// Names why the words that the program is called with can't be read, which the system answered so, and answers the
/// status.
pub fn unread_words<E: Write>(err: &mut E, error: io::Error) -> u8 {
    tell(err, &WordsFault::from(error));
    USAGE
}
