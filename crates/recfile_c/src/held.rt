// What lies behind a handle that isn't closed.
use crate::file_table::FileTable;
use crate::journal::JournalStore;
use btree_delete::TreeTable;
use rec_types::{Entry, Key, PAGE_WIDTH};
use record_file::RecordFile;

/// An open file, with the lists that were made last.
#[derive(Drop)]
pub struct Session {
    /// The file.
    pub file: RecordFile<FileTable>,
    /// The records that were listed last.
    pub entries: Vec<Entry>,
    /// The keys that were listed last.
    pub keys: Vec<Key>,
}

/// What lies behind a handle.
#[derive(Drop)]
pub enum Held {
    /// The pages of a file that is to be opened.
    Image(Vec<[u8; PAGE_WIDTH]>),
    /// An open file.
    Open(Session),
    /// A table whose closing found no memory.
    Unclosed(TreeTable<JournalStore>),
    /// What is to be done to a file that was closed.
    Closed(JournalStore),
}
