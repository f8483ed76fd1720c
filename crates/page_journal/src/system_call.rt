/// A file that a call of the system is on: the page file, its side file while it is made and with the name that an
/// opening looks for, and the same of its log of commits.
#[derive(Clone, Copy, Debug, PartialEq, Eq)]
pub enum CallFile {
    Main,
    FreshSide,
    Side,
    FreshLog,
    Log,
}

/// A call of the system.
#[derive(Drop)]
pub enum SystemCall {
    /// These bytes are written at that place of the file.
    Write(CallFile, u64, Vec<u8>),
    /// The file is made so many bytes long; new ones are zero.
    SetLength(CallFile, u64),
    /// An empty file is made where nothing has its name. Nobody may open it.
    Make(CallFile),
    /// It gets the mode of the page file.
    SetMode(CallFile),
    /// The first gets the name of the second, where nothing has that.
    Rename(CallFile, CallFile),
    /// Its name is taken away.
    Unlink(CallFile),
    /// The device keeps it.
    Sync(CallFile),
    /// The device keeps its bytes.
    SyncData(CallFile),
    /// The device keeps the names.
    SyncFolder,
}
