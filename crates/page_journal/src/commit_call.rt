/// A changing call of a disk on the logs of commits beside its file.
#[derive(Drop)]
pub enum CommitCall {
    /// A log with these bytes was begun.
    Start(Vec<u8>),
    /// The device kept the log that is being made.
    SyncFresh,
    /// It got the name that an opening looks for.
    Name,
    /// The log of that name was taken away.
    Remove,
    /// From that place on it was made so many zeros.
    Lengthen(usize, usize),
    /// These bytes were written at that place.
    Write(usize, Vec<u8>),
    /// The device kept its bytes.
    Sync,
}
