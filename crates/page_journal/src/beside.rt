/// What stands beside a page file under the name of its side file.
#[derive(Clone, Copy, Debug, PartialEq, Eq)]
pub enum Beside {
    Nothing,
    /// A side file of this file, whose old pages a session puts back.
    OldPages,
    /// Anything else, over which a session is BadJournal.
    Stray,
}
