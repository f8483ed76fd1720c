/// How the lines of a session come: as a script, which is read whole before its first line is run, or one by one, each
/// answered before more is read.
#[derive(Clone, Copy, Debug, PartialEq, Eq)]
pub enum Feed {
    Script,
    Lines,
}

/// How a session is run: how its lines come, and whether the first refusal ends it.
#[derive(Clone, Copy, Debug, PartialEq, Eq)]
pub struct Manner {
    pub strict: bool,
    pub feed: Feed,
}
