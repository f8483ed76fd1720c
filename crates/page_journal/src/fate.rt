/// What a crash makes of a call that the device wasn't asked to keep.
#[derive(Clone, Copy, Debug, PartialEq, Eq)]
pub enum Fate {
    Done,
    Lost,
    Torn,
}
