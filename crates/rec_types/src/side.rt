ghost use Rattle.std.specs.Prelude.{◌≡◌};
ghost use Rattle.rec_types.specs.Ordered.{gap_past};

use crate::{Gap, Key};

/// A side of a place in the order of keys.
#[derive(Clone, Copy, Debug, PartialEq, Eq)]
pub enum Side {
    /// Behind it: the greater keys.
    After,
    /// Before it: the smaller keys.
    Before,
}

impl Side {
    /// The gap past a key, where one goes on to this side.
    pub fn past(self, key: Key) -> Gap
        ensures { result ≡ gap_past self key }
    {
        match self {
            Side::After => Gap::Behind(key),
            Side::Before => Gap::Before(key),
        }
    }
}
