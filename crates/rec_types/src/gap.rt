ghost use Rattle.std.specs.Prelude.{◌≡◌};
ghost use Rattle.rec_types.specs.Ordered.{is_left};

use crate::Key;

/// A place in the order of keys, next to a key or at an end.
#[derive(Clone, Copy, Debug, PartialEq, Eq)]
pub enum Gap {
    /// Left of all keys.
    Start,
    /// Just left of the key, which is the first on the right.
    Before(Key),
    /// Just right of the key, which is the last on the left.
    Behind(Key),
    /// Right of all keys.
    End,
}

impl Gap {
    /// Whether a key lies left of the gap.
    pub fn is_left(&self, key: &Key) -> bool
        ensures { result ≡ is_left self.now key.now }
    {
        match self {
            Gap::Start => false,
            Gap::Before(from) => key.cmp(from).is_lt(),
            Gap::Behind(from) => from.cmp(key).is_ge(),
            Gap::End => true,
        }
    }
}
