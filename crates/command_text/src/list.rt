ghost use Rattle.std.specs.Prelude.{◌≡◌};

use rec_types::{Entry, Key};
use std::marker::Model;

/// Records at their keys, as `entries` answers them. Contracts see the list.
#[derive(Debug, Drop)]
pub struct EntryList {
    entries: Vec<Entry>,
}

impl Model for EntryList {
    ghost use Rattle.std.specs.Prelude.{List};
    ghost use Rattle.rec_types.specs.declared.transaction.Entry.{Entry};

    ghost Value = { List Entry };

    ghost view = { λ l. l.entries.items };
}

impl EntryList {
    /// The list of these entries. It takes no memory.
    pub fn new(entries: Vec<Entry>) -> EntryList
        ensures { result ≡ entries.items }
    {
        EntryList { entries }
    }

    /// The entries in order.
    pub fn as_slice(&self) -> &[Entry]
        ensures { result.now ≡ self.now }
    {
        &self.entries
    }

    /// The entries. It takes no memory.
    pub fn into_vec(self) -> Vec<Entry>
        ensures { result.items ≡ self }
    {
        self.entries
    }
}

/// Keys, as `keys_of` answers them. Contracts see the list.
#[derive(Debug, Drop)]
pub struct KeyList {
    keys: Vec<Key>,
}

impl Model for KeyList {
    ghost use Rattle.std.specs.Prelude.{List, ℕ};

    ghost Value = { List (List ℕ) };

    ghost view = { λ l. l.keys.items };
}

impl KeyList {
    /// The list of these keys. It takes no memory.
    pub fn new(keys: Vec<Key>) -> KeyList
        ensures { result ≡ keys.items }
    {
        KeyList { keys }
    }

    /// The keys in order.
    pub fn as_slice(&self) -> &[Key]
        ensures { result.now ≡ self.now }
    {
        &self.keys
    }

    /// The keys. It takes no memory.
    pub fn into_vec(self) -> Vec<Key>
        ensures { result.items ≡ self }
    {
        self.keys
    }
}
