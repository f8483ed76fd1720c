use crate::EntrySink;
use rec_types::{Entry, Key, Memory, Record, TxId};

/// A list of entries while they come.
#[derive(Drop)]
pub(crate) struct EntryVec {
    pub(crate) entries: Vec<Entry>,
}

impl EntrySink for EntryVec {
    ghost use Rattle.std.specs.Prelude.{◌≡◌, ◌++◌};
    ghost use Rattle.std.proofs.Common.{rules};
    ghost use Rattle.std.proofs.lemmas.Grind.{common_steps};

    type Fault = Memory;

    ghost told = { λ old es new. new.entries.items ≡ old.entries.items ++ es };

    ghost stops = { λ _ _ _ _. Unit {0} };

    /// Keeps an entry behind the others. Fault: Memory.
    fn take(&mut self, key: &Key, value: &[u8], owner: Option<TxId>) -> Result<(), Memory> {
        let value = Record::new(value).unwrap();
        self.entries
            .push(Entry {
                key: *key,
                value,
                owner,
            })
            .map_err(|_| Memory)
    }

    ghost told_none = { Prim.search (rules, common_steps) };

    ghost told_on = { Prim.search (rules, common_steps) };

    ghost stops_on = { λ _ _ _ _ _ _ _ _. tt };

    ghost stops_before = { λ _ _ _ _ _ _. tt };
}
