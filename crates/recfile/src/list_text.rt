use command_text::push_entry;
use rec_types::{Key, Memory, TxId};
use record_file::EntrySink;

/// The text of a list while its entries come, and how many came.
#[derive(Drop)]
pub(crate) struct ListText {
    pub(crate) text: String,
    pub(crate) count: usize,
}

impl EntrySink for ListText {
    ghost use Rattle.recfile.specs.Listed.{SpellsEntries, no_entries, entries_on};

    type Fault = Memory;

    ghost told = { λ old es new. SpellsEntries old es new };

    ghost stops = { λ _ _ _ _. Unit {0} };

    /// Appends the line of an entry. Fault: Memory.
    #[inline(always)]
    fn take(&mut self, key: &Key, value: &[u8], owner: Option<TxId>) -> Result<(), Memory> {
        self.count = self.count.checked_add(1).ok_or(Memory)?;
        push_entry(&mut self.text, key, value, owner)?;
        Ok(())
    }

    ghost told_none = { λ text. no_entries text };

    ghost told_on = { λ a b c es fs one two. entries_on a b c es fs one two };

    ghost stops_on = { λ _ _ _ _ _ _ _ _. tt };

    ghost stops_before = { λ _ _ _ _ _ _. tt };
}
