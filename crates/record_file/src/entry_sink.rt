ghost use Rattle.std.specs.Prelude.{◌≤◌, List, [], ◌∷◌, ◌++◌, length};
ghost use Rattle.rec_types.specs.Told.{Takes};
ghost use Rattle.rec_types.specs.Widths.{widest_record};
ghost use Rattle.rec_types.specs.declared.transaction.Entry.{Entry as EntryValue};

use rec_types::{Key, TxId};

/// What takes the entries of a file in key order, one at a time.
pub trait EntrySink {
    /// Why it takes no more entries.
    type Fault: Copy;

    /// Told these entries, it became this.
    ghost told: { Self → List EntryValue → Self → Type 0 };

    /// Told these entries, it stopped with that fault at one of them, and became this.
    ghost stops: { Self → List EntryValue → Self.Fault → Self → Type 0 };

    /// Takes the record at the key that comes behind those that it took before, with the transaction that owns the key. Fault:
    /// its own.
    fn take(&mut self, key: &Key, value: &[u8], owner: Option<TxId>) -> Result<(), Self::Fault>
        requires { length value.now ≤ widest_record }
        ensures { Takes (λ es. told self.old es self.new) (λ es fault. stops self.old es fault self.new)
            (record { key = key.now; value = value.now; owner = owner } ∷ []) result };

    /// Without an entry nothing changes.
    ghost told_none: { (sink : Self) → told sink [] sink };

    /// Entries that are told one after another are told.
    ghost told_on: { (a b c : Self) (es fs : List EntryValue) → told a es b → told b fs c → told a (es ++ fs) c };

    /// It stopped at all that it was told.
    ghost stops_on: { (a b c : Self) (es fs : List EntryValue) (fault : Self.Fault)
        → told a es b → stops b fs fault c → stops a (es ++ fs) fault c };

    /// What would have come behind isn't looked at.
    ghost stops_before: { (a b : Self) (es fs : List EntryValue) (fault : Self.Fault)
        → stops a es fault b → stops a (es ++ fs) fault b };
}
