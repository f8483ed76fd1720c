ghost use Rattle.std.specs.Prelude.{◌≤◌, ℕ, List, [], ◌∷◌, ◌++◌, length};
ghost use Rattle.rec_types.specs.Sorted.{Pairs};
ghost use Rattle.rec_types.specs.Told.{Takes};
ghost use Rattle.rec_types.specs.Widths.{widest_record};

use crate::Key;

/// What takes the records of a table in turn, one at a time. What it makes of them may go on to `O`, which stands
/// behind it.
pub trait RecordSink<O> {
    /// Why it takes no more records.
    type Fault: Copy;

    /// Told these records at their keys, it and what stands behind it became these.
    ghost told: { Self → O → Pairs → Self → O → Type 0 };

    /// Told these records, it stopped with that fault at one of them, and both became these.
    ghost stops: { Self → O → Pairs → Self.Fault → Self → O → Type 0 };

    /// Takes the record at the key that comes behind those that it took before. Fault: its own.
    fn take(&mut self, out: &mut O, key: &Key, bytes: &[u8]) -> Result<(), Self::Fault>
        requires { length bytes.now ≤ widest_record }
        ensures { Takes (λ es. told self.old out.old es self.new out.new)
            (λ es fault. stops self.old out.old es fault self.new out.new)
            ((key.now, bytes.now) ∷ []) result };

    /// Without a record nothing changes.
    ghost told_none: { (sink : Self) (out : O) → told sink out [] sink out };

    /// Records that are told one after another are told.
    ghost told_on: { (a b c : Self) (p q r : O) (es fs : Pairs)
        → told a p es b q → told b q fs c r → told a p (es ++ fs) c r };

    /// It stopped at all that it was told.
    ghost stops_on: { (a b c : Self) (p q r : O) (es fs : Pairs) (fault : Self.Fault)
        → told a p es b q → stops b q fs fault c r → stops a p (es ++ fs) fault c r };

    /// What would have come behind isn't looked at.
    ghost stops_before: { (a b : Self) (p q : O) (es fs : Pairs) (fault : Self.Fault)
        → stops a p es fault b q → stops a p (es ++ fs) fault b q };
}
