//! Facts of the definitions that contracts of this crate cite.
ghost use Rattle.std.specs.Prelude.{◌≡◌, ℕ, ◌+◌, ◌<◌, ◌≤◌, zero, Bool, true, false, List, [], ◌∷◌, ◌++◌, length, reverse, Option, Some, None, Result, Ok, Err, IsTrue, slice_get};
ghost use Rattle.std.specs.FinMap as maps;
ghost use Rattle.std.specs.List.{All};
ghost use Rattle.rec_types.specs.Contents.{Contents, set_to};
ghost use Rattle.rec_types.specs.History.{Change, replay, live_of, live_from, take_back, taken_back};
ghost use Rattle.rec_types.specs.LimitBounds.{Bounds};
ghost use Rattle.rec_types.specs.Table.{greatest_count};
ghost use Rattle.rec_types.specs.declared.transaction.TxId.{TxId};
ghost use Rattle.rec_types.specs.declared.transaction.Entry.{Entry};
ghost use Rattle.tx_log.specs.Log.{last_of};
ghost use Rattle.tx_log.specs.Owners.{keys_owned, owner_of};
ghost use Rattle.tx_log.specs.Transactions.{fresh, place_of_savepoint};
ghost use Rattle.record_file.specs.Abstract.{File, held_by, new_file, open_of, phase_at, records_of, tx_of, use_of};
ghost use Rattle.tx_log.specs.Written.{writes};
ghost use Rattle.record_file.specs.Durable.{CommitsKept, Keeps, committed, overlay};
ghost use Rattle.record_file.specs.Exact.{IsExact, CompensatesOnce, one};
ghost use Rattle.record_file.specs.Examples.{owned_at_a, entries_at_a_and_b};
ghost use Rattle.record_file.specs.AtMost.{IsLimitedTo, StopsWithin, limited_to};
ghost use Rattle.record_file.specs.OwnedRecords.{GoesTo};
ghost use Rattle.record_file.specs.declared.at_most.SinkStop.TheVariants.{Enough};
ghost use Rattle.record_file.specs.Resumed.{StopsFirst, Finishes, TakesWhole, CompensatesTake};
ghost use Rattle.record_file.specs.Remaining.{NothingFails, remaining};
ghost use Rattle.record_file.specs.Undo.{Starts, old_records, quiet, wrote, claimed};
ghost use Rattle.record_file.specs.Runs.{Seen, Event, Step, Run, IsKeptSeen, Begin, Put, Claim, Remove, Get, Savepoint, RollbackTo, Abort, Resume, Commit, Entries};
ghost use Rattle.tx_log.specs.declared.log_record.LogRecord.TheVariants.{Update, Compensation, Unclaim};
ghost use Rattle.tx_log.specs.declared.log_record.LogRecord.TheVariants as records;
ghost use Rattle.record_file.specs.Steps.{rose, key_refusal, places_at, rolling_place, TellOwners};
ghost use Rattle.record_file.specs.declared.fault.Cause.TheVariants as causes;
ghost use Rattle.record_file.specs.declared.refusal.Refusal.TheVariants as refusals;
ghost use Rattle.tx_log.specs.declared.phase.Phase.TheVariants.{Active};
ghost use Rattle.tx_log.specs.declared.phase.BeginFault.{BeginFault};
ghost use Rattle.record_file.specs.declared.fault.PutFault.{PutFault};
ghost use Rattle.record_file.specs.declared.fault.ClaimFault.{ClaimFault};
ghost use Rattle.record_file.specs.declared.fault.RemoveFault.{RemoveFault};
ghost use Rattle.record_file.specs.declared.fault.GetFault.{GetFault};
ghost use Rattle.record_file.specs.declared.fault.SavepointFault.{SavepointFault};
ghost use Rattle.record_file.specs.declared.fault.ReleaseFault.{ReleaseFault};
ghost use Rattle.record_file.specs.declared.fault.RollbackToFault.{RollbackToFault};
ghost use Rattle.record_file.specs.declared.fault.AbortFault.{AbortFault};
ghost use Rattle.record_file.specs.declared.fault.ResumeFault.{ResumeFault};
ghost use Rattle.record_file.specs.declared.fault.CommitFault.{CommitFault};
ghost use Rattle.record_file.specs.declared.fault.CommittedFault.{CommittedFault};
ghost use Rattle.record_file.specs.declared.fault.EntriesFault.{EntriesFault};
ghost use Rattle.record_file.specs.declared.fault.KeysOfFault.{KeysOfFault};
ghost use Rattle.record_file.specs.declared.fault.ChangesFault.{ChangesFault};
ghost use Rattle.record_file.specs.declared.fault.PutFault.TheVariants as put_faults;
ghost use Rattle.record_file.specs.Refusals.{begin_refusal, put_refusal, claim_refusal, remove_refusal, get_refusal, savepoint_refusal, release_refusal, rollback_refusal, abort_refusal, resume_refusal, commit_refusal, committed_refusal, entries_refusal, keys_of_refusal, changes_refusal};
ghost use Rattle.record_file.specs.declared.fault.RollbackToFault.TheVariants as rollback_faults;
ghost use Rattle.record_file.specs.declared.fault.EntriesFault.TheVariants as entries_faults;

/// There are runs, and a run can't be forged: what stays true of a file is true of each start; a
/// transaction may be begun on a new file; a put isn't
/// refused as Full on an empty one, whatever else comes to the table; a listing that a device ended
/// leaves its mark on the table's count; and a key that one has claimed is put by no other.
pub fn runs()
    ensures starts { (s : Seen) → Starts s → IsKeptSeen s }
    ensures begins { (old : Seen) (limits : Bounds) → IsKeptSeen old → 1 ≤ limits.begins
        → old.file ≡ new_file maps.empty limits
        → (tx : TxId) → tx.0 ≡ 1
        → Run old (record { called = Begin (Ok tx); failed = false; refused = false } ∷ [])
        (record old {
          file = record old.file { begun = 1; txs = maps.insert maps.empty 1 fresh };
        }) }
    ensures room { (old new : Seen) (limits : Bounds) (tx : TxId) (key value : List ℕ)
        → (failed refused also_failed also_refused : Bool)
        → IsTrue old.sound → old.failures ≡ 0 → 1 ≤ limits.records
        → old.file ≡ new_file maps.empty limits
        → Run old (record { called = Begin (Ok tx); failed = failed; refused = refused }
        ∷ record {
          called = Put tx key value (Err put_faults.Full);
          failed = also_failed;
          refused = also_refused;
        } ∷ []) new → ⊥ }
    ensures failures { (old new : Seen) (failed refused : Bool) → old.failures < greatest_count
        → Run old (record {
          called = Entries (Err entries_faults.Device);
          failed = failed;
          refused = refused;
        } ∷ []) new → rose old.failures new.failures ≡ false → ⊥ }
    ensures claim { (old new : Seen) (limits : Bounds) (t u : TxId)
        → IsTrue old.sound → old.file ≡ new_file maps.empty limits
        → Run old (
        quiet (Begin (Ok t))
        ∷ quiet (Begin (Ok u))
        ∷ quiet (Claim t (97 ∷ []) (Ok None))
        ∷ quiet (Put u (97 ∷ []) (120 ∷ []) (Ok None))
        ∷ []
        ) new → ⊥ }
{}

/// Nor can a step. A finished rollback that took something back has logged it, and over a sound table the
/// records are the replay of what is left; the record of an accepted put has the log's next number, and
/// leads to the newest one of its transaction; and over a sound table no rollback is stopped by a damaged
/// page.
pub fn steps()
    ensures unlogged { (old new : Seen) (failed refused : Bool) (t : TxId) (n undone : ℕ)
        → Step old (record {
          called = RollbackTo t n (Ok undone);
          failed = failed;
          refused = refused;
        }) new → 0 < undone → new.log ≡ old.log → ⊥ }
    ensures records { (old new : Seen) (failed refused : Bool) (t : TxId) (n undone : ℕ)
        → IsTrue old.sound → Step old (record {
          called = RollbackTo t n (Ok undone);
          failed = failed;
          refused = refused;
        }) new → new.records ≡ replay old.file.opening
        (take_back old.file.history t.0 (place_of_savepoint (places_at old.file t.0) n)) }
    ensures numbers { (old new : Seen) (failed refused : Bool) (t : TxId)
        → (key value : List ℕ) (before : Option (List ℕ)) (lsn prev : ℕ)
        → Step old (record {
          called = Put t key value (Ok before);
          failed = failed;
          refused = refused;
        }) new → new.log ≡ old.log ++ Update lsn prev t key before (Some value) ∷ []
        → (lsn ≡ length old.log + 1) × (prev ≡ last_of t.0 (reverse old.log)) }
    ensures damaged { (old new : Seen) (failed refused : Bool) (t : TxId) (n undone left page : ℕ)
        → IsTrue old.sound → Step old (record {
          called = RollbackTo t n (Err (rollback_faults.Stopped undone left (causes.Damaged page)));
          failed = failed;
          refused = refused;
        }) new → ⊥ }
{}

/// Nor can it be forged how often the table was asked. No get looks twice; an accepted put sets; a finished rollback
/// that logs one compensation sets once; no list is made twice; and a commit looks at nothing.
pub fn tables_are_asked()
    ensures twice { (old new : Seen) (failed refused : Bool) (t : TxId) (key : List ℕ)
        → (found : Option (List ℕ)) → Run old (record {
          called = Get t key (Ok found);
          failed = failed;
          refused = refused;
        } ∷ []) new → old.calls.gets ≡ 0 → new.calls.gets ≡ 2 → ⊥ }
    ensures unset { (old new : Seen) (failed refused : Bool) (t : TxId) (key value : List ℕ)
        → (before : Option (List ℕ)) → Run old (record {
          called = Put t key value (Ok before);
          failed = failed;
          refused = refused;
        } ∷ []) new → old.calls.sets ≡ 0 → new.calls.sets ≡ 0 → ⊥ }
    ensures taken_twice { (old new : Seen) (failed refused : Bool) (t : TxId) (n undone : ℕ)
        → (lsn prev next : ℕ) (key : List ℕ) (before : Option (List ℕ)) → Run old (record {
          called = RollbackTo t n (Ok undone);
          failed = failed;
          refused = refused;
        } ∷ []) new → new.log ≡ old.log ++ Compensation lsn prev t key before next ∷ []
        → old.calls.sets ≡ 0 → new.calls.sets ≡ 2 → ⊥ }
    ensures listed_twice { (old new : Seen) (failed refused : Bool)
        → (answer : Result (List Entry) EntriesFault) → Run old (record {
          called = Entries answer;
          failed = failed;
          refused = refused;
        } ∷ []) new → old.calls.lists ≡ 0 → new.calls.lists ≡ 2 → ⊥ }
    ensures looking { (old new : Seen) (failed refused : Bool) (t : TxId)
        → Run old (record {
          called = Commit t (Ok tt);
          failed = failed;
          refused = refused;
        } ∷ []) new → old.calls.gets ≡ 0 → new.calls.gets ≡ 1 → ⊥ }
{}

/// What the file alone refuses a call at a key for, where its transaction is active: a key that another transaction
/// holds, whatever room the log has; and then a full log, which refuses a change and no look.
pub fn key_refusals()
    ensures held { (f : File) (t owner : ℕ) (x : List ℕ) (changes : Bool)
        → phase_at f t ≡ Some Active → held_by f t x ≡ Some owner
        → key_refusal changes f t x ≡ Some (refusals.Held (record { 0 = owner })) }
    ensures full { (f : File) (t : ℕ) (x : List ℕ)
        → phase_at f t ≡ Some Active → held_by f t x ≡ None
        → f.limits.log_records < use_of f + 2
        → (key_refusal true f t x ≡ Some refusals.LogFull) × (key_refusal false f t x ≡ None) }
{}

/// What a list of entries tells of owners: of a key that is held the transaction that holds it. An entry that tells of
/// none there is no entry of the file.
pub fn entries_tell_owners()
    ensures held { (f : File) (t : ℕ) (x r : List ℕ) → owner_of (open_of f) f.history x ≡ Some t
        → TellOwners f (record { key = x; value = r; owner = Some (record { 0 = t }) } ∷ []) }
    ensures free { (f : File) (t : ℕ) (x r : List ℕ) → owner_of (open_of f) f.history x ≡ Some t
        → TellOwners f (record { key = x; value = r; owner = None } ∷ []) → ⊥ }
{}

/// A list of two entries that went to a sink, by example: the sink took both, or it stopped with a fault of its own, which is
/// the answer; where a device failed there is no list, and the sink took some entries. A sink that took the first entry alone
/// didn't take the list. A fault of the sink isn't answered as another one; and one of the call is neither made up, nor
/// answered as another one, nor left out.
pub fn lists_told_by_example()
    ensures whole { GoesTo {F = ℕ} (λ es. es ≡ entries_at_a_and_b) (λ _ _. ⊥)
        (Ok entries_at_a_and_b) (Ok (Ok tt)) }
    ensures stopped { GoesTo {F = ℕ} (λ _. ⊥) (λ es fault. (es ≡ entries_at_a_and_b) × (fault ≡ 7))
        (Ok entries_at_a_and_b) (Ok (Err 7)) }
    ensures fault { GoesTo {F = ℕ} (λ es. es ≡ owned_at_a ∷ []) (λ _ _. ⊥)
        (Err entries_faults.Device) (Err entries_faults.Device) }
    ensures first_alone { GoesTo {F = ℕ} (λ es. es ≡ owned_at_a ∷ []) (λ _ _. ⊥)
        (Ok entries_at_a_and_b) (Ok (Ok tt)) → ⊥ }
    ensures other_stop { GoesTo {F = ℕ} (λ _. ⊥) (λ es fault. (es ≡ entries_at_a_and_b) × (fault ≡ 7))
        (Ok entries_at_a_and_b) (Ok (Err 8)) → ⊥ }
    ensures made_up { GoesTo {F = ℕ} (λ es. es ≡ entries_at_a_and_b) (λ _ _. ⊥)
        (Ok entries_at_a_and_b) (Err entries_faults.Device) → ⊥ }
    ensures other_fault { GoesTo {F = ℕ} (λ es. es ≡ owned_at_a ∷ []) (λ _ _. ⊥)
        (Err entries_faults.Device) (Err entries_faults.Memory) → ⊥ }
    ensures left_out { GoesTo {F = ℕ} (λ es. es ≡ entries_at_a_and_b) (λ _ _. ⊥)
        (Err entries_faults.Device) (Ok (Ok tt)) → ⊥ }
{}

/// The first so many of two entries by example. A sink that is to take one has enough of them: it took the first, and neither
/// both nor the second; one that is to take three has not.
pub fn first_entries_by_example()
    ensures one { limited_to {E = ℕ} 1 (Ok entries_at_a_and_b) ≡ Ok (owned_at_a ∷ []) }
    ensures none { limited_to {E = ℕ} 0 (Ok entries_at_a_and_b) ≡ Ok [] }
    ensures all { limited_to {E = ℕ} 3 (Ok entries_at_a_and_b) ≡ Ok entries_at_a_and_b }
    ensures enough { StopsWithin {F = ℕ} (λ es. es ≡ owned_at_a ∷ []) (λ _ _. ⊥)
        1 entries_at_a_and_b Enough }
    ensures both { StopsWithin {F = ℕ} (λ es. es ≡ entries_at_a_and_b) (λ _ _. ⊥)
        1 entries_at_a_and_b Enough → ⊥ }
    ensures too_soon { StopsWithin {F = ℕ} (λ _. Unit {0}) (λ _ _. ⊥)
        3 entries_at_a_and_b Enough → ⊥ }
    ensures refused { IsLimitedTo 1 (Ok entries_at_a_and_b) (Err entries_faults.Memory) }
    ensures other { IsLimitedTo 1 (Ok entries_at_a_and_b) (Ok entries_at_a_and_b) → ⊥ }
    ensures other_fault { IsLimitedTo 1 (Ok entries_at_a_and_b) (Err entries_faults.Device) → ⊥ }
{}

/// No two faults of a call are the same refusal, so a refusal tells which fault a call has.
pub fn faults_are_told_apart()
    ensures begin { (a b : BeginFault) → begin_refusal a ≡ begin_refusal b → a ≡ b }
    ensures put { (a b : PutFault) → put_refusal a ≡ put_refusal b → a ≡ b }
    ensures claim { (a b : ClaimFault) → claim_refusal a ≡ claim_refusal b → a ≡ b }
    ensures remove { (a b : RemoveFault) → remove_refusal a ≡ remove_refusal b → a ≡ b }
    ensures get { (a b : GetFault) → get_refusal a ≡ get_refusal b → a ≡ b }
    ensures savepoint { (a b : SavepointFault) → savepoint_refusal a ≡ savepoint_refusal b → a ≡ b }
    ensures release { (a b : ReleaseFault) → release_refusal a ≡ release_refusal b → a ≡ b }
    ensures rollback_to { (a b : RollbackToFault) → rollback_refusal a ≡ rollback_refusal b → a ≡ b }
    ensures abort { (a b : AbortFault) → abort_refusal a ≡ abort_refusal b → a ≡ b }
    ensures resume { (a b : ResumeFault) → resume_refusal a ≡ resume_refusal b → a ≡ b }
    ensures commit { (a b : CommitFault) → commit_refusal a ≡ commit_refusal b → a ≡ b }
    ensures committed { (a b : CommittedFault) → committed_refusal a ≡ committed_refusal b → a ≡ b }
    ensures entries { (a b : EntriesFault) → entries_refusal a ≡ entries_refusal b → a ≡ b }
    ensures keys_of { (a b : KeysOfFault) → keys_of_refusal a ≡ keys_of_refusal b → a ≡ b }
    ensures changes_of { (a b : ChangesFault) → changes_refusal a ≡ changes_refusal b → a ≡ b }
{}

/// Undo commutes. After every run from a start the old record that a live change's call answered is
/// what the live changes before it leave at its key; and for the newest live change of a transaction
/// that hasn't ended the replay without it is the replay with that old record put back. Of a
/// transaction that has ended it isn't, since another may have written there; but no run takes back a
/// change of one. A claim, whoever's, is nothing to the replay.
pub fn undo_commutes()
    ensures answered { (old new : Seen) (events : List Event)
        → Starts old → Run old events new
        → (earlier later : List Change) (change : Change)
        → new.file.history ≡ earlier ++ change ∷ later → IsTrue change.live
        → slice_get (old_records events) (length earlier)
        ≡ Some (maps.get (replay old.records earlier) change.key) }
    ensures put_back { (old new : Seen) (events : List Event)
        → Starts old → Run old events new
        → (t : ℕ) → IsTrue (open_of new.file t)
        → (earlier later : List Change) (change : Change)
        → new.file.history ≡ earlier ++ change ∷ later
        → IsTrue (live_of t change) → live_from later t zero ≡ 0
        → (before : Option (List ℕ))
        → slice_get (old_records events) (length earlier) ≡ Some before
        → replay old.records (earlier ++ later)
        ≡ set_to (records_of new.file) change.key before }
    ensures claimed { (old new : Seen) (events : List Event)
        → Starts old → Run old events new
        → (earlier later : List Change) (change : Change)
        → new.file.history ≡ earlier ++ change ∷ later → change.after ≡ None
        → replay old.records (earlier ++ later) ≡ records_of new.file }
    ensures never_ended { (old mid new : Seen) (events more : List Event)
        → Starts old → Run old events mid → Run mid more new
        → (n : ℕ) (past now : Change) → slice_get mid.file.history n ≡ Some past
        → IsTrue past.live → open_of mid.file past.tx ≡ false
        → slice_get new.file.history n ≡ Some now → now.live ≡ false → ⊥ }
    ensures example { (t : TxId) → old_records (
        quiet (Begin (Ok t))
        ∷ quiet (Put t (97 ∷ []) (120 ∷ []) (Ok None))
        ∷ quiet (Put t (98 ∷ []) (120 ∷ []) (Err put_faults.Full))
        ∷ quiet (Claim t (97 ∷ []) (Ok (Some (120 ∷ []))))
        ∷ quiet (Remove t (97 ∷ []) (Ok (120 ∷ [])))
        ∷ quiet (Commit t (Ok tt))
        ∷ []
        ) ≡ None ∷ Some (120 ∷ []) ∷ Some (120 ∷ []) ∷ [] }
    ensures of_two { (opening : Contents) → replay opening (wrote 1 97 120 ∷ [])
        ≡ set_to (replay opening (wrote 1 97 120 ∷ wrote 1 97 121 ∷ []))
        (97 ∷ []) (Some (120 ∷ [])) }
    ensures ended { (opening : Contents) → replay opening (wrote 2 97 121 ∷ [])
        ≡ set_to (replay opening (wrote 1 97 120 ∷ wrote 2 97 121 ∷ []))
        (97 ∷ []) None → ⊥ }
{}

/// What remains of a run is a run by itself. After every run from a start the accepted begins, the
/// accepted commits, and the puts, removals and claims whose change is live at the end, each with its answer,
/// are a run from the same start, in which nothing fails from outside. It ends with the same records,
/// and each transaction that is open at the end owns the same keys. With another answer a remaining
/// put is no step.
pub fn remaining_alone()
    ensures alone { (old new : Seen) (events : List Event)
        → Starts old → Run old events new
        → (end : Seen) × Run old (remaining events new.file.history) end
        × NothingFails (remaining events new.file.history)
        × (records_of end.file ≡ records_of new.file)
        × ((t : ℕ) → IsTrue (open_of new.file t)
        → keys_owned (open_of end.file) end.file.history t
        ≡ keys_owned (open_of new.file) new.file.history t) }
    ensures example { (t : TxId) → remaining (
        quiet (Begin (Ok t))
        ∷ quiet (Put t (97 ∷ []) (120 ∷ []) (Ok None))
        ∷ quiet (Claim t (98 ∷ []) (Ok None))
        ∷ quiet (Savepoint t (Ok 1))
        ∷ quiet (Put t (97 ∷ []) (121 ∷ []) (Ok (Some (120 ∷ []))))
        ∷ quiet (Claim t (97 ∷ []) (Ok (Some (121 ∷ []))))
        ∷ quiet (RollbackTo t 1 (Ok 2))
        ∷ quiet (Commit t (Ok tt))
        ∷ []
        ) (wrote 1 97 120 ∷ claimed 1 98 ∷ taken_back (wrote 1 97 121)
        ∷ taken_back (claimed 1 97) ∷ [])
        ≡ quiet (Begin (Ok t))
        ∷ quiet (Put t (97 ∷ []) (120 ∷ []) (Ok None))
        ∷ quiet (Claim t (98 ∷ []) (Ok None))
        ∷ quiet (Commit t (Ok tt))
        ∷ [] }
    ensures differs { (old new : Seen) (t : TxId) (key value other : List ℕ)
        → Starts old → old.records ≡ maps.empty
        → Run old (
        quiet (Begin (Ok t)) ∷ quiet (Put t key value (Ok (Some other))) ∷ []
        ) new → ⊥ }
{}

/// A finished rollback takes back exactly the changes of its take, and compensates each of them once. So it
/// is with every step between exact files: the log grows by one compensation of each change that was live
/// and is no longer, and of no other. A file is not exact whose log compensates a change twice.
pub fn compensated_once()
    ensures step { (old new : Seen) (event : Event) → Step old event new → CompensatesOnce old new }
    ensures run { (old new : Seen) (events : List Event) → IsKeptSeen old → Run old events new
        → CompensatesOnce old new }
    ensures rollback_to { (old new : Seen) (failed refused : Bool) (t : TxId) (n undone : ℕ)
        → Step old (record {
          called = RollbackTo t n (Ok undone);
          failed = failed;
          refused = refused;
        }) new → new.file.history
        ≡ take_back old.file.history t.0 (place_of_savepoint (places_at old.file t.0) n) }
    ensures abort { (old new : Seen) (failed refused : Bool) (t : TxId) (undone : ℕ)
        → Step old (record {
          called = Abort t (Ok undone);
          failed = failed;
          refused = refused;
        }) new → new.file.history ≡ take_back old.file.history t.0 zero }
    ensures resume { (old new : Seen) (failed refused : Bool) (t : TxId) (undone : ℕ)
        → Step old (record {
          called = Resume t (Ok undone);
          failed = failed;
          refused = refused;
        }) new → new.file.history
        ≡ take_back old.file.history t.0 (rolling_place (tx_of old.file t.0)) }
    ensures unlogged { (old new : Seen)
        → old.log ≡ Update 1 0 one (97 ∷ []) None (Some (120 ∷ [])) ∷ [] → new.log ≡ old.log
        → old.file.history ≡ wrote 1 97 120 ∷ []
        → new.file.history ≡ taken_back (wrote 1 97 120) ∷ [] → CompensatesOnce old new → ⊥ }
    ensures twice { (sound : Bool) (m : Contents) (f : File) → IsExact sound m f (
        Update 1 0 one (97 ∷ []) None (Some (120 ∷ []))
        ∷ Compensation 2 1 one (97 ∷ []) None 0
        ∷ Compensation 3 2 one (97 ∷ []) None 0
        ∷ []
        ) → ⊥ }
    ensures claim_twice { (sound : Bool) (m : Contents) (f : File) → IsExact sound m f (
        records.Claim 1 0 one (97 ∷ []) None
        ∷ Unclaim 2 1 one (97 ∷ []) 0
        ∷ Unclaim 3 2 one (97 ∷ []) 0
        ∷ []
        ) → ⊥ }
{}

/// A rollback that stops and is resumed until it is finished, with any calls of others between, has taken
/// back its whole take, and nothing else of its transaction; and it has compensated each change of it once.
pub fn resumed_whole()
    ensures taken { (old new : Seen) (first last : Event) (between : List Event) (t p : ℕ)
        → StopsFirst old.file t p first.called → All (λ e. Finishes t e.called → ⊥) between
        → Finishes t last.called → Run old (first ∷ (between ++ last ∷ [])) new
        → TakesWhole old t p new }
    ensures compensated { (old new : Seen) (first last : Event) (between : List Event) (t p : ℕ)
        → StopsFirst old.file t p first.called → All (λ e. Finishes t e.called → ⊥) between
        → Finishes t last.called → Run old (first ∷ (between ++ last ∷ [])) new
        → CompensatesTake old t p new }
    ensures half { (old new : Seen) → old.file.history ≡ wrote 1 97 120 ∷ wrote 1 98 120 ∷ []
        → new.file.history ≡ wrote 1 97 120 ∷ taken_back (wrote 1 98 120) ∷ []
        → TakesWhole old 1 0 new → ⊥ }
{}

/// What is kept of the commits makes the records. After every run from a start, over the records that it began with,
/// what was kept of each accepted commit when it was made, one after another, makes the records without the changes of
/// transactions that haven't ended; where none is open, that is the records. It does so when it is done again over what
/// it has made. Each commit has something to be kept: what its live changes write, for one. Changes of others, changes
/// that were taken back, or the newest first, are something else, and so is what is kept in another order of the
/// commits; of a transaction without a commit nothing is kept.
pub fn commits_kept()
    ensures replayed { (old new : Seen) (events : List Event)
        → (kept : List (List ℕ × Option (List ℕ))) → Starts old → CommitsKept old events new kept
        → overlay old.records kept ≡ committed new.file }
    ensures each { (old new : Seen) (events : List Event) → Run old events new
        → (kept : List (List ℕ × Option (List ℕ))) × CommitsKept old events new kept }
    ensures all_ended { (f : File) → ((t : ℕ) → open_of f t ≡ false) → committed f ≡ records_of f }
    ensures again { (m : Contents) (kept : List (List ℕ × Option (List ℕ)))
        → overlay (overlay m kept) kept ≡ overlay m kept }
    ensures some { (m : Contents) (h : List Change) → overlay m (writes h) ≡ replay m h }
    ensures written { writes (wrote 1 97 120 ∷ claimed 1 98 ∷ taken_back (wrote 1 97 121) ∷ [])
        ≡ (97 ∷ [], Some (120 ∷ [])) ∷ [] }
    ensures last_wins { (m : Contents)
        → overlay m ((97 ∷ [], Some (120 ∷ [])) ∷ (97 ∷ [], None) ∷ []) ≡ set_to m (97 ∷ []) None }
    ensures example { (old new : Seen) (t : TxId) (kept : List (List ℕ × Option (List ℕ)))
        → Starts old → CommitsKept old (
        quiet (Begin (Ok t))
        ∷ quiet (Put t (97 ∷ []) (120 ∷ []) (Ok None))
        ∷ quiet (Commit t (Ok tt))
        ∷ []
        ) new kept → overlay old.records kept ≡ set_to old.records (97 ∷ []) (Some (120 ∷ [])) }
    ensures uncommitted { (old new : Seen) (t : TxId) (kept : List (List ℕ × Option (List ℕ)))
        → CommitsKept old (
        quiet (Begin (Ok t)) ∷ quiet (Put t (97 ∷ []) (120 ∷ []) (Ok None)) ∷ []
        ) new kept → kept ≡ [] }
    ensures others { (f : File) → f.history ≡ wrote 1 97 120 ∷ wrote 2 98 121 ∷ []
        → Keeps f (Commit one (Ok tt))
        ((97 ∷ [], Some (120 ∷ [])) ∷ (98 ∷ [], Some (121 ∷ [])) ∷ []) → ⊥ }
    ensures gone_back { (f : File) → f.history ≡ wrote 1 97 120 ∷ taken_back (wrote 1 97 121) ∷ []
        → Keeps f (Commit one (Ok tt))
        ((97 ∷ [], Some (120 ∷ [])) ∷ (97 ∷ [], Some (121 ∷ [])) ∷ []) → ⊥ }
    ensures newest_first { (f : File) → f.history ≡ wrote 1 97 120 ∷ wrote 1 97 121 ∷ []
        → Keeps f (Commit one (Ok tt))
        ((97 ∷ [], Some (121 ∷ [])) ∷ (97 ∷ [], Some (120 ∷ [])) ∷ []) → ⊥ }
    ensures other_order { (old new : Seen) (t u : TxId) → CommitsKept old (
        quiet (Begin (Ok t))
        ∷ quiet (Put t (97 ∷ []) (120 ∷ []) (Ok None))
        ∷ quiet (Commit t (Ok tt))
        ∷ quiet (Begin (Ok u))
        ∷ quiet (Put u (97 ∷ []) (121 ∷ []) (Ok (Some (120 ∷ []))))
        ∷ quiet (Commit u (Ok tt))
        ∷ []
        ) new ((97 ∷ [], Some (121 ∷ [])) ∷ (97 ∷ [], Some (120 ∷ [])) ∷ []) → ⊥ }
{}
