//! Facts of the definitions that contracts of this crate cite.
ghost use Rattle.std.specs.Prelude.{◌≡◌, ◌≢◌, ◌⊎◌, ◌<◌, ℕ, Bool, length, List, [], ◌∷◌, Option, Some, None, Result, Ok, Err, IsTrue, true, false, slice_get, codes};
ghost use Rattle.std.specs.FinMap as maps;
ghost use Rattle.std.specs.List.{All, flat_map};
ghost use Rattle.rec_types.specs.Contents.{Contents, set_to};
ghost use Rattle.rec_types.specs.LimitBounds.{Bounds};
ghost use Rattle.rec_types.specs.Table.{greatest_count};
ghost use Rattle.rec_types.specs.declared.gap.Gap.TheVariants as gaps;
ghost use Rattle.rec_types.specs.declared.side.Side.TheVariants.{After};
ghost use Rattle.rec_types.specs.declared.transaction.TxId.{TxId};
ghost use Rattle.record_file.specs.Abstract.{File, new_file, open_of};
ghost use Rattle.record_file.specs.Durable.{overlay};
ghost use Rattle.record_file.specs.Examples.{entries_at_a_and_b, owned_at_a};
ghost use Rattle.record_file.specs.Steps.{tx_refusal};
ghost use Rattle.command_text.specs.declared.reply.Unkept.TheVariants as unkept;
ghost use Rattle.record_file.specs.Runs.{EntriesBeside, IsKeptSeen, Seen};
ghost use Rattle.page_store.specs.Journal.{Journal, noted_steps};
ghost use Rattle.page_store.specs.declared.step.Step.TheVariants as steps;
ghost use Rattle.page_journal.specs.Examples.{without_side_file, both_writes, old_file};
ghost use Rattle.page_journal.specs.Files.{PageFile, SideFile, Files, Belongs, recovered};
ghost use Rattle.page_journal.specs.History.{History, LeftSince, MayLeave, all_done};
ghost use Rattle.page_journal.specs.declared.disk_call.DiskCall.{DiskCall};
ghost use Rattle.btree_delete.specs.Closing.{closing};
ghost use Rattle.btree_delete.specs.TableView.{TableView};
ghost use Rattle.commit_paper.specs.Text.{log_text, AreUnits};
ghost use Rattle.command_text.specs.declared.command.Command.TheVariants as command;
ghost use Rattle.command_text.specs.Dump.{dump_text, CanBePut};
ghost use Rattle.command_text.specs.Refusals.{is_refusal};
ghost use Rattle.command_text.specs.Script.{entries_in, commands_of};
ghost use Rattle.command_text.specs.Units.{Write, unit_commands};
ghost use Rattle.command_text.specs.declared.reply.Reply.{Reply};
ghost use Rattle.command_text.specs.declared.reply.Reply.TheVariants as reply;
ghost use Rattle.recfile.specs.DurableSession.{AreFirstCommits, EndsDurably};
ghost use Rattle.record_texts.specs.declared.form.Form.TheVariants.{Tsv};
ghost use Rattle.recfile.specs.Dumped.{ReadingStops};
ghost use Rattle.recfile.specs.Ending.{EndsAll, without};
ghost use Rattle.recfile.specs.Flushing.{BeginsNone, Flushes, InARow, SessionPoint, flush_reply};
ghost use Rattle.recfile.specs.Examples.{four_changes, two_taken_back};
ghost use Rattle.recfile.specs.Kept.{ClosesSafely};
ghost use Rattle.file_session.specs.Closing.{CountsClosing, HasRecords, IsKeptWith, LeavesEither};
ghost use Rattle.file_session.specs.LogOver.{Finds, HoldsRecords, HoldsWithin, IsHead, IsLogOver};
ghost use Rattle.file_session.specs.Overlaid.{IsLogCommand, SayWrites, writes_in_turn, writes_said};
ghost use Rattle.recfile.specs.Room.{HasRoomFor, was_kept};
ghost use Rattle.recfile.specs.Run.{ScriptTellsOf, Session};
ghost use Rattle.recfile.specs.SessionCommits.{IsInDoubt, MakesCommits, in_doubt};
ghost use Rattle.file_session.specs.Settling.{FindsAny, PutsRight};
ghost use Rattle.recfile.specs.Shell.{StopsAtFlush};
ghost use Rattle.recfile.specs.Spelled.{SpellsLines};
ghost use Rattle.recfile.specs.StoreWrites.{WritesBack};
ghost use Rattle.recfile.specs.Streams.{CallsMade, TellsFailed, no_call, run_read_fault, run_write_fault};
ghost use Rattle.recfile.specs.Tasks.{IsDump, WritesListed};
ghost use Rattle.recfile.specs.WholeSession.{EndsFile, IsSession, RunsFile};
ghost use Rattle.recfile.specs.declared.dump.DumpFault.TheVariants.{File as DumpFile};
ghost use Rattle.recfile.specs.declared.endings.EndFault.{EndFault};
ghost use Rattle.file_session.specs.declared.file_fault.FileFault.{FileFault};
ghost use Rattle.file_session.specs.declared.file_fault.FileFault.TheVariants as faults;
ghost use Rattle.recfile.specs.declared.manner.Manner.{Manner};
ghost use Rattle.recfile.specs.declared.script.RunFault.{RunFault};
ghost use Rattle.recfile.specs.declared.script.RunFault.TheVariants.{Script};
ghost use Rattle.recfile.specs.declared.script.ScriptFault.TheVariants as script_faults;

use page_journal::{DiskState, MemDisk};

/// A log of commits says what was kept: of units one after another exactly the writes of each, in their order, by commands
/// that a log may have. Not the newest first, nor what a transaction without a commit would write; a rollback is no command
/// of a log.
pub fn logs_are_read()
    ensures said { (units : List (List (List ℕ))) → AreUnits units
        → commands_of (log_text units) ≡ flat_map entries_in units }
    ensures found { (units : List (List (List ℕ))) (kept : List (List Write)) → AreUnits units
        → SayWrites units kept → writes_said (commands_of (log_text units)) ≡ writes_in_turn kept }
    ensures logged { (n : ℕ) (es : List Write) → All IsLogCommand (unit_commands n es) }
    ensures newest_first { (units : List (List (List ℕ))) → AreUnits units
        → SayWrites units (((97 ∷ [], None) ∷ []) ∷ ((98 ∷ [], None) ∷ []) ∷ [])
        → writes_said (commands_of (log_text units)) ≡ (98 ∷ [], None) ∷ (97 ∷ [], None) ∷ [] → ⊥ }
    ensures uncommitted { AreUnits ((codes "begin" ∷ codes "del 1 a" ∷ []) ∷ []) → ⊥ }
    ensures rollback { (t : TxId) → IsLogCommand (Ok (command.Abort t)) → ⊥ }
{}

/// An opening puts what a log of commits says over the records of its file; again, over what that made, it changes nothing, so
/// that the log may stand beside the closed file. In the example it says one put. It doesn't count without a first line of this
/// version, nor with one that isn't alone, nor over another file whose records it would change.
pub fn openings_find_commits()
    ensures over { (head : List ℕ) (under : Contents) (unit : List (List ℕ)) (n : ℕ) → IsHead head
        → entries_in unit ≡ unit_commands n ((97 ∷ [], Some (120 ∷ [])) ∷ [])
        → IsLogOver head under (set_to under (97 ∷ []) (Some (120 ∷ []))) ((head ∷ []) ∷ unit ∷ []) }
    ensures again { (head later : List ℕ) (under records : Contents) (units : List (List (List ℕ)))
        → IsLogOver head under records units → IsLogOver later records records units }
    ensures once { (head : List ℕ) (under a b : Contents) (units : List (List (List ℕ)))
        → IsLogOver head under a units → IsLogOver head under b units → a ≡ b }
    ensures other_file { (head first : List ℕ) (under records : Contents)
        (units : List (List (List ℕ))) → first ≢ head → records ≢ under
        → IsLogOver head under records ((first ∷ []) ∷ units) → ⊥ }
    ensures other_version { IsHead (codes "commits 2 4 5") → ⊥ }
    ensures not_alone { (head first next : List ℕ) (under records : Contents)
        (units : List (List (List ℕ)))
        → IsLogOver head under records ((first ∷ next ∷ []) ∷ units) → ⊥ }
    ensures empty { (head : List ℕ) (under records : Contents) → IsLogOver head under records [] → ⊥ }
{}

/// What a crash of a durable session leaves are commits from the first on: not the later without the earlier, nor one that
/// wasn't asked for.
pub fn commits_last_in_order()
    ensures some { (a b : List Write) → AreFirstCommits (a ∷ []) (a ∷ b ∷ []) }
    ensures earlier_lost { (a b : List Write) → a ≢ b → AreFirstCommits (b ∷ []) (a ∷ b ∷ []) → ⊥ }
    ensures one_more { (a b : List Write) → AreFirstCommits (a ∷ b ∷ []) (a ∷ []) → ⊥ }
{}

/// What no durable session leaves: the records without a commit that was kept, where none is in doubt; records that no commit
/// made; the commit in doubt without the one before it; a log beside the file that it closed. No commit is in doubt of a
/// transaction that wasn't begun, nor of writes that the session didn't make, and none is kept that isn't in the log.
pub fn durable_sessions_by_example()
    ensures lost { (manner : Manner) (left leaves held holds : Option (List ℕ))
        (before after : CallsMade) (order : ℕ) (contents : Contents) (limits : Bounds) (failures : ℕ)
        (commits : List (List (List ℕ))) (unclosed : Option FileFault) (status : ℕ) (flushed : Bool)
        (disk : History)
        → (ends : EndsDurably ⟦<MemDisk as DiskState>⟧ manner left leaves held holds before after
        order contents limits failures commits unclosed status flushed disk) → (es : List Write) (c : Files)
        → ends.made.kept ≡ es ∷ [] → in_doubt ends.made.doubted ≡ []
        → overlay contents es ≢ contents → MayLeave disk.first disk.calls c
        → Finds order contents c → ⊥ }
    ensures made_up { (manner : Manner) (left leaves held holds : Option (List ℕ))
        (before after : CallsMade) (order : ℕ) (contents : Contents) (limits : Bounds) (failures : ℕ)
        (commits : List (List (List ℕ))) (unclosed : Option FileFault) (status : ℕ) (flushed : Bool)
        (disk : History)
        → (ends : EndsDurably ⟦<MemDisk as DiskState>⟧ manner left leaves held holds before after
        order contents limits failures commits unclosed status flushed disk) → (others : Contents) (c : Files)
        → ends.made.kept ≡ [] → in_doubt ends.made.doubted ≡ [] → others ≢ contents
        → LeftSince disk.first disk.calls 0 c → Finds order others c → ⊥ }
    ensures alone { (manner : Manner) (left leaves held holds : Option (List ℕ))
        (before after : CallsMade) (order : ℕ) (contents : Contents) (limits : Bounds) (failures : ℕ)
        (commits : List (List (List ℕ))) (unclosed : Option FileFault) (status : ℕ) (flushed : Bool)
        (disk : History)
        → (ends : EndsDurably ⟦<MemDisk as DiskState>⟧ manner left leaves held holds before after
        order contents limits failures commits unclosed status flushed disk) → (a b : List Write) (c : Files)
        → ends.made.kept ≡ a ∷ [] → in_doubt ends.made.doubted ≡ b ∷ []
        → overlay contents b ≢ overlay contents a
        → overlay contents b ≢ overlay (overlay contents a) b
        → MayLeave disk.first disk.calls c → Finds order (overlay contents b) c → ⊥ }
    ensures unended { (manner : Manner) (left leaves held holds : Option (List ℕ))
        (before after : CallsMade) (order : ℕ) (contents : Contents) (limits : Bounds) (failures : ℕ)
        (commits : List (List (List ℕ))) (status : ℕ) (flushed : Bool)
        (disk : History)
        → (ends : EndsDurably ⟦<MemDisk as DiskState>⟧ manner left leaves held holds before after
        order contents limits failures commits None status flushed disk) → (count : ℕ) (c : Files)
        → ends.run.ended ≡ Ok count → MayLeave disk.first disk.calls c
        → c.commits.log ≢ None → ⊥ }
    ensures unbegun { (old new : Seen) (es : List Write) (contents : Contents) (limits : Bounds)
        → (doubt : IsInDoubt old new es) → old.file ≡ new_file contents limits
        → doubt.before ≡ [] → ⊥ }
    ensures unwritten { (old new : Seen) (es : List Write) → IsKeptSeen new
        → IsInDoubt old new es → new.log ≡ [] → es ≢ [] → ⊥ }
    ensures unkept { (old new : Seen) → (made : MakesCommits old new) → (es : List Write)
        → made.kept ≡ es ∷ [] → new.commits ≡ old.commits → ⊥ }
{}

/// Ending takes back the live changes of open transactions and no others; it is no commit.
pub fn endings_by_example()
    ensures taken { (old : File) → open_of old 1 ≡ true → open_of old 2 ≡ false
        → open_of old 3 ≡ true → without (open_of old) four_changes ≡ two_taken_back }
    ensures committed { (old : File) (ended : ℕ) → open_of old 1 ≡ true
        → old.history ≡ four_changes
        → EndsAll old ended (record old { txs = maps.empty }) → ⊥ }
{}

/// After a session no transaction is open; the records have the changes of those that had ended before, and none of
/// those that were open. Where nothing would close the file, a transaction wasn't ended, and the status says so.
pub fn sessions_by_example()
    ensures open { (manner : Manner) (left leaves held holds : Option (List ℕ)) (old mid new : Seen)
        (answer : Result ℕ RunFault) (ended t : ℕ)
        → IsSession manner left leaves held holds old mid answer (Ok ended) new
        → open_of new.file t ≡ false }
    ensures gone { (manner : Manner) (left leaves held holds : Option (List ℕ)) (old mid new : Seen)
        (answer : Result ℕ RunFault) (ended : ℕ)
        → IsSession manner left leaves held holds old mid answer (Ok ended) new → IsTrue mid.sound
        → mid.file.opening ≡ maps.empty
        → mid.file.history ≡ four_changes → open_of mid.file 1 ≡ true
        → open_of mid.file 2 ≡ false → open_of mid.file 3 ≡ true
        → (maps.get new.records (97 ∷ []) ≡ None)
        × (maps.get new.records (98 ∷ []) ≡ Some (121 ∷ [])) }
    ensures unclosed { (manner : Manner) (left leaves held holds : Option (List ℕ))
        (before after : CallsMade) (old : Seen) (status : ℕ) (unclosed : Option FileFault)
        → EndsFile manner left leaves held holds before after old (λ _. ⊥) unclosed status
        → status ≡ 4 }
{}

/// What `from` tells by example: the first of the entries at its key and above, of all that the call answered. Not what lies on the
/// other side, which `upto` tells, and not without the call.
pub fn ordered_reads_by_example()
    ensures from { (old : Seen) → ScriptTellsOf old (Ok (command.From (97 ∷ []) 1))
        (reply.List (Ok (owned_at_a ∷ []))) (EntriesBeside After (gaps.Before (97 ∷ [])) (Ok entries_at_a_and_b) ∷ []) }
    ensures other_side { (old : Seen) → ScriptTellsOf old (Ok (command.Upto (97 ∷ []) 1))
        (reply.List (Ok (owned_at_a ∷ []))) (EntriesBeside After (gaps.Before (97 ∷ [])) (Ok entries_at_a_and_b) ∷ []) → ⊥ }
    ensures unasked { (old : Seen) → ScriptTellsOf old (Ok (command.From (97 ∷ []) 1))
        (reply.List (Ok (owned_at_a ∷ []))) [] → ⊥ }
{}

/// A commit is told as one that wasn't kept only where it would have been accepted, and where commits are kept at all.
pub fn unkept_commits_by_example()
    ensures refused { (old : Seen) (t : TxId) → tx_refusal old.file t.0 None ≢ None
        → ScriptTellsOf old (Ok (command.Commit t)) (reply.Unkept unkept.Memory) [] → ⊥ }
    ensures unlogged { (old : Seen) (t : TxId) → old.logged ≡ false
        → ScriptTellsOf old (Ok (command.Commit t)) (reply.Unkept unkept.Memory) [] → ⊥ }
{}

/// After a session of status 0 no read and no write has failed. A ReadFault isn't answered where no read failed, nor Ok where
/// a write did.
pub fn failed_calls_are_told()
    ensures unfailed { (manner : Manner) (left leaves held holds : Option (List ℕ))
        (before after : CallsMade) (old : Seen) (unclosed : Option FileFault)
        → RunsFile manner left leaves held holds before after old unclosed 0
        → (after.read_failed ≡ before.read_failed) × (after.write_failed ≡ before.write_failed) }
    ensures made_up { (answer : Result ℕ RunFault) → answer ≡ Err (Script script_faults.ReadFault)
        → TellsFailed no_call (run_read_fault answer) (run_write_fault answer) no_call → ⊥ }
    ensures hidden { (answer : Result ℕ RunFault) (done : ℕ) → answer ≡ Ok done
        → TellsFailed no_call (run_read_fault answer) (run_write_fault answer)
        (record no_call { write_failed = true }) → ⊥ }
{}

/// A closing without a fault has no failure of its disk behind it; Device is no fault of a disk that didn't fail; and where
/// the old pages couldn't be put back either, the disk has failed twice, and never three times. One that found no memory has
/// no failure behind it but that of putting them back.
pub fn closings_are_counted()
    ensures silent { (before after : ℕ) → CountsClosing before false false after → after ≡ before }
    ensures unfailed { (before : ℕ) → before < greatest_count
        → CountsClosing before true true before → ⊥ }
    ensures twice { CountsClosing 3 true true 5 }
    ensures thrice { CountsClosing 3 true true 6 → ⊥ }
    ensures no_memory { CountsClosing 3 true false 5 → ⊥ }
{}

/// What no closing leaves, by disks in memory. A disk that is kept with some records isn't with others, nor with a side
/// file, nor while a write of page 0 isn't synced. A crash may leave a third file where two pages are written over that
/// weren't kept aside. No closing leaves a side file of another file, and one that makes no call closes no other records
/// than there were.
pub fn closings_by_example()
    ensures others { (disk : History) (order later : ℕ) (records others : Contents)
        → IsKeptWith ⟦<MemDisk as DiskState>⟧ order records disk → records ≢ others
        → IsKeptWith ⟦<MemDisk as DiskState>⟧ later others disk → ⊥ }
    ensures unsynced { (main : PageFile) (page : List ℕ) (failures order : ℕ) (records : Contents)
        → slice_get main.pages 0 ≢ Some page → IsKeptWith ⟦<MemDisk as DiskState>⟧ order records (record {
          first = without_side_file main;
          calls = DiskCall.Write 0 page ∷ [];
          failures = failures;
        }) → ⊥ }
    ensures side_file { (first : Files) (kept : SideFile) (failures order : ℕ) (records : Contents)
        → first.side ≡ Some kept → IsKeptWith ⟦<MemDisk as DiskState>⟧ order records (record {
          first = first;
          calls = [];
          failures = failures;
        }) → ⊥ }
    ensures third_file { (failures order : ℕ) (records : Contents)
        → LeavesEither ⟦<MemDisk as DiskState>⟧ old_file order records (record {
          first = without_side_file old_file;
          calls = both_writes;
          failures = failures;
        }) → ⊥ }
    ensures foreign { (first : Files) (failures order : ℕ) (records : Contents) → (Belongs first → ⊥)
        → LeavesEither ⟦<MemDisk as DiskState>⟧ (recovered first) order records (record {
          first = first;
          calls = [];
          failures = failures;
        }) → ⊥ }
    ensures unwritten { (first : Files) (failures order later : ℕ) (records others : Contents)
        → HasRecords order records (recovered first) → records ≢ others
        → ClosesSafely ⟦<MemDisk as DiskState>⟧ (recovered first) (record {
          first = first;
          calls = [];
          failures = failures;
        }) None later others → ⊥ }
{}

/// A dump that is run over a file without records, with no refusal, gives exactly its records.
pub fn dumps_are_loaded()
    ensures { (old new : Seen) (records : Contents) (replies : List Reply)
        → IsTrue old.sound → old.records ≡ maps.empty → All CanBePut (maps.entries records)
        → Session old (commands_of (dump_text (maps.entries records))) replies new
        → All (λ r. is_refusal r ≡ false) replies → new.records ≡ records }
{}

/// A dump that is run over a new file with room for its records has no refusal, but where the device, a damaged page or
/// memory keeps a begin or a put from being done. Limits of one record less leave no room.
pub fn dumps_have_room()
    ensures accepted { (limits : Bounds) (old new : Seen) (records : Contents) (replies : List Reply)
        → old.file ≡ new_file maps.empty limits → IsTrue old.sound
        → old.failures < greatest_count → All CanBePut (maps.entries records)
        → HasRoomFor (length (maps.entries records)) limits
        → Session old (commands_of (dump_text (maps.entries records))) replies new
        → All (λ r. was_kept r ≡ false) replies → All (λ r. is_refusal r ≡ false) replies }
    ensures fewer { (limits : Bounds) → limits.records ≡ 1 → HasRoomFor 2 limits → ⊥ }
{}

/// A table that was changed is closed by writing it back once: not by writing nothing, nor by writing it back twice, and a
/// closing that stopped hasn't begun by telling the device to keep what there was. One that wasn't changed is closed by
/// writing nothing, and so is one that found no memory.
pub fn closings_write_back_once()
    ensures nothing { (old : Journal) (t : TableView) → t.pages.changed ≡ true
        → WritesBack (Some old) t None (Some old) → ⊥ }
    ensures twice { (old : Journal) (t : TableView) → t.pages.changed ≡ true
        → WritesBack (Some old) t None (noted_steps (noted_steps (Some old) (closing t)) (closing t)) → ⊥ }
    ensures kept_first { (old : Journal) (t : TableView) (fault : FileFault) → old.steps ≡ []
        → t.pages.changed ≡ true
        → WritesBack (Some old) t (Some fault) (noted_steps (Some old) (steps.Sync ∷ [])) → ⊥ }
    ensures unchanged { (old new : Journal) (t : TableView) → t.pages.changed ≡ false
        → WritesBack (Some old) t None (Some new) → new.steps ≡ old.steps }
    ensures no_memory { (old new : Option Journal) (t : TableView)
        → WritesBack old t (Some faults.Memory) new → new ≡ old }
{}

/// A session over a disk in memory, a crash at any moment of it, a session over what that left, and a crash at any moment of
/// that one: the next opening finds the file that there was at first, or what the one or the other session closes.
pub fn sessions_and_crashes()
    ensures { (one two : History) (old : PageFile) (order later : ℕ) (first second : Contents)
        → (unclosed other : Option FileFault) (left : Files)
        → ClosesSafely ⟦<MemDisk as DiskState>⟧ old one unclosed order first
        → LeftSince one.first one.calls 0 two.first
        → ClosesSafely ⟦<MemDisk as DiskState>⟧ (recovered two.first) two other later second
        → LeftSince two.first two.calls 0 left
        → Belongs left × ((recovered left ≡ old) ⊎ HasRecords order first (recovered left)
        ⊎ HasRecords later second (recovered left)) }
{}

/// What no row of durable sessions does: take a flush while a transaction is open, or where no line asks for it; go on without
/// the reply, or over records that lack a commit.
pub fn flushes_by_example()
    ensures unfinished { (strict : Bool) (left leaves held holds : Option (List ℕ)) (old new : Seen)
        → StopsAtFlush strict left leaves held holds old new → maps.len new.file.txs ≡ 1 → ⊥ }
    ensures unasked { (strict : Bool) (left : List ℕ) (held holds : Option (List ℕ)) (old new : Seen)
        → StopsAtFlush strict (Some left) (Some left) held holds old new → ⊥ }
    ensures silent { (manner : Manner) (limits : Bounds) (old new : SessionPoint History)
        → (goes : Flushes ⟦<MemDisk as DiskState>⟧ manner limits old new)
        → goes.closed.held ≡ Some [] → new.held ≡ Some [] → ⊥ }
    ensures lost { (manner : Manner) (limits : Bounds) (old new : SessionPoint History)
        → (goes : Flushes ⟦<MemDisk as DiskState>⟧ manner limits old new) → (order : ℕ)
        → (contents : Contents) → (steady : IsTrue true)
        → (holds : HoldsWithin limits.records order contents (recovered old.disk.first))
        → (es : List Write)
        → (goes.session.session steady order contents holds).made.kept ≡ es ∷ []
        → overlay contents es ≢ contents
        → HoldsWithin limits.records order contents (recovered new.disk.first) → ⊥ }
{}

/// What no end of durable sessions in a row does. Where none begins after a flush, its file was closed, no more of the lines
/// was read, and the whole reply was written only where the disk failed then; the status isn't 0, nor is it where the last
/// session found no file to open.
pub fn rows_by_example()
    ensures example { (closed : SessionPoint History) → BeginsNone ⟦<MemDisk as DiskState>⟧ closed
        (record closed { calls = record closed.calls { write_failed = true } }) None None 3 }
    ensures replied { (closed new : SessionPoint History) (unclosed : Option FileFault) (status : ℕ)
        → closed.held ≡ Some [] → new.held ≡ Some flush_reply
        → BeginsNone ⟦<MemDisk as DiskState>⟧ closed new None unclosed status → ⊥ }
    ensures read_on { (closed new : SessionPoint History) (unopened unclosed : Option FileFault)
        (status : ℕ) → new.left ≢ closed.left
        → BeginsNone ⟦<MemDisk as DiskState>⟧ closed new unopened unclosed status → ⊥ }
    ensures not_closed { (closed new : SessionPoint History) (unopened : Option FileFault)
        (fault : FileFault) (status : ℕ)
        → BeginsNone ⟦<MemDisk as DiskState>⟧ closed new unopened (Some fault) status → ⊥ }
    ensures ends_well { (closed new : SessionPoint History) (unopened unclosed : Option FileFault)
        → BeginsNone ⟦<MemDisk as DiskState>⟧ closed new unopened unclosed 0 → ⊥ }
    ensures unopened_row { (manner : Manner) (limits : Bounds) (old new : SessionPoint History)
        (fault : FileFault) (unclosed : Option FileFault)
        → InARow ⟦<MemDisk as DiskState>⟧ manner limits old new (Some fault) unclosed 0 → ⊥ }
{}

/// What puts no page file right, by disks in memory. Where an opening finds records in the old files, the file doesn't have
/// others at Ok, and no crash on the way leaves files in which it finds others; where it finds none, none leaves files that
/// stand for another file. No log stands beside the file at Ok. BadJournal isn't answered where the side file is of the file,
/// nor BadCommits where an opening finds records, nor Device where the disk didn't fail; and where it did, not Ok.
pub fn settlings_by_example()
    ensures dropped { (old new : History) (order later : ℕ) (records others : Contents)
        → Finds order records old.first → records ≢ others
        → PutsRight ⟦<MemDisk as DiskState>⟧ old (Ok tt) new
        → HoldsRecords later others (all_done new.first new.calls).main → ⊥ }
    ensures log_left { (old new : History) → PutsRight ⟦<MemDisk as DiskState>⟧ old (Ok tt) new
        → (all_done new.first new.calls).commits.log ≢ None → ⊥ }
    ensures lost_on_the_way { (old new : History) (answer : Result (Unit {0}) FileFault) (order later : ℕ)
        (records others : Contents) (left : Files) → Finds order records old.first
        → PutsRight ⟦<MemDisk as DiskState>⟧ old answer new
        → LeftSince new.first new.calls 0 left → records ≢ others → Finds later others left → ⊥ }
    ensures written_over { (old new : History) (answer : Result (Unit {0}) FileFault) (left : Files)
        → (FindsAny old.first → ⊥) → PutsRight ⟦<MemDisk as DiskState>⟧ old answer new
        → LeftSince new.first new.calls 0 left → recovered left ≢ recovered old.first → ⊥ }
    ensures journal_blamed { (old new : History) → Belongs old.first
        → PutsRight ⟦<MemDisk as DiskState>⟧ old (Err faults.BadJournal) new → ⊥ }
    ensures healthy_refused { (old new : History) (order : ℕ) (records : Contents)
        → Finds order records old.first
        → PutsRight ⟦<MemDisk as DiskState>⟧ old (Err faults.BadCommits) new → ⊥ }
    ensures disk_blamed { (old new : History) → old.failures < greatest_count
        → PutsRight ⟦<MemDisk as DiskState>⟧ old (Err faults.Device) new
        → new.failures ≡ old.failures → ⊥ }
    ensures failure_hidden { (old new : History) → PutsRight ⟦<MemDisk as DiskState>⟧ old (Ok tt) new
        → new.failures ≢ old.failures → ⊥ }
{}

/// What a dump leaves that isn't whole: a front of its text at a failed device, and never the whole text; no other fault of the
/// file but those of the listing comes behind its first byte. Of a line a part may be written and the rest wait, and nothing of it
/// is lost.
pub fn dumps_in_part()
    ensures front { ReadingStops (Some []) (Some (codes "begin")) (dump_text [])
        (DumpFile faults.Device) }
    ensures whole { ReadingStops (Some []) (Some (dump_text [])) (dump_text [])
        (DumpFile faults.Device) → ⊥ }
    ensures damaged { (page : ℕ) (held holds : Option (List ℕ)) (text : List ℕ)
        → ReadingStops held holds text (DumpFile (faults.Damaged page)) → ⊥ }
    ensures unopened { (held holds : Option (List ℕ)) → WritesListed (IsDump None) held holds
        (Err (DumpFile faults.BadMagic)) → holds ≡ held }
    ensures waits { SpellsLines (Some Tsv) [] (Some []) ((97 ∷ [], 98 ∷ []) ∷ []) (10 ∷ [])
        (Some (97 ∷ 9 ∷ 98 ∷ [])) }
    ensures lost { SpellsLines (Some Tsv) [] (Some []) ((97 ∷ [], 98 ∷ []) ∷ []) []
        (Some (97 ∷ 9 ∷ 98 ∷ [])) → ⊥ }
{}
