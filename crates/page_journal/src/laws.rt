//! Facts of the definitions that contracts of this crate cite.
ghost use Rattle.std.specs.Prelude.{◌≡◌, ◌≢◌, ℕ, List, [], ◌∷◌, ◌++◌, Some, None, All, take, true, false};
ghost use Rattle.page_store.specs.Journal.{carried};
ghost use Rattle.page_store.specs.declared.step.Step.{Step};
ghost use Rattle.page_journal.specs.Carrying.{LeavesOf, WritesKept};
ghost use Rattle.page_journal.specs.Files.{PageFile, SideFile, Files, Agree, IsOf, restored, recovered};
ghost use Rattle.page_journal.specs.Crash.{FilesStandFor, StandsForEither, Gathered};
ghost use Rattle.page_journal.specs.History.{all_done, MayLeave, LeftSince};
ghost use Rattle.page_journal.specs.Examples.{pages_of_two, without_side_file, old_file, word, words, word_kept, page_1_kept, page_1_written_over, both_written, both_writes, side_made, side_named, named_early, log_made, log_named_early, with_log, page_1_steps, both_steps, noted_write_and_sync, three_noted, noted_over};
ghost use Rattle.page_store.specs.Blank.{blank};
ghost use Rattle.page_journal.specs.Sums.{sum_start, sum_on, sum_of_all};
ghost use Rattle.page_journal.specs.SideBytes.{side_header, entry_bytes, side_bytes, read_side, IsSideFile, TakesEntries};
ghost use Rattle.std.specs.Prelude.{◌<◌, ◌≤◌, ◌*◌, length, slice_set};
ghost use Rattle.rec_types.specs.Widths.{page_width};
ghost use Rattle.page_journal.specs.SideBytes.{first_tally, tally_on};
ghost use Rattle.page_journal.specs.Steps.{kept_more};
ghost use Rattle.page_journal.specs.Fates.{first_calls};
ghost use Rattle.page_journal.specs.Lowering.{Lowered, lowered_call, lowered_next};
ghost use Rattle.page_journal.specs.Bytes.{Stored, AreWhole, all_carried, fresh_bytes, pages_in};
ghost use Rattle.page_journal.specs.declared.commit_call.CommitCall.{CommitCall};
ghost use Rattle.page_journal.specs.declared.disk_call.DiskCall.{DiskCall};
ghost use Rattle.std.specs.Prelude.{Vec};
ghost use Rattle.std.specs.declared.alloc.Global.{Global};

use crate::disk_state::DiskState;
use crate::file_disk::FileDisk;
use file_system::{System, SystemFile};

/// What old pages leave that are put back depends on no page that was kept, and on nothing past the old end. In the
/// example page 1 of two was kept, then it was written over and a page was added. It fails where a page was written
/// over that wasn't kept.
pub fn old_pages_put_back()
    ensures same { (kept : SideFile) (a b : List (List ℕ)) → Agree kept a b
        → restored kept b ≡ restored kept a }
    ensures agree { Agree page_1_kept old_file.pages page_1_written_over }
    ensures example { restored page_1_kept page_1_written_over ≡ old_file }
    ensures disagree { Agree page_1_kept old_file.pages both_written → ⊥ }
    ensures not_kept { restored page_1_kept both_written ≢ old_file }
{}

/// A side file of a file is one of each whose pages are the same but for those that it keeps, whatever a stop made of these.
/// In the example page 1 of two was kept, and page 0 has a sum. A copy whose page 0 is another's, and one that is shorter,
/// have no part in it; a side file of the first version says nothing of page 0.
pub fn whose_side_file_it_is()
    ensures same { (kept : SideFile) (a b : List (List ℕ)) → Agree kept a b → IsOf kept a → IsOf kept b }
    ensures own { (b : ℕ) → IsOf word_kept (words 1 b) }
    ensures other { IsOf word_kept (words 7 2) → ⊥ }
    ensures shorter { IsOf word_kept (word 1 ∷ []) → ⊥ }
    ensures first_version { IsOf page_1_kept both_written }
{}

/// Steps that write over no page but those that were kept, and past the old end: however many of them are carried out,
/// and whatever a crash makes of each, the old pages put back make the old file. In the example page 1 of two was
/// kept. It fails where a step writes a page that wasn't.
pub fn steps_put_back()
    ensures each { (kept : SideFile) (old now : List (List ℕ)) (done : List Step)
        → Gathered old kept → All (WritesKept kept) done → LeavesOf done old now
        → restored kept now ≡ record { pages = old; tail = 0 } }
    ensures front { (old : List (List ℕ)) (all : List Step) (k : ℕ)
        → LeavesOf all old (carried old (take k all)) }
    ensures example { All (WritesKept page_1_kept) page_1_steps }
    ensures not_kept { All (WritesKept page_1_kept) both_steps → ⊥ }
    ensures not_restored { restored page_1_kept (carried old_file.pages both_steps) ≢ old_file }
{}

/// What a crash of a disk in memory leaves: what reads see is always among it, and so is what fewer calls may have
/// left.
pub fn outcomes_in_memory()
    ensures seen { (first : Files) (calls : List DiskCall)
        → MayLeave first calls (all_done first calls) }
    ensures earlier { (first : Files) (late calls : List DiskCall) (c : Files)
        → MayLeave first calls c → LeftSince first (late ++ calls) 0 c }
{}

/// Two pages are written, and not synced: the second may be done where the first is lost or torn, and a sync of the
/// names changes none of that. A sync leaves both done. A page that wasn't written is never another.
pub fn writes_by_example()
    ensures lost { MayLeave (without_side_file old_file) both_writes (without_side_file (pages_of_two 1 9)) }
    ensures torn { MayLeave (without_side_file old_file) both_writes (without_side_file (pages_of_two 5 9)) }
    ensures other_sync { MayLeave (without_side_file old_file) (DiskCall.SyncNames ∷ both_writes)
        (without_side_file (pages_of_two 1 9)) }
    ensures synced { (c : Files) → MayLeave (without_side_file old_file) (DiskCall.Sync ∷ both_writes) c
        → c.main ≡ pages_of_two 7 9 }
    ensures not_durable { ((c : Files) → MayLeave (without_side_file old_file) both_writes c
        → c.main ≡ pages_of_two 7 9) → ⊥ }
    ensures other_page { MayLeave (without_side_file old_file) (DiskCall.Write 0 (7 ∷ []) ∷ [])
        (without_side_file (pages_of_two 7 9)) → ⊥ }
{}

/// Three calls that a disk in files noted: page 0 was written, a sync failed, and page 1 was written. Reads see both pages as
/// written, and a crash may have lost the first. It fails where the last call is left out, and where the sync is told as done.
pub fn notes_by_example<H: System<File = F> + Drop, F: SystemFile + Drop>()
    ensures seen { ⟦<FileDisk<H, F> as DiskState>⟧.seen (noted_over (three_noted true))
        ≡ without_side_file (pages_of_two 7 9) }
    ensures lost { ⟦<FileDisk<H, F> as DiskState>⟧.may_leave (noted_over (three_noted true))
        (without_side_file (pages_of_two 1 9)) }
    ensures moment { ⟦<FileDisk<H, F> as DiskState>⟧.moment (noted_over (three_noted true)) ≡ 3 }
    ensures left_out { ⟦<FileDisk<H, F> as DiskState>⟧.seen (noted_over (noted_write_and_sync true))
        ≢ without_side_file (pages_of_two 7 9) }
    ensures told_as_done { ⟦<FileDisk<H, F> as DiskState>⟧.may_leave (noted_over (three_noted false))
        (without_side_file (pages_of_two 1 9)) → ⊥ }
{}

/// Both pages are kept beside the file. Where the side file was synced before it got the name, a crash leaves files that
/// stand for the old file, and once the names are synced, whatever is written over it. It fails where the side file
/// wasn't synced, also once the names are, and where pages are written over before the names are synced; and one
/// of the old and the new file it doesn't leave where the side file is taken away before the last sync.
pub fn naming_by_example()
    ensures named { (c : Files) → MayLeave (without_side_file old_file) (DiskCall.Name ∷ side_made) c
        → FilesStandFor old_file c }
    ensures sealed { (c : Files) → MayLeave (without_side_file old_file) (both_writes ++ side_named) c
        → FilesStandFor old_file c }
    ensures named_early { ((c : Files) → MayLeave (without_side_file old_file) named_early c
        → FilesStandFor old_file c) → ⊥ }
    ensures written_early { ((c : Files) → MayLeave (without_side_file old_file)
        (both_writes ++ DiskCall.Name ∷ side_made) c → FilesStandFor old_file c) → ⊥ }
    ensures removed_early { ((c : Files) → MayLeave (without_side_file old_file)
        (DiskCall.SyncNames ∷ DiskCall.Remove ∷ both_writes ++ side_named) c
        → StandsForEither old_file (pages_of_two 7 9) c) → ⊥ }
{}

/// A log of commits that was synced before it got its name, which the device keeps then, is there with its bytes whatever else
/// a crash takes. It fails where it wasn't synced. A write that isn't synced may be done or lost; once it is synced it is there,
/// and a sync of the names alone keeps nothing of it. Pages stay as they were.
pub fn logs_by_example()
    ensures made { (bytes : Vec ℕ Global) (c : Files) → MayLeave (without_side_file old_file) (log_made bytes) c
        → (c.commits.log ≡ Some bytes.items) × (c.main ≡ old_file) }
    ensures named_early { (bytes : Vec ℕ Global) → bytes.items ≡ 7 ∷ []
        → ((c : Files) → MayLeave (without_side_file old_file) (log_named_early bytes) c
        → c.commits.log ≡ Some bytes.items) → ⊥ }
    ensures lost { (bytes : Vec ℕ Global) → bytes.items ≡ 7 ∷ [] → MayLeave (with_log old_file (0 ∷ []))
        (DiskCall.SyncNames ∷ DiskCall.Commits (CommitCall.Write 0 bytes) ∷ [])
        (with_log old_file (0 ∷ [])) }
    ensures synced { (bytes : Vec ℕ Global) (c : Files) → bytes.items ≡ 7 ∷ []
        → MayLeave (with_log old_file (0 ∷ [])) (DiskCall.Commits CommitCall.Sync
        ∷ DiskCall.Commits (CommitCall.Write 0 bytes) ∷ []) c → c.commits.log ≡ Some (7 ∷ []) }
{}

/// The sum over the pages of a file is that over their bytes, one page after another. In the examples it is that of the four
/// bytes of the one page; the same pages in another order have another, and so has the file with a page less.
pub fn file_sums_by_example()
    ensures none { sum_of_all [] ≡ sum_start }
    ensures one { sum_of_all ((0x61 ∷ 0x62 ∷ 0x63 ∷ 0x64 ∷ []) ∷ []) ≡ 0xcd80d9f18c2d2e73 }
    ensures other_order { sum_of_all (word 2 ∷ word 1 ∷ []) ≢ sum_of_all (word 1 ∷ word 2 ∷ []) }
    ensures shorter { sum_of_all (word 1 ∷ []) ≢ sum_of_all (word 1 ∷ word 2 ∷ []) }
{}

/// What the bytes of a side file say is what they were made of, and bytes are taken where they are those of a side file and
/// nowhere else. In the examples four bytes have a sum, which others than they don't have; a header is of a file of three pages of
/// which two are kept, with the sum 5 over the third and the sum 7; in the first version the third has none. Pages that don't ascend, and pages without page 0, are no side file's.
pub fn side_file_by_bytes()
    ensures read { (kept : SideFile) → IsSideFile kept → read_side (side_bytes kept) ≡ kept }
    ensures taken { (kept : SideFile) → IsSideFile kept → TakesEntries kept (side_bytes kept) }
    ensures only { (kept : SideFile) (bytes : List ℕ) → TakesEntries kept bytes
        → IsSideFile kept × (bytes ≡ side_bytes kept) }
    ensures sum { sum_on sum_start (0x61 ∷ 0x62 ∷ 0x63 ∷ 0x64 ∷ []) ≡ 0xcd80d9f18c2d2e73 }
    ensures other_order { sum_on sum_start (0x64 ∷ 0x63 ∷ 0x62 ∷ 0x61 ∷ []) ≢ 0xcd80d9f18c2d2e73 }
    ensures header { side_header 3 2 (Some 5) 7
        ≡ 0x42 ∷ 0x4d ∷ 0x4b ∷ 0x52 ∷ 0x4a ∷ 0x52 ∷ 0x4e ∷ 0x4c
        ∷ 0 ∷ 2 ∷ 0 ∷ 0 ∷ 0 ∷ 0 ∷ 0 ∷ 3 ∷ 0 ∷ 0 ∷ 0 ∷ 2 ∷ 0 ∷ 0 ∷ 0 ∷ 0
        ∷ 0 ∷ 0 ∷ 0 ∷ 0 ∷ 0 ∷ 0 ∷ 0 ∷ 5 ∷ 0 ∷ 0 ∷ 0 ∷ 0 ∷ 0 ∷ 0 ∷ 0 ∷ 7 ∷ [] }
    ensures old_header { side_header 3 2 None 7
        ≡ 0x42 ∷ 0x4d ∷ 0x4b ∷ 0x52 ∷ 0x4a ∷ 0x52 ∷ 0x4e ∷ 0x4c
        ∷ 0 ∷ 1 ∷ 0 ∷ 0 ∷ 0 ∷ 0 ∷ 0 ∷ 3 ∷ 0 ∷ 0 ∷ 0 ∷ 2 ∷ 0 ∷ 0 ∷ 0 ∷ 0
        ∷ 0 ∷ 0 ∷ 0 ∷ 0 ∷ 0 ∷ 0 ∷ 0 ∷ 7 ∷ [] }
    ensures entry { entry_bytes 258 (9 ∷ 8 ∷ []) ≡ 0 ∷ 0 ∷ 1 ∷ 2 ∷ 9 ∷ 8 ∷ [] }
    ensures order { IsSideFile (record {
      long = 2;
      rest = None;
      pages = (0, blank) ∷ (0, blank) ∷ [];
    }) → ⊥ }
    ensures no_page_0 { IsSideFile (record { long = 2; rest = None; pages = (1, blank) ∷ [] }) → ⊥ }
    ensures past_the_end { IsSideFile (record {
      long = 1;
      rest = None;
      pages = (0, blank) ∷ (1, blank) ∷ [];
    })
        → ⊥ }
{}

/// What the calls of the system that calls of a disk are leave in bytes, as reads see it. A page that is written is that
/// page, and nothing else of the pages changes. A side file is begun empty; each old page stands behind those before
/// it, whose place is known from how many there are; its header makes it a whole side file, which then gets its name.
pub fn calls_in_bytes()
    ensures page { (l : Lowered) (s : Stored) (n : ℕ) (page : List ℕ) → length page ≡ page_width
        → n < l.pages → l.pages * page_width ≤ length s.main
        → pages_in page_width l.pages (all_carried (lowered_call l (DiskCall.Write n page)) s).main
        ≡ slice_set (pages_in page_width l.pages s.main) n page }
    ensures begun { (l : Lowered) (s : Stored) (long rest : ℕ)
        → ((all_carried (lowered_call l (DiskCall.Start long rest)) s).fresh ≡ Some (fresh_bytes []))
        × ((lowered_next l (DiskCall.Start long rest)).tally ≡ tally_on (first_tally long (Some rest)) []) }
    ensures kept { (l : Lowered) (s : Stored) (kept : SideFile) (rest n : ℕ) (page : List ℕ)
        → AreWhole kept.pages → kept.rest ≡ Some rest
        → l.tally ≡ tally_on (first_tally kept.long kept.rest) kept.pages
        → s.fresh ≡ Some (fresh_bytes kept.pages)
        → ((all_carried (lowered_call l (DiskCall.Keep n page)) s).fresh
        ≡ Some (fresh_bytes (kept_more kept n page).pages))
        × ((lowered_next l (DiskCall.Keep n page)).tally
        ≡ tally_on (first_tally kept.long kept.rest) (kept_more kept n page).pages) }
    ensures made { (l : Lowered) (s : Stored) (kept : SideFile) (rest : ℕ) → kept.rest ≡ Some rest
        → l.tally ≡ tally_on (first_tally kept.long kept.rest) kept.pages
        → s.fresh ≡ Some (fresh_bytes kept.pages)
        → (all_carried (lowered_call l DiskCall.SyncFresh) s).fresh ≡ Some (side_bytes kept) }
    ensures named { (l : Lowered) (s : Stored) (kept : SideFile) → s.fresh ≡ Some (side_bytes kept)
        → (all_carried (lowered_call l DiskCall.Name) s).side ≡ Some (side_bytes kept) }
{}

/// A front of the calls of a disk, the last of them done whole, in part or not at all, leaves what might have been left
/// since a moment before its end.
pub fn fronts_of_calls()
    ensures { (first : Files) (calls : List DiskCall) (t k : ℕ) (c : Files) → t ≤ k
        → k ≤ length calls → MayLeave first (first_calls k calls) c → LeftSince first calls t c }
{}
