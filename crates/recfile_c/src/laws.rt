//! Facts of the definitions that contracts of this crate cite. The functions do nothing: their contracts
//! are the laws.
ghost use Rattle.std.specs.Prelude.{◌≡◌, ◌≢◌, ℕ, List, [], ◌∷◌, All, take};
ghost use Rattle.btree_node.specs.Layout.{second_version};
ghost use Rattle.btree_delete.specs.Closing.{IsEither};
ghost use Rattle.btree_delete.specs.TableView.{TableView, IsClosed, table_contents};
ghost use Rattle.page_journal.specs.Carrying.{LeavesOf, WritesKept};
ghost use Rattle.page_journal.specs.Crash.{Gathered};
ghost use Rattle.page_journal.specs.Files.{SideFile, restored};
ghost use Rattle.page_store.specs.Fronts.{two_pages, page_1_written};
ghost use Rattle.page_store.specs.Journal.{carried};
ghost use Rattle.page_store.specs.declared.step.Step.{Step};
ghost use Rattle.rec_types.specs.LimitBounds.{Bounds};
ghost use Rattle.recfile_c.specs.FileTables.{origin_in};
ghost use Rattle.recfile_c.specs.Paged.{OpensPages, MakesPages, HasTried, IsTriedAgain, Settles};
ghost use Rattle.recfile_c.specs.declared.file_table.FileTable.TheVariants.{Paged};
ghost use Rattle.recfile_c.specs.Steps.{JournalView, pages_after, page_1_left_out, written_before_longer, longer_before_written};
ghost use Rattle.recfile_c.specs.Tried.{table_over, changed_table, made_longer, made_too_long, written_unmarked, kept_first};

/// A close may leave one list of steps over one list of pages: with another order of the steps, or with
/// one left out, it doesn't settle the table.
pub fn one_list_of_steps()
    ensures { (t : TableView) (one two : JournalView)
        → Settles t one → Settles t two → (one.opened ≡ two.opened) × (one.steps ≡ two.steps) }
{}

/// A file was opened from pages that were handed in, calls were made, each of which keeps the table's
/// origin, and it was closed, perhaps after closes that found no memory. Then the steps are for these
/// pages, and each front of them, carried out on them, leaves the old file, or pages that opening
/// refuses, or the new file.
pub fn steps_are_for_the_pages_handed_in()
    ensures { (pages : List (List ℕ)) (limits : Bounds) (made now last : TableView) (n : ℕ)
        → (j : JournalView) → OpensPages pages limits made
        → origin_in (Paged now) ≡ origin_in (Paged made) → IsTriedAgain n now last → Settles last j
        → (j.opened ≡ pages)
        × ((k : ℕ) → IsEither pages (pages_after j) (carried pages (take k j.steps))) }
{}

/// The pages that the steps write were kept beside the file first, as they were handed in. Then, whatever a crash makes of
/// each step, the old pages put back make the pages that were handed in.
pub fn pages_handed_in_are_put_back()
    ensures { (pages : List (List ℕ)) (limits : Bounds) (made now last : TableView) (n : ℕ)
        → (j : JournalView) → OpensPages pages limits made
        → origin_in (Paged now) ≡ origin_in (Paged made) → IsTriedAgain n now last → Settles last j
        → (kept : SideFile) (left : List (List ℕ)) → Gathered pages kept
        → All (WritesKept kept) j.steps → LeavesOf j.steps j.opened left
        → restored kept left ≡ record { pages = pages; tail = 0 } }
{}

/// Of a file that was made the same holds as of one that was opened: its steps are for no page, and each front of them leaves no
/// page, or pages that opening refuses, or the new file.
pub fn steps_of_a_new_file_are_for_no_page()
    ensures { (order : ℕ) (limits : Bounds) (made now last : TableView) (n : ℕ)
        → (j : JournalView)
        → MakesPages order limits made → origin_in (Paged now) ≡ origin_in (Paged made)
        → IsTriedAgain n now last → Settles last j → (j.opened ≡ [])
        × ((k : ℕ) → IsEither [] (pages_after j) (carried [] (take k j.steps))) }
{}

/// A file keeps its order: it was opened or made, calls were made, each of which keeps what its table was made of, and it was
/// closed. Then the steps leave a closed file with the table's records, and its tree has the order of the tree that was
/// opened, or the order that was asked for.
pub fn the_order_stays()
    ensures opened { (pages : List (List ℕ)) (limits : Bounds) (made now last : TableView) (n : ℕ)
        → (j : JournalView) → OpensPages pages limits made
        → origin_in (Paged now) ≡ origin_in (Paged made) → IsTriedAgain n now last → Settles last j
        → (last.tree.order ≡ made.tree.order)
        × IsClosed second_version (pages_after j) 0 last.tree (table_contents now) }
    ensures made { (order : ℕ) (limits : Bounds) (made now last : TableView) (n : ℕ)
        → (j : JournalView) → MakesPages order limits made
        → origin_in (Paged now) ≡ origin_in (Paged made) → IsTriedAgain n now last → Settles last j
        → (last.tree.order ≡ order)
        × IsClosed second_version (pages_after j) 0 last.tree (table_contents now) }
{}

/// Steps are carried out in their order. Of two pages page 0 and page 1 are written. It fails where the
/// step that writes page 1 is left out, and where a page is written before the file is long enough.
pub fn steps_by_example()
    ensures in_order { carried two_pages page_1_written ≡ ((5 ∷ []) ∷ (3 ∷ []) ∷ []) }
    ensures left_out { carried two_pages page_1_left_out ≢ carried two_pages page_1_written }
    ensures another_order { carried two_pages written_before_longer
        ≢ carried two_pages longer_before_written }
{}

/// Closes that found no memory, by example. The table's store was made of two pages, and page 1 is to be
/// written anew. Before the first such close the table has kept no step, and after one that stopped at
/// its second call one step. None keep another length, or page 1 written with no mark, or a sync before
/// anything else, and none are for other pages than those that the store was made of.
pub fn tried_closes_by_example()
    ensures untried { HasTried (changed_table []) two_pages [] }
    ensures once { HasTried (changed_table made_longer) two_pages (1 ∷ []) }
    ensures too_long { (ks : List ℕ) → HasTried (changed_table made_too_long) two_pages ks → ⊥ }
    ensures unmarked { (ks : List ℕ) → HasTried (changed_table written_unmarked) two_pages ks → ⊥ }
    ensures kept_first { (ks : List ℕ) → HasTried (changed_table kept_first) two_pages ks → ⊥ }
    ensures other_pages { (steps : List Step) (ks : List ℕ)
        → HasTried (table_over [] steps) two_pages ks → ⊥ }
{}

/// The same of a handle whose close is tried again, any number of times: it never comes to have steps
/// that no tries keep, or fewer steps than before, or steps for other pages.
pub fn closes_again_by_example()
    ensures once { IsTriedAgain 1 (changed_table []) (changed_table made_longer) }
    ensures fewer { (n : ℕ)
        → IsTriedAgain n (changed_table made_longer) (changed_table []) → ⊥ }
    ensures too_long { (n : ℕ)
        → IsTriedAgain n (changed_table []) (changed_table made_too_long) → ⊥ }
    ensures unmarked { (n : ℕ)
        → IsTriedAgain n (changed_table []) (changed_table written_unmarked) → ⊥ }
    ensures kept_first { (n : ℕ)
        → IsTriedAgain n (changed_table []) (changed_table kept_first) → ⊥ }
    ensures other_pages { (n : ℕ) → IsTriedAgain n (changed_table []) (table_over [] []) → ⊥ }
{}
