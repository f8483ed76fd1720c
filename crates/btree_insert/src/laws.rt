//! What holds of the trees that contracts speak of. The functions do nothing: their contracts are the
//! laws.
ghost use Rattle.std.specs.Prelude.{◌≡◌, ℕ, ◌+◌, ◌-◌, ◌*◌, ◌/◌, ◌^◌, ◌≤◌, true, false, List, [], ◌∷◌, Option, Some, Result, Ok, Err, length};
ghost use Rattle.std.specs.FinMap.{get, entries, len};
ghost use Rattle.rec_types.specs.Contents.{set_to};
ghost use Rattle.page_store.specs.PageMap.{PageMap, at};
ghost use Rattle.page_store.specs.PagesView.{PagesView};
ghost use Rattle.btree_node.specs.Lists.{Element, Ascends};
ghost use Rattle.btree_node.specs.Layout.{greatest_order};
ghost use Rattle.btree_insert.specs.Classes.{BTree, in_order, StandsFor};
ghost use Rattle.btree_insert.specs.Contents.{lookup_in, set_in, contents_of};
ghost use Rattle.btree_insert.specs.Edits.{Reads};
ghost use Rattle.btree_insert.specs.Elements.{elements_of, contents_at};
ghost use Rattle.btree_insert.specs.Examples.{ax, by, cz, tree_of, three_pages, uneven_pages, shared_pages, equal_pages};
ghost use Rattle.btree_insert.specs.Inserted.{Inserted};
ghost use Rattle.btree_insert.specs.Nearest.{TakesFirst, TellsOrDevice};
ghost use Rattle.btree_insert.specs.PageTrees.{Holds};
ghost use Rattle.rec_types.specs.Told.{TellsAll, TellsSome};
ghost use Rattle.btree_insert.specs.declared.tree.Tree.{Tree};
ghost use Rattle.btree_insert.specs.declared.tree.TreeFault.{TreeFault};
ghost use Rattle.btree_insert.specs.PagesGrown.{pages_change};

/// How many keys a tree has at least and at most, by its height, and how many pages at most, by its keys.
pub fn size_bounds()
    ensures keys { (pages : PageMap) (t : Tree) (es : List Element) (us : List ℕ) → 1 ≤ t.height
        → Holds pages t es us → 2 * (t.order + 1) ^ (t.height - 1) ≤ t.count + 1 }
    ensures most_keys { (pages : PageMap) (t : Tree) (es : List Element) (us : List ℕ)
        → Holds pages t es us → t.count + 1 ≤ (2 * t.order + 1) ^ t.height }
    ensures pages { (pages : PageMap) (t : Tree) (es : List Element) (us : List ℕ)
        → 1 ≤ t.order → 1 ≤ t.height → Holds pages t es us → t.used ≤ 1 + (t.count - 1) / t.order }
{}

/// What contracts say of pages in lists, `Holds`, is that they stand for a tree of the class whose
/// elements in order are these.
pub fn trees_of_the_class()
    ensures lists { (pages : PageMap) (tree : Tree) (t : BTree tree.height) (us : List ℕ)
        → StandsFor pages tree t us → Holds pages tree (in_order tree.height t) us }
    ensures class { (pages : PageMap) (tree : Tree) (es : List Element) (us : List ℕ)
        → Holds pages tree es us
        → (t : BTree tree.height) × StandsFor pages tree t us × (in_order tree.height t ≡ es) }
{}

/// What pages hold, as a function of the pages: where they hold a tree, its elements are those that
/// `elements_of` reads.
pub fn elements_of_pages()
    ensures { (pages : PageMap) (t : Tree) (es : List Element) (us : List ℕ)
        → t.order ≤ greatest_order → Holds pages t es us
        → elements_of t.order pages t.height t.root ≡ es }
{}

/// Elements in order as a finite map: what it has at a key, its pairs, and how it is changed at one key.
pub fn contents_of_elements()
    ensures get { (es : List Element) (key : List ℕ) → Ascends es
        → get (contents_of es) key ≡ lookup_in key es }
    ensures entries { (es : List Element) → Ascends es → entries (contents_of es) ≡ es }
    ensures count { (es : List Element) → Ascends es → len (contents_of es) ≡ length es }
    ensures ascends { (es : List Element) (key : List ℕ) (w : Option (List ℕ)) → Ascends es
        → Ascends (set_in key w es) }
    ensures set { (es : List Element) (key : List ℕ) (w : Option (List ℕ)) → Ascends es
        → contents_of (set_in key w es) ≡ set_to (contents_of es) key w }
{}

/// An insertion puts the record at the key of the contents that the pages hold, and answers what they
/// had there.
pub fn contents_after_insertion()
    ensures contents { (old new : PageMap) (fresh : ℕ → ℕ) (taken : ℕ) (tree next : Tree)
        → (es : List Element) (us key value : List ℕ) (before : Option (List ℕ))
        → tree.order ≤ greatest_order → Holds old tree es us
        → Inserted (pages_change old new fresh 0 taken) tree es us key value (next, before)
        → contents_at next.order new next.height next.root
        ≡ set_to (contents_at tree.order old tree.height tree.root) key (Some value) }
    ensures answer { (old new : PageMap) (fresh : ℕ → ℕ) (taken : ℕ) (tree next : Tree)
        → (es : List Element) (us key value : List ℕ) (before : Option (List ℕ))
        → tree.order ≤ greatest_order → Holds old tree es us
        → Inserted (pages_change old new fresh 0 taken) tree es us key value (next, before)
        → before ≡ get (contents_at tree.order old tree.height tree.root) key }
{}

/// Trees by example: pages that hold one of height 2, and its elements; and pages that hold none,
/// because two leaves stand at different depths, a page is reached twice, or a key stands twice.
pub fn trees_by_example()
    ensures three { Holds (at three_pages) (tree_of 3 2 3 3) (ax ∷ by ∷ cz ∷ []) (3 ∷ 1 ∷ 2 ∷ []) }
    ensures elements { elements_of 1 (at three_pages) 2 3 ≡ ax ∷ by ∷ cz ∷ [] }
    ensures uneven { (height count used : ℕ) (es : List Element) (us : List ℕ)
        → Holds (at uneven_pages) (tree_of 5 height count used) es us → ⊥ }
    ensures shared { (height count used : ℕ) (es : List Element) (us : List ℕ)
        → Holds (at shared_pages) (tree_of 3 height count used) es us → ⊥ }
    ensures equal { (height count used : ℕ) (es : List Element) (us : List ℕ)
        → Holds (at equal_pages) (tree_of 3 height count used) es us → ⊥ }
{}

/// What calls that read pages leave: one that succeeds and one behind it are as one call. A read that
/// failed is counted. It fails where the failed read isn't counted, and where a page changes.
pub fn readings()
    ensures both { (m n : ℕ) (old mid new : PagesView) (x : ℕ) (answer : Result ℕ TreeFault)
        → Reads m old (Ok x) mid → Reads n mid answer new → Reads (m + n) old answer new }
    ensures example { (v : PagesView) → v.failures ≡ 0
        → Reads {A = ℕ} 1 v (Err TreeFault.Device)
        (record v { reads = v.reads + 1; failures = 1 }) }
    ensures uncounted { (v : PagesView) → v.failures ≡ 0
        → Reads {A = ℕ} 1 v (Err TreeFault.Device) (record v { reads = v.reads + 1 }) → ⊥ }
    ensures changed { (v : PagesView) → v.changed ≡ false
        → Reads {A = ℕ} 1 v (Ok 0) (record v { changed = true }) → ⊥ }
{}

/// What a sink is told up to a fault of the device: a front of the elements, and not all of them. No other fault ends a telling.
pub fn tellings()
    ensures front { TellsAll {F = ℕ} TreeFault.Device (λ es. es ≡ ax ∷ []) (λ _ _. ⊥)
        (ax ∷ by ∷ []) (Err TreeFault.Device) }
    ensures whole { TellsAll {F = ℕ} TreeFault.Device (λ es. es ≡ ax ∷ by ∷ []) (λ _ _. ⊥)
        (ax ∷ by ∷ []) (Err TreeFault.Device) → ⊥ }
    ensures damaged { (n : ℕ) → TellsAll {F = ℕ} TreeFault.Device (λ _. Unit {0}) (λ _ _. Unit {0})
        (ax ∷ []) (Err (TreeFault.Damaged n)) → ⊥ }
    ensures some { TellsSome {E = TreeFault} {F = ℕ} (λ es. es ≡ ax ∷ []) (λ _ _. ⊥)
        (Err (TreeFault.Damaged 1)) }
{}

/// What a sink takes first of two elements may be one of them or both, with the key of the last one taken; it isn't nothing
/// where there is one, and the key isn't that of another.
pub fn first_tellings()
    ensures one { TakesFirst {F = ℕ} (λ es. es ≡ ax ∷ []) (λ _ _. ⊥) (ax ∷ by ∷ []) (Ok (Some (97 ∷ []))) }
    ensures both { TakesFirst {F = ℕ} (λ es. es ≡ ax ∷ by ∷ []) (λ _ _. ⊥) (ax ∷ by ∷ []) (Ok (Some (98 ∷ []))) }
    ensures stopped { TakesFirst {F = ℕ} (λ _. ⊥) (λ es fault. (es ≡ ax ∷ []) × (fault ≡ 3)) (ax ∷ by ∷ []) (Err 3) }
    ensures nothing { TakesFirst {F = ℕ} (λ es. es ≡ []) (λ _ _. ⊥) (ax ∷ by ∷ []) (Ok None) → ⊥ }
    ensures other { TakesFirst {F = ℕ} (λ es. es ≡ ax ∷ by ∷ []) (λ _ _. ⊥) (ax ∷ by ∷ []) (Ok (Some (97 ∷ []))) → ⊥ }
    ensures part { TellsOrDevice {F = ℕ} (λ es. es ≡ ax ∷ []) (λ _ _. ⊥) (ax ∷ by ∷ []) (Err TreeFault.Device) }
    ensures behind { TellsOrDevice {F = ℕ} (λ es. es ≡ by ∷ []) (λ _ _. ⊥) (ax ∷ by ∷ [])
        (Err TreeFault.Device) → ⊥ }
{}
