//! What holds of the pages after a deletion. The function does nothing: its contract is the law.
ghost use Rattle.std.specs.Prelude.{◌≡◌, ℕ, ◌≤◌, List, Option, None};
ghost use Rattle.std.specs.FinMap.{get};
ghost use Rattle.rec_types.specs.Contents.{set_to};
ghost use Rattle.page_store.specs.PageMap.{PageMap};
ghost use Rattle.btree_node.specs.Lists.{Element};
ghost use Rattle.btree_node.specs.Layout.{greatest_order};
ghost use Rattle.btree_insert.specs.Elements.{contents_at};
ghost use Rattle.btree_insert.specs.PageTrees.{Holds};
ghost use Rattle.btree_insert.specs.declared.tree.Tree.{Tree};
ghost use Rattle.btree_delete.specs.Deleted.{Deleted};

/// A deletion takes the key out of the contents that the pages hold, and answers what they had there.
pub fn contents_after_deletion()
    ensures contents { (old new : PageMap) (tree next : Tree) (es : List Element)
        → (us key : List ℕ) (before : Option (List ℕ)) → tree.order ≤ greatest_order
        → Holds old tree es us → Deleted old new tree es us key (next, before)
        → contents_at next.order new next.height next.root
        ≡ set_to (contents_at tree.order old tree.height tree.root) key None }
    ensures answer { (old new : PageMap) (tree next : Tree) (es : List Element)
        → (us key : List ℕ) (before : Option (List ℕ)) → tree.order ≤ greatest_order
        → Holds old tree es us → Deleted old new tree es us key (next, before)
        → before ≡ get (contents_at tree.order old tree.height tree.root) key }
{}
