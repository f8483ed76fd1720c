//! Which files are closed ones, by example. The function does nothing: its contract is the law.
ghost use Rattle.std.specs.Prelude.{ℕ, List, [], ◌∷◌};
ghost use Rattle.btree_node.specs.declared.header.Header.{Header};
ghost use Rattle.btree_node.specs.Layout.{first_version, second_version, IsVersion};
ghost use Rattle.btree_node.specs.Lists.{Element};
ghost use Rattle.btree_insert.specs.declared.tree.Tree.{Tree};
ghost use Rattle.btree_insert.specs.Examples.{ax, by, cz, tree_of};
ghost use Rattle.btree_delete.specs.CleanFile.{IsCleanFile};
ghost use Rattle.btree_delete.specs.FileExamples.{three_header, three_records, unclean_records, underfull_records};

/// The file of three records is closed, in each version. It isn't where its header is of the other
/// version, or that of a file being written, where a page is cut off, or where a byte stands after the
/// last page.
pub fn closed_files_by_example()
    ensures closed { (version : ℕ) → IsVersion version
        → IsCleanFile (three_records version version) 0 (three_header version) (tree_of 3 2 3 3)
        (ax ∷ by ∷ cz ∷ []) (3 ∷ 1 ∷ 2 ∷ []) }
    ensures old_pages { (tail : ℕ) (h : Header) (tree : Tree) (es : List Element) (us : List ℕ)
        → IsCleanFile (three_records second_version first_version) tail h tree es us → ⊥ }
    ensures new_pages { (tail : ℕ) (h : Header) (tree : Tree) (es : List Element) (us : List ℕ)
        → IsCleanFile (three_records first_version second_version) tail h tree es us → ⊥ }
    ensures unclean { (tail : ℕ) (h : Header) (tree : Tree) (es : List Element) (us : List ℕ)
        → IsCleanFile unclean_records tail h tree es us → ⊥ }
    ensures underfull { (tail : ℕ) (h : Header) (tree : Tree) (es : List Element) (us : List ℕ)
        → IsCleanFile underfull_records tail h tree es us → ⊥ }
    ensures tail { (version : ℕ) (h : Header) (tree : Tree) (es : List Element) (us : List ℕ)
        → IsCleanFile (three_records version version) 1 h tree es us → ⊥ }
{}
