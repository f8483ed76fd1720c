//! What the shape of a tree that is built says, and what its records are. The functions do nothing: their contracts are
//! the laws.
ghost use Rattle.std.specs.Prelude.{◌≡◌, ℕ, List, [], ◌∷◌, length};
ghost use Rattle.std.specs.FinMap as maps;
ghost use Rattle.rec_types.specs.History.{replay};
ghost use Rattle.btree_node.specs.Lists.{Element, Ascends};
ghost use Rattle.btree_insert.specs.Contents.{contents_of};
ghost use Rattle.btree_load.specs.Rows.{TakesShare};
ghost use Rattle.btree_load.specs.Trees.{AreLevels, puts};

/// So many records in a tree of an order have pages in one way, level by level: 8 records of order 1 have three pages and
/// a root, and a ninth makes one more level. No level may have a page more or one fewer.
pub fn levels_of_records()
    ensures one_way { (k count : ℕ) (levels others : List ℕ) → AreLevels k count levels
        → AreLevels k count others → levels ≡ others }
    ensures full { AreLevels 1 8 (3 ∷ 1 ∷ []) }
    ensures one_more { AreLevels 1 9 (4 ∷ 2 ∷ 1 ∷ []) }
    ensures greatest { AreLevels 16 1088 (33 ∷ 1 ∷ []) }
    ensures past { AreLevels 16 1089 (34 ∷ 2 ∷ 1 ∷ []) }
    ensures too_many { AreLevels 1 8 (4 ∷ 2 ∷ 1 ∷ []) → ⊥ }
    ensures too_few { AreLevels 1 9 (3 ∷ 1 ∷ []) → ⊥ }
{}

/// Of 4 records that are left a page of order 1 takes two; of 3 it takes one, and not two: none would be left for the next.
pub fn shares_by_example()
    ensures full { TakesShare 1 4 2 }
    ensures even { TakesShare 1 3 1 }
    ensures short { TakesShare 1 4 1 → ⊥ }
    ensures greedy { TakesShare 1 3 2 → ⊥ }
{}

/// The records of a file that is filled are those that puts of them, one after another, leave of an empty one.
pub fn contents_of_puts()
    ensures { (es : List Element) → Ascends es → contents_of es ≡ replay maps.empty (puts es) }
{}
