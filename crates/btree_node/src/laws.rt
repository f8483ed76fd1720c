//! What holds of the pages' spellings. The functions do nothing: their contracts are the laws.
ghost use Rattle.std.specs.Prelude.{◌≡◌, ℕ, ◌≤◌, List, [], ◌∷◌, slice_index_or};
ghost use Rattle.btree_node.specs.Cut.{left_of, right_of};
ghost use Rattle.btree_node.specs.Examples.{element, leaf, inner, leaves, inner_nodes, b, c, d, e, f, g};
ghost use Rattle.btree_node.specs.Layout.{greatest_order};
ghost use Rattle.btree_node.specs.Joined.{joined, half_of_both};
ghost use Rattle.btree_node.specs.Lists.{Element};
ghost use Rattle.btree_node.specs.Spelling.{spelling_in, CanStandIn};
ghost use Rattle.btree_node.specs.HeaderSpelling.{header_spelling, HeaderFits};
ghost use Rattle.btree_node.specs.declared.header.Header.{Header};
ghost use Rattle.btree_node.specs.declared.layout.Layout.{Layout};
ghost use Rattle.btree_node.specs.declared.node.Node.{Node};

/// A page of a layout spells at most one node of an order: nodes that can stand in a page and have one
/// spelling are equal.
pub fn one_spelling()
    ensures { (layout : Layout) (k : ℕ) (n m : Node) → k ≤ greatest_order
        → CanStandIn layout n k → CanStandIn layout m k
        → spelling_in layout n k ≡ spelling_in layout m k → n ≡ m }
{}

/// A page spells at most one header, in one state.
pub fn one_header_spelling()
    ensures { (page : List ℕ) (h g : Header) (here there : ℕ)
        → HeaderFits h → page ≡ header_spelling h here → HeaderFits g
        → page ≡ header_spelling g there
        → (h ≡ g) × (here ≡ there) }
{}

/// Brothers by example: in one node, and around the element behind the first half of their keys.
pub fn brothers_by_example()
    ensures one { joined (leaf (d ∷ [])) (element e) (leaf (f ∷ g ∷ []))
        ≡ leaf (d ∷ e ∷ f ∷ g ∷ []) }
    ensures one_with_sons { joined (inner (b ∷ []) (1 ∷ 2 ∷ [])) (element c) (inner [] (3 ∷ []))
        ≡ inner (b ∷ c ∷ []) (1 ∷ 2 ∷ 3 ∷ []) }
    ensures half { half_of_both (leaf (b ∷ [])) (leaf (d ∷ e ∷ f ∷ g ∷ [])) ≡ 2 }
    ensures left { left_of 2 leaves ≡ leaf (b ∷ c ∷ []) }
    ensures middle { (other : Element) → slice_index_or leaves.elements.items 2 other ≡ element d }
    ensures right { right_of 2 leaves ≡ leaf (e ∷ f ∷ g ∷ []) }
    ensures left_with_sons { left_of 1 inner_nodes ≡ inner (b ∷ []) (1 ∷ 2 ∷ []) }
    ensures right_with_sons { right_of 1 inner_nodes ≡ inner (d ∷ []) (3 ∷ 4 ∷ []) }
{}
