// A table in a tree.
pub(crate) mod change;
pub(crate) mod fault_counts;
pub(crate) mod tree_table;
