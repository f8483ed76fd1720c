// Taking a key out of a tree.
pub(crate) mod delete_below;
pub(crate) mod delete_in_one;
pub(crate) mod deleting;
pub(crate) mod subtree;
pub(crate) mod underflow;
pub(crate) mod visit;
