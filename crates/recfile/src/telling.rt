use page_looks::Drawing;

/// What is told of a file that may be damaged: what it is and what is wrong with it, or its tree.
#[derive(Clone, Copy, Debug, PartialEq, Eq)]
pub enum Telling {
    Explanation,
    Tree(Drawing),
}
