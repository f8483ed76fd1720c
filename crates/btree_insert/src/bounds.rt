ghost use Rattle.std.specs.Prelude.{◌≡◌, ◌≤◌, ◌<◌, ◌↔◌, length, IsTrue};
ghost use Rattle.btree_node.specs.Lists.{Below, Ascends};
ghost use Rattle.btree_insert.specs.Bounds.{Over, Under, AreWithin, low_at, high_at, son_bounds};

use rec_types::{Key, Record};

/// What all levels above say of the keys of a page: they are strictly between these, where there is
/// a key.
#[derive(Clone, Copy)]
pub struct Bounds {
    /// The keys are above this one.
    pub low: Option<Key>,
    /// The keys are below this one.
    pub high: Option<Key>,
}

/// No bounds: those of a root.
pub const UNBOUNDED: Bounds = Bounds {
    low: None,
    high: None,
};

/// Whether the key is above the low bound, where there is one.
pub(crate) fn is_over(low: &Option<Key>, key: &Key) -> bool
    ensures { IsTrue result ↔ Over low.now key.now }
{
    match low {
        Some(low) => is_below(low, key),
        None => true,
    }
}

/// Whether the key is below the high bound, where there is one.
pub(crate) fn is_under(high: &Option<Key>, key: &Key) -> bool
    ensures { IsTrue result ↔ Under high.now key.now }
{
    match high {
        Some(high) => is_below(key, high),
        None => true,
    }
}

#[tactic(auto, unfolding(btree_node::specs::Lists::Below))]
fn is_below(low: &Key, high: &Key) -> bool
    ensures { IsTrue result ↔ Below low.now high.now }
{
    low.cmp(high).is_lt()
}

/// Whether the keys of ascending elements, of which there is one at least, are within the bounds.
pub fn are_within(bounds: &Bounds, elements: &[(Key, Record)]) -> bool
    requires some { 0 < length elements.now }
    requires ascends { Ascends elements.now }
    ensures { IsTrue result ↔ AreWithin bounds.now elements.now }
{
    let first = elements[0].0;
    let last = elements[elements.len() - 1].0;
    is_over(&bounds.low, &first) && is_under(&bounds.high, &last)
}

/// The bounds of the son at place i of a page with these elements, where i is at most their number:
/// the keys on its two sides, or where there is none, what bounds the page.
pub fn bounds_of_son(bounds: &Bounds, elements: &[(Key, Record)], i: usize) -> Bounds
    requires { i ≤ length elements.now }
    ensures { result ≡ son_bounds elements.now i bounds.now }
{
    Bounds {
        low: low_of_son(&bounds.low, elements, i),
        high: high_of_son(&bounds.high, elements, i),
    }
}

fn low_of_son(low: &Option<Key>, elements: &[(Key, Record)], i: usize) -> Option<Key>
    requires { i ≤ length elements.now }
    ensures { result ≡ low_at elements.now i low.now }
{
    if i == 0 {
        *low
    } else {
        Some(elements[i - 1].0)
    }
}

fn high_of_son(high: &Option<Key>, elements: &[(Key, Record)], i: usize) -> Option<Key>
    requires { i ≤ length elements.now }
    ensures { result ≡ high_at elements.now i high.now }
{
    if i == elements.len() {
        *high
    } else {
        Some(elements[i].0)
    }
}
