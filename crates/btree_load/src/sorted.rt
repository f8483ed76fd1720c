ghost use Rattle.std.specs.Prelude.{◌↔◌, IsTrue};
ghost use Rattle.btree_node.specs.Lists.{Ascends, Below};

use rec_types::{Key, Record};

/// Whether the keys ascend, so that a file can be filled with the records.
pub fn is_sorted(records: &[(Key, Record)]) -> bool
    ensures { IsTrue result ↔ Ascends records.now }
{
    for i in 1..records.len() {
        if !is_below(&records[i - 1].0, &records[i].0) {
            return false;
        }
    }
    true
}

/// Whether a key is below another.
#[tactic(auto, unfolding(btree_node::specs::Lists::Below))]
fn is_below(low: &Key, high: &Key) -> bool
    ensures { IsTrue result ↔ Below low.now high.now }
{
    low.cmp(high).is_lt()
}
