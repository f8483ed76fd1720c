ghost use Rattle.std.specs.Prelude.{◌≡◌, ℕ, ◌≤◌, IsTrue, IsFalse};
ghost use Rattle.btree_node.specs.Layout.{IsOrder, IsVersion};
ghost use Rattle.btree_node.specs.declared.node.Node.{Node};
ghost use Rattle.page_looks.specs.Spelt.{IsKind, PageSpells, PageSpellsIn};

use btree_node::{FIRST_VERSION, GREATEST_ORDER, Header, Node, SECOND_VERSION, decode_version};
use rec_types::PAGE_WIDTH;

/// The version and the order of a file, as far as they are known.
#[derive(Clone, Copy, Debug, PartialEq, Eq)]
pub struct Kind {
    /// 1 or 2.
    pub version: u16,
    /// 1 to 16.
    pub order: u16,
}

// Whether the page spells a node in a file of that kind; `node` becomes it.
fn spells_in(page: &[u8; PAGE_WIDTH], kind: Kind, node: &mut Node) -> bool
    requires { IsOrder kind.order }
    ensures found { IsTrue result → PageSpellsIn kind.version kind.order page.now node.new }
    ensures none { IsFalse result → (other : Node)
        → PageSpellsIn kind.version kind.order page.now other → ⊥ }
{
    decode_version(kind.version, page, kind.order, node).is_ok()
}

// Whether it does so in a file of that order, of either version.
fn spells_at(page: &[u8; PAGE_WIDTH], order: u16, node: &mut Node) -> bool
    requires { IsOrder order }
    ensures found { IsTrue result → PageSpells page.now node.new }
    ensures none { IsFalse result → (version : ℕ) → IsVersion version → (other : Node)
        → PageSpellsIn version order page.now other → ⊥ }
{
    let (second, first) = (
        Kind {
            version: SECOND_VERSION,
            order,
        },
        Kind {
            version: FIRST_VERSION,
            order,
        },
    );
    spells_in(page, second, node) || spells_in(page, first, node)
}

/// Whether the page spells a node in a file of any kind, that kind first; `node` becomes it.
pub fn is_whole(page: &[u8; PAGE_WIDTH], kind: Kind, node: &mut Node) -> bool
    requires { IsKind kind }
    ensures found { IsTrue result → PageSpells page.now node.new }
    ensures none { IsFalse result → (other : Node) → PageSpells page.now other → ⊥ }
{
    if spells_in(page, kind, node) {
        return true;
    }
    for below in 0..GREATEST_ORDER {
        if spells_at(page, below + 1, node) {
            return true;
        }
    }
    false
}

/// What is tried first: the version and the order of a header, or those of most files.
pub fn kind_of(header: Option<Header>) -> Kind
    ensures { IsKind result }
{
    match header {
        Some(header)
            if (1..=GREATEST_ORDER).contains(&header.order)
                && (1..=SECOND_VERSION).contains(&header.version) => {
            Kind {
                version: header.version,
                order: header.order,
            }
        }
        _ => Kind {
            version: SECOND_VERSION,
            order: GREATEST_ORDER,
        },
    }
}
