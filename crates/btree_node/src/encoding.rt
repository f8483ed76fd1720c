ghost use Rattle.std.specs.Prelude.{◌≡◌, ◌+◌, ◌*◌, ◌≤◌, ◌++◌, length};
ghost use Rattle.std.specs.List.{flat_map};
ghost use Rattle.rec_types.specs.Padded.{padded};
ghost use Rattle.rec_types.specs.Widths.{page_width};
ghost use Rattle.btree_node.specs.Layout.{place_width, IsSmallOrder, IsNarrow, CanHoldOrder};
ghost use Rattle.btree_node.specs.Lists.{Each};
ghost use Rattle.btree_node.specs.Spelling.{head, place, sons_bytes, spelling, spelling_in, ElementFits, CanStand, CanStandIn};

use crate::layout::{Layout, SECOND_LAYOUT};
use crate::node::{Node, NodeKind};
use crate::page_writer::PageWriter;
use rec_types::{KEY_WIDTH, Key, PAGE_WIDTH, Record};

/// The one page that spells the node, for a tree of order `k`.
pub fn encode(node: &Node, k: u16) -> [u8; PAGE_WIDTH]
    requires order { IsSmallOrder k }
    requires stands { CanStand node.now k }
    ensures { result ≡ spelling node.now k }
{
    spell(SECOND_LAYOUT, node, k).finish()
}

/// Writes the page that spells the node in a layout.
#[tactic(auto, using(crate::proofs::ElementOrderLemmas::sons_most), unfolding(crate::specs::Spelling::spelling_in))]
pub fn spell(layout: Layout, node: &Node, k: u16) -> PageWriter
    requires order { CanHoldOrder layout k }
    requires stands { CanStandIn layout node.now k }
    ensures { padded page_width result ≡ spelling_in layout node.now k }
{
    let mut page = PageWriter::new();
    put_head(&mut page, node.kind, node.elements.len());
    put_places(&mut page, layout, node.elements.as_slice());
    page.skip_to(layout.sons_start(k));
    put_sons(&mut page, node.sons.as_slice());
    page
}

#[tactic(auto, unfolding(crate::specs::Spelling::head))]
fn put_head(page: &mut PageWriter, kind: NodeKind, count: usize)
    requires room { length page.old + 8 ≤ page_width }
    requires small { count ≤ 65535 }
    ensures value { page.new ≡ page.old ++ head kind count }
    ensures len { length page.new ≡ length page.old + 8 }
{
    let byte = match kind {
        NodeKind::Leaf => 1,
        NodeKind::Inner => 2,
    };
    page.put(&[byte, 0]);
    page.put_u16(count as u16);
    page.skip(4);
}

fn put_places(page: &mut PageWriter, layout: Layout, elements: &[(Key, Record)])
    requires width { IsNarrow layout }
    requires fit { Each (ElementFits layout) elements.now }
    requires room { length page.old + place_width layout * length elements.now ≤ page_width }
    ensures value { page.new ≡ page.old ++ flat_map (place layout) elements.now }
    ensures len { length page.new ≡ length page.old + place_width layout * length elements.now }
{
    for element in elements {
        put_place(page, layout, element);
    }
}

#[tactic(auto, unfolding(crate::specs::Spelling::place))]
fn put_place(page: &mut PageWriter, layout: Layout, element: &(Key, Record))
    requires width { IsNarrow layout }
    requires fits { ElementFits layout element.now }
    requires room { length page.old + place_width layout ≤ page_width }
    ensures value { page.new ≡ page.old ++ place layout element.now }
    ensures len { length page.new ≡ length page.old + place_width layout }
{
    page.put_field(element.0.bytes(), KEY_WIDTH);
    page.put_field(element.1.bytes(), layout.record_width);
}

#[tactic(auto, unfolding(crate::specs::Spelling::sons_bytes))]
fn put_sons(page: &mut PageWriter, sons: &[u32])
    requires { length page.old + 4 * length sons.now ≤ page_width }
    ensures { page.new ≡ page.old ++ sons_bytes sons.now }
{
    for son in sons {
        page.put_u32(*son);
    }
}
