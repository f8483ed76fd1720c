ghost use Rattle.std.specs.Prelude.{◌≡◌, ℕ, ◌+◌, ◌*◌, ◌^◌, ◌<◌, ◌≤◌, ◌↔◌, [], Ok, IfOk, IfErr, OnOk, IsOk, MatchResult, length, All, IsTrue};
ghost use Rattle.rec_types.specs.Widths.{key_width, widest_record};
ghost use Rattle.btree_node.specs.Layout.{first_layout, second_layout, layout_of, record_start, place_width, sons_start, most_keys, IsSmallOrder, IsNarrow, CanHoldKeys, CanHoldOrder, CanHoldSons};
ghost use Rattle.btree_node.specs.Lists.{Below, Ascends};
ghost use Rattle.btree_node.specs.Spelling.{spelling, spelling_in, CanStand, CanStandIn};
ghost use Rattle.btree_node.specs.Reading.{kind_at, count_at, place_at, element_in, elements_at, son_at, sons_at, sons_of_kind, kind_read, node_at, key_length, record_length, KeyLengths, RecordLengths, PassesBefore, FirstFault, FirstFaultIn};
ghost use Rattle.btree_node.specs.declared.node.Node.{Node};
ghost use Rattle.btree_node.specs.declared.node.NodeFault.TheVariants.{NotZero};

use crate::encoding::spell;
use crate::layout::{FIRST_LAYOUT, FIRST_VERSION, Layout, RECORD_AT, SECOND_LAYOUT, SON_WIDTH};
use crate::node::{ELEMENT_ROOM, Node, NodeFault, NodeKind, SON_ROOM};
use crate::part::{part_of, u16_of, u32_of};
use crate::read_first::read_first;
use arrayvec::ArrayVec;
use rec_types::{KEY_WIDTH, Key, PAGE_WIDTH, Record};

/// The node that the page spells, in a tree of order `k`. The faults in their order: Kind, Count,
/// KeyLength, RecordLength, Order, Son, NotZero.
pub fn decode(page: &[u8; PAGE_WIDTH], k: u16) -> Result<Node, NodeFault>
    requires { IsSmallOrder k }

    // What is read is spelled so.
    ensures found { IfOk result (λ n. CanStand n k × (page.now ≡ spelling n k)) }

    // What is spelled so is read.
    ensures only { (n : Node) → CanStand n k → page.now ≡ spelling n k → result ≡ Ok n }

    // Which fault it is.
    ensures fault { IfErr result (λ e. FirstFault page.now k e) }
{
    let mut node = Node::blank();
    decode_into(page, k, &mut node)?;
    Ok(node)
}

/// The same as `decode`, into a node that there is: nothing as large as a node is made or moved. After
/// a fault the node may be any.
pub fn decode_into(page: &[u8; PAGE_WIDTH], k: u16, node: &mut Node) -> Result<(), NodeFault>
    requires { IsSmallOrder k }
    ensures found { OnOk result (CanStand node.new k × (page.now ≡ spelling node.new k)) }
    ensures only { (n : Node) → CanStand n k → page.now ≡ spelling n k
        → IsOk result × (node.new ≡ n) }
    ensures fault { IfErr result (λ e. FirstFault page.now k e) }
{
    if read_first(page, k, node) {
        return Ok(());
    }
    decode_by_tests(page, k, node)
}

/// The same by the tests one by one. It is never inlined, so that the quick pass doesn't clear its
/// locals.
#[cold]
#[inline(never)]
fn decode_by_tests(page: &[u8; PAGE_WIDTH], k: u16, node: &mut Node) -> Result<(), NodeFault>
    requires { CanHoldOrder second_layout k }
    ensures found { OnOk result (CanStand node.new k × (page.now ≡ spelling node.new k)) }
    ensures only { (n : Node) → CanStand n k → page.now ≡ spelling n k
        → IsOk result × (node.new ≡ n) }
    ensures fault { IfErr result (λ e. FirstFault page.now k e) }
{
    *node = decode_in(SECOND_LAYOUT, page, k)?;
    Ok(())
}

/// The node that the page spells in a file of the first version, in a tree of order `k`. Faults: those of
/// `decode`, with RecordLength above 32.
pub fn decode_old(page: &[u8; PAGE_WIDTH], k: u16) -> Result<Node, NodeFault>
    requires { IsSmallOrder k }
    ensures found { IfOk result (λ n. CanStandIn first_layout n k
        × (page.now ≡ spelling_in first_layout n k)) }
    ensures only { (n : Node) → CanStandIn first_layout n k → page.now ≡ spelling_in first_layout n k
        → result ≡ Ok n }
    ensures fault { IfErr result (λ e. FirstFaultIn first_layout k page.now e) }
{
    decode_in(FIRST_LAYOUT, page, k)
}

/// The node that the page spells in a file of that version, into a node that there is: by `decode_old` for
/// the first version, else by `decode_into`. After a fault the node may be any.
pub fn decode_version(
    version: u16,
    page: &[u8; PAGE_WIDTH],
    k: u16,
    node: &mut Node,
) -> Result<(), NodeFault>
    requires { IsSmallOrder k }
    ensures found { OnOk result (CanStandIn (layout_of version) node.new k
        × (page.now ≡ spelling_in (layout_of version) node.new k)) }
    ensures only { (n : Node) → CanStandIn (layout_of version) n k
        → page.now ≡ spelling_in (layout_of version) n k → IsOk result × (node.new ≡ n) }
    ensures fault { IfErr result (λ e. FirstFaultIn (layout_of version) k page.now e) }
{
    if version != FIRST_VERSION {
        return decode_into(page, k, node);
    }
    *node = decode_old(page, k)?;
    Ok(())
}

/// The node that the page spells in a layout.
fn decode_in(layout: Layout, page: &[u8; PAGE_WIDTH], k: u16) -> Result<Node, NodeFault>
    requires { CanHoldOrder layout k }
    ensures found { IfOk result (λ n. CanStandIn layout n k × (page.now ≡ spelling_in layout n k)) }
    ensures only { (n : Node) → CanStandIn layout n k → page.now ≡ spelling_in layout n k
        → result ≡ Ok n }
    ensures fault { IfErr result (λ e. FirstFaultIn layout k page.now e) }
{
    let node = node_of(layout, page, k)?;
    if spell(layout, &node, k).wrote(page) {
        Ok(node)
    } else {
        Err(NodeFault::NotZero)
    }
}

/// The node that stands at the fixed places of the page.
#[tactic(auto, unfolding(crate::specs::Reading::Passes, crate::specs::Reading::node_at))]
fn node_of(layout: Layout, page: &[u8; PAGE_WIDTH], k: u16) -> Result<Node, NodeFault>
    requires { CanHoldOrder layout k }
    ensures value { IfOk result (λ n. n ≡ node_at layout k page.now) }
    ensures passes { IfOk result (λ _. PassesBefore layout k page.now NotZero) }
    ensures fault { IfErr result (λ e. FirstFaultIn layout k page.now e) }
{
    let Some(kind) = kind_of(page) else {
        return Err(NodeFault::Kind);
    };
    let count = count_of(page);
    if !count_fits(count, k) {
        return Err(NodeFault::Count);
    }
    if !key_lengths_fit(layout, page, count) {
        return Err(NodeFault::KeyLength);
    }
    if !record_lengths_fit(layout, page, count) {
        return Err(NodeFault::RecordLength);
    }
    let elements = elements_of(layout, page, count);
    if !ascends(elements.as_slice()) {
        return Err(NodeFault::Order);
    }
    let sons = sons_of(layout, page, k, kind, count);
    if !sons_stand(sons.as_slice()) {
        return Err(NodeFault::Son);
    }
    Ok(Node {
        kind,
        elements,
        sons,
    })
}

/// The kind of page that its first byte names.
#[tactic(auto, unfolding(crate::specs::Reading::kind_at))]
pub(crate) fn kind_of(page: &[u8; PAGE_WIDTH]) -> Option<NodeKind>
    ensures { result ≡ kind_at page.now }
{
    match page[0] {
        1 => Some(NodeKind::Leaf),
        2 => Some(NodeKind::Inner),
        _ => None,
    }
}

/// The number of keys that its head names.
pub(crate) fn count_of(page: &[u8; PAGE_WIDTH]) -> usize
    ensures { result ≡ count_at page.now }
{
    u16_of(page, 2) as usize
}

/// Whether a page of the order may have so many keys.
pub(crate) fn count_fits(count: usize, k: u16) -> bool
    ensures { IsTrue result ↔ ((0 < count) × (count ≤ 2 * k)) }
{
    0 < count && count <= 2 * k as usize
}

/// The bytes of place i.
pub(crate) fn place_of_page(layout: Layout, page: &[u8; PAGE_WIDTH], i: usize) -> &[u8]
    requires width { IsNarrow layout }
    requires index { i < most_keys }
    ensures value { result.now ≡ place_at layout page.now i }
    ensures len { length result.now ≡ place_width layout }
{
    part_of(page, layout.place_start(i), layout.place_width())
}

#[tactic(auto, unfolding(crate::specs::Reading::key_length))]
fn key_lengths_fit(layout: Layout, page: &[u8; PAGE_WIDTH], count: usize) -> bool
    requires { CanHoldKeys layout count }
    ensures { IsTrue result ↔ KeyLengths layout page.now count }
{
    for i in 0..count {
        let len = place_of_page(layout, page, i)[0];
        if len == 0 || KEY_WIDTH < len as usize {
            return false;
        }
    }
    true
}

#[tactic(auto, unfolding(crate::specs::Reading::record_length))]
fn record_lengths_fit(layout: Layout, page: &[u8; PAGE_WIDTH], count: usize) -> bool
    requires { CanHoldKeys layout count }
    ensures { IsTrue result ↔ RecordLengths layout page.now count }
{
    for i in 0..count {
        let len = place_of_page(layout, page, i)[RECORD_AT];
        if layout.record_width < len as usize {
            return false;
        }
    }
    true
}

#[tactic(auto, unfolding(crate::specs::Reading::elements_at))]
fn elements_of(
    layout: Layout,
    page: &[u8; PAGE_WIDTH],
    count: usize,
) -> ArrayVec<(Key, Record), ELEMENT_ROOM>
    requires room { CanHoldKeys layout count }
    requires keys { KeyLengths layout page.now count }
    requires records { RecordLengths layout page.now count }
    ensures { result.items ≡ elements_at layout page.now count }
{
    let mut elements = ArrayVec::new();
    for i in 0..count {
        elements.push(element_of(place_of_page(layout, page, i)));
    }
    elements
}

#[tactic(auto, unfolding(crate::specs::Reading::element_in, crate::specs::Reading::key_length, crate::specs::Reading::record_length))]
fn element_of(place: &[u8]) -> (Key, Record)
    requires key_some { 0 < key_length place.now }
    requires key_most { key_length place.now ≤ key_width }
    requires record_most { record_length place.now ≤ widest_record }
    requires record_within { record_start + 1 + record_length place.now ≤ length place.now }
    ensures { result ≡ element_in place.now }
{
    let key = Key::new(part_of(place, 1, place[0] as usize));
    let value = Record::new(part_of(place, RECORD_AT + 1, place[RECORD_AT] as usize));
    (key.unwrap(), value.unwrap())
}

/// Whether each key is below the next one.
pub(crate) fn ascends(elements: &[(Key, Record)]) -> bool
    ensures { IsTrue result ↔ Ascends elements.now }
{
    for i in 1..elements.len() {
        if !is_below(&elements[i - 1].0, &elements[i].0) {
            return false;
        }
    }
    true
}

/// Whether a key is below another.
#[tactic(auto, unfolding(crate::specs::Lists::Below))]
pub(crate) fn is_below(low: &Key, high: &Key) -> bool
    ensures { IsTrue result ↔ Below low.now high.now }
{
    low.cmp(high).is_lt()
}

fn sons_of(
    layout: Layout,
    page: &[u8; PAGE_WIDTH],
    k: u16,
    kind: NodeKind,
    count: usize,
) -> ArrayVec<u32, SON_ROOM>
    requires { CanHoldSons layout k (count + 1) }
    ensures { result.items ≡ sons_of_kind kind layout k page.now count }
{
    match kind {
        NodeKind::Leaf => ArrayVec::new(),
        NodeKind::Inner => numbers_of(layout, page, k, count + 1),
    }
}

fn numbers_of(
    layout: Layout,
    page: &[u8; PAGE_WIDTH],
    k: u16,
    count: usize,
) -> ArrayVec<u32, SON_ROOM>
    requires { CanHoldSons layout k count }
    ensures { result.items ≡ sons_at layout k page.now count }
{
    let mut sons = ArrayVec::new();
    push_sons(layout, page, k, count, &mut sons);
    sons
}

/// Puts the first sons of the page into an empty list.
#[tactic(auto, unfolding(crate::specs::Reading::sons_at))]
pub(crate) fn push_sons(
    layout: Layout,
    page: &[u8; PAGE_WIDTH],
    k: u16,
    count: usize,
    sons: &mut ArrayVec<u32, SON_ROOM>,
)
    requires room { CanHoldSons layout k count }
    requires empty { sons.old.items ≡ [] }
    ensures { sons.new.items ≡ sons_at layout k page.now count }
{
    let start = layout.sons_start(k);
    for j in 0..count {
        sons.push(u32_of(page, start + SON_WIDTH * j));
    }
}

/// Whether no son is 0.
pub(crate) fn sons_stand(sons: &[u32]) -> bool
    ensures { IsTrue result ↔ All (λ son. 0 < son) sons.now }
{
    sons.iter().all(|son| *son != 0)
}
