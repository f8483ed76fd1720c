ghost use Rattle.std.specs.Prelude.{◌≡◌, ◌+◌, ◌<◌, ◌≤◌, [], length, All, IsTrue};
ghost use Rattle.btree_node.specs.Joined.{AreBrothers};
ghost use Rattle.btree_node.specs.Lists.{Ascends, Below};
ghost use Rattle.btree_node.specs.Spelling.{SonsFit, CanStand, IsSpelt};

use arrayvec::ArrayVec;
use btree_node::{
    Header, HeaderFault, Node, NodeFault, NodeKind, catenate, count_in, decode, decode_into,
    decode_old, decode_version, distribute, encode, insert_in, place_of, read_header, replace_in,
    split, write_header,
};
use rec_types::{KEY_WIDTH, Key, RECORD_WIDTH, Record};
use std::process::Abort;

/// The page with these bytes from a place on.
fn with(page: [u8; 4096], at: usize, bytes: &[u8]) -> [u8; 4096]
    requires { at + length bytes.now ≤ 4096 }
{
    let mut page = page;
    page[at..at + bytes.len()].copy_from_slice(bytes);
    page
}

/// The header page of the file with three records, of a version.
fn header_page(version: u8) -> [u8; 4096] {
    let bytes = b"BMKRFILE\x00\x00\x00\x01\x00\x00\x00\x04\x00\x00\x00\x03\x00\x00\x00\x03\x01";
    with(with([0; 4096], 0, bytes), 9, &[version])
}

/// What it says.
fn header_of(version: u16) -> Header
    ensures version { result.version ≡ version }
    ensures order { result.order ≡ 1 }
{
    Header {
        version,
        order: 1,
        pages: 4,
        root: 3,
        count: 3,
    }
}

/// A page with one key and its record.
fn page_of(kind: u8, key: &[u8; 2], value: &[u8; 2]) -> [u8; 4096] {
    with(
        with(with([0; 4096], 0, &[kind, 0, 0, 1]), 8, key),
        25,
        value,
    )
}

/// Where the second place and the sons begin in a page of order 1, of a version.
fn starts(version: u8) -> (usize, usize)
    ensures { (result.0 ≤ 126) × (result.1 ≤ 244) }
{
    if version == 1 { (58, 108) } else { (126, 244) }
}

/// The pages of the file with three records, of order 1: a, b and c with x, y and z.
fn three_record_file(version: u8) -> [[u8; 4096]; 4] {
    let sons = b"\x00\x00\x00\x01\x00\x00\x00\x02";
    [
        header_page(version),
        page_of(1, b"\x01a", b"\x01x"),
        page_of(1, b"\x01c", b"\x01z"),
        with(page_of(2, b"\x01b", b"\x01y"), starts(version).1, sons),
    ]
}

fn element(rt: &impl Abort, key: &[u8], value: &[u8]) -> (Key, Record) {
    let key = Key::new(key).expect(rt, "no key");
    (key, Record::new(value).expect(rt, "no record"))
}

/// A leaf with one element.
fn leaf(element: (Key, Record)) -> Node
    ensures stands { CanStand result 1 }
    ensures one { length result.elements.items ≡ 1 }
{
    let (key, value) = element;
    prove!(key.bytes().len() <= KEY_WIDTH && value.bytes().len() <= RECORD_WIDTH);
    let mut elements = ArrayVec::new();
    elements.push((key, value));
    Node {
        kind: NodeKind::Leaf,
        elements,
        sons: ArrayVec::new(),
    }
}

/// An inner node with one element.
fn inner(element: (Key, Record), left: u32, right: u32) -> Node
    requires left { 0 < left }
    requires right { 0 < right }
    ensures { CanStand result 1 }
{
    let mut sons = ArrayVec::new();
    sons.push(left);
    sons.push(right);
    let Node {
        kind: _,
        elements,
        sons: _,
    } = leaf(element);
    Node {
        kind: NodeKind::Inner,
        elements,
        sons,
    }
}

/// A leaf with these keys, each with the record v.
fn leaf_of(rt: &impl Abort, keys: &[u8]) -> Node
    ensures { (result.kind ≡ NodeKind.Leaf) × (result.sons.items ≡ []) }
{
    let mut elements = ArrayVec::new();
    for key in keys {
        assert!(rt; elements.len() < 33);
        elements.push(element(rt, &[*key], b"v"));
    }
    Node {
        kind: NodeKind::Leaf,
        elements,
        sons: ArrayVec::new(),
    }
}

/// An inner node with these keys, each with the record v, and these sons.
fn inner_of(rt: &impl Abort, keys: &[u8], sons: &[u32]) -> Node {
    let Node {
        kind: _,
        elements,
        sons: _,
    } = leaf_of(rt, keys);
    let mut numbers = ArrayVec::new();
    let kept = numbers.try_extend_from_slice(sons);
    kept.expect(rt, "too many sons");
    Node {
        kind: NodeKind::Inner,
        elements,
        sons: numbers,
    }
}

/// Whether no son is 0.
fn sons_stand(sons: &[u32]) -> bool
    ensures { IsTrue result → All (λ son. 0 < son) sons.now }
{
    sons.iter().all(|son| *son != 0)
}

/// Whether these are the sons of a node of a kind with so many keys.
fn sons_fit(kind: NodeKind, count: usize, sons: &[u32]) -> bool
    requires { count ≤ 33 }
    ensures { IsTrue result → SonsFit kind count sons.now }
{
    match kind {
        NodeKind::Leaf => sons.is_empty(),
        NodeKind::Inner => sons.len() == count + 1 && sons_stand(sons),
    }
}

/// Whether a key is below another.
#[tactic(auto, unfolding(btree_node::specs::Lists::Below))]
fn is_below(low: &Key, high: &Key) -> bool
    ensures { IsTrue result → Below low.now high.now }
{
    low.cmp(high).is_lt()
}

/// Whether each key is below the next one.
fn ascends(elements: &[(Key, Record)]) -> bool
    ensures { IsTrue result → Ascends elements.now }
{
    for i in 1..elements.len() {
        if !is_below(&elements[i - 1].0, &elements[i].0) {
            return false;
        }
    }
    true
}

/// Fails where the two nodes can't stand side by side.
fn expect_brothers(rt: &impl Abort, left: &Node, middle: &(Key, Record), right: &Node)
    ensures { AreBrothers left.now middle.now right.now }
{
    assert!(rt; left.kind == right.kind);
    assert!(rt; sons_fit(left.kind, left.elements.len(), left.sons.as_slice()));
    assert!(rt; sons_fit(right.kind, right.elements.len(), right.sons.as_slice()));
    let mut all: ArrayVec<(Key, Record), 67> = ArrayVec::new();
    all.try_extend_from_slice(left.elements.as_slice()).unwrap();
    all.push(*middle);
    all.try_extend_from_slice(right.elements.as_slice())
        .unwrap();
    assert!(rt; ascends(all.as_slice()));
}

#[test]
fn the_three_record_file_is_written(rt: HostRuntime) {
    let pages = three_record_file(2);
    assert!(rt; write_header(&header_of(2), true) == pages[0]);
    assert!(rt; encode(&leaf(element(&rt, b"a", b"x")), 1) == pages[1]);
    assert!(rt; encode(&leaf(element(&rt, b"c", b"z")), 1) == pages[2]);
    assert!(rt; encode(&inner(element(&rt, b"b", b"y"), 1, 2), 1) == pages[3]);
}

/// Reads a page of order 1 of a version.
fn read(version: u8, page: &[u8; 4096]) -> Result<Node, NodeFault> {
    match version {
        1 => decode_old(page, 1),
        _ => decode(page, 1),
    }
}

/// Expects a page of order 1 to be read as this node, also by the number of its version.
fn expect_read(rt: &impl Abort, version: u8, page: &[u8; 4096], wanted: &Node) {
    assert_eq!(rt; read(version, page).expect(rt, "no node"), *wanted);
    let mut node = Node::blank();
    decode_version(u16::from(version), page, 1, &mut node).expect(rt, "no node");
    assert_eq!(rt; node, *wanted);
}

#[test]
fn the_three_record_file_is_read(rt: HostRuntime) {
    for version in [1, 2] {
        let pages = three_record_file(version);
        assert_eq!(rt; read_header(&pages[0]), Ok(header_of(u16::from(version))));
        expect_read(&rt, version, &pages[1], &leaf(element(&rt, b"a", b"x")));
        expect_read(
            &rt,
            version,
            &pages[3],
            &inner(element(&rt, b"b", b"y"), 1, 2),
        );
    }
}

#[test]
fn a_node_is_read_into_again(rt: HostRuntime) {
    let pages = three_record_file(2);
    let mut node = Node::blank();
    decode_into(&pages[3], 1, &mut node).expect(&rt, "no node");
    assert_eq!(rt; node, inner(element(&rt, b"b", b"y"), 1, 2));
    decode_into(&pages[1], 1, &mut node).expect(&rt, "no node");
    assert_eq!(rt; node, leaf(element(&rt, b"a", b"x")));
}

/// The page with an element put before its element i, or in the place of that.
fn changed(
    rt: &impl Abort,
    page: &[u8; 4096],
    i: usize,
    element: (Key, Record),
    replaces: bool,
) -> [u8; 4096]
    requires { IsSpelt 2 page.now }
{
    let (key, value) = element;
    prove!(key.bytes().len() <= KEY_WIDTH && value.bytes().len() <= RECORD_WIDTH);
    let count = count_in(page);
    let mut changed = *page;
    if replaces {
        assert!(rt; i < count);
        replace_in(&mut changed, 2, i, &(key, value));
        return changed;
    }
    assert!(rt; i <= count && count < 4);
    insert_in(&mut changed, 2, i, &(key, value));
    changed
}

/// Expects a page of order 2 to spell these keys, one of them with the record v and the others with a long one.
fn expect_page(rt: &impl Abort, page: &[u8; 4096], keys: &[&[u8]], i: usize) {
    let node = decode(page, 2).expect(rt, "no node");
    assert!(rt; node.elements.len() == keys.len());
    for at in 0..keys.len() {
        let (key, record) = &node.elements.as_slice()[at];
        let wanted = if at == i {
            b"v".as_slice()
        } else {
            b"a long record"
        };
        assert!(rt; key.bytes() == keys[at] && record.bytes() == wanted);
    }
}

#[test]
fn a_page_is_changed_where_it_lies(rt: HostRuntime) {
    let page = encode(&leaf(element(&rt, b"bc", b"a long record")), 2);
    for (key, i, replaces, keys) in [
        (b"bc", 0, true, [b"bc".as_slice()].as_slice()),
        (b"ab", 0, false, &[b"ab", b"bc"]),
        (b"cd", 1, false, &[b"bc", b"cd"]),
    ] {
        let page = changed(&rt, &page, i, element(&rt, key, b"v"), replaces);
        expect_page(&rt, &page, keys, i);
    }
}

#[test]
fn keys_and_records_in_their_fields(rt: HostRuntime) {
    let field = b"ab\x00\x00\x00\x00\x00\x00\x00\x00\x00\x00\x00\x00\x00\x00";
    let (key, empty) = element(&rt, b"ab", b"");
    assert!(rt; Key::in_field(field, 2) == Some(key));
    assert!(rt; Key::in_field(field, 1).is_none());
    let mut field = [0; 100];
    assert!(rt; Record::in_field(&field, 0) == Some(empty));
    field[99] = b'z';
    let (_, longest) = element(&rt, b"ab", &field);
    assert!(rt; Record::in_field(&field, 100) == Some(longest));
    assert!(rt; Record::in_field(&field, 99).is_none());
}

#[test]
fn a_new_file_of_order_two(rt: HostRuntime) {
    let header = Header {
        version: 2,
        order: 2,
        pages: 1,
        root: 0,
        count: 0,
    };
    let bytes = b"BMKRFILE\x00\x02\x00\x02\x00\x00\x00\x01\x00\x00\x00\x00\x00\x00\x00\x00\x01";
    assert!(rt; write_header(&header, true) == with([0; 4096], 0, bytes));
    let writing = with(with([0; 4096], 0, bytes), 24, &[2]);
    assert!(rt; write_header(&header, false) == writing);
}

/// Expects a page of order 1 of a version to be refused for this fault.
fn expect_fault(rt: &impl Abort, version: u8, page: &[u8; 4096], fault: NodeFault) {
    assert_eq!(rt; read(version, page), Err(fault));
}

/// Changes pages of a version, in which a record may have so many bytes.
fn expect_faults(rt: &impl Abort, version: u8, record_width: u8) {
    let pages = three_record_file(version);
    let (second, sons) = starts(version);
    for (at, byte, fault) in [
        (0, 0x00, NodeFault::Kind),
        (3, 0x03, NodeFault::Count),
        (3, 0x00, NodeFault::Count),
        (8, 0x11, NodeFault::KeyLength),
        (25, record_width.saturating_add(1), NodeFault::RecordLength),
    ] {
        expect_fault(rt, version, &with(pages[1], at, &[byte]), fault);
    }
    let padded = with(pages[2], 2000, &[1]);
    expect_fault(rt, version, &padded, NodeFault::NotZero);
    let twice = with(with(pages[1], 3, &[2]), second, b"\x01a");
    expect_fault(rt, version, &twice, NodeFault::Order);
    let no_son = with(pages[3], sons + 3, &[0]);
    expect_fault(rt, version, &no_son, NodeFault::Son);
    let leaf_with_sons = with(pages[3], 0, &[1]);
    expect_fault(rt, version, &leaf_with_sons, NodeFault::NotZero);
}

#[test]
fn the_first_fault_of_a_node_page(rt: HostRuntime) {
    expect_faults(&rt, 1, 32);
    expect_faults(&rt, 2, 100);
}

#[test]
fn the_first_fault_of_a_header_page(rt: HostRuntime) {
    let page = header_page(2);
    for (at, byte, fault) in [
        (0, 0x00, HeaderFault::BadMagic),
        (9, 0x09, HeaderFault::BadVersion(9)),
        (9, 0x03, HeaderFault::BadVersion(3)),
        (9, 0x00, HeaderFault::BadVersion(0)),
        (11, 0x00, HeaderFault::BadOrder),
        (11, 0x11, HeaderFault::BadOrder),
        (24, 0x02, HeaderFault::NotClean),
        (24, 0x03, HeaderFault::BadHeader),
        (4095, 0x01, HeaderFault::BadHeader),
    ] {
        assert_eq!(rt;
            read_header(&with(page, at, &[byte])).err(),
            Some(fault),
            "at {at}"
        );
    }
}

#[test]
fn a_key_has_its_place(rt: HostRuntime) {
    let node = leaf_of(&rt, b"bdf");
    for (key, place) in [
        (b'a', Err(0)),
        (b'b', Ok(0)),
        (b'c', Err(1)),
        (b'f', Ok(2)),
        (b'g', Err(3)),
    ] {
        assert_eq!(rt;
            place_of(&node, &Key::new(&[key]).expect(&rt, "no key")),
            place,
            "key {key}"
        );
    }
}

/// Expects a node to have these keys, each with the record v, and these sons.
fn expect_node(rt: &impl Abort, node: &Node, keys: &[u8], sons: &[u32]) {
    assert_eq!(rt;
        node.elements.as_slice(),
        leaf_of(rt, keys).elements.as_slice()
    );
    assert_eq!(rt; node.sons.as_slice(), sons);
}

#[test]
fn a_full_leaf_is_split(rt: HostRuntime) {
    let node = leaf_of(&rt, b"abcde");
    assert!(rt; node.elements.len() == 5);
    let (left, middle, right) = split(node, 2);
    expect_node(&rt, &left, b"ab", &[]);
    assert!(rt; middle == element(&rt, b"c", b"v"));
    expect_node(&rt, &right, b"de", &[]);
}

#[test]
fn a_full_inner_node_is_split(rt: HostRuntime) {
    let mut node = leaf_of(&rt, b"abc");
    for son in [4, 5, 6, 7] {
        assert!(rt; !node.sons.is_full());
        node.sons.push(son);
    }
    node.kind = NodeKind::Inner;
    assert!(rt; node.elements.len() == 3 && node.sons.len() == 4);
    let (left, middle, right) = split(node, 1);
    expect_node(&rt, &left, b"a", &[4, 5]);
    assert!(rt; middle == element(&rt, b"b", b"v"));
    expect_node(&rt, &right, b"c", &[6, 7]);
}

/// Two brothers of order `k` in one node.
fn catenated(rt: &impl Abort, left: Node, middle: u8, right: Node, k: u16) -> Node {
    let middle = element(rt, &[middle], b"v");
    expect_brothers(rt, &left, &middle, &right);
    assert!(rt; 1 <= k && k <= 16);
    assert!(rt; left.elements.len() + right.elements.len() < 2 * k as usize);
    catenate(left, middle, right, k)
}

/// Two brothers of order `k`, distributed.
fn distributed(
    rt: &impl Abort,
    left: Node,
    middle: u8,
    right: Node,
    k: u16,
) -> (Node, (Key, Record), Node) {
    let middle = element(rt, &[middle], b"v");
    expect_brothers(rt, &left, &middle, &right);
    assert!(rt; 1 <= k && k <= 16);
    let most = 2 * k as usize;
    assert!(rt; left.elements.len() <= most && right.elements.len() <= most);
    assert!(rt; most <= left.elements.len() + right.elements.len());
    distribute(left, middle, right, k)
}

/// Expects what two brothers of order `k` become once they are catenated.
fn expect_catenated(rt: &impl Abort, brothers: (Node, u8, Node), k: u16, wanted: Node) {
    let (left, middle, right) = brothers;
    assert_eq!(rt; catenated(rt, left, middle, right, k), wanted);
}

/// Expects what two brothers of order `k` become once they are distributed.
fn expect_distributed(
    rt: &impl Abort,
    brothers: (Node, u8, Node),
    k: u16,
    wanted: (Node, u8, Node),
) {
    let (left, middle, right) = brothers;
    let (left, up, right) = distributed(rt, left, middle, right, k);
    assert_eq!(rt; left, wanted.0);
    assert_eq!(rt; up, element(rt, &[wanted.1], b"v"));
    assert_eq!(rt; right, wanted.2);
}

#[test]
fn leaves_are_catenated(rt: HostRuntime) {
    for (left, middle, right, wanted) in [
        (b"d".as_slice(), b'e', b"fg".as_slice(), b"defg".as_slice()),
        (b"ab", b'd', b"e", b"abde"),
    ] {
        let brothers = (leaf_of(&rt, left), middle, leaf_of(&rt, right));
        expect_catenated(&rt, brothers, 2, leaf_of(&rt, wanted));
    }
}

#[test]
fn inner_nodes_are_catenated(rt: HostRuntime) {
    let left = inner_of(&rt, b"b", &[1, 2]);
    let right = inner_of(&rt, b"", &[3]);
    let wanted = inner_of(&rt, b"bc", &[1, 2, 3]);
    expect_catenated(&rt, (left, b'c', right), 1, wanted);
}

#[test]
fn leaves_are_distributed(rt: HostRuntime) {
    for ((left, middle, right), (wanted_left, up, wanted_right)) in [
        (
            (b"b".as_slice(), b'c', b"defg".as_slice()),
            (b"bc".as_slice(), b'd', b"efg".as_slice()),
        ),
        ((b"b", b'd', b"efg"), (b"bd", b'e', b"fg")),
        ((b"abcd", b'e', b"f"), (b"ab", b'c', b"def")),
    ] {
        let brothers = (leaf_of(&rt, left), middle, leaf_of(&rt, right));
        let wanted = (leaf_of(&rt, wanted_left), up, leaf_of(&rt, wanted_right));
        expect_distributed(&rt, brothers, 2, wanted);
    }
}

#[test]
fn inner_nodes_are_distributed(rt: HostRuntime) {
    for ((left, left_sons), middle, (right, right_sons)) in [
        (
            (b"".as_slice(), [1].as_slice()),
            b'b',
            (b"cd".as_slice(), [2, 3, 4].as_slice()),
        ),
        ((b"bc", &[1, 2, 3]), b'd', (b"", &[4])),
    ] {
        let left = inner_of(&rt, left, left_sons);
        let right = inner_of(&rt, right, right_sons);
        let wanted_left = inner_of(&rt, b"b", &[1, 2]);
        let wanted_right = inner_of(&rt, b"d", &[3, 4]);
        let wanted = (wanted_left, b'c', wanted_right);
        expect_distributed(&rt, (left, middle, right), 1, wanted);
    }
}
