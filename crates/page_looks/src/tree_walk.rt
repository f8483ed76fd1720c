use crate::finding::{Expected, Finding};
use crate::page_view::PageView;
use btree_node::{GREATEST_ORDER, Header, Node, NodeKind, ROOT_AT, decode_version};
use rec_types::{Key, PAGE_WIDTH};
use std::alloc::{AllocError, Global};
use std::io;
use std::os::unix::fs::FileExt;

// The level that no inner page has.
const DEEPEST: u32 = 19;

/// A page of a tree, as a walk comes to it: its number, where that stands, its level, whether it is the last son on each
/// level down to it, and the keys above on its two sides.
#[derive(Clone, Copy)]
pub struct Visit {
    pub number: u32,
    pub level: u32,
    /// Bit i is 1 where the page of level i on the way has no brother to its right.
    pub lasts: u32,
    father: u32,
    at: usize,
    low: Option<Key>,
    high: Option<Key>,
}

/// What a visit finds.
#[derive(Debug, Drop)]
pub enum Sight {
    /// A node, and what is wrong with its place in the tree, where anything is.
    Node(Option<Finding>),
    /// No node, or a page to which nothing may lead from there.
    Wrong(Finding),
    /// A page that can't be read.
    Unread(io::Error),
}

/// A walk through the pages of a tree, from the root down and from left to right. A page is visited once; below one that
/// spells no node none is.
#[derive(Drop)]
pub struct Walk<'a, F> {
    file: &'a F,
    header: &'a Header,
    seen: Vec<bool>,
    leaf_level: u32,
    stack: Vec<Visit>,
}

/// A list of so many pages, none of which was seen.
pub(crate) fn unseen(alloc: Global, pages: u32) -> Result<Vec<bool>, AllocError> {
    let mut seen = Vec::new(alloc);
    for _ in 0..pages {
        seen.push(false).map_err(AllocError::from)?;
    }
    Ok(seen)
}

// The first key of the node that isn't strictly between those on its sides.
fn stray_key(visit: &Visit, node: &Node) -> Option<usize> {
    for (i, element) in node.elements.iter().enumerate() {
        let (key, _) = element;
        let above = match visit.low {
            Some(low) => *key > low,
            None => true,
        };
        let below = match visit.high {
            Some(high) => *key < high,
            None => true,
        };
        if !above || !below {
            return Some(i);
        }
    }
    None
}

impl<'a, F: FileExt> Walk<'a, F> {
    /// Before the root.
    pub fn new(alloc: Global, file: &'a F, header: &'a Header) -> Result<Walk<'a, F>, AllocError> {
        let mut stack = Vec::new(alloc);
        if header.root != 0 {
            stack
                .push(Visit {
                    number: header.root,
                    level: 1,
                    lasts: 1,
                    father: 0,
                    at: ROOT_AT,
                    low: None,
                    high: None,
                })
                .map_err(AllocError::from)?;
        }
        Ok(Walk {
            file,
            header,
            seen: unseen(alloc, header.pages)?,
            leaf_level: 0,
            stack,
        })
    }

    /// For each page of the file whether the walk has come to it.
    pub fn seen(&self) -> &[bool] {
        &self.seen
    }

    /// The same, where the walk isn't gone on with.
    pub fn into_seen(self) -> Vec<bool> {
        self.seen
    }

    // Whether the page is one that nothing has led to; then something has.
    fn reaches(&mut self, number: u32) -> bool {
        match self.seen.get_mut(number as usize) {
            Some(seen) if number > 0 && !*seen => {
                *seen = true;
                true
            }
            _ => false,
        }
    }

    // What a page's level lets it be no leaf, or no inner page.
    fn misplaced(&mut self, kind: NodeKind, level: u32) -> Option<Expected> {
        match kind {
            NodeKind::Inner if level >= DEEPEST => Some(Expected::NoDeeper),
            NodeKind::Inner => None,
            NodeKind::Leaf if self.leaf_level == 0 => {
                self.leaf_level = level;
                None
            }
            NodeKind::Leaf if self.leaf_level == level => None,
            NodeKind::Leaf => Some(Expected::Leaf(self.leaf_level)),
        }
    }

    // What is wrong with the place of a node in the tree.
    fn out_of_place(&mut self, visit: &Visit, view: &PageView<'_>, node: &Node) -> Option<Finding> {
        if node.elements.len() < usize::from(view.order) && visit.number != self.header.root {
            return Some(view.too_few(visit.number, view.order));
        }
        if let Some(i) = stray_key(visit, node) {
            return Some(view.stray_key(visit.number, i));
        }
        let expected = self.misplaced(node.kind, visit.level)?;
        Some(view.stray_kind(visit.number, expected))
    }

    // The pages below a node, the last one first.
    fn push_sons(
        &mut self,
        visit: &Visit,
        node: &Node,
        view: &PageView<'_>,
    ) -> Result<(), AllocError> {
        let count = node.sons.len();
        for back in 0..count {
            let j = count - 1 - back;
            let low = match j {
                0 => visit.low,
                _ => node.elements.get(j - 1).map(|element| element.0),
            };
            let high = match node.elements.get(j) {
                Some(element) => Some(element.0),
                None => visit.high,
            };
            let last = u32::from(back == 0).wrapping_shl(visit.level);
            self.stack
                .push(Visit {
                    number: view.number(view.son(j)),
                    level: visit.level.saturating_add(1),
                    lasts: visit.lasts | last,
                    father: visit.number,
                    at: view.son(j),
                    low,
                    high,
                })
                .map_err(AllocError::from)?;
        }
        Ok(())
    }

    // What a page is, and which pages are below it.
    fn look_at(&mut self, visit: &Visit, node: &mut Node) -> Result<Sight, AllocError> {
        if !self.reaches(visit.number) {
            return Ok(Sight::Wrong(Finding {
                page: visit.father,
                at: visit.at,
                stands: visit.number,
                expected: Expected::Son(self.header.pages),
            }));
        }
        let mut page = [0; PAGE_WIDTH];
        let start = u64::from(visit.number) * PAGE_WIDTH as u64;
        if let Err(error) = self.file.read_exact_at(&mut page, start) {
            return Ok(Sight::Unread(error));
        }
        let view = PageView {
            bytes: &page,
            version: self.header.version,
            order: self.header.order.min(GREATEST_ORDER),
        };
        if let Err(fault) = decode_version(view.version, &page, view.order, node) {
            let finding = view.finding(visit.number, fault, self.header.pages);
            return Ok(Sight::Wrong(finding));
        }
        let found = self.out_of_place(visit, &view, node);
        if visit.level < DEEPEST {
            self.push_sons(visit, node, &view)?;
        }
        Ok(Sight::Node(found))
    }

    /// Goes on to the next page, and answers what it is; where that is a node, `node` becomes it. None behind the last.
    pub fn step(&mut self, node: &mut Node) -> Result<Option<(Visit, Sight)>, AllocError> {
        let Some(visit) = self.stack.pop() else {
            return Ok(None);
        };
        let sight = self.look_at(&visit, node)?;
        Ok(Some((visit, sight)))
    }
}
