use crate::finding::Finding;
use crate::tree_walk::{Sight, Walk};
use btree_node::{Header, Node};
use std::alloc::{AllocError, Global};
use std::io;
use std::os::unix::fs::FileExt;

/// How many pages a level has, and how many keys are in them.
#[derive(Clone, Copy, Debug)]
pub struct Level {
    pub pages: u32,
    pub keys: u32,
}

impl Level {
    /// How many of 100 places are taken, in a tree of an order.
    pub fn full(&self, order: u16) -> u64 {
        let room = u64::from(self.pages) * u64::from(order).saturating_mul(2);
        (u64::from(self.keys) * 100).checked_div(room).unwrap_or(0)
    }
}

/// The levels of a tree, from the root on.
#[derive(Drop)]
pub struct Levels(Vec<Level>);

impl Levels {
    pub fn new(alloc: Global) -> Levels {
        Levels(Vec::new(alloc))
    }

    /// How many keys there are.
    pub fn keys(&self) -> u32 {
        let mut keys = 0u32;
        for level in &self.0 {
            keys = keys.saturating_add(level.keys);
        }
        keys
    }

    /// How many pages there are.
    pub fn pages(&self) -> u32 {
        let mut pages = 0u32;
        for level in &self.0 {
            pages = pages.saturating_add(level.pages);
        }
        pages
    }

    /// One after another.
    pub fn levels(&self) -> &[Level] {
        &self.0
    }

    /// Counts a page of so many keys.
    pub fn count(&mut self, level: u32, keys: usize) -> Result<(), AllocError> {
        if self.0.len() < level as usize {
            self.0
                .push(Level { pages: 0, keys: 0 })
                .map_err(AllocError::from)?;
        }
        if let Some(last) = self.0.get_mut((level as usize).saturating_sub(1)) {
            last.pages = last.pages.saturating_add(1);
            last.keys = last
                .keys
                .saturating_add(u32::try_from(keys).unwrap_or(u32::MAX));
        }
        Ok(())
    }
}

/// What ended a look at a tree before its end.
#[derive(Debug, Drop)]
pub enum Stop {
    Found(Finding),
    Unread(u32, io::Error),
}

/// Looks at the pages of a tree one after another, from the root, up to the first that isn't as it should be.
pub fn look_through<F: FileExt>(
    alloc: Global,
    file: &F,
    header: &Header,
) -> Result<(Levels, Option<Stop>), AllocError> {
    let mut levels = Levels::new(alloc);
    let mut walk = Walk::new(alloc, file, header)?;
    let mut node = Node::blank();
    for _ in 0..u32::MAX {
        let Some((visit, sight)) = walk.step(&mut node)? else {
            return Ok((levels, None));
        };
        let stop = match sight {
            Sight::Node(None) => None,
            Sight::Node(Some(finding)) | Sight::Wrong(finding) => Some(Stop::Found(finding)),
            Sight::Unread(error) => Some(Stop::Unread(visit.number, error)),
        };
        if stop.is_some() {
            return Ok((levels, stop));
        }
        levels.count(visit.level, node.elements.len())?;
    }
    Ok((levels, None))
}
