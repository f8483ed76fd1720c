use crate::key_label::KeyLabel;
use crate::show::draw_level;
use crate::tree_look::Levels;
use crate::tree_walk::{Sight, Walk};
use btree_node::{Header, Node};
use rec_types::Key;
use std::alloc::{AllocError, Global};
use std::io;
use std::io::Write;
use std::os::unix::fs::FileExt;

// A level with more pages than this isn't drawn, nor are those below it.
const MOST_IN_LEVEL: u32 = 40;

// The sizes of what is drawn, in the picture's units.
const BOX_WIDTH: u32 = 148;

const BOX_STEP: u32 = 164;

const HEAD_HEIGHT: u32 = 24;

const ROW_HEIGHT: u32 = 16;

const LEVEL_GAP: u32 = 48;

const MARGIN: u32 = 16;

const TITLE_HEIGHT: u32 = 40;

const LINE_HEIGHT: u32 = 18;

// A page that is drawn: its father's place in the list, where its keys stand in theirs, the middles of its first and last
// sons, and its own.
#[derive(Clone, Copy)]
struct Drawn {
    number: u32,
    level: u32,
    father: Option<usize>,
    whole: bool,
    first_key: usize,
    keys: usize,
    left: u32,
    right: u32,
    middle: u32,
}

// The pages of the levels that are drawn, fathers before their sons, and their keys one after another.
#[derive(Drop)]
struct Picture {
    pages: Vec<Drawn>,
    keys: Vec<Key>,
    // The page of each level that was added last.
    path: Vec<usize>,
    order: u16,
    width: u32,
}

// How many levels from the root on are narrow enough.
fn drawn_levels(levels: &Levels) -> u32 {
    let mut count = 0u32;
    for level in levels.levels() {
        if level.pages > MOST_IN_LEVEL {
            return count;
        }
        count = count.saturating_add(1);
    }
    count
}

// How high a page of an order is.
fn box_height(order: u16) -> u32 {
    let rows = u32::from(order).saturating_mul(2);
    HEAD_HEIGHT.saturating_add(rows.saturating_mul(ROW_HEIGHT))
}

// Where a level of pages of an order begins, from 1 on.
fn top_of(level: u32, order: u16) -> u32 {
    let height = box_height(order).saturating_add(LEVEL_GAP);
    TITLE_HEIGHT.saturating_add(level.saturating_sub(1).saturating_mul(height))
}

impl Picture {
    fn new(alloc: Global, order: u16) -> Picture {
        Picture {
            pages: Vec::new(alloc),
            keys: Vec::new(alloc),
            path: Vec::new(alloc),
            order,
            width: MARGIN,
        }
    }

    // The keys of a page come behind those of the pages before it.
    fn add_keys(&mut self, node: &Node) -> Result<(), AllocError> {
        for element in node.elements.iter() {
            self.keys.push(element.0).map_err(AllocError::from)?;
        }
        Ok(())
    }

    // Adds a page behind its father; without a node where it isn't whole.
    fn add(&mut self, number: u32, level: u32, node: Option<&Node>) -> Result<(), AllocError> {
        self.path.truncate((level as usize).saturating_sub(1));
        let father = self.path.last().copied();
        let place = self.pages.len();
        self.path.push(place).map_err(AllocError::from)?;
        let first_key = self.keys.len();
        let keys = match node {
            Some(node) => {
                self.add_keys(node)?;
                node.elements.len()
            }
            None => 0,
        };
        self.pages
            .push(Drawn {
                number,
                level,
                father,
                whole: node.is_some(),
                first_key,
                keys,
                left: u32::MAX,
                right: 0,
                middle: 0,
            })
            .map_err(AllocError::from)
    }

    // Puts the pages without sons side by side, in their order.
    fn place_ends(&mut self) {
        for i in 0..self.pages.len() {
            let below = match self.pages.get(i.saturating_add(1)) {
                Some(page) => page.level,
                None => 0,
            };
            let middle = self.width.saturating_add(BOX_WIDTH / 2);
            let Some(page) = self.pages.get_mut(i) else {
                continue;
            };
            if below <= page.level {
                page.left = middle;
                page.right = middle;
                self.width = self.width.saturating_add(BOX_STEP);
            }
        }
    }

    // Puts a page in the middle of its sons, and tells its father.
    fn place(&mut self, i: usize) {
        let Some(page) = self.pages.get_mut(i) else {
            return;
        };
        let middle = (page.left / 2).saturating_add(page.right / 2);
        page.middle = middle;
        let Some(father) = page.father else {
            return;
        };
        if let Some(father) = self.pages.get_mut(father) {
            father.left = father.left.min(middle);
            father.right = father.right.max(middle);
        }
    }

    // Puts each page in the middle of its sons, the last one first.
    fn place_all(&mut self) {
        self.place_ends();
        let count = self.pages.len();
        for back in 0..count {
            self.place(count - 1 - back);
        }
    }

    // The line from a page to its father.
    fn draw_line<W: Write>(&self, out: &mut W, page: &Drawn) -> io::Result<()> {
        let Some(Some(father)) = page.father.map(|place| self.pages.get(place)) else {
            return Ok(());
        };
        let (from, to) = (father.middle, page.middle);
        let top = top_of(page.level, self.order);
        let (begin, bend) = (
            top.saturating_sub(LEVEL_GAP),
            top.saturating_sub(LEVEL_GAP / 2),
        );
        writeln!(
            out,
            "<path d=\"M {from} {begin} C {from} {bend} {to} {bend} {to} {top}\" fill=\"none\" stroke=\"#888888\"/>"
        )
    }

    fn draw_all_lines<W: Write>(&self, out: &mut W) -> io::Result<()> {
        for page in &self.pages {
            self.draw_line(out, page)?;
        }
        Ok(())
    }

    // A place of a page, from its top left corner: taken by a key, or free.
    fn draw_place<W: Write>(
        &self,
        out: &mut W,
        x: u32,
        y: u32,
        key: Option<Key>,
    ) -> io::Result<()> {
        let colour = match key {
            Some(_) => "#cfe3ff",
            None => "#ffffff",
        };
        let (width, height) = (BOX_WIDTH - 8, ROW_HEIGHT - 2);
        write!(
            out,
            "<rect x=\"{x}\" y=\"{y}\" width=\"{width}\" height=\"{height}\" fill=\"{colour}\"/>"
        )?;
        if let Some(key) = key {
            let (x, y) = (x.saturating_add(4), y.saturating_add(11));
            let label = KeyLabel(key);
            write!(out, "<text x=\"{x}\" y=\"{y}\">{label}</text>")?;
        }
        writeln!(out)
    }

    // The places of a page whose top left corner is there.
    fn draw_places<W: Write>(&self, out: &mut W, page: &Drawn, x: u32, y: u32) -> io::Result<()> {
        let mut y = y.saturating_add(HEAD_HEIGHT);
        for i in 0..usize::from(self.order).saturating_mul(2) {
            let key = match i < page.keys {
                true => self.keys.get(page.first_key.saturating_add(i)).copied(),
                false => None,
            };
            self.draw_place(out, x.saturating_add(4), y, key)?;
            y = y.saturating_add(ROW_HEIGHT);
        }
        Ok(())
    }

    // A page: its box, its number and its places.
    fn draw_page<W: Write>(&self, out: &mut W, page: &Drawn) -> io::Result<()> {
        let x = page.middle.saturating_sub(BOX_WIDTH / 2);
        let y = top_of(page.level, self.order);
        let (colour, words) = match page.whole {
            true => ("#eeeeee", ""),
            false => ("#ffd0d0", ", not whole"),
        };
        let height = box_height(self.order);
        writeln!(
            out,
            "<rect x=\"{x}\" y=\"{y}\" width=\"{BOX_WIDTH}\" height=\"{height}\" rx=\"4\" fill=\"{colour}\" stroke=\"#444444\"/>"
        )?;
        let (text_x, text_y) = (x.saturating_add(6), y.saturating_add(16));
        let number = page.number;
        writeln!(
            out,
            "<text x=\"{text_x}\" y=\"{text_y}\" font-weight=\"bold\">page {number}{words}</text>"
        )?;
        match page.whole {
            true => self.draw_places(out, page, x, y),
            false => Ok(()),
        }
    }

    fn draw_all_pages<W: Write>(&self, out: &mut W) -> io::Result<()> {
        for page in &self.pages {
            self.draw_page(out, page)?;
        }
        Ok(())
    }
}

// Counts the pages of each level.
fn count_levels<F: FileExt>(
    alloc: Global,
    file: &F,
    header: &Header,
) -> Result<Levels, AllocError> {
    let mut walk = Walk::new(alloc, file, header)?;
    let (mut levels, mut node) = (Levels::new(alloc), Node::blank());
    for _ in 0..u32::MAX {
        let Some((visit, sight)) = walk.step(&mut node)? else {
            return Ok(levels);
        };
        let keys = match sight {
            Sight::Node(_) => node.elements.len(),
            _ => 0,
        };
        levels.count(visit.level, keys)?;
    }
    Ok(levels)
}

// What is drawn of the levels down to that one, and whether all pages of the tree are as they should be.
fn picture_of<F: FileExt>(
    alloc: Global,
    file: &F,
    header: &Header,
    deepest: u32,
) -> Result<(Picture, bool), AllocError> {
    let mut walk = Walk::new(alloc, file, header)?;
    let mut picture = Picture::new(alloc, header.order);
    let (mut whole, mut node) = (true, Node::blank());
    for _ in 0..u32::MAX {
        let Some((visit, sight)) = walk.step(&mut node)? else {
            break;
        };
        whole = whole && matches!(sight, Sight::Node(None));
        if visit.level > deepest {
            continue;
        }
        match sight {
            Sight::Node(_) => picture.add(visit.number, visit.level, Some(&node))?,
            _ => picture.add(visit.number, visit.level, None)?,
        }
    }
    picture.place_all();
    Ok((picture, whole))
}

// The words below the tree: each level in a line of text.
fn draw_words<W: Write>(out: &mut W, levels: &Levels, top: u32, order: u16) -> io::Result<()> {
    let mut y = top;
    for (i, level) in levels.levels().iter().enumerate() {
        write!(out, "<text x=\"{MARGIN}\" y=\"{y}\">")?;
        draw_level(out, i.saturating_add(1), level, order)?;
        writeln!(out, "</text>")?;
        y = y.saturating_add(LINE_HEIGHT);
    }
    Ok(())
}

// The head of a picture of that size.
fn draw_head<W: Write>(
    out: &mut W,
    header: &Header,
    levels: &Levels,
    width: u32,
    height: u32,
) -> io::Result<()> {
    writeln!(
        out,
        "<svg xmlns=\"http://www.w3.org/2000/svg\" width=\"{width}\" height=\"{height}\" viewBox=\"0 0 {width} {height}\" font-family=\"monospace\" font-size=\"12\">"
    )?;
    writeln!(
        out,
        "<rect width=\"{width}\" height=\"{height}\" fill=\"#ffffff\"/>"
    )?;
    let (order, records, pages) = (header.order, header.count, header.pages);
    let free = pages.saturating_sub(1).saturating_sub(levels.pages());
    writeln!(
        out,
        "<text x=\"{MARGIN}\" y=\"24\" font-size=\"14\">order {order}, records {records}, pages {pages}, of which {free} are free</text>"
    )
}

/// Draws a tree as a picture in SVG: the levels from the root on, as far as none has more than 40 pages, each page with
/// its places; how full all levels are stands below. It answers whether all pages of the tree are as they should be, and
/// how many keys they have.
pub fn draw_picture<F: FileExt, W: Write>(
    alloc: Global,
    file: &F,
    header: &Header,
    out: &mut W,
) -> io::Result<(bool, u32)> {
    let levels = count_levels(alloc, file, header)?;
    let deepest = drawn_levels(&levels);
    let (picture, whole) = picture_of(alloc, file, header, deepest)?;
    let count = u32::try_from(levels.levels().len()).unwrap_or(u32::MAX);
    let words = top_of(deepest.saturating_add(1), header.order);
    let height = words.saturating_add(count.saturating_mul(LINE_HEIGHT));
    let width = picture.width.max(480);
    draw_head(out, header, &levels, width, height)?;
    picture.draw_all_lines(out)?;
    picture.draw_all_pages(out)?;
    draw_words(out, &levels, words, header.order)?;
    writeln!(out, "</svg>")?;
    Ok((whole, levels.keys()))
}
