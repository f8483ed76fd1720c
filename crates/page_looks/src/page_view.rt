ghost use Rattle.btree_node.specs.Layout.{IsNarrow};

use crate::finding::{Expected, Finding};
use btree_node::{GREATEST_ORDER, Layout, MOST_KEYS, NodeFault, RECORD_AT, SON_WIDTH, layout_of};
use rec_types::KEY_WIDTH;

/// A page of a tree of an order, in a file of a version.
#[derive(Clone, Copy)]
pub struct PageView<'a> {
    pub bytes: &'a [u8],
    pub version: u16,
    pub order: u16,
}

// Where the number of keys stands, in two bytes.
const COUNT_AT: usize = 2;

impl<'a> PageView<'a> {
    /// The byte at a place, 0 where there is none.
    pub fn byte(&self, at: usize) -> u8 {
        self.bytes.get(at).copied().unwrap_or(0)
    }

    /// The number that four bytes from a place on are.
    pub fn number(&self, at: usize) -> u32 {
        let mut number = 0u32;
        for byte in self.bytes.iter().skip(at).take(SON_WIDTH) {
            number = number.wrapping_mul(256).wrapping_add(u32::from(*byte));
        }
        number
    }

    /// The number that two bytes from a place on are.
    pub fn short(&self, at: usize) -> u16 {
        u16::from(self.byte(at)) * 256 + u16::from(self.byte(at.saturating_add(1)))
    }

    fn layout(&self) -> Layout
        ensures { IsNarrow result }
    {
        layout_of(self.version)
    }

    // The bytes that a record may take.
    fn record_width(&self) -> u8 {
        u8::try_from(self.layout().record_width).unwrap_or(u8::MAX)
    }

    /// Where place i begins; the one behind the last that a page may have, where i is greater.
    pub fn place(&self, i: usize) -> usize {
        self.layout().place_start(i.min(MOST_KEYS))
    }

    /// Where the number of son j stands.
    pub fn son(&self, j: usize) -> usize {
        let sons = self.layout().sons_start(self.order.min(GREATEST_ORDER));
        sons.saturating_add(j.saturating_mul(SON_WIDTH))
    }

    // How many keys the page says that it has.
    fn keys(&self) -> usize {
        usize::from(self.short(COUNT_AT))
    }

    // The bytes of key i.
    fn key(&self, i: usize) -> &[u8] {
        let at = self.place(i);
        let start = at.saturating_add(1);
        let end = start.saturating_add(usize::from(self.byte(at)));
        match self.bytes.get(start..end) {
            Some(key) => key,
            None => &[],
        }
    }

    // The first length of a key that no key has.
    fn wrong_key_length(&self) -> usize {
        for i in 0..self.keys() {
            let at = self.place(i);
            let length = self.byte(at);
            if length == 0 || usize::from(length) > KEY_WIDTH {
                return at;
            }
        }
        COUNT_AT
    }

    // The first length of a record that no record has.
    fn wrong_record_length(&self) -> usize {
        for i in 0..self.keys() {
            let at = self.place(i).saturating_add(RECORD_AT);
            if self.byte(at) > self.record_width() {
                return at;
            }
        }
        COUNT_AT
    }

    // The first key that isn't above the one before it.
    fn unordered_key(&self) -> usize {
        for i in 1..self.keys() {
            if self.key(i) <= self.key(i - 1) {
                return self.place(i).saturating_add(1);
            }
        }
        COUNT_AT
    }

    // The first son that is no page.
    fn missing_son(&self) -> usize {
        for j in 0..=self.keys() {
            if self.number(self.son(j)) == 0 {
                return self.son(j);
            }
        }
        COUNT_AT
    }

    // Whether a byte of place i belongs to its key or its record.
    fn is_used_in(&self, i: usize, within: usize) -> bool {
        let at = self.place(i);
        let key = usize::from(self.byte(at));
        let record = usize::from(self.byte(at.saturating_add(RECORD_AT)));
        if within < RECORD_AT {
            return within <= key;
        }
        within <= record.saturating_add(RECORD_AT)
    }

    // The place that has this byte of the places, and which of its bytes it is.
    fn place_of(&self, byte: usize) -> (usize, usize) {
        let width = self.layout().place_width();
        let i = byte.checked_div(width).unwrap_or(0);
        (i, byte.saturating_sub(i.saturating_mul(width)))
    }

    // Whether a byte behind the places belongs to a son.
    fn is_used_behind(&self, at: usize) -> bool {
        let son = at.saturating_sub(self.son(0)) / SON_WIDTH;
        self.byte(0) == 2 && son <= self.keys()
    }

    // Whether a byte belongs to a field.
    fn is_used(&self, at: usize) -> bool {
        if at < self.place(0) {
            return at == 0 || at == COUNT_AT || at == COUNT_AT + 1;
        }
        if at >= self.son(0) {
            return self.is_used_behind(at);
        }
        let (i, within) = self.place_of(at.saturating_sub(self.place(0)));
        i < self.keys() && self.is_used_in(i, within)
    }

    // The first byte that belongs to no field and isn't zero.
    fn stray_byte(&self) -> usize {
        for (at, byte) in self.bytes.iter().enumerate() {
            if *byte != 0 && !self.is_used(at) {
                return at;
            }
        }
        0
    }

    // The finding that a byte isn't as expected.
    fn at_byte(&self, page: u32, at: usize, expected: Expected) -> Finding {
        Finding {
            page,
            at,
            stands: u32::from(self.byte(at)),
            expected,
        }
    }

    /// What makes the page of that number no node.
    pub fn finding(&self, page: u32, fault: NodeFault, pages: u32) -> Finding {
        match fault {
            NodeFault::Kind => self.at_byte(page, 0, Expected::Kind),
            NodeFault::Count => self.too_few(page, 1),
            NodeFault::KeyLength => {
                self.at_byte(page, self.wrong_key_length(), Expected::KeyLength)
            }
            NodeFault::RecordLength => self.at_byte(
                page,
                self.wrong_record_length(),
                Expected::RecordLength(self.record_width()),
            ),
            NodeFault::Order => self.at_byte(page, self.unordered_key(), Expected::Ascending),
            NodeFault::Son => Finding {
                page,
                at: self.missing_son(),
                stands: 0,
                expected: Expected::Son(pages),
            },
            NodeFault::NotZero => self.at_byte(page, self.stray_byte(), Expected::Zero),
        }
    }

    /// The finding that the page has too few keys, or too many.
    pub fn too_few(&self, page: u32, least: u16) -> Finding {
        Finding {
            page,
            at: COUNT_AT,
            stands: u32::from(self.short(COUNT_AT)),
            expected: Expected::Keys {
                least,
                most: self.order.saturating_mul(2),
            },
        }
    }

    /// The finding that key i isn't where it may be.
    pub fn stray_key(&self, page: u32, i: usize) -> Finding {
        self.at_byte(page, self.place(i).saturating_add(1), Expected::Between)
    }

    /// The finding that the page isn't of the kind that it should be.
    pub fn stray_kind(&self, page: u32, expected: Expected) -> Finding {
        self.at_byte(page, 0, expected)
    }
}
