ghost use Rattle.std.specs.Prelude.{◌≡◌, ◌+◌, ◌≤◌, ◌↔◌, [], ◌++◌, length, replicate, IsTrue};
ghost use Rattle.byteorder.specs.Endian.{big_bytes};
ghost use Rattle.rec_types.specs.Padded.{padded};
ghost use Rattle.rec_types.specs.Widths.{page_width};
ghost use Rattle.btree_node.specs.Spelling.{field};

use byteorder::{BigEndian, ByteOrder};
use rec_types::PAGE_WIDTH;
use std::marker::Model;

/// A page that is written from its front on. Contracts see the bytes so far. The others are zero.
#[derive(Drop)]
pub struct PageWriter {
    page: [u8; PAGE_WIDTH],
    at: usize,
}

impl Model for PageWriter {
    ghost use Rattle.std.specs.Prelude.{List, ℕ};
    ghost use Rattle.std.specs.Coded.{coded_list, coded_ℕ};

    ghost Value = { List ℕ };

    ghost coded = { coded_list coded_ℕ };

    ghost use Rattle.btree_node.specs.Written.{written_bytes, IsWriter};

    ghost view = { written_bytes };

    ghost invariant = { IsWriter };
}

impl PageWriter {
    /// A page of zeros, at its beginning.
    pub fn new() -> PageWriter
        ensures { result ≡ [] }
    {
        PageWriter {
            page: blank(),
            at: 0,
        }
    }

    /// Writes the bytes.
    pub fn put(&mut self, bytes: &[u8])
        requires { length self.old + length bytes.now ≤ page_width }
        ensures { self.new ≡ self.old ++ bytes.now }
    {
        let end = self.at + bytes.len();
        self.page[self.at..end].copy_from_slice(bytes);
        self.at = end;
    }

    /// Leaves `count` zeros.
    pub fn skip(&mut self, count: usize)
        requires { length self.old + count ≤ page_width }
        ensures { self.new ≡ self.old ++ replicate count 0 }
    {
        self.at += count;
    }

    /// Writes zeros up to the place `at`.
    pub fn skip_to(&mut self, at: usize)
        requires behind { length self.old ≤ at }
        requires within { at ≤ page_width }
        ensures value { self.new ≡ padded at self.old }
        ensures len { length self.new ≡ at }
    {
        self.at = at;
    }

    /// Writes the bytes behind their number, padded to a width below 256.
    pub fn put_field(&mut self, bytes: &[u8], width: usize)
        requires fits { length bytes.now ≤ width }
        requires short { width ≤ 255 }
        requires room { length self.old + (1 + width) ≤ page_width }
        ensures value { self.new ≡ self.old ++ field width bytes.now }
        ensures len { length self.new ≡ length self.old + (1 + width) }
    {
        self.put(&[bytes.len() as u8]);
        self.put(bytes);
        self.skip(width - bytes.len());
    }

    /// Writes a number of two bytes.
    pub fn put_u16(&mut self, number: u16)
        requires { length self.old + 2 ≤ page_width }
        ensures value { self.new ≡ self.old ++ big_bytes 2 number }
        ensures len { length self.new ≡ length self.old + 2 }
    {
        let mut bytes = [0; 2];
        BigEndian::write_u16(&mut bytes, number);
        self.put(&bytes);
    }

    /// Writes a number of four bytes.
    pub fn put_u32(&mut self, number: u32)
        requires { length self.old + 4 ≤ page_width }
        ensures value { self.new ≡ self.old ++ big_bytes 4 number }
        ensures len { length self.new ≡ length self.old + 4 }
    {
        let mut bytes = [0; 4];
        BigEndian::write_u32(&mut bytes, number);
        self.put(&bytes);
    }

    /// Whether the page is the one that was written.
    pub fn wrote(&self, page: &[u8; PAGE_WIDTH]) -> bool
        ensures { IsTrue result ↔ (page.now ≡ padded page_width self.now) }
    {
        self.page == *page
    }

    /// The page, zero behind what was written.
    pub fn finish(self) -> [u8; PAGE_WIDTH]
        ensures { result ≡ padded page_width self }
    {
        self.page
    }
}

/// A page of zeros.
#[tactic(auto, unfolding(rec_types::specs::Padded::padded))]
fn blank() -> [u8; PAGE_WIDTH]
    ensures { result ≡ padded page_width [] }
{
    [0; PAGE_WIDTH]
}
