ghost use Rattle.std.specs.Prelude.{◌≡◌, ◌<◌};
ghost use Rattle.rec_types.specs.Widths.{page_width};

use crate::blank::add_blank_pages;
use crate::count::count_up;
use crate::store::Store;
use crate::store_fault::{Shape, StoreFault};
use crate::store_state::StoreState;
use rec_types::PAGE_WIDTH;
use std::marker::Model;

/// A store in memory, which is always steady and never fails. Contracts see its pages, the length of
/// its tail and the numbers of its reads, of its calls of `shape` and of its changing calls.
#[derive(Drop)]
pub struct MemStore {
    pages: Vec<[u8; PAGE_WIDTH]>,
    tail: u16,
    reads: u64,
    shapes: u64,
    writes: u64,
}

impl Model for MemStore {
    ghost use Rattle.std.specs.Prelude.{◌<◌};
    ghost use Rattle.rec_types.specs.Widths.{page_width};
    ghost use Rattle.page_store.specs.StoredPages.{StoredPages};

    ghost Value = { StoredPages };

    ghost view = { λ s. record {
      pages = s.pages.items;
      tail = s.tail;
      reads = s.reads;
      shapes = s.shapes;
      writes = s.writes;
    } };

    ghost invariant = { λ s. s.tail < page_width };
}

impl MemStore {
    /// A store of these pages, with a tail of that many bytes, at most 4,095.
    pub fn new(pages: Vec<[u8; PAGE_WIDTH]>, tail: u16) -> MemStore
        requires { tail < page_width }
        ensures { result ≡ record {
          pages = pages.items;
          tail = tail;
          reads = 0;
          shapes = 0;
          writes = 0;
        } }
    {
        MemStore {
            pages,
            tail,
            reads: 0,
            shapes: 0,
            writes: 0,
        }
    }

    /// The pages.
    pub fn pages(&self) -> &[[u8; PAGE_WIDTH]]
        ensures { result.now ≡ self.now.pages }
    {
        self.pages.as_slice()
    }
}

impl StoreState for MemStore {
    ghost use Rattle.std.specs.Prelude.{true, None};
    ghost use Rattle.page_store.specs.Opening.{untold};
    ghost use Rattle.page_store.specs.Guards.{Unguarded};

    ghost pages = { λ s. s.pages };

    ghost tail = { λ s. s.tail };

    ghost steady = { λ _. true };

    ghost opening = { λ _. untold };

    ghost reads = { λ s. s.reads };

    ghost shapes = { λ s. s.shapes };

    ghost writes = { λ s. s.writes };

    ghost failures = { λ _. 0 };

    ghost journal = { λ _. None };

    ghost guard = { λ _. Unguarded };
}

impl Store for MemStore {
    fn shape(&mut self) -> Result<Shape, StoreFault> {
        count_up(&mut self.shapes);
        Ok(Shape {
            pages: self.pages.len() as u64,
            tail: self.tail,
        })
    }

    fn read(&mut self, n: u32, to: &mut [u8; PAGE_WIDTH]) -> Result<(), StoreFault> {
        count_up(&mut self.reads);
        *to = self.pages[n as usize];
        Ok(())
    }

    fn write(&mut self, n: u32, from: &[u8; PAGE_WIDTH]) -> Result<(), StoreFault> {
        count_up(&mut self.writes);
        self.pages[n as usize] = *from;
        Ok(())
    }

    fn set_pages(&mut self, n: u32) -> Result<(), StoreFault> {
        count_up(&mut self.writes);
        add_blank_pages(&mut self.pages, n).map_err(|_| StoreFault::Memory)?;
        self.tail = 0;
        Ok(())
    }

    fn sync(&mut self) -> Result<(), StoreFault> {
        count_up(&mut self.writes);
        Ok(())
    }
}
