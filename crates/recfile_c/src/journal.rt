// A store that keeps what is to be done to a file.
ghost use Rattle.std.specs.Prelude.{◌≡◌, ◌≢◌, ℕ, ◌<◌, ◌≤◌, List, [], ◌∷◌, ◌++◌, length, true, Some, Err, OnOk, OnErr, slice_get, slice_index_or};
ghost use Rattle.rec_types.specs.Table.{counted};
ghost use Rattle.page_store.specs.Blank.{blank};
ghost use Rattle.page_store.specs.Journal.{carry, carried};
ghost use Rattle.recfile_c.specs.Steps.{pages_after};

use page_store::{Shape, Step, Store, StoreFault, StoreState};
use rec_types::PAGE_WIDTH;
use std::alloc::Global;
use std::marker::Model;

/// A store over the pages of a file that somebody else has. It changes nothing there: each changing call is one more
/// step, which its owner carries out. It fails where a step finds no memory. Contracts see the pages that were handed
/// in, the steps, and the counts of a store.
#[derive(Drop)]
pub struct JournalStore {
    opened: Vec<[u8; PAGE_WIDTH]>,
    steps: Vec<Step>,
    count: u64,
    reads: u64,
    shapes: u64,
    writes: u64,
    failures: u64,
}

impl Model for JournalStore {
    ghost use Rattle.std.specs.Prelude.{◌≡◌, ◌≤◌, length};
    ghost use Rattle.page_store.specs.Journal.{carried};
    ghost use Rattle.recfile_c.specs.Steps.{JournalView};

    ghost Value = { JournalView };

    ghost view = { λ s. record {
      opened = s.opened.items;
      steps = s.steps.items;
      reads = s.reads;
      shapes = s.shapes;
      writes = s.writes;
      failures = s.failures;
    } };

    ghost invariant = { λ s. (s.count ≡ length (carried s.opened.items s.steps.items))
        × (s.failures ≤ s.writes) };
}

// A page of zeros.
fn blank_page() -> [u8; PAGE_WIDTH]
    ensures { result ≡ blank }
{
    [0; PAGE_WIDTH]
}

// What a step leaves of page n, and of the number of pages.
fn follow(step: &Step, n: u32, count: &mut u64, page: &mut [u8; PAGE_WIDTH])
    ensures { (pages : List (List ℕ))
        → count.old ≡ length pages → page.old ≡ slice_index_or pages n blank
        → (count.new ≡ length (carry pages step.now))
        × (page.new ≡ slice_index_or (carry pages step.now) n blank) }
{
    match step {
        Step::SetPages(most) => *count = (*count).max(u64::from(*most)),
        Step::Write(at, written) => {
            if *at == n && u64::from(n) < *count {
                *page = *written;
            }
        }
        Step::Sync => {}
    }
}

// Page n of the pages that steps leave.
fn page_after(opened: &[[u8; PAGE_WIDTH]], steps: &[Step], n: u32) -> [u8; PAGE_WIDTH]
    requires { n < length (carried opened.now steps.now) }
    ensures { slice_get (carried opened.now steps.now) n ≡ Some result }
{
    let mut count = opened.len() as u64;
    let mut page = match opened.get(n as usize) {
        Some(page) => *page,
        None => blank_page(),
    };
    for step in steps {
        follow(step, n, &mut count, &mut page);
    }
    page
}

impl JournalStore {
    /// A store over these pages, with no step.
    pub fn new(alloc: Global, pages: Vec<[u8; PAGE_WIDTH]>) -> JournalStore
        ensures { result ≡ record {
          opened = pages.items;
          steps = [];
          reads = 0;
          shapes = 0;
          writes = 0;
          failures = 0;
        } }
    {
        JournalStore {
            count: pages.len() as u64,
            opened: pages,
            steps: Vec::new(alloc),
            reads: 0,
            shapes: 0,
            writes: 0,
            failures: 0,
        }
    }

    /// The steps, in the order in which they are to be carried out.
    pub fn steps(&self) -> &[Step]
        ensures { result.now ≡ self.now.steps }
    {
        self.steps.as_slice()
    }

    /// How many steps found no memory: only a call that changes the file can fail.
    pub fn failures(&self) -> u64
        ensures value { result ≡ self.now.failures }
        ensures most { self.now.failures ≤ self.now.writes }
    {
        self.failures
    }

    // One more step. Fault: Failed, where it finds no memory.
    fn note(&mut self, step: Step, count: u64) -> Result<(), StoreFault>
        requires { count ≡ length (carry (pages_after self.old) step) }
        ensures ok { OnOk result (self.new ≡ record self.old {
          steps = self.old.steps ++ step ∷ [];
          writes = counted self.old.writes true;
        }) }
        ensures err { OnErr result (self.new ≡ record self.old {
          writes = counted self.old.writes true;
          failures = counted self.old.failures true;
        }) }
        ensures carried { OnOk result (pages_after self.new ≡ carry (pages_after self.old) step) }
        ensures same { OnErr result (pages_after self.new ≡ pages_after self.old) }
        ensures no_memory { result ≢ Err StoreFault.Memory }
    {
        self.writes = self.writes.saturating_add(1);
        match self.steps.push(step) {
            Ok(()) => {
                self.count = count;
                Ok(())
            }
            Err(_) => {
                self.failures = self.failures.saturating_add(1);
                Err(StoreFault::Failed)
            }
        }
    }
}

impl StoreState for JournalStore {
    ghost use Rattle.std.specs.Prelude.{true};
    ghost use Rattle.page_store.specs.Opening.{untold};
    ghost use Rattle.page_store.specs.Guards.{Unguarded};
    ghost use Rattle.recfile_c.specs.Steps.{pages_after, journal_of};

    ghost pages = { pages_after };

    ghost tail = { λ _. 0 };

    ghost steady = { λ _. true };

    ghost opening = { λ _. untold };

    ghost reads = { λ s. s.reads };

    ghost shapes = { λ s. s.shapes };

    ghost writes = { λ s. s.writes };

    ghost failures = { λ s. s.failures };

    ghost journal = { journal_of };

    ghost guard = { λ _. Unguarded };
}

impl Store for JournalStore {
    fn shape(&mut self) -> Result<Shape, StoreFault> {
        self.shapes = self.shapes.saturating_add(1);
        Ok(Shape {
            pages: self.count,
            tail: 0,
        })
    }

    fn read(&mut self, n: u32, to: &mut [u8; PAGE_WIDTH]) -> Result<(), StoreFault> {
        self.reads = self.reads.saturating_add(1);
        *to = page_after(&self.opened, &self.steps, n);
        Ok(())
    }

    fn write(&mut self, n: u32, from: &[u8; PAGE_WIDTH]) -> Result<(), StoreFault> {
        self.note(Step::Write(n, *from), self.count)
    }

    fn set_pages(&mut self, n: u32) -> Result<(), StoreFault> {
        self.note(Step::SetPages(n), u64::from(n))
    }

    fn sync(&mut self) -> Result<(), StoreFault> {
        self.note(Step::Sync, self.count)
    }
}
