ghost use Rattle.std.specs.Prelude.{◌≡◌, ◌≤◌, ◌↔◌, take, IsSome, IfSome, IsTrue, IsFalse};
ghost use Rattle.byteorder.specs.Endian.{big_number};
ghost use Rattle.page_journal.specs.SideBytes.{first_tally, tally_more, tally_header, header_width, MayCome, MayEnd};

use crate::kept_store::MOST_PAGES;
use crate::side_bytes::{
    ENTRY_WIDTH, HEADER_WIDTH, OLD_HEADER_WIDTH, header_of, number_of, old_header_of, sum_on,
};
use crate::side_shape::SideShape;
use std::marker::Model;

/// What the sum of no bytes is.
pub(crate) const SUM_START: u64 = 0xcbf2_9ce4_8422_2325;

/// What is known of a side file whose old pages are met one after another.
#[derive(Drop)]
pub(crate) struct SideTally {
    long: u32,
    rest: Option<u64>,
    kept: u32,
    least: u32,
    sum: u64,
}

impl Model for SideTally {
    ghost use Rattle.std.specs.Prelude.{◌≤◌};
    ghost use Rattle.page_journal.specs.SideBytes.{Tally};

    ghost Value = { Tally };

    ghost view = { λ t. record {
      long = t.long;
      rest = t.rest;
      kept = t.kept;
      least = t.least;
      sum = t.sum;
    } };

    ghost invariant = { λ t. t.kept ≤ t.least };
}

impl SideTally {
    /// No old page yet, of a file of so many pages of which the others have that sum.
    pub(crate) fn new(long: u32, rest: Option<u64>) -> SideTally
        ensures { result ≡ first_tally long rest }
    {
        SideTally {
            long,
            rest,
            kept: 0,
            least: 0,
            sum: SUM_START,
        }
    }

    /// How many pages the file had, how many old pages there are so far, and the sum over the others.
    pub(crate) fn shape(&self) -> SideShape
        ensures { result ≡ record {
          long = self.now.long;
          kept = self.now.kept;
          rest = self.now.rest;
        } }
    {
        SideShape {
            long: self.long,
            kept: self.kept,
            rest: self.rest,
        }
    }

    /// How many old pages there are so far.
    pub(crate) fn kept(&self) -> u32
        ensures { result ≡ self.now.kept }
    {
        self.kept
    }

    /// Takes one more, and answers whether it may come next: page 0 is the first, numbers ascend and are below the file's
    /// old end. Else nothing has changed.
    pub(crate) fn take(&mut self, entry: &[u8; ENTRY_WIDTH]) -> bool
        ensures may { IsTrue result ↔ MayCome self.old (big_number 4 entry.now) }
        ensures taken { IsTrue result → self.new ≡ tally_more self.old (big_number 4 entry.now) entry.now }
        ensures same { IsFalse result → self.new ≡ self.old }
    {
        let n = number_of(entry);
        if n < self.least || n >= self.long || (self.kept == 0 && n != 0) {
            return false;
        }
        self.kept += 1;
        self.least = n + 1;
        self.sum = sum_on(self.sum, entry);
        true
    }

    // Whether there may be no more of them.
    fn may_end(&self) -> bool
        ensures { IsTrue result ↔ MayEnd self.now }
    {
        self.kept > 0 && u64::from(self.long) <= MOST_PAGES
    }

    /// The header of the side file that has these old pages, where there may be no more and the sum over the others is
    /// known.
    pub(crate) fn header(&self) -> Option<[u8; HEADER_WIDTH]>
        ensures may { IsSome result ↔ MayEnd self.now × IsSome self.now.rest }
        ensures header { IfSome result (λ header. header ≡ tally_header self.now) }
    {
        match self.rest {
            Some(rest) if self.may_end() => Some(header_of(self.long, self.kept, rest, self.sum)),
            _ => None,
        }
    }

    // Whether these bytes begin with the header of a side file that has these old pages.
    fn is_spelt(&self, bytes: &[u8; HEADER_WIDTH]) -> bool
        ensures { IsTrue result
            ↔ (take (header_width self.now.rest) bytes.now ≡ tally_header self.now) }
    {
        match self.rest {
            Some(rest) => is_same(bytes, &header_of(self.long, self.kept, rest, self.sum)),
            None => {
                let old = old_header_of(self.long, self.kept, self.sum);
                is_same(&bytes[..OLD_HEADER_WIDTH], &old)
            }
        }
    }

    /// Whether these old pages are all that a side file has which begins with these bytes.
    pub(crate) fn ends(&self, bytes: &[u8; HEADER_WIDTH]) -> bool
        ensures { IsTrue result ↔ MayEnd self.now
            × (take (header_width self.now.rest) bytes.now ≡ tally_header self.now) }
    {
        self.may_end() && self.is_spelt(bytes)
    }
}

// Whether the one are the other.
fn is_same(one: &[u8], other: &[u8]) -> bool
    ensures { IsTrue result ↔ (one.now ≡ other.now) }
{
    one == other
}
