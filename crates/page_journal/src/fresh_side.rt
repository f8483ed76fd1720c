ghost use Rattle.std.specs.Prelude.{◌≡◌, Some, true, false, IfOk, OnOk};
ghost use Rattle.file_system.specs.Facts.{IsAlone};
ghost use Rattle.page_journal.specs.SideBytes.{entry_bytes, first_tally, tally_more, MayEnd};

use crate::kept_side::{KeptSide, no_such_call};
use crate::side_bytes::{entry_of, entry_start};
use crate::side_tally::SideTally;
use file_system::{FileFacts, System, SystemFile};
use rec_types::PAGE_WIDTH;
use std::io;
use std::os::unix::fs::FileExt;

/// The mode of a side file that is being made: nobody may open it. So one that a stop left is known, whatever its bytes
/// are then.
pub(crate) const BEING_MADE: u32 = 0;

/// A side file that is being made.
#[derive(Drop)]
pub(crate) struct FreshSide<F> {
    file: F,
    tally: SideTally,
    whole: bool,
}

impl<F: SystemFile + Drop> FreshSide<F> {
    /// Makes a file of that name, where there is none, for the old pages of a file that was found to be the one that was
    /// opened, of so many pages, of which the others have that sum. It gets the owner of that file as far as the system
    /// does that: who isn't root may give no file away.
    pub(crate) fn create<H: System<File = F>>(
        rt: &H,
        name: &str,
        opened: &FileFacts,
        found: &FileFacts,
        long: u32,
        rest: u64,
    ) -> io::Result<FreshSide<F>>
        requires { IsAlone opened.now found.now }
        ensures { IfOk result (λ side. (side.tally ≡ first_tally long (Some rest))
            × (side.whole ≡ false)) }
    {
        let file = rt.make_new(name, BEING_MADE)?;
        let made = file.facts()?;
        if made.owner != found.owner || made.group != found.group {
            let _ = rt.set_owner(name, found.owner, found.group);
        }
        Ok(FreshSide {
            file,
            tally: SideTally::new(long, Some(rest)),
            whole: false,
        })
    }

    /// Writes an old page behind those that are there. It fails where that page may not come next.
    pub(crate) fn keep(&mut self, n: u32, page: &[u8; PAGE_WIDTH]) -> io::Result<()>
        ensures kept { OnOk result
            (self.new.tally ≡ tally_more self.old.tally n (entry_bytes n page.now)) }
        ensures unfinished { self.new.whole ≡ false }
    {
        self.whole = false;
        let shape = self.tally.shape();
        let at = entry_start(shape.rest, shape.kept);
        let entry = entry_of(n, page);
        if !self.tally.take(&entry) {
            return Err(no_such_call());
        }
        self.file.write_all_at(&entry, at)
    }

    /// Writes the header, and has the device keep the file, which gets that mode then. It fails where page 0 isn't kept.
    pub(crate) fn finish(&mut self, mode: u32) -> io::Result<()>
        ensures same { self.new.tally ≡ self.old.tally }
        ensures whole { OnOk result (MayEnd self.old.tally × (self.new.whole ≡ true)) }
    {
        let Some(header) = self.tally.header() else {
            return Err(no_such_call());
        };
        self.file.write_all_at(&header, 0)?;
        self.file.sync_all()?;
        self.file.set_mode(mode)?;
        self.whole = true;
        Ok(())
    }

    /// The side file that was made. It fails where it isn't finished.
    pub(crate) fn whole(self) -> io::Result<KeptSide<F>>
        ensures { IfOk result (λ side. (self.whole ≡ true) × (side.shape ≡ record {
          long = self.tally.long;
          kept = self.tally.kept;
          rest = self.tally.rest;
        })) }
    {
        let FreshSide { file, tally, whole } = self;
        if !whole {
            return Err(no_such_call());
        }
        Ok(KeptSide::of(file, tally.shape()))
    }
}
