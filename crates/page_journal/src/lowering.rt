ghost use Rattle.std.specs.Prelude.{◌≡◌, ◌++◌, ◌∷◌, [], None, map, IfOk, OnOk};
ghost use Rattle.page_journal.specs.SideBytes.{first_tally};
ghost use Rattle.page_journal.specs.History.{StaysOnErr};
ghost use Rattle.page_journal.specs.Lowering.{lowered_call, lowered_commit, lowered_next, sys_of, tail_cut};
ghost use Rattle.page_journal.specs.declared.disk_call.DiskCall.{DiskCall};

use crate::commit_call::CommitCall;
use crate::disk_call::DiskCall;
use crate::mem_commits::zeros_behind;
use crate::side_bytes::{entry_of, entry_start};
use crate::side_tally::SideTally;
use crate::system_call::{CallFile, SystemCall};
use page_store::StoreFault;
use rec_types::PAGE_WIDTH;
use std::alloc::Global;
use std::marker::Model;

/// The bytes of a page, counted as a file's are.
const PAGE_BYTES: u64 = PAGE_WIDTH as u64;

/// What is known of the files of a disk whose calls are turned into those of the system, one after another: how many
/// pages the file has, how many bytes behind them, and the side file that is being made.
#[derive(Drop)]
pub struct Lowering {
    pages: u32,
    tail: u16,
    tally: SideTally,
    alloc: Global,
}

impl Model for Lowering {
    ghost use Rattle.page_journal.specs.History.{StaysOnErr};
    ghost use Rattle.page_journal.specs.Lowering.{Lowered};

    ghost Value = { Lowered };

    ghost view = { λ l. record { pages = l.pages; tail = l.tail; tally = l.tally } };
}

// These bytes again. Fault: Memory.
fn bytes_of(alloc: Global, bytes: &[u8]) -> Result<Vec<u8>, StoreFault>
    ensures { IfOk result (λ copy. copy.items ≡ bytes.now) }
{
    match bytes.to_vec(alloc) {
        Ok(copy) => Ok(copy),
        Err(_) => Err(StoreFault::Memory),
    }
}

// One call.
fn one(alloc: Global, call: SystemCall) -> Result<Vec<SystemCall>, StoreFault>
    ensures { IfOk result (λ calls. calls.items ≡ call ∷ []) }
{
    let mut calls = Vec::new(alloc);
    let Ok(()) = calls.push(call) else {
        return Err(StoreFault::Memory);
    };
    Ok(calls)
}

// Two.
fn two(alloc: Global, first: SystemCall, second: SystemCall) -> Result<Vec<SystemCall>, StoreFault>
    ensures { IfOk result (λ calls. calls.items ≡ first ∷ second ∷ []) }
{
    let mut calls = one(alloc, first)?;
    let Ok(()) = calls.push(second) else {
        return Err(StoreFault::Memory);
    };
    Ok(calls)
}

// Three.
fn three(
    alloc: Global,
    first: SystemCall,
    second: SystemCall,
    third: SystemCall,
) -> Result<Vec<SystemCall>, StoreFault>
    ensures { IfOk result (λ calls. calls.items ≡ first ∷ second ∷ third ∷ []) }
{
    let mut calls = two(alloc, first, second)?;
    let Ok(()) = calls.push(third) else {
        return Err(StoreFault::Memory);
    };
    Ok(calls)
}

// The calls of the system that a call on the logs of commits is. Fault: Memory.
fn lower_commit(alloc: Global, call: &CommitCall) -> Result<Vec<SystemCall>, StoreFault>
    ensures { IfOk result (λ calls. map sys_of calls.items ≡ lowered_commit call.now) }
{
    match call {
        CommitCall::Start(bytes) => {
            let bytes = bytes_of(alloc, bytes)?;
            let put = SystemCall::Write(CallFile::FreshLog, 0, bytes);
            two(alloc, SystemCall::Make(CallFile::FreshLog), put)
        }
        CommitCall::SyncFresh => two(
            alloc,
            SystemCall::Sync(CallFile::FreshLog),
            SystemCall::SetMode(CallFile::FreshLog),
        ),
        CommitCall::Name => one(alloc, SystemCall::Rename(CallFile::FreshLog, CallFile::Log)),
        CommitCall::Remove => one(alloc, SystemCall::Unlink(CallFile::Log)),
        CommitCall::Lengthen(at, n) => {
            let Ok(none) = zeros_behind(alloc, &[], *n) else {
                return Err(StoreFault::Memory);
            };
            let put = SystemCall::Write(CallFile::Log, *at as u64, none);
            two(alloc, SystemCall::SetLength(CallFile::Log, *at as u64), put)
        }
        CommitCall::Write(at, bytes) => {
            let bytes = bytes_of(alloc, bytes)?;
            one(alloc, SystemCall::Write(CallFile::Log, *at as u64, bytes))
        }
        CommitCall::Sync => one(alloc, SystemCall::SyncData(CallFile::Log)),
    }
}

impl Lowering {
    /// Of a file of so many pages and that many bytes behind them.
    pub fn new(alloc: Global, pages: u32, tail: u16) -> Lowering
        ensures { result ≡ record { pages = pages; tail = tail; tally = first_tally 0 None } }
    {
        Lowering {
            pages,
            tail,
            tally: SideTally::new(0, None),
            alloc,
        }
    }

    /// The calls of the system that the next call of the disk is, in their order. Faults: Memory; Failed, where an old page
    /// may not come next in its side file, or that may not end. Nothing is known anew then.
    pub fn lower(&mut self, call: &DiskCall) -> Result<Vec<SystemCall>, StoreFault>
        ensures calls { IfOk result (λ calls. map sys_of calls.items ≡ lowered_call self.old call.now) }
        ensures next { OnOk result (self.new ≡ lowered_next self.old call.now) }
        ensures same { StaysOnErr result self.old self.new }
    {
        match call {
            DiskCall::Write(n, page) => self.put(*n, page),
            DiskCall::Grow(n) => self.grow(*n),
            DiskCall::Cut(n) => self.cut(*n),
            DiskCall::Sync => one(self.alloc, SystemCall::Sync(CallFile::Main)),
            DiskCall::Start(long, rest) => self.start(*long, *rest),
            DiskCall::Keep(n, page) => self.keep(*n, page),
            DiskCall::SyncFresh => self.finish(),
            DiskCall::Name => one(
                self.alloc,
                SystemCall::Rename(CallFile::FreshSide, CallFile::Side),
            ),
            DiskCall::Remove => one(self.alloc, SystemCall::Unlink(CallFile::Side)),
            DiskCall::SyncNames => one(self.alloc, SystemCall::SyncFolder),
            DiskCall::Commits(call) => lower_commit(self.alloc, call),
        }
    }

    // A page is written.
    fn put(&self, n: u32, page: &[u8; PAGE_WIDTH]) -> Result<Vec<SystemCall>, StoreFault>
        ensures { IfOk result (λ calls. map sys_of calls.items ≡ lowered_call self.now (DiskCall.Write n page.now)) }
    {
        let bytes = bytes_of(self.alloc, page)?;
        let at = u64::from(n) * PAGE_BYTES;
        one(self.alloc, SystemCall::Write(CallFile::Main, at, bytes))
    }

    // The file is made longer; where it has a tail, that is cut off first.
    fn grow(&mut self, n: u32) -> Result<Vec<SystemCall>, StoreFault>
        ensures calls { IfOk result (λ calls. map sys_of calls.items ≡ lowered_call self.old (DiskCall.Grow n)) }
        ensures next { OnOk result (self.new ≡ lowered_next self.old (DiskCall.Grow n)) }
        ensures same { StaysOnErr result self.old self.new }
    {
        let grown = SystemCall::SetLength(CallFile::Main, u64::from(n) * PAGE_BYTES);
        let calls = self.lengthen(grown)?;
        self.pages = n;
        self.tail = 0;
        Ok(calls)
    }

    // A call by which the file is made longer; where it has a tail, another before it.
    fn lengthen(&self, grown: SystemCall) -> Result<Vec<SystemCall>, StoreFault>
        ensures { IfOk result (λ calls. map sys_of calls.items ≡ tail_cut self.now ++ sys_of grown ∷ []) }
    {
        if self.tail == 0 {
            return one(self.alloc, grown);
        }
        let whole = u64::from(self.pages) * PAGE_BYTES;
        two(
            self.alloc,
            SystemCall::SetLength(CallFile::Main, whole),
            grown,
        )
    }

    // It is made shorter.
    fn cut(&mut self, n: u32) -> Result<Vec<SystemCall>, StoreFault>
        ensures calls { IfOk result (λ calls. map sys_of calls.items ≡ lowered_call self.old (DiskCall.Cut n)) }
        ensures next { OnOk result (self.new ≡ lowered_next self.old (DiskCall.Cut n)) }
        ensures same { StaysOnErr result self.old self.new }
    {
        let cut = SystemCall::SetLength(CallFile::Main, u64::from(n) * PAGE_BYTES);
        let calls = one(self.alloc, cut)?;
        self.pages = n;
        self.tail = 0;
        Ok(calls)
    }

    // A side file is begun.
    fn start(&mut self, long: u32, rest: u64) -> Result<Vec<SystemCall>, StoreFault>
        ensures calls { IfOk result (λ calls. map sys_of calls.items ≡ lowered_call self.old (DiskCall.Start long rest)) }
        ensures next { OnOk result (self.new ≡ lowered_next self.old (DiskCall.Start long rest)) }
        ensures same { StaysOnErr result self.old self.new }
    {
        let calls = one(self.alloc, SystemCall::Make(CallFile::FreshSide))?;
        self.tally = SideTally::new(long, Some(rest));
        Ok(calls)
    }

    // An old page is added to it.
    fn keep(&mut self, n: u32, page: &[u8; PAGE_WIDTH]) -> Result<Vec<SystemCall>, StoreFault>
        ensures calls { IfOk result (λ calls. map sys_of calls.items ≡ lowered_call self.old (DiskCall.Keep n page.now)) }
        ensures next { OnOk result (self.new ≡ lowered_next self.old (DiskCall.Keep n page.now)) }
        ensures same { StaysOnErr result self.old self.new }
    {
        let shape = self.tally.shape();
        let entry = entry_of(n, page);
        let bytes = bytes_of(self.alloc, &entry)?;
        let at = entry_start(shape.rest, shape.kept);
        let calls = one(
            self.alloc,
            SystemCall::Write(CallFile::FreshSide, at, bytes),
        )?;
        if !self.tally.take(&entry) {
            return Err(StoreFault::Failed);
        }
        Ok(calls)
    }

    // Its header is written, the device keeps it, and it gets its mode.
    fn finish(&self) -> Result<Vec<SystemCall>, StoreFault>
        ensures { IfOk result (λ calls. map sys_of calls.items ≡ lowered_call self.now DiskCall.SyncFresh) }
    {
        let Some(header) = self.tally.header() else {
            return Err(StoreFault::Failed);
        };
        let bytes = bytes_of(self.alloc, &header)?;
        three(
            self.alloc,
            SystemCall::Write(CallFile::FreshSide, 0, bytes),
            SystemCall::Sync(CallFile::FreshSide),
            SystemCall::SetMode(CallFile::FreshSide),
        )
    }
}
