// A closing over a disk in memory and the recovery behind it, each stopped after each of its calls, with each of the calls
// that weren't synced done, lost or torn.
ghost use Rattle.std.specs.Prelude.{◌≡◌, []};
ghost use Rattle.recfile_tests.specs.TwoPages.{filled_page};

use crate::expect_text;
use crate::stores::{pages_of, write_page};
use page_journal::{DiskCall, Fate, KeptStore, MemDisk};
use page_store::{SealStore, Store, StoreFault};
use rec_types::PAGE_WIDTH;
use std::alloc::{AllocError, Global};
use std::process::Abort;

pub(crate) fn filled(with: u8) -> [u8; PAGE_WIDTH]
    ensures { result ≡ filled_page with }
{
    [with; PAGE_WIDTH]
}

/// Writes page n where there is one.
fn put<S: Store>(store: &mut S, n: u32, with: u8) -> Result<(), StoreFault> {
    if store.shape()?.pages <= u64::from(n) {
        return Err(StoreFault::Failed);
    }
    store.write(n, &filled(with))
}

/// Makes the store so many pages long where it isn't longer.
fn grow<S: Store>(store: &mut S, n: u32) -> Result<(), StoreFault> {
    if store.shape()?.pages > u64::from(n) {
        return Err(StoreFault::Failed);
    }
    store.set_pages(n)
}

/// The calls of a closing that writes two old pages over and adds one, of which no sync reaches the disk.
fn close<S: SealStore>(store: &mut S) -> Result<(), StoreFault> {
    store.seal(&[0, 1])?;
    grow(store, 3)?;
    put(store, 1, 8)?;
    put(store, 2, 9)?;
    store.sync()?;
    put(store, 0, 7)?;
    store.sync()
}

/// The same calls where page 1 alone was changed, made by `Pages`, which tells the store what it writes over.
fn close_pages<S: SealStore>(rt: &impl Abort, alloc: Global, store: S) -> S {
    let mut pages = pages_of(rt, alloc, store, false).expect(rt, "no pages");
    write_page(rt, alloc, &mut pages, 1, 8).expect(rt, "not staged");
    pages.seal().expect(rt, "not sealed");
    pages
        .write_back(&filled(5), &filled(7))
        .expect(rt, "not written back");
    pages.into_store()
}

/// A store of two pages, filled with 1 and 2.
fn opened(rt: &impl Abort, alloc: Global) -> KeptStore<MemDisk> {
    let disk = MemDisk::new(alloc, &[filled(1), filled(2)], 0).expect(rt, "no memory");
    match KeptStore::open(alloc, disk) {
        Ok(store) => store,
        Err(_) => panic!(rt; "not opened"),
    }
}

/// The disk of a store, whose old pages are given up.
fn ended(rt: &impl Abort, store: KeptStore<MemDisk>) -> MemDisk {
    let (disk, answer) = store.finish();
    answer.expect(rt, "not given up");
    disk
}

/// The disk behind the first closing, and behind the second.
fn closed(rt: &impl Abort, alloc: Global) -> MemDisk {
    let mut store = opened(rt, alloc);
    close(&mut store).expect(rt, "not closed");
    ended(rt, store)
}

fn closed_pages(rt: &impl Abort, alloc: Global) -> MemDisk {
    ended(rt, close_pages(rt, alloc, opened(rt, alloc)))
}

/// The disk behind a closing that stopped after its first write, whose old file was put back at once.
fn taken_back(rt: &impl Abort, alloc: Global) -> MemDisk {
    let mut store = opened(rt, alloc);
    store.seal(&[0, 1]).expect(rt, "not sealed");
    put(&mut store, 0, 5).expect(rt, "not written");
    let (disk, answer) = store.take_back();
    answer.expect(rt, "not taken back");
    disk
}

/// The parts that the device keeps one by one.
#[derive(Clone, Copy, PartialEq, Eq)]
enum Part {
    File,
    Fresh,
    Names,
    Commits,
}

fn part_of(call: &DiskCall) -> Part {
    match *call {
        DiskCall::Write(..) | DiskCall::Grow(_) | DiskCall::Cut(_) | DiskCall::Sync => Part::File,
        DiskCall::Start(..) | DiskCall::Keep(..) | DiskCall::SyncFresh => Part::Fresh,
        DiskCall::Name | DiskCall::Remove | DiskCall::SyncNames => Part::Names,
        DiskCall::Commits(_) => Part::Commits,
    }
}

fn is_sync(call: &DiskCall) -> bool {
    matches!(
        *call,
        DiskCall::Sync | DiskCall::SyncFresh | DiskCall::SyncNames
    )
}

/// Whether one of the later calls syncs what the call changed.
fn is_synced(call: &DiskCall, later: &[DiskCall]) -> bool {
    for other in later {
        if is_sync(other) && part_of(other) == part_of(call) {
            return true;
        }
    }
    false
}

/// Whether a crash may lose the call of that number.
fn is_pending(calls: &[DiskCall], i: usize) -> bool {
    let (Some(call), Some(later)) = (calls.get(i), calls.get(i.saturating_add(1)..)) else {
        return false;
    };
    !is_sync(call) && !is_synced(call, later)
}

/// How many ways there are for the calls that weren't synced.
fn how_many(calls: &[DiskCall]) -> u32 {
    let mut ways: u32 = 1;
    for i in 0..calls.len() {
        if is_pending(calls, i) {
            ways = ways.saturating_mul(3);
        }
    }
    ways
}

fn fate_of(digit: u32) -> Fate {
    match digit {
        0 => Fate::Done,
        1 => Fate::Lost,
        _ => Fate::Torn,
    }
}

/// The way of that number.
fn fates_of(alloc: Global, calls: &[DiskCall], way: u32) -> Result<Vec<Fate>, AllocError> {
    let mut fates = Vec::new(alloc);
    let mut rest = way;
    for i in 0..calls.len() {
        if is_pending(calls, i) {
            fates.push(fate_of(rest % 3))?;
            rest /= 3;
        } else {
            fates.push(Fate::Done)?;
        }
    }
    Ok(fates)
}

/// The disk of a session without a change over one that was just started again.
fn recovered(rt: &impl Abort, alloc: Global, disk: MemDisk) -> MemDisk
    requires { disk.calls ≡ [] }
{
    match KeptStore::open(alloc, disk) {
        Ok(store) => ended(rt, store),
        Err(_) => panic!(rt; "not recovered"),
    }
}

/// The disk behind that crash and the next session, where there is such a crash.
fn after_crash(rt: &impl Abort, alloc: Global, disk: &MemDisk, fates: &[Fate]) -> Option<MemDisk> {
    if fates.len() > disk.calls().len() {
        return None;
    }
    match disk.crash(fates).expect(rt, "no memory") {
        Some(left) => Some(recovered(rt, alloc, left)),
        None => None,
    }
}

/// Adds the disks behind each crash after so many calls, and the next session.
fn add_crashes(
    rt: &impl Abort,
    alloc: Global,
    disk: &MemDisk,
    calls: &[DiskCall],
    disks: &mut Vec<MemDisk>,
) {
    for way in 0..how_many(calls) {
        let fates = fates_of(alloc, calls, way).expect(rt, "no memory");
        if let Some(left) = after_crash(rt, alloc, disk, &fates) {
            disks.push(left).expect(rt, "no memory");
        }
    }
}

/// The disks behind each crash and the next session.
fn crashes(rt: &impl Abort, alloc: Global, disk: &MemDisk) -> Vec<MemDisk> {
    let mut disks = Vec::new(alloc);
    for after in 0..=disk.calls().len() {
        if let Some(calls) = disk.calls().get(..after) {
            add_crashes(rt, alloc, disk, calls, &mut disks);
        }
    }
    disks
}

fn is_filled(pages: &[[u8; PAGE_WIDTH]], bytes: &[u8]) -> bool {
    if pages.len() != bytes.len() {
        return false;
    }
    for i in 0..pages.len() {
        if pages[i] != filled(bytes[i]) {
            return false;
        }
    }
    true
}

/// Which file a disk has.
#[derive(Clone, Copy, PartialEq, Eq)]
enum Found {
    Old,
    New,
    Neither,
}

fn found_on(disk: &MemDisk, new: &[u8]) -> Found {
    if is_filled(disk.pages(), &[1, 2]) {
        return Found::Old;
    }
    if is_filled(disk.pages(), new) {
        return Found::New;
    }
    Found::Neither
}

/// How many disks have the old file, the new one, neither, and another than they had.
#[derive(Clone, Copy)]
struct Tally {
    old: u32,
    new: u32,
    neither: u32,
    changed: u32,
}

impl Tally {
    fn new() -> Tally {
        Tally {
            old: 0,
            new: 0,
            neither: 0,
            changed: 0,
        }
    }

    fn note(&mut self, found: Found) {
        match found {
            Found::Old => self.old = self.old.saturating_add(1),
            Found::New => self.new = self.new.saturating_add(1),
            Found::Neither => self.neither = self.neither.saturating_add(1),
        }
    }

    fn note_again(&mut self, found: Found, before: Found) {
        self.note(found);
        if found != before {
            self.changed = self.changed.saturating_add(1);
        }
    }
}

/// Stops the recovery of a disk, after which it has to have the same file.
fn stop_once(rt: &impl Abort, alloc: Global, disk: &MemDisk, new: &[u8], tally: &mut Tally) {
    for again in &crashes(rt, alloc, disk) {
        tally.note_again(found_on(again, new), found_on(disk, new));
    }
}

/// Stops the recovery of each of these disks, and the one behind that.
fn stop_twice(rt: &impl Abort, alloc: Global, disk: &MemDisk, new: &[u8], tally: &mut Tally) {
    for again in &crashes(rt, alloc, disk) {
        tally.note_again(found_on(again, new), found_on(disk, new));
        stop_once(rt, alloc, again, new, tally);
    }
}

fn push_tally(text: &mut String, tally: &Tally) -> Result<(), AllocError> {
    let Tally {
        old,
        new,
        neither,
        changed,
    } = tally;
    write!(
        text,
        "{old} old, {new} new, {neither} neither, {changed} changed; "
    )
}

/// What is found where a closing is stopped, and then where the recovery behind that is.
fn expect_found(rt: &impl Abort, alloc: Global, closed: &MemDisk, new: &[u8], wanted: &str) {
    let mut stopped = Tally::new();
    let mut again = Tally::new();
    for disk in &crashes(rt, alloc, closed) {
        stopped.note(found_on(disk, new));
        stop_once(rt, alloc, disk, new, &mut again);
    }
    let mut text = String::new(alloc);
    push_tally(&mut text, &stopped).expect(rt, "no text");
    push_tally(&mut text, &again).expect(rt, "no text");
    expect_text(rt, &text, wanted);
}

/// The disk behind a closing that writes page 0 alone.
fn closed_first(rt: &impl Abort, alloc: Global) -> MemDisk {
    let mut store = opened(rt, alloc);
    store.seal(&[0]).expect(rt, "not sealed");
    put(&mut store, 0, 7).expect(rt, "not written");
    ended(rt, store)
}

#[test]
fn closing_is_stopped(rt: HostRuntime) {
    let alloc = rt.alloc();
    let wanted = "168 old, 2 new, 0 neither, 0 changed; 5668 old, 2 new, 0 neither, 0 changed; ";
    expect_found(&rt, alloc, &closed(&rt, alloc), &[7, 8, 9], wanted);
    expect_found(&rt, alloc, &closed_pages(&rt, alloc), &[7, 8], wanted);
    let wanted = "170 old, 0 new, 0 neither, 0 changed; 5670 old, 0 new, 0 neither, 0 changed; ";
    expect_found(&rt, alloc, &taken_back(&rt, alloc), &[], wanted);
}

/// The recovery is stopped, and the one behind that.
#[test]
fn recovery_is_stopped_twice(rt: HostRuntime) {
    let alloc = rt.alloc();
    let mut tally = Tally::new();
    for disk in &crashes(&rt, alloc, &closed_first(&rt, alloc)) {
        stop_twice(&rt, alloc, disk, &[7, 2], &mut tally);
    }
    let mut text = String::new(alloc);
    push_tally(&mut text, &tally).expect(&rt, "no text");
    expect_text(&rt, &text, "2496 old, 4 new, 0 neither, 0 changed; ");
}
