// The program's tasks over files in memory, which are steady: what the tasks are proved to do says something of them.
ghost use Rattle.recfile.specs.Streams.{IsBlankFor};

use crate::crashes::filled;
use crate::expect_text;
use file_session::FileFault;
use page_journal::MemDisk;
use page_looks::{Reach, Wanted};
use page_store::MemStore;
use recfile::{DumpFault, PageFiles, Screen, StreamCalls, Telling, run_words};
use std::alloc::Global;
use std::io::Write;
use std::marker::Brand;
use std::process::Abort;
use std::sync::ledger::{Blank, Ledger};

/// The same file at every path.
struct OneFile;

impl PageFiles for OneFile {
    ghost use Rattle.std.specs.Prelude.{◌≡◌};
    ghost use Rattle.recfile_tests.specs.TwoPages.{two_filled_pages};

    type Device = MemDisk;

    type Pages = MemStore;

    ghost at = { λ _ _ files. files ≡ two_filled_pages };

    fn open(&self, alloc: Global, _path: &str) -> Result<MemDisk, FileFault> {
        match MemDisk::new(alloc, &[filled(1), filled(2)], 0) {
            Ok(disk) => Ok(disk),
            Err(_) => Err(FileFault::Memory),
        }
    }

    fn open_clean(&self, alloc: Global, _path: &str) -> Result<MemStore, FileFault> {
        match Vec::from_array(alloc, [filled(1), filled(2)]) {
            Ok(pages) => Ok(MemStore::new(pages, 0)),
            Err(_) => Err(FileFault::Memory),
        }
    }

    fn open_damaged<E: Write>(
        &self,
        alloc: Global,
        _path: &str,
        _err: &mut E,
    ) -> Result<(MemStore, Reach), FileFault> {
        let reach = Reach {
            header: None,
            seen: Vec::new(alloc),
        };
        match Vec::from_array(alloc, [filled(1), filled(2)]) {
            Ok(pages) => Ok((MemStore::new(pages, 0), reach)),
            Err(_) => Err(FileFault::Memory),
        }
    }

    fn create(&self, alloc: Global, _path: &str) -> Result<MemStore, FileFault> {
        Ok(MemStore::new(Vec::new(alloc), 0))
    }

    fn settle(
        &self,
        _alloc: Global,
        _path: &str,
        _store: &MemStore,
        made: Result<(), FileFault>,
    ) -> Result<(), FileFault> {
        made
    }

    fn tell<W: Write, E: Write>(
        &self,
        _alloc: Global,
        _telling: Telling,
        _path: &str,
        _out: &mut W,
        _err: &mut E,
    ) -> Result<bool, DumpFault> {
        Ok(false)
    }

    fn tell_why<E: Write>(&self, _alloc: Global, _wanted: Wanted, _path: &str, _err: &mut E) {}
}

/// Does what the words ask for, on that count, and answers the status.
fn words_counted<L: Ledger, W: Write, E: Screen>(
    alloc: Global,
    words: &[&str],
    out: &mut W,
    err: &mut E,
    blank: Blank,
) -> u8
    requires { IsBlankFor blank.name blank.parts L.name L.parts }
{
    let mut reader = "begin\n".as_bytes();
    let mut calls = StreamCalls::<L>::new(blank);
    run_words(&OneFile, alloc, words, &mut reader, out, err, &mut calls)
}

/// The status of these words, and what was written, with a stroke before what stands on standard error.
fn answer_to(rt: &impl Abort, alloc: Global, words: &[&str]) -> String {
    let (mut out, mut err) = (Vec::new(alloc), Vec::new(alloc));
    let status = words_counted::<Brand, Vec<u8>, Vec<u8>>(
        alloc,
        words,
        &mut out,
        &mut err,
        Blank::new(1),
    );
    let out = String::from_utf8(out).expect(rt, "no text");
    let err = String::from_utf8(err).expect(rt, "no text");
    format!(in alloc; "{status} {out}|{err}").expect(rt, "no memory")
}

/// Each task finds the file, which is no record file, and `create` makes one.
#[test]
fn tasks_find_what_is_handed_in(rt: HostRuntime) {
    let alloc = rt.alloc();
    for (command, wanted) in [
        ("run", "1 |recfile: BadMagic\n"),
        ("check", "1 |recfile: BadMagic\n"),
        ("dump", "1 |recfile: BadMagic\n"),
        ("rescue", "0 begin\ncommit 1\n|"),
        ("load", "3 |recfile: FieldCount in line 1\n"),
    ] {
        let text = answer_to(&rt, alloc, &["recfile", command, "file"]);
        expect_text(&rt, text.as_str(), wanted);
    }
    let text = answer_to(&rt, alloc, &["recfile", "create", "--order", "2", "file"]);
    expect_text(&rt, text.as_str(), "0 |");
}
