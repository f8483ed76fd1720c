use super::{answers_to, calls_of, shown, text_of, word};
use crate::expect_named;
use crate::running::flaky_file;
use rec_types::{FlakyTable, Key, Limits, Record, SortedTable, Table, TxId};
use record_file::{Keeper, KeeperFault, RecordFile};
use std::alloc::Global;
use std::process::Abort;

/// A keeper in memory that keeps so many commits, and answers any further one with this fault.
#[derive(Drop)]
struct KeptInMemory {
    kept: Vec<(Key, Option<Record>)>,
    left: u32,
    fault: KeeperFault,
}

impl<T: Table> Keeper<T> for KeptInMemory {
    ghost use Rattle.std.specs.Prelude.{◌≡◌, ⊤, true};
    ghost use mathlib.Core.Path.{◌∙◌};

    ghost keeps = { true };

    ghost answers = { λ _ _ _ _ _. ⊤ };

    ghost moves = { λ a b. T.origin b ≡ T.origin a };

    ghost moves_none = { λ a b same. same };

    ghost moves_on = { λ a b c first second. second ∙ first };

    fn keeps(&self) -> bool {
        true
    }

    fn keep(
        &mut self,
        _table: &mut T,
        writes: &[(Key, Option<Record>)],
    ) -> Result<(), KeeperFault> {
        if self.left == 0 {
            return Err(self.fault);
        }
        self.left -= 1;
        match self.kept.extend_from_slice(writes) {
            Ok(()) => Ok(()),
            Err(_) => Err(KeeperFault::Room),
        }
    }
}

/// A new file whose device fails at these calls of `set`.
fn new_file(
    rt: &impl Abort,
    alloc: Global,
    failing: &[u64],
) -> RecordFile<FlakyTable<SortedTable>> {
    let limits = Limits::new(9, 99, 9).expect(rt, "no limits");
    flaky_file(rt, alloc, SortedTable::new(alloc, limits), limits, failing)
}

/// Each key with the record that is put there, or with a dash.
fn push_writes(rt: &impl Abort, text: &mut String, writes: &[(Key, Option<Record>)]) {
    for entry in writes {
        write!(text, "{}={} ", shown(rt, &entry.0), word(rt, &entry.1)).expect(rt, "no memory");
    }
}

/// What the first transaction writes after the script, or why that isn't told.
fn told_after<T: Table>(
    rt: &impl Abort,
    alloc: Global,
    file: &mut RecordFile<T>,
    script: &str,
) -> String {
    answers_to(rt, alloc, file, &calls_of(rt, alloc, script));
    let mut text = String::new(alloc);
    match file.changes_of(TxId(1)) {
        Ok(writes) => push_writes(rt, &mut text, &writes),
        Err(fault) => write!(text, "{fault}").expect(rt, "no memory"),
    }
    text
}

/// Expects it of a new file whose device fails at these calls of `set`.
fn expect_told(rt: &impl Abort, alloc: Global, failing: &[u64], script: &str, wanted: &str) {
    let mut file = new_file(rt, alloc, failing);
    let text = told_after(rt, alloc, &mut file, script);
    expect_named(rt, script, text.as_str(), wanted);
}

#[test]
fn changes_are_told_of_active_transactions(rt: HostRuntime) {
    let alloc = rt.alloc();
    for (script, wanted) in [
        ("begin\n", ""),
        (
            "begin\nbegin\nput 1 b =x\nput 2 c =y\nput 1 a =\nclaim 1 d\nclaim 1 a\ndel 1 b\n",
            "b=x a= b=- ",
        ),
        (
            "begin\nput 1 a =x\nsave 1\nput 1 a =y\nclaim 1 b\nsave 1\ndel 1 a\nback 1 1\nput 1 c =z\n",
            "a=x c=z ",
        ),
        ("begin\nput 1 a =x\nback 1 0\n", ""),
        ("", "no such open transaction"),
        ("begin\nput 1 a =x\ncommit 1\n", "no such open transaction"),
    ] {
        expect_told(&rt, alloc, &[], script, wanted);
    }
    expect_told(
        &rt,
        alloc,
        &[2],
        "begin\nput 1 a =x\nback 1 0\n",
        "the transaction is being rolled back",
    );
}

/// A script over a new file; how many commits the keeper keeps, and its fault; which transactions are committed then; what
/// that answers, and what is kept; a script after that, and its answers.
#[derive(Clone, Copy)]
struct Row<'a> {
    script: &'a str,
    keeps: u32,
    fault: KeeperFault,
    commits: &'a [u32],
    answers: &'a str,
    then: &'a str,
    after: &'a str,
}

/// What the commits answer, and then what is kept.
fn commit_all<T: Table>(
    rt: &impl Abort,
    alloc: Global,
    file: &mut RecordFile<T>,
    keeper: &mut KeptInMemory,
    commits: &[u32],
) -> String {
    let mut text = String::new(alloc);
    for tx in commits {
        match file.commit_kept(TxId(*tx), keeper) {
            Ok(()) => text.push_str("ok; ").expect(rt, "no memory"),
            Err(fault) => write!(text, "{fault}; ").expect(rt, "no memory"),
        }
    }
    push_writes(rt, &mut text, &keeper.kept);
    text
}

/// Expects the row's answers of the file.
fn expect_kept<T: Table>(rt: &impl Abort, alloc: Global, file: &mut RecordFile<T>, row: &Row<'_>) {
    let mut keeper = KeptInMemory {
        kept: Vec::new(alloc),
        left: row.keeps,
        fault: row.fault,
    };
    answers_to(rt, alloc, file, &calls_of(rt, alloc, row.script));
    let text = commit_all(rt, alloc, file, &mut keeper, row.commits);
    expect_named(rt, row.script, text.as_str(), row.answers);
    let after = answers_to(rt, alloc, file, &calls_of(rt, alloc, row.then));
    expect_named(rt, row.then, text_of(rt, alloc, &after).as_str(), row.after);
}

const KEPT: [Row<'static>; 4] = [
    // In the order of the commits, and not of the changes.
    Row {
        script: "begin\nbegin\nput 1 a =x\nput 2 b =y\nclaim 1 c\nput 1 d =z\ndel 1 a\n",
        keeps: 9,
        fault: KeeperFault::Room,
        commits: &[2, 1, 1],
        answers: "ok; ok; no such open transaction; b=y a=x d=z a=- ",
        then: "list\n",
        after: "b=y d=z \n",
    },
    // A transaction that isn't kept is active, and can go on.
    Row {
        script: "begin\nbegin\nput 1 a =x\nput 2 b =y\n",
        keeps: 1,
        fault: KeeperFault::Room,
        commits: &[2, 1],
        answers: "ok; there is no room to keep the commit; b=y ",
        then: "put 1 c =z\nabort 1\nlist\n",
        after: "-\nOk(2)\nb=y \n",
    },
    Row {
        script: "begin\nput 1 a =x\n",
        keeps: 0,
        fault: KeeperFault::Doubt,
        commits: &[1, 1, 2],
        answers: "it isn't known whether the commit is kept; it isn't known whether the commit is kept; no such open transaction; ",
        then: "commit 1\nlist\n",
        after: "Ok(())\na=x \n",
    },
    // A commit that writes nothing is kept as well.
    Row {
        script: "begin\nput 1 a =x\nback 1 0\n",
        keeps: 1,
        fault: KeeperFault::Room,
        commits: &[1],
        answers: "ok; ",
        then: "list\n",
        after: "\n",
    },
];

#[test]
fn commits_are_kept_in_their_order(rt: HostRuntime) {
    let alloc = rt.alloc();
    for row in &KEPT {
        let mut file = new_file(&rt, alloc, &[]);
        expect_kept(&rt, alloc, &mut file, row);
    }
}
