use super::{Lie, LyingTable};
use crate::expect_named;
use crate::running::{run, tree};
use rec_types::{Limits, SortedTable, Table};
use record_file::RecordFile;
use std::alloc::Global;
use std::process::Abort;

/// A script over a table that lies at calls with these numbers, for so many records.
#[derive(Clone, Copy)]
struct Row<'a> {
    name: &'a str,
    records: u32,
    lies: &'a [(u32, Lie)],
    script: &'a str,
    replies: &'a str,
}

/// Expects the replies.
fn expect_replies<T: Table>(
    rt: &impl Abort,
    alloc: Global,
    file: &mut RecordFile<T>,
    row: &Row<'_>,
) {
    let (text, end) = run(rt, alloc, file, row.script);
    expect_named(rt, row.name, text.as_str(), row.replies);
    assert!(rt; end.is_ok());
}

/// Expects them over a new file in the table.
fn expect_over<T: Table>(rt: &impl Abort, alloc: Global, inner: T, limits: Limits, row: &Row<'_>) {
    let table = LyingTable::new(
        inner,
        Vec::from_slice(alloc, row.lies).expect(rt, "no memory"),
    );
    assert!(rt; table.limit() == limits.records());
    let mut file = RecordFile::new(alloc, table, limits);
    expect_replies(rt, alloc, &mut file, row)
}

/// Expects them over a sorted table, and over a tree of order 1.
fn expect_row(rt: &impl Abort, alloc: Global, row: &Row<'_>) {
    let limits = Limits::new(row.records, 99, 9).expect(rt, "no limits");
    expect_over(rt, alloc, SortedTable::new(alloc, limits), limits, row);
    expect_over(rt, alloc, tree(rt, alloc, 1, limits), limits, row)
}

fn expect_rows(rt: &impl Abort, alloc: Global, rows: &[Row<'_>]) {
    for row in rows {
        expect_row(rt, alloc, row);
    }
}

// Each refused change is made again, and then its list and its log are those of one change.
const CHANGES: [Row<'static>; 4] = [
    Row {
        name: "no room for a new key where there is room",
        records: 9,
        lies: &[(1, Lie::NoRoom)],
        script: "begin\nput 1 a =x\nlist\nlog\nput 1 a =x\nlist\nlog\n",
        replies: "ok 1\nno Damaged 0\nok 0\nok 0 0\nok none\n- a =x @1\nok 1\nok 1 2\n",
    },
    Row {
        name: "no room for a key that is there",
        records: 1,
        lies: &[(2, Lie::NoRoom)],
        script: "begin\nput 1 a =x\nput 1 a =y\nlist\nlog\nput 1 a =y\n",
        replies: "ok 1\nok none\nno Damaged 0\n- a =x @1\nok 1\nok 1 2\nok =x\n",
    },
    Row {
        name: "no room to take a record out",
        records: 9,
        lies: &[(3, Lie::NoRoom)],
        script: "begin\nput 1 a =x\ndel 1 a\nlist\nlog\ndel 1 a\nlist\n",
        replies: "ok 1\nok none\nno Damaged 0\n- a =x @1\nok 1\nok 1 2\nok =x\nok 0\n",
    },
    Row {
        name: "nothing to take out where a record was seen",
        records: 9,
        lies: &[(3, Lie::Nothing)],
        script: "begin\nput 1 a =x\ndel 1 a\nlist\nlog\ndel 1 a\nlist\n",
        replies: "ok 1\nok none\nno Damaged 0\n- a =x @1\nok 1\nok 1 2\nok =x\nok 0\n",
    },
];

const DAMAGED_PAGES: [Row<'static>; 4] = [
    Row {
        name: "where a put looks whether the file is full",
        records: 1,
        lies: &[(2, Lie::Damaged(5))],
        script: "begin\nput 1 a =x\nput 1 b =y\nlog\nput 1 b =y\n",
        replies: "ok 1\nok none\nno Damaged 5\nok 1 2\nno Full\n",
    },
    Row {
        name: "where a record is put",
        records: 9,
        lies: &[(1, Lie::Damaged(6))],
        script: "begin\nput 1 a =x\nlist\nlog\nput 1 a =x\n",
        replies: "ok 1\nno Damaged 6\nok 0\nok 0 0\nok none\n",
    },
    Row {
        name: "where a removal looks, and where it takes out",
        records: 9,
        lies: &[(2, Lie::Damaged(7)), (4, Lie::Damaged(8))],
        script: "begin\nput 1 a =x\ndel 1 a\ndel 1 a\nlist\nlog\ndel 1 a\n",
        replies: "ok 1\nok none\nno Damaged 7\nno Damaged 8\n- a =x @1\nok 1\nok 1 2\nok =x\n",
    },
    Row {
        name: "where a key is looked up, and where all are listed",
        records: 9,
        lies: &[(2, Lie::Damaged(9)), (4, Lie::Damaged(10))],
        script: "begin\nput 1 a =x\nget 1 a\nget 1 a\nlist\nlist\n",
        replies: "ok 1\nok none\nno Damaged 9\nok =x\nno Damaged 10\n- a =x @1\nok 1\n",
    },
];

// A claim only looks, and taking it back asks nothing of the table.
const CLAIMS: [Row<'static>; 5] = [
    Row {
        name: "a claim sees nothing where a record stands",
        records: 9,
        lies: &[(2, Lie::Nothing)],
        script: "begin\nput 1 a =x\nsave 1\nclaim 1 a\nlist\nlog\nback 1 1\nlist\nlog\nclaim 1 a\n",
        replies: "ok 1\nok none\nok 1\nok none\n- a =x @1\nok 1\nok 2 4\nok 1\n- a =x @1\nok 1\nok 3 4\nok =x\n",
    },
    Row {
        name: "a damaged page where a claim looks",
        records: 9,
        lies: &[(1, Lie::Damaged(5)), (3, Lie::Damaged(6))],
        script: "begin\nclaim 1 a\nkeys 1\nlog\nclaim 1 a\nclaim 1 a\nkeys 1\nlog\n",
        replies: "ok 1\nno Damaged 5\nok 0\nok 0 0\nok none\nno Damaged 6\n- a\nok 1\nok 1 2\n",
    },
    Row {
        name: "a damaged page where a claim looks whether the file is full",
        records: 1,
        lies: &[(2, Lie::Damaged(5))],
        script: "begin\nput 1 a =x\nclaim 1 b\nkeys 1\nlog\nclaim 1 b\n",
        replies: "ok 1\nok none\nno Damaged 5\n- a\nok 1\nok 1 2\nno Full\n",
    },
    Row {
        name: "a claim looks once, and so does the next",
        records: 1,
        lies: &[(3, Lie::Nothing)],
        script: "begin\nput 1 a =x\ncommit 1\nbegin\nclaim 2 a\nclaim 2 a\nkeys 2\nback 2 0\nlist\n",
        replies: "ok 1\nok none\nok\nok 2\nok =x\nok none\n- a\nok 1\nok 2\n- a =x\nok 1\n",
    },
    Row {
        name: "a damaged page above a claim, and one below it",
        records: 9,
        lies: &[(4, Lie::Damaged(5)), (6, Lie::Damaged(6))],
        script: "begin\nput 1 a =1\nclaim 1 b\nput 1 b =2\nabort 1\nkeys 1\nresume 1\nkeys 1\nresume 1\nlog\n",
        replies: "ok 1\nok none\nok none\nok none\nstopped 0 3 Damaged 5\n- a\n- b\nok 2\nstopped 2 1 Damaged 6\n- a\nok 1\nok 1\nok 6 6\n",
    },
];

const STOPPED_ROLLBACKS: [Row<'static>; 3] = [
    Row {
        name: "no room to put a record back",
        records: 9,
        lies: &[(5, Lie::NoRoom)],
        script: "begin\nbegin\nput 1 a =1\nput 1 a =2\nput 1 b =3\nback 1 0\nlist\nlog\nput 2 b =4\nput 2 a =5\nresume 1\nlist\nlog\n",
        replies: "ok 1\nok 2\nok none\nok =1\nok none\nstopped 1 2 Damaged 0\n- a =2 @1\nok 1\nok 4 6\nok none\nno Held 1\nok 2\n- b =4 @2\nok 1\nok 7 8\n",
    },
    Row {
        name: "a damaged page, twice",
        records: 9,
        lies: &[(3, Lie::Damaged(11)), (4, Lie::Damaged(12))],
        script: "begin\nput 1 a =1\nput 1 b =2\nabort 1\nresume 1\nlist\nresume 1\nlist\nresume 1\n",
        replies: "ok 1\nok none\nok none\nstopped 0 2 Damaged 11\nstopped 0 2 Damaged 12\n- a =1 @1\n- b =2 @1\nok 2\nok 2\nok 0\nno NoSuchTx\n",
    },
    Row {
        name: "what the file refuses is refused before the table is asked",
        records: 1,
        lies: &[(2, Lie::NoRoom)],
        script: "begin\nbegin\nput 1 a =1\nback 1 0\nput 1 b =2\nclaim 1 b\ndel 1 a\nget 1 a\nput 2 a =2\nclaim 2 a\ndel 2 a\nget 2 a\nput 3 a =3\nclaim 3 a\nback 2 1\nresume 2\nresume 1\n",
        replies: "ok 1\nok 2\nok none\nstopped 0 1 Damaged 0\nno Rolling\nno Rolling\nno Rolling\nno Rolling\nno Held 1\nno Held 1\nno Held 1\nno Held 1\nno NoSuchTx\nno NoSuchTx\nno NoSuchSave\nno NotRolling\nok 1\n",
    },
];

#[test]
fn what_a_lie_leaves(rt: HostRuntime) {
    expect_rows(&rt, rt.alloc(), &CHANGES);
    expect_rows(&rt, rt.alloc(), &DAMAGED_PAGES);
    expect_rows(&rt, rt.alloc(), &CLAIMS);
    expect_rows(&rt, rt.alloc(), &STOPPED_ROLLBACKS)
}
