use super::{Row, expect_row};
use std::alloc::Global;
use std::process::Abort;

fn expect_rows(rt: &impl Abort, alloc: Global, rows: &[Row<'_>]) {
    for row in rows {
        expect_row(rt, alloc, row);
    }
}

pub const COMMIT_BESIDE: Row<'static> = Row {
    name: "a rollback leaves what another committed",
    limits: (1_000_000, 4_000_000, 1_000_000),
    failing: &[],
    script: "begin\nbegin\nsave 1\nput 1 b =1\nput 2 d =2\ncommit 2\nback 1 1\nlist\n",
    replies: "ok 1\nok 2\nok 1\nok none\nok none\nok\nok 1\n- d =2\nok 1\n",
    commands: 8,
};

pub const OWNER_LEFT: Row<'static> = Row {
    name: "a partial rollback frees what no change names",
    limits: (1_000_000, 4_000_000, 1_000_000),
    failing: &[],
    script: "begin\nbegin\nput 1 a =1\nsave 1\nput 1 a =2\nback 1 1\nput 2 a =9\nget 1 a\n",
    replies: "ok 1\nok 2\nok none\nok 1\nok =1\nok 1\nno Held 1\nok =1\n",
    commands: 8,
};

pub const TWO_ROLLBACKS: Row<'static> = Row {
    name: "two partial rollbacks",
    limits: (1_000_000, 4_000_000, 1_000_000),
    failing: &[],
    script: "begin\nsave 1\nput 1 a =1\nsave 1\nput 1 a =2\nsave 1\nput 1 b =3\nback 1 2\nput 1 c =4\nsave 1\nback 1 1\nlist\nlog\n",
    replies: "ok 1\nok 1\nok none\nok 2\nok =1\nok 3\nok none\nok 2\nok none\nok 3\nok 2\nok 0\nok 8 8\n",
    commands: 13,
};

pub const CHARGED_KEYS: Row<'static> = Row {
    name: "charged keys fill a file",
    limits: (2, 4_000_000, 1_000_000),
    failing: &[],
    script: "begin\nput 1 a =x\nput 1 b =y\ncommit 1\nbegin\nbegin\ndel 2 a\ndel 2 a\nput 3 c =z\nput 2 c =z\ncommit 2\nput 3 c =z\n",
    replies: "ok 1\nok none\nok none\nok\nok 2\nok 3\nok =x\nno Absent\nno Full\nno Full\nok\nok none\n",
    commands: 12,
};

pub const STOPPED: Row<'static> = Row {
    name: "a stopped rollback goes on",
    limits: (1_000_000, 4_000_000, 1_000_000),
    failing: &[5],
    script: "begin\nbegin\nput 1 a =1\nput 1 b =2\nput 1 c =3\nback 1 0\nput 1 d =4\nput 2 e =5\nput 2 b =9\nput 2 c =9\nresume 1\nlist\nlog\ncommit 1\n",
    replies: "ok 1\nok 2\nok none\nok none\nok none\nstopped 1 2 Device\nno Rolling\nok none\nno Held 1\nok none\nok 2\n- c =9 @2\n- e =5 @2\nok 2\nok 8 10\nok\n",
    commands: 14,
};

pub const SPLITS: Row<'static> = Row {
    name: "keys split and catenate",
    limits: (1_000_000, 4_000_000, 1_000_000),
    failing: &[],
    script: "begin\nput 1 a =v\nput 1 b =v\nput 1 c =v\nput 1 d =v\nput 1 e =v\nput 1 f =v\nput 1 g =v\ndel 1 a\ndel 1 c\ndel 1 b\nback 1 0\nlist\n",
    replies: "ok 1\nok none\nok none\nok none\nok none\nok none\nok none\nok none\nok =v\nok =v\nok =v\nok 10\nok 0\n",
    commands: 13,
};

pub const BESIDE_A_ROOT: Row<'static> = Row {
    name: "an owned key is held, 2",
    limits: (1_000_000, 4_000_000, 1_000_000),
    failing: &[],
    script: "begin\nbegin\nput 1 b =1\nput 2 a =2\nput 2 c =3\nback 1 0\nlist\n",
    replies: "ok 1\nok 2\nok none\nok none\nok none\nok 1\n- a =2 @2\n- c =3 @2\nok 2\n",
    commands: 7,
};

pub const CLAIMS_FILL: Row<'static> = Row {
    name: "claimed keys fill a file",
    limits: (2, 4_000_000, 1_000_000),
    failing: &[],
    script: "begin\nbegin\nput 1 a =x\ncommit 1\nbegin\nclaim 2 a\nput 3 a =y\nclaim 2 b\nput 3 c =z\nclaim 3 c\nkeys 2\nback 2 0\nput 3 a =y\nlist\nlog\n",
    replies: "ok 1\nok 2\nok none\nok\nok 3\nok =x\nno Held 2\nok none\nno Full\nno Full\n- a\n- b\nok 2\nok 2\nok =x\n- a =y @3\nok 1\nok 6 7\n",
    commands: 15,
};

pub const CLAIM_IN_A_STOP: Row<'static> = Row {
    name: "a stopped rollback has taken a claim back",
    limits: (1_000_000, 4_000_000, 1_000_000),
    failing: &[4],
    script: "begin\nbegin\nput 1 a =1\nclaim 1 b\nput 1 b =2\nback 1 0\nput 2 b =9\nput 2 a =9\nresume 1\nlist\nlog\n",
    replies: "ok 1\nok 2\nok none\nok none\nok none\nstopped 2 1 Device\nok none\nno Held 1\nok 1\n- b =9 @2\nok 1\nok 7 8\n",
    commands: 11,
};

pub const CLAIM_OVER_A_PUT: Row<'static> = Row {
    name: "a claim goes back and the change under it stays",
    limits: (1_000_000, 4_000_000, 1_000_000),
    failing: &[],
    script: "begin\nbegin\nput 1 a =1\nsave 1\nclaim 1 a\nback 1 1\nput 2 a =9\n",
    replies: "ok 1\nok 2\nok none\nok 1\nok =1\nok 1\nno Held 1\n",
    commands: 7,
};

pub const CLAIMS_BESIDE: Row<'static> = Row {
    name: "claims of two transactions",
    limits: (1_000_000, 4_000_000, 1_000_000),
    failing: &[],
    script: "begin\nbegin\nclaim 1 a\nput 1 a =1\nclaim 1 a\nsave 1\nclaim 1 b\nclaim 2 b\nclaim 2 c\nback 1 1\nclaim 2 b\nput 1 c =2\ncommit 1\nclaim 2 a\nkeys 2\nlist\nlog\n",
    replies: "ok 1\nok 2\nok none\nok none\nok =1\nok 1\nok none\nno Held 1\nok none\nok 1\nok none\nno Held 2\nok\nok =1\n- a\n- b\n- c\nok 3\n- a =1 @2\nok 1\nok 8 11\n",
    commands: 17,
};

const ONE_TRANSACTION: [Row<'static>; 8] = [
    Row {
        name: "an empty file",
        limits: (1_000_000, 4_000_000, 1_000_000),
        failing: &[],
        script: "begin\nget 1 a\nlist\ncommit 1\n",
        replies: "ok 1\nok none\nok 0\nok\n",
        commands: 4,
    },
    Row {
        name: "a second put answers the first record",
        limits: (1_000_000, 4_000_000, 1_000_000),
        failing: &[],
        script: "begin\nput 1 a =x\nput 1 a =y\nget 1 a\n",
        replies: "ok 1\nok none\nok =x\nok =y\n",
        commands: 4,
    },
    Row {
        name: "a rollback takes every change back",
        limits: (1_000_000, 4_000_000, 1_000_000),
        failing: &[],
        script: "begin\nput 1 a =x\nput 1 a =y\nget 1 a\nback 1 0\nget 1 a\nkeys 1\nlog\n",
        replies: "ok 1\nok none\nok =x\nok =y\nok 2\nok none\nok 0\nok 4 4\n",
        commands: 8,
    },
    Row {
        name: "a rollback takes every change back, 2",
        limits: (1_000_000, 4_000_000, 1_000_000),
        failing: &[],
        script: "begin\nput 1 a =x\nput 1 b =y\nput 1 a =z\nback 1 1\nback 1 0\nlist\nback 1 0\n",
        replies: "ok 1\nok none\nok none\nok =x\nno NoSuchSave\nok 3\nok 0\nok 0\n",
        commands: 8,
    },
    TWO_ROLLBACKS,
    Row {
        name: "the log keeps room to take back",
        limits: (1_000_000, 4, 1_000_000),
        failing: &[],
        script: "begin\nput 1 a =x\nput 1 b =y\nput 1 c =z\ndel 1 a\nlog\nback 1 0\nlog\nput 1 a =x\ncommit 1\n",
        replies: "ok 1\nok none\nok none\nno LogFull\nno LogFull\nok 2 4\nok 2\nok 4 4\nno LogFull\nok\n",
        commands: 10,
    },
    SPLITS,
    Row {
        name: "keys are listed in their order",
        limits: (1_000_000, 4_000_000, 1_000_000),
        failing: &[],
        script: "begin\nput 1 c =v\nput 1 a =v\nput 1 d =v\nput 1 b =v\ndel 1 a\nkeys 1\nback 1 0\nkeys 1\n",
        replies: "ok 1\nok none\nok none\nok none\nok none\nok =v\n- a\n- b\n- c\n- d\nok 4\nok 5\nok 0\n",
        commands: 9,
    },
];

const LINES: [Row<'static>; 3] = [
    Row {
        name: "lines that say nothing or cannot be read",
        limits: (1_000_000, 4_000_000, 1_000_000),
        failing: &[],
        script: "\n# note\nfrob\nget 1\nget -1 a\nget 4294967296 a\nput 1 a x\nbegin\n  commit   01",
        replies: "bad UnknownCommand\nbad WordCount\nbad BadNumber\nbad BadNumber\nbad NoRecordMark\nok 1\nok\n",
        commands: 2,
    },
    Row {
        name: "lines of every kind",
        limits: (1_000_000, 4_000_000, 1_000_000),
        failing: &[],
        script: "  begin  \r\nsave 1\r\r\n  # note\nsave 1#\n#save 1\n\r\n   \nsave 00000000000000000000000000000000000001\nsave 4294967295\nsave 4294967296\ncommit 1 1\ncommit\nlog",
        replies: "ok 1\nbad BadNumber\nbad BadNumber\nok 1\nno NoSuchTx\nbad BadNumber\nbad WordCount\nbad WordCount\nok 0 0\n",
        commands: 4,
    },
    Row {
        name: "keys and records in escapes",
        limits: (1_000_000, 4_000_000, 1_000_000),
        failing: &[],
        script: "begin\nput 1 abcdefghijklmnop =\nput 1 abcdefghijklmnopq =\nput 1 %00 =abcdefghijklmnopqrstuvwxyz012345\nput 1 %00 =abcdefghijklmnopqrstuvwxyz0123456\nput 1 %zz =%c3%A9%\nlist\nput 1 z =zzzzzzzzzzzzzzzzzzzzzzzzzzzzzzzzzzzzzzzzzzzzzzzzzzzzzzzzzzzzzzzzzzzzzzzzzzzzzzzzzzzzzzzzzzzzzzzzzzzz\nput 1 z =zzzzzzzzzzzzzzzzzzzzzzzzzzzzzzzzzzzzzzzzzzzzzzzzzzzzzzzzzzzzzzzzzzzzzzzzzzzzzzzzzzzzzzzzzzzzzzzzzzzzz\n",
        replies: "ok 1\nok none\nbad KeyTooLong\nok none\nok =abcdefghijklmnopqrstuvwxyz012345\nok none\n- %00 =abcdefghijklmnopqrstuvwxyz0123456 @1\n- %25zz =%C3%A9%25 @1\n- abcdefghijklmnop = @1\nok 3\nok none\nbad RecordTooLong\n",
        commands: 7,
    },
];

const SEVERAL_TRANSACTIONS: [Row<'static>; 6] = [
    Row {
        name: "one transaction may be begun",
        limits: (1_000_000, 4_000_000, 1),
        failing: &[],
        script: "begin\nput 1 a =x\nput 1 a =y\nbegin\nlist\n",
        replies: "ok 1\nok none\nok =x\nno BeginsSpent\n- a =y @1\nok 1\n",
        commands: 5,
    },
    COMMIT_BESIDE,
    OWNER_LEFT,
    Row {
        name: "a partial rollback frees what no change names, 2",
        limits: (1_000_000, 4_000_000, 1_000_000),
        failing: &[],
        script: "begin\nbegin\nsave 1\nput 1 a =2\nget 2 a\nback 1 1\nput 2 a =9\nget 1 a\n",
        replies: "ok 1\nok 2\nok 1\nok none\nno Held 1\nok 1\nok none\nno Held 2\n",
        commands: 8,
    },
    CHARGED_KEYS,
    Row {
        name: "ended transactions are gone",
        limits: (1_000_000, 4_000_000, 2),
        failing: &[],
        script: "begin\ncommit 1\ncommit 1\nget 1 a\nresume 1\nkeys 1\nput 0 a =x\nbegin\nresume 2\nabort 2\nabort 2\nbegin\n",
        replies: "ok 1\nok\nno NoSuchTx\nno NoSuchTx\nno NoSuchTx\nno NoSuchTx\nno NoSuchTx\nok 2\nno NotRolling\nok 0\nno NoSuchTx\nno BeginsSpent\n",
        commands: 12,
    },
];

const HELD_KEYS: [Row<'static>; 6] = [
    Row {
        name: "an owned key is held",
        limits: (1_000_000, 4_000_000, 1_000_000),
        failing: &[],
        script: "begin\nbegin\nput 1 a =1\nput 2 a =2\nput 2 b =3\nback 1 0\nput 2 a =2\ncommit 2\ndel 1 b\nabort 1\nlist\ncommit 1\n",
        replies: "ok 1\nok 2\nok none\nno Held 1\nok none\nok 1\nok none\nok\nok =3\nok 1\n- a =2\n- b =3\nok 2\nno NoSuchTx\n",
        commands: 12,
    },
    BESIDE_A_ROOT,
    Row {
        name: "a session with a held key",
        limits: (1_000_000, 4_000_000, 1_000_000),
        failing: &[],
        script: "begin\nbegin\nput 1 apple =red\nsave 1\nput 1 apple =green\nsave 1\nput 1 plum =dark%20blue\nput 2 pear =yellow\nput 1 pear =brown\nput 1 fig brown\nback 1 1\nkeys 1\nlist\nlog\ncommit 1\nabort 2\nlist\n",
        replies: "ok 1\nok 2\nok none\nok 1\nok =red\nok 2\nok none\nok none\nno Held 2\nbad NoRecordMark\nok 2\n- apple\nok 1\n- apple =red @1\n- pear =yellow @2\nok 2\nok 6 8\nok\nok 1\n- apple =red\nok 1\n",
        commands: 16,
    },
    Row {
        name: "the first refusal is answered",
        limits: (1, 2, 3),
        failing: &[],
        script: "begin\nbegin\nput 1 a =x\nput 2 a =y\ndel 2 a\nget 2 a\nput 1 b =y\ndel 1 b\nput 3 a =x\ndel 3 a\nget 3 a\nback 3 1\nrelease 3 1\nrelease 1 1\nback 1 1\nkeys 3\nbegin\nbegin\n",
        replies: "ok 1\nok 2\nok none\nno Held 1\nno Held 1\nno Held 1\nno LogFull\nno LogFull\nno NoSuchTx\nno NoSuchTx\nno NoSuchTx\nno NoSuchTx\nno NoSuchTx\nno NoSuchSave\nno NoSuchSave\nno NoSuchTx\nok 3\nno BeginsSpent\n",
        commands: 18,
    },
    Row {
        name: "held comes before what the table decides",
        limits: (1, 2, 2),
        failing: &[],
        script: "begin\nbegin\nput 1 a =x\nput 2 a =x\ndel 2 a\nput 2 c =x\ndel 2 c\n",
        replies: "ok 1\nok 2\nok none\nno Held 1\nno Held 1\nno LogFull\nno LogFull\n",
        commands: 7,
    },
    Row {
        name: "held comes before what the table decides, 2",
        limits: (1, 9, 2),
        failing: &[],
        script: "begin\nbegin\nput 1 a =x\ndel 1 a\nput 2 a =x\ndel 2 a\nput 2 c =x\ndel 2 c\n",
        replies: "ok 1\nok 2\nok none\nok =x\nno Held 1\nno Held 1\nno Full\nno Absent\n",
        commands: 8,
    },
];

const CLAIMS: [Row<'static>; 8] = [
    CLAIMS_FILL,
    CLAIM_IN_A_STOP,
    CLAIM_OVER_A_PUT,
    CLAIMS_BESIDE,
    Row {
        name: "a claim is refused as a put is",
        limits: (1, 4, 3),
        failing: &[],
        script: "begin\nbegin\nclaim 1 a\nclaim 2 a\ndel 2 a\nget 2 a\nclaim 2 b\nput 2 b =x\ndel 2 b\nput 1 a =x\nlog\nclaim 1 a\nclaim 1 b\nclaim 2 a\nclaim 2 b\nclaim 3 a\nlog\n",
        replies: "ok 1\nok 2\nok none\nno Held 1\nno Held 1\nno Held 1\nno Full\nno Full\nno Absent\nok none\nok 2 4\nno LogFull\nno LogFull\nno Held 1\nno LogFull\nno NoSuchTx\nok 2 4\n",
        commands: 17,
    },
    Row {
        name: "a claim of a key with a record is not full",
        limits: (1, 4_000_000, 3),
        failing: &[],
        script: "begin\nput 1 a =x\ncommit 1\nbegin\nclaim 2 b\nclaim 2 a\nclaim 2 a\ndel 2 a\nclaim 2 a\nclaim 2 b\nlog\nback 2 0\nkeys 2\nlist\n",
        replies: "ok 1\nok none\nok\nok 2\nno Full\nok =x\nok =x\nok =x\nok none\nno Full\nok 5 9\nok 4\nok 0\n- a =x\nok 1\n",
        commands: 14,
    },
    Row {
        name: "a claimed key is free once its transaction has ended",
        limits: (1, 4_000_000, 4),
        failing: &[],
        script: "begin\nbegin\nclaim 1 a\nput 2 b =x\ncommit 1\nput 2 b =x\nback 2 0\nbegin\nclaim 3 c\nclaim 2 c\nabort 3\nclaim 2 c\nlist\n",
        replies: "ok 1\nok 2\nok none\nno Full\nok\nok none\nok 1\nok 3\nok none\nno Held 3\nok 1\nok none\nok 0\n",
        commands: 13,
    },
    Row {
        name: "claims alone change no record",
        limits: (1_000_000, 4_000_000, 1_000_000),
        failing: &[2],
        script: "begin\nput 1 a =x\ncommit 1\nbegin\nclaim 2 a\nsave 2\nclaim 2 b\nclaim 2 a\nback 2 1\nkeys 2\nabort 2\nlist\nlog\n",
        replies: "ok 1\nok none\nok\nok 2\nok =x\nok 1\nok none\nok =x\nok 2\n- a\nok 1\nok 1\n- a =x\nok 1\nok 7 7\n",
        commands: 13,
    },
];

const ORDERED: [Row<'static>; 5] = [
    Row {
        name: "an empty file has no neighbours",
        limits: (1_000_000, 4_000_000, 1_000_000),
        failing: &[],
        script: "from a 2\nupto a 2\nfrom %00 1\nupto abcdefghijklmnop 1\ncommitted a\n",
        replies: "ok 0\nok 0\nok 0\nok 0\nok none\n",
        commands: 5,
    },
    Row {
        name: "one record, at it, below and above",
        limits: (1_000_000, 4_000_000, 1_000_000),
        failing: &[],
        script: "begin\nput 1 b =x\nfrom a 9\nfrom b 9\nfrom b%00 9\nupto a%ff 9\nupto b 9\nupto c 9\nfrom b 0\n",
        replies: "ok 1\nok none\n- b =x @1\nok 1\n- b =x @1\nok 1\nok 0\nok 0\n- b =x @1\nok 1\n- b =x @1\nok 1\nok 0\n",
        commands: 9,
    },
    Row {
        name: "keys that begin as others do",
        limits: (1_000_000, 4_000_000, 1_000_000),
        failing: &[],
        script: "begin\nput 1 ab =2\nput 1 a =1\nput 1 %00 =0\nput 1 abcdefghijklmnop =3\nput 1 b =4\ncommit 1\nfrom a 2\nfrom ab 2\nfrom abc 1\nfrom abcdefghijklmnop 9\nupto abc 2\nupto %00 9\nupto b 2\nfrom c 1\n",
        replies: "ok 1\nok none\nok none\nok none\nok none\nok none\nok\n- a =1\n- ab =2\nok 2\n- ab =2\n- abcdefghijklmnop =3\nok 2\n- abcdefghijklmnop =3\nok 1\n- abcdefghijklmnop =3\n- b =4\nok 2\n- ab =2\n- a =1\nok 2\n- %00 =0\nok 1\n- b =4\n- abcdefghijklmnop =3\nok 2\nok 0\n",
        commands: 15,
    },
    Row {
        name: "keys in inner pages, a split and a catenation",
        limits: (1_000_000, 4_000_000, 1_000_000),
        failing: &[],
        script: "begin\nput 1 a =v\nput 1 b =v\nput 1 c =v\nput 1 d =v\nput 1 e =v\nput 1 f =v\nput 1 g =v\ncommit 1\nfrom b 3\nupto f 3\nfrom d%00 1\nupto c%ff 1\nbegin\ndel 2 c\ndel 2 d\ndel 2 b\nfrom b 2\nupto d 2\nupto g 9\n",
        replies: "ok 1\nok none\nok none\nok none\nok none\nok none\nok none\nok none\nok\n- b =v\n- c =v\n- d =v\nok 3\n- f =v\n- e =v\n- d =v\nok 3\n- e =v\nok 1\n- c =v\nok 1\nok 2\nok =v\nok =v\nok =v\n- e =v\n- f =v\nok 2\n- a =v\nok 1\n- g =v\n- f =v\n- e =v\n- a =v\nok 4\n",
        commands: 20,
    },
    Row {
        name: "what open transactions have put and taken out",
        limits: (1_000_000, 4_000_000, 1_000_000),
        failing: &[],
        script: "begin\nbegin\nput 1 a =1\nput 1 b =2\ncommit 1\nput 2 a =3\ndel 2 b\nput 2 c =4\nbegin\nclaim 3 d\nfrom a 9\nupto c 1\ncommitted a\ncommitted b\ncommitted c\ncommitted d\nback 2 0\nfrom a 9\ncommitted a\nabort 3\ncommitted d\n",
        replies: "ok 1\nok 2\nok none\nok none\nok\nok =1\nok =2\nok none\nok 3\nok none\n- a =3 @2\n- c =4 @2\nok 2\n- c =4 @2\nok 1\nok =1\nok =2\nok none\nok none\nok 3\n- a =1\n- b =2\nok 2\nok =1\nok 1\nok none\n",
        commands: 21,
    },
];

const STOPPED_ROLLBACKS: [Row<'static>; 3] = [
    STOPPED,
    Row {
        name: "a stopped rollback goes on, 2",
        limits: (1_000_000, 4_000_000, 1_000_000),
        failing: &[1, 3, 4, 5],
        script: "begin\nput 1 a =x\nput 1 a =x\nback 1 0\nlist\nresume 1\nresume 1\nresume 1\nlist\nlog\n",
        replies: "ok 1\nno Device\nok none\nstopped 0 1 Device\n- a =x @1\nok 1\nstopped 0 1 Device\nstopped 0 1 Device\nok 1\nok 0\nok 2 2\n",
        commands: 10,
    },
    Row {
        name: "a stopped rollback goes on, 3",
        limits: (1_000_000, 4_000_000, 1_000_000),
        failing: &[2],
        script: "begin\nput 1 a =x\nabort 1\nget 1 a\nback 1 0\ncommit 1\nabort 1\nresume 1\nresume 1\n",
        replies: "ok 1\nok none\nstopped 0 1 Device\nno Rolling\nno Rolling\nno Rolling\nno Rolling\nok 1\nno NoSuchTx\n",
        commands: 9,
    },
];

#[test]
fn scripts_over_every_table(rt: HostRuntime) {
    let alloc = rt.alloc();
    expect_rows(&rt, alloc, &ONE_TRANSACTION);
    expect_rows(&rt, alloc, &LINES);
    expect_rows(&rt, alloc, &SEVERAL_TRANSACTIONS);
    expect_rows(&rt, alloc, &HELD_KEYS);
    expect_rows(&rt, alloc, &CLAIMS);
    expect_rows(&rt, alloc, &ORDERED);
    expect_rows(&rt, alloc, &STOPPED_ROLLBACKS)
}
