use super::{Row, add, expect_row};
use std::fmt::Write;
use std::process::Abort;

// Another transaction holds b, the log has no room, the file is full, c has no record, and the transaction has 32
// savepoints.
#[test]
fn rolling_is_the_first_refusal(rt: HostRuntime) {
    let alloc = rt.alloc();
    let mut script = String::new(alloc);
    let mut replies = String::new(alloc);
    add(&rt, &mut script, "begin\nbegin\n");
    add(&rt, &mut replies, "ok 1\nok 2\n");
    for n in 1..33 {
        add(&rt, &mut script, "save 1\n");
        writeln!(replies, "ok {n}").expect(&rt, "no memory");
    }
    add(&rt, &mut script, "put 1 a =x\nput 2 b =x\nback 1 32\nlog\n");
    add(
        &rt,
        &mut replies,
        "ok none\nok none\nstopped 0 1 Device\nok 2 4\n",
    );
    add(
        &rt,
        &mut script,
        "put 1 b =x\nput 1 c =x\nclaim 1 b\nclaim 1 c\ndel 1 b\ndel 1 c\nget 1 b\nsave 1\nrelease 1 0\nback 1 99\n",
    );
    add(
        &rt,
        &mut replies,
        "no Rolling\nno Rolling\nno Rolling\nno Rolling\nno Rolling\nno Rolling\nno Rolling\nno Rolling\nno Rolling\nno Rolling\n",
    );
    add(&rt, &mut script, "resume 1\nsave 1\n");
    add(&rt, &mut replies, "ok 1\nno TooDeep\n");
    expect_row(
        &rt,
        alloc,
        &Row {
            name: "rolling is the first refusal",
            limits: (2, 4, 2),
            failing: &[3],
            script: &script,
            replies: &replies,
            commands: 50,
        },
    )
}
