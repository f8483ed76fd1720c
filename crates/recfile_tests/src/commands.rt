use crate::{expect_named, expect_text};
use command_text::{Command, EntryList, KeyList, LineFault, Reply, read_line, write_reply};
use rec_types::{Entry, Key, Record, TxId};
use record_file::{
    AbortFault, BeginFault, Cause, ClaimFault, CommitFault, EntriesFault, GetFault, KeysOfFault,
    PutFault, ReleaseFault, RemoveFault, ResumeFault, RollbackToFault, SavepointFault,
};
use std::alloc::{AllocError, Global};
use std::process::Abort;

/// Appends a command with its arguments.
fn push_command(text: &mut String, command: Command) -> Result<(), AllocError> {
    match command {
        Command::Begin => write!(text, "begin"),
        Command::Put(tx, key, record) => {
            write!(text, "put {} {:?} {:?}", tx.0, key.bytes(), record.bytes())
        }
        Command::Claim(tx, key) => write!(text, "claim {} {:?}", tx.0, key.bytes()),
        Command::Del(tx, key) => write!(text, "del {} {:?}", tx.0, key.bytes()),
        Command::Get(tx, key) => write!(text, "get {} {:?}", tx.0, key.bytes()),
        Command::Save(tx) => write!(text, "save {}", tx.0),
        Command::Release(tx, n) => write!(text, "release {} {n}", tx.0),
        Command::Back(tx, n) => write!(text, "back {} {n}", tx.0),
        Command::Resume(tx) => write!(text, "resume {}", tx.0),
        Command::Abort(tx) => write!(text, "abort {}", tx.0),
        Command::Commit(tx) => write!(text, "commit {}", tx.0),
        Command::List => write!(text, "list"),
        Command::From(key, n) => write!(text, "from {:?} {n}", key.bytes()),
        Command::Upto(key, n) => write!(text, "upto {:?} {n}", key.bytes()),
        Command::Committed(key) => write!(text, "committed {:?}", key.bytes()),
        Command::Keys(tx) => write!(text, "keys {}", tx.0),
        Command::Log => write!(text, "log"),
    }
}

/// What each line says: a command with its arguments, `-` for none, or a fault.
fn said(alloc: Global, lines: &str) -> Result<String, AllocError> {
    let mut text = String::new(alloc);
    for line in lines.as_bytes().split(|b| *b == b'\n') {
        match read_line(line) {
            Ok(None) => text.push_str("-")?,
            Ok(Some(command)) => push_command(&mut text, command)?,
            Err(fault) => write!(text, "{fault}")?,
        }
        text.push_str("\n")?;
    }
    Ok(text)
}

/// Expects that the lines say this, line by line.
fn expect(rt: &impl Abort, alloc: Global, lines: &str, wanted: &str) {
    let text = said(alloc, lines).expect(rt, "no memory");
    expect_text(rt, text.as_str(), wanted)
}

/// Lines, and what each of them says.
const LINES: [(&str, &str, &str); 11] = [
    (
        "each command is read",
        "begin\nput 1 a =x\ndel 2 b\nget 3 c\nsave 4\nrelease 5 6\nback 7 8\nresume 9\nabort 10\ncommit 11\nlist\nkeys 12\nlog\nclaim 13 d",
        "begin\nput 1 [97] [120]\ndel 2 [98]\nget 3 [99]\nsave 4\nrelease 5 6\nback 7 8\nresume 9\nabort 10\ncommit 11\nlist\nkeys 12\nlog\nclaim 13 [100]\n",
    ),
    (
        "lines without a command",
        "\n   \n\r\n  \r\n# note\n  # note\n#begin\n#\n#\r\n \r ",
        "-\n-\n-\n-\n-\n-\n-\n-\n-\nUnknownCommand\n",
    ),
    (
        "names are whole words",
        "frob\nBegin\nbeginx\nbegi\nb#\nput# 1 a =x\nbegin\tx\n%62egin\nfrob x y z u v",
        "UnknownCommand\nUnknownCommand\nUnknownCommand\nUnknownCommand\nUnknownCommand\nUnknownCommand\nUnknownCommand\nUnknownCommand\nUnknownCommand\n",
    ),
    (
        "spaces and line ends",
        "  begin  \n  commit   01\nput  1  a  =x  \nbegin\r\nbegin \r\nbegin\r\r\nbe\rgin\n\rbegin\nget 1 a\rb\nget 1 a\r\r\ncommit 1\r\ncommit 1\r\r",
        "begin\ncommit 1\nput 1 [97] [120]\nbegin\nbegin\nUnknownCommand\nUnknownCommand\nUnknownCommand\nget 1 [97, 13, 98]\nget 1 [97, 13]\ncommit 1\nBadNumber\n",
    ),
    (
        "numbers have 32 bits",
        "save 0\nsave 4294967295\nsave 4294967296\nsave 4294967300\nsave 0000000000000000000000000000000000000007\nsave 9999999999999999999999999999999999999999\nsave 18446744073709551617\nsave -1\nsave +1\nsave 1x\nsave x1\nsave 0x1\nsave 1:\nsave 1/\nrelease 004294967295 0004294967295\nback 1 4294967296\nback 4294967296 1",
        "save 0\nsave 4294967295\nBadNumber\nBadNumber\nsave 7\nBadNumber\nBadNumber\nBadNumber\nBadNumber\nBadNumber\nBadNumber\nBadNumber\nBadNumber\nBadNumber\nrelease 4294967295 4294967295\nBadNumber\nBadNumber\n",
    ),
    (
        "a word too many and too few",
        "begin 1\nput 1 a\nput 1 a =x =y\ndel 1\ndel 1 a b\nget 1\nget 1 a b\nsave\nsave 1 2\nrelease 1\nrelease 1 2 3\nback 1\nback 1 2 3\nresume\nresume 1 2\nabort\nabort 1 2\ncommit\ncommit 1 2\nlist 1\nkeys\nkeys 1 2\nlog 1\nput\nput 1\ndel\nget\nrelease\nback\nput 1 a =x y",
        "WordCount\nWordCount\nWordCount\nWordCount\nWordCount\nWordCount\nWordCount\nWordCount\nWordCount\nWordCount\nWordCount\nWordCount\nWordCount\nWordCount\nWordCount\nWordCount\nWordCount\nWordCount\nWordCount\nWordCount\nWordCount\nWordCount\nWordCount\nWordCount\nWordCount\nWordCount\nWordCount\nWordCount\nWordCount\nWordCount\n",
    ),
    // A line with two faults has the first one of the order.
    (
        "the first fault of a line",
        "frob x\nget x\nget x abcdefghijklmnopq\ndel x abcdefghijklmnopq\nrelease x y\nput x abcdefghijklmnopq =x\nput x a x\nput x a =zzzzzzzzzzzzzzzzzzzzzzzzzzzzzzzzzzzzzzzzzzzzzzzzzzzzzzzzzzzzzzzzzzzzzzzzzzzzzzzzzzzzzzzzzzzzzzzzzzzzz\nput 1 abcdefghijklmnopq x\nput 1 abcdefghijklmnopq =zzzzzzzzzzzzzzzzzzzzzzzzzzzzzzzzzzzzzzzzzzzzzzzzzzzzzzzzzzzzzzzzzzzzzzzzzzzzzzzzzzzzzzzzzzzzzzzzzzzzz\nput 1 a zzzzzzzzzzzzzzzzzzzzzzzzzzzzzzzzzzzzzzzzzzzzzzzzzzzzzzzzzzzzzzzzzzzzzzzzzzzzzzzzzzzzzzzzzzzzzzzzzzzzz\nput 1 a x=\nput 1 =a =b\nget 1 =",
        "UnknownCommand\nWordCount\nBadNumber\nBadNumber\nBadNumber\nBadNumber\nBadNumber\nBadNumber\nKeyTooLong\nKeyTooLong\nNoRecordMark\nNoRecordMark\nput 1 [61, 97] [98]\nget 1 [61]\n",
    ),
    (
        "claims and their faults",
        "claim 1 a\n  claim  01  a  \nclaim 1 a\r\nclaim 1 %00\nclaim 1 =a\nclaim 4294967295 abcdefghijklmnop\nclaims 1 a\nClaim 1 a\nclaim# 1 a\nclai 1 a\n#claim 1 a\nclaim\nclaim 1\nclaim 1 a b\nclaim 1 a =x\nclaim x\nclaim x a\nclaim x abcdefghijklmnopq\nclaim 4294967296 a\nclaim -1 a\nclaim 1 abcdefghijklmnopq",
        "claim 1 [97]\nclaim 1 [97]\nclaim 1 [97]\nclaim 1 [0]\nclaim 1 [61, 97]\nclaim 4294967295 [97, 98, 99, 100, 101, 102, 103, 104, 105, 106, 107, 108, 109, 110, 111, 112]\nUnknownCommand\nUnknownCommand\nUnknownCommand\nUnknownCommand\n-\nWordCount\nWordCount\nWordCount\nWordCount\nWordCount\nBadNumber\nBadNumber\nBadNumber\nBadNumber\nKeyTooLong\n",
    ),
    (
        "ordered reads and their faults",
        "from a 10\nupto %00 0\n  from  =a  007  \ncommitted a\ncommitted abcdefghijklmnop\nfrom abcdefghijklmnop 4294967295\nFrom a 1\nfro a 1\nup a 1\ncommit_ted a\n#from a 1\nfrom\nfrom a\nfrom a 1 2\nupto\nupto a\nupto 1 a 2\ncommitted\ncommitted 1 a\nfrom abcdefghijklmnopq\nfrom abcdefghijklmnopq x\nupto a x\nupto a -1\nupto a 4294967296\nfrom 1 a\ncommitted abcdefghijklmnopq",
        "from [97] 10\nupto [0] 0\nfrom [61, 97] 7\ncommitted [97]\ncommitted [97, 98, 99, 100, 101, 102, 103, 104, 105, 106, 107, 108, 109, 110, 111, 112]\nfrom [97, 98, 99, 100, 101, 102, 103, 104, 105, 106, 107, 108, 109, 110, 111, 112] 4294967295\nUnknownCommand\nUnknownCommand\nUnknownCommand\nUnknownCommand\n-\nWordCount\nWordCount\nWordCount\nWordCount\nWordCount\nWordCount\nWordCount\nWordCount\nWordCount\nKeyTooLong\nBadNumber\nBadNumber\nBadNumber\nBadNumber\nKeyTooLong\n",
    ),
    (
        "keys and records have a greatest length",
        "get 1 abcdefghijklmnop\nget 1 abcdefghijklmnopq\nget 1 abcdefghijklmno%70\nget 1 abcdefghijklmnop%\nget 1 abcdefghijklmno%7\nget 1 abcdefghijklm%70\nput 1 a =abcdefghijklmnopqrstuvwxyz0123456\nput 1 a =zzzzzzzzzzzzzzzzzzzzzzzzzzzzzzzzzzzzzzzzzzzzzzzzzzzzzzzzzzzzzzzzzzzzzzzzzzzzzzzzzzzzzzzzzzzzzzzzzzzzz\nput 1 a =zzzzzzzzzzzzzzzzzzzzzzzzzzzzzzzzzzzzzzzzzzzzzzzzzzzzzzzzzzzzzzzzzzzzzzzzzzzzzzzzzzzzzzzzzzzzzzzzzzz%7a\nput 1 a =",
        "get 1 [97, 98, 99, 100, 101, 102, 103, 104, 105, 106, 107, 108, 109, 110, 111, 112]\nKeyTooLong\nget 1 [97, 98, 99, 100, 101, 102, 103, 104, 105, 106, 107, 108, 109, 110, 111, 112]\nKeyTooLong\nKeyTooLong\nget 1 [97, 98, 99, 100, 101, 102, 103, 104, 105, 106, 107, 108, 109, 112]\nput 1 [97] [97, 98, 99, 100, 101, 102, 103, 104, 105, 106, 107, 108, 109, 110, 111, 112, 113, 114, 115, 116, 117, 118, 119, 120, 121, 122, 48, 49, 50, 51, 52, 53, 54]\nRecordTooLong\nput 1 [97] [122, 122, 122, 122, 122, 122, 122, 122, 122, 122, 122, 122, 122, 122, 122, 122, 122, 122, 122, 122, 122, 122, 122, 122, 122, 122, 122, 122, 122, 122, 122, 122, 122, 122, 122, 122, 122, 122, 122, 122, 122, 122, 122, 122, 122, 122, 122, 122, 122, 122, 122, 122, 122, 122, 122, 122, 122, 122, 122, 122, 122, 122, 122, 122, 122, 122, 122, 122, 122, 122, 122, 122, 122, 122, 122, 122, 122, 122, 122, 122, 122, 122, 122, 122, 122, 122, 122, 122, 122, 122, 122, 122, 122, 122, 122, 122, 122, 122, 122, 122]\nput 1 [97] []\n",
    ),
    (
        "escapes are read",
        "get 1 %00\nget 1 %fF\nget 1 %Ff\nget 1 %c3%A9\nget 1 %\nget 1 a%\nget 1 %0\nget 1 %zz\nget 1 %0g\nget 1 %g0\nget 1 %%41\nget 1 %25%34%31\nget 1 %2541\nput 1 %zz =%c3%A9%\nput 1 a =%20%0a%0D\nput 1 a =%3d=\nput 1 a %3dx",
        "get 1 [0]\nget 1 [255]\nget 1 [255]\nget 1 [195, 169]\nget 1 [37]\nget 1 [97, 37]\nget 1 [37, 48]\nget 1 [37, 122, 122]\nget 1 [37, 48, 103]\nget 1 [37, 103, 48]\nget 1 [37, 65]\nget 1 [37, 52, 49]\nget 1 [37, 52, 49]\nput 1 [37, 122, 122] [195, 169, 37]\nput 1 [97] [32, 10, 13]\nput 1 [97] [61, 61]\nNoRecordMark\n",
    ),
];

/// Expects the lines to say what stands beside them.
fn expect_lines(rt: &impl Abort, alloc: Global, row: &(&str, &str, &str)) {
    let text = said(alloc, row.1).expect(rt, "no memory");
    expect_named(rt, row.0, text.as_str(), row.2)
}

#[test]
fn lines_are_read(rt: HostRuntime) {
    for row in &LINES {
        expect_lines(&rt, rt.alloc(), row);
    }
}

/// A word of this many bytes, after a beginning.
fn long_line(alloc: Global, begin: &str, byte: u8, count: u32) -> Result<Vec<u8>, AllocError> {
    let mut line = Vec::from_slice(alloc, begin.as_bytes())?;
    for _ in 0..count {
        line.push(byte)?;
    }
    Ok(line)
}

/// What a long line says.
fn expect_long(rt: &impl Abort, alloc: Global, begin: &str, byte: u8, wanted: &str) {
    let line = String::from_utf8(long_line(alloc, begin, byte, 1_000_000).expect(
        rt,
        "no answer",
    )).expect(rt, "no memory");
    expect(rt, alloc, &line, wanted)
}

#[test]
fn lines_of_a_million_bytes(rt: HostRuntime) {
    let alloc = rt.alloc();
    for (begin, byte, wanted) in [
        ("#", b'#', "-\n"),
        ("", b' ', "-\n"),
        ("", b'a', "UnknownCommand\n"),
        ("begin", b' ', "begin\n"),
        ("save ", b'9', "BadNumber\n"),
        ("save 0", b'0', "save 0\n"),
        ("get 1 ", b'a', "KeyTooLong\n"),
        ("put 1 a =", b'%', "RecordTooLong\n"),
        ("begin", b'\r', "UnknownCommand\n"),
    ] {
        expect_long(&rt, alloc, begin, byte, wanted);
    }
}

/// The text of a reply, made once more where memory was refused.
fn written(rt: &impl Abort, alloc: Global, reply: &Reply) -> String {
    let text = match write_reply(alloc, reply) {
        Ok(text) => text,
        Err(_) => write_reply(alloc, reply).expect(rt, "no memory"),
    };
    String::from_utf8(text).expect(rt, "no text")
}

/// Expects each reply to be written as the text beside it.
fn expect_written(rt: &impl Abort, alloc: Global, rows: &[(Reply, &str)]) {
    for row in rows {
        expect_text(rt, written(rt, alloc, &row.0).as_str(), row.1);
    }
}

#[test]
fn answers_are_written(rt: HostRuntime) {
    let record = Record::new(b"x y").expect(&rt, "no record");
    let rows = [
        (Reply::Begin(Ok(TxId(1))), "ok 1\n"),
        (Reply::Put(Ok(None)), "ok none\n"),
        (Reply::Put(Ok(Some(record))), "ok =x%20y\n"),
        (Reply::Claim(Ok(None)), "ok none\n"),
        (Reply::Claim(Ok(Some(record))), "ok =x%20y\n"),
        (Reply::Claim(Ok(Some(Record::default()))), "ok =\n"),
        (Reply::Del(Ok(record)), "ok =x%20y\n"),
        (Reply::Get(Ok(None)), "ok none\n"),
        (Reply::Get(Ok(Some(Record::default()))), "ok =\n"),
        (Reply::Save(Ok(32)), "ok 32\n"),
        (Reply::Release(Ok(())), "ok\n"),
        (Reply::Back(Ok(0)), "ok 0\n"),
        (Reply::Resume(Ok(4_294_967_295)), "ok 4294967295\n"),
        (Reply::Abort(Ok(10)), "ok 10\n"),
        (Reply::Commit(Ok(())), "ok\n"),
        (Reply::Log(8, 10), "ok 8 10\n"),
    ];
    expect_written(&rt, rt.alloc(), &rows)
}

#[test]
fn refusals_are_written(rt: HostRuntime) {
    let rows = [
        (
            Reply::Begin(Err(BeginFault::BeginsSpent)),
            "no BeginsSpent\n",
        ),
        (Reply::Begin(Err(BeginFault::Memory)), "no Memory\n"),
        (Reply::Put(Err(PutFault::NoSuchTx)), "no NoSuchTx\n"),
        (Reply::Put(Err(PutFault::Rolling)), "no Rolling\n"),
        (Reply::Put(Err(PutFault::Held(TxId(2)))), "no Held 2\n"),
        (Reply::Put(Err(PutFault::LogFull)), "no LogFull\n"),
        (Reply::Put(Err(PutFault::Full)), "no Full\n"),
        (Reply::Claim(Err(ClaimFault::NoSuchTx)), "no NoSuchTx\n"),
        (Reply::Claim(Err(ClaimFault::Rolling)), "no Rolling\n"),
        (Reply::Claim(Err(ClaimFault::Held(TxId(2)))), "no Held 2\n"),
        (Reply::Claim(Err(ClaimFault::LogFull)), "no LogFull\n"),
        (Reply::Claim(Err(ClaimFault::Device)), "no Device\n"),
        (Reply::Claim(Err(ClaimFault::Damaged(7))), "no Damaged 7\n"),
        (Reply::Claim(Err(ClaimFault::Full)), "no Full\n"),
        (Reply::Claim(Err(ClaimFault::Memory)), "no Memory\n"),
        (Reply::Del(Err(RemoveFault::Absent)), "no Absent\n"),
        (Reply::Del(Err(RemoveFault::Damaged(7))), "no Damaged 7\n"),
        (Reply::Get(Err(GetFault::Device)), "no Device\n"),
        (Reply::Save(Err(SavepointFault::TooDeep)), "no TooDeep\n"),
        (
            Reply::Release(Err(ReleaseFault::NoSuchSave)),
            "no NoSuchSave\n",
        ),
        (
            Reply::Resume(Err(ResumeFault::NotRolling)),
            "no NotRolling\n",
        ),
        (Reply::Commit(Err(CommitFault::Rolling)), "no Rolling\n"),
        (Reply::List(Err(EntriesFault::Damaged(1))), "no Damaged 1\n"),
        (Reply::Keys(Err(KeysOfFault::Memory)), "no Memory\n"),
    ];
    expect_written(&rt, rt.alloc(), &rows)
}

#[test]
fn stops_and_faults_are_written(rt: HostRuntime) {
    let (undone, left) = (1, 20);
    let rows = [
        (
            Reply::Back(Err(RollbackToFault::Stopped {
                undone,
                left,
                cause: Cause::Device,
            })),
            "stopped 1 20 Device\n",
        ),
        (
            Reply::Resume(Err(ResumeFault::Stopped {
                undone,
                left,
                cause: Cause::Damaged(3),
            })),
            "stopped 1 20 Damaged 3\n",
        ),
        (
            Reply::Abort(Err(AbortFault::Stopped {
                undone,
                left,
                cause: Cause::Memory,
            })),
            "stopped 1 20 Memory\n",
        ),
        (Reply::Bad(LineFault::LineTooLong), "bad LineTooLong\n"),
        (
            Reply::Bad(LineFault::UnknownCommand),
            "bad UnknownCommand\n",
        ),
        (Reply::Bad(LineFault::WordCount), "bad WordCount\n"),
        (Reply::Bad(LineFault::BadNumber), "bad BadNumber\n"),
        (Reply::Bad(LineFault::KeyTooLong), "bad KeyTooLong\n"),
        (Reply::Bad(LineFault::NoRecordMark), "bad NoRecordMark\n"),
        (Reply::Bad(LineFault::RecordTooLong), "bad RecordTooLong\n"),
    ];
    expect_written(&rt, rt.alloc(), &rows)
}

/// Two keys, the first of which is a zero byte.
fn two_keys(rt: &impl Abort) -> [Key; 2] {
    let first = Key::new(&[0]).expect(rt, "no key");
    [first, Key::new(b"%zz").expect(rt, "no key")]
}

/// Their entries, the first of which has an owner.
fn two_entries(rt: &impl Abort) -> [Entry; 2] {
    let [first, second] = two_keys(rt);
    let longest = Record::new(&[b'z'; 100]);
    [
        Entry {
            key: first,
            value: longest.expect(rt, "no record"),
            owner: Some(TxId(1)),
        },
        Entry {
            key: second,
            value: Record::new(&[195, 169, 37]).expect(rt, "no record"),
            owner: None,
        },
    ]
}

/// The reply with a list of these entries, which is made anew from what it gives back.
fn list_text(rt: &impl Abort, alloc: Global, entries: &[Entry]) -> String {
    let list = EntryList::new(Vec::from_slice(alloc, entries).expect(rt, "no memory"));
    assert_eq!(rt; list.as_slice().len(), entries.len());
    written(rt, alloc, &Reply::List(Ok(EntryList::new(list.into_vec()))))
}

/// The same of a list of these keys.
fn keys_text(rt: &impl Abort, alloc: Global, keys: &[Key]) -> String {
    let list = KeyList::new(Vec::from_slice(alloc, keys).expect(rt, "no memory"));
    assert_eq!(rt; list.as_slice().len(), keys.len());
    written(rt, alloc, &Reply::Keys(Ok(KeyList::new(list.into_vec()))))
}

#[test]
fn lists_are_written(rt: HostRuntime) {
    expect_text(
        &rt,
        list_text(&rt, rt.alloc(), &two_entries(&rt)).as_str(),
        "- %00 =zzzzzzzzzzzzzzzzzzzzzzzzzzzzzzzzzzzzzzzzzzzzzzzzzzzzzzzzzzzzzzzzzzzzzzzzzzzzzzzzzzzzzzzzzzzzzzzzzzzz @1\n- %25zz =%C3%A9%25\nok 2\n",
    );
    expect_text(
        &rt,
        keys_text(&rt, rt.alloc(), &two_keys(&rt)).as_str(),
        "- %00\n- %25zz\nok 2\n",
    );
    expect_text(&rt, list_text(&rt, rt.alloc(), &[]).as_str(), "ok 0\n");
}

/// The reply with a record of this byte.
fn printed(alloc: Global, byte: u8) -> Result<String, AllocError> {
    if byte > 32 && byte < 127 && byte != b'%' {
        format!(in alloc; "ok ={}\n", char::from(byte))
    } else {
        format!(in alloc; "ok =%{byte:02X}\n")
    }
}

/// Expects the word to be read as a record of this byte.
fn expect_read(rt: &impl Abort, alloc: Global, word: &str, byte: u8) {
    let line = format!(in alloc; "put 1 a {word}").expect(rt, "no memory");
    let wanted = format!(in alloc; "put 1 [97] [{byte}]\n").expect(rt, "no memory");
    expect(rt, alloc, &line, &wanted)
}

/// Expects a record of this byte to be printed so, and to be read again.
fn expect_again(rt: &impl Abort, alloc: Global, byte: u8) {
    let text = written(
        rt,
        alloc,
        &Reply::Get(Ok(Some(Record::new(&[byte]).expect(rt, "no record")))),
    );
    expect_text(
        rt,
        text.as_str(),
        printed(alloc, byte).expect(rt, "no memory").as_str(),
    );
    let word = text.trim_start_matches("ok ").trim_end_matches("\n");
    expect_read(rt, alloc, word, byte)
}

#[test]
fn every_byte_is_printed_and_read_again(rt: HostRuntime) {
    for byte in 0..=u8::MAX {
        expect_again(&rt, rt.alloc(), byte);
    }
}
