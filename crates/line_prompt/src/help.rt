use std::io;
use std::io::Write;

// The forms of the lines, and what they do.
const FORMS: [(&str, &str, &str); 19] = [
    (
        "begin",
        "begin",
        "begins a transaction, and answers its number T",
    ),
    (
        "put",
        "put T KEY =RECORD",
        "puts a record at a key, and answers what stood there",
    ),
    ("del", "del T KEY", "takes a record out, and answers it"),
    ("get", "get T KEY", "answers the record at a key"),
    (
        "claim",
        "claim T KEY",
        "owns a key until T ends or goes back, and answers its record",
    ),
    (
        "save",
        "save T",
        "sets a savepoint, and answers its number N",
    ),
    (
        "release",
        "release T N",
        "drops the savepoints from N on; the changes stay",
    ),
    (
        "back",
        "back T N",
        "takes back all changes of T since savepoint N",
    ),
    ("resume", "resume T", "goes on with a rollback that stopped"),
    (
        "abort",
        "abort T",
        "takes back all changes of T, and ends it",
    ),
    ("commit", "commit T", "ends T; its changes stay"),
    (
        "list",
        "list",
        "answers each record, with the transaction that owns its key",
    ),
    (
        "from",
        "from KEY N",
        "answers the first N records at KEY or above, in key order",
    ),
    (
        "upto",
        "upto KEY N",
        "answers the last N records at KEY or below, the greatest key first",
    ),
    (
        "committed",
        "committed KEY",
        "answers the record at a key, without the changes of open transactions",
    ),
    ("keys", "keys T", "answers the keys that T owns"),
    (
        "log",
        "log",
        "answers how many records the log has, and how many it may need; then as show",
    ),
    (
        "flush",
        "flush",
        "writes the file and goes on from 1, where no transaction is open; with --durable alone",
    ),
    (
        "show",
        "show",
        "draws the chains of the log; at a terminal alone",
    ),
];

/// Tells the form of a command, or of each where none has that name.
pub fn tell_forms<E: Write>(err: &mut E, name: &str) -> io::Result<()> {
    let known = FORMS.iter().any(|form| form.0 == name);
    for (command, form, does) in &FORMS {
        if !known || *command == name {
            writeln!(err, "  {form:<18} {does}")?;
        }
    }
    Ok(())
}
