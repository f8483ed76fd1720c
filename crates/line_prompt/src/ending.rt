use crate::watch::Watch;
use std::io;
use std::io::Write;

/// Tells at the end of a session that was ended what is kept of it: whether it was over a file, which is closed. It says
/// nothing of a session that read nothing.
pub fn tell_end<E: Write>(watch: &mut Watch, over_file: bool, err: &mut E) -> io::Result<()> {
    watch.take_up();
    if watch.begins() {
        return Ok(());
    }
    if watch.is_ended() {
        // Behind the prompt.
        writeln!(err)?;
    }
    if !watch.is_known() {
        return Ok(());
    }
    match (over_file, watch.committed()) {
        (false, _) => writeln!(err, "nothing is kept, since there is no file")?,
        (true, 0) => writeln!(err, "nothing was committed: the records are as they were")?,
        (true, 1) => writeln!(err, "1 transaction was committed, and is kept")?,
        (true, count) => writeln!(err, "{count} transactions were committed, and are kept")?,
    }
    match watch.open().len() {
        0 => Ok(()),
        1 => writeln!(err, "1 transaction was open, and was taken back"),
        count => writeln!(err, "{count} transactions were open, and were taken back"),
    }
}
