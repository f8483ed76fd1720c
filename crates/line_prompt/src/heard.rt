ghost use Rattle.std.specs.Prelude.{◌≡◌};

use crate::watch::Watch;
use std::cell::RefCell;
use std::io;
use std::io::Write;

/// Replies that go out, and that a watch hears where a person types the lines.
#[derive(Drop)]
pub struct Heard<'a, W> {
    out: W,
    watch: &'a RefCell<Watch>,
    typed: bool,
}

impl<'a, W: Write> Heard<'a, W> {
    /// Replies that go there.
    pub fn new(out: W, watch: &'a RefCell<Watch>, typed: bool) -> Heard<'a, W>
        ensures { result.out ≡ out }
    {
        Heard { out, watch, typed }
    }
}

// What it holds is what the writer behind it does.
impl<'a, W: Write> Write for Heard<'a, W> {
    ghost contents = { λ heard. W.contents heard.out };

    fn write(&mut self, from: &[u8]) -> io::Result<usize> {
        let count = self.out.write(from)?;
        if self.typed {
            if let (Ok(mut watch), Some(piece)) = (self.watch.try_borrow_mut(), from.get(..count)) {
                watch.hear_reply(piece);
            }
        }
        Ok(count)
    }

    fn flush(&mut self) -> io::Result<()> {
        self.out.flush()
    }
}
