use crate::bar::Bar;
use crate::screen::Screen;
use std::io;
use std::io::Write;

// The longest reply of which all is kept.
const KEPT: usize = 64;

/// How many replies there were, and the last one.
#[derive(Clone, Copy)]
pub struct LastReply {
    count: usize,
    last: [u8; KEPT],
    width: usize,
}

impl LastReply {
    /// How many there were.
    pub fn count(&self) -> usize {
        self.count
    }

    /// The name of what the last one refuses, where it is a refusal.
    pub fn refused(&self) -> Option<&str> {
        let line = self.last.get(..self.width)?;
        let name = line.strip_suffix(b"\n")?.strip_prefix(b"no ")?;
        str::from_utf8(name).ok()
    }
}

/// A writer of replies that nobody reads, each by one write: a bar tells how many there were.
#[derive(Drop)]
pub struct Replies<'a, E> {
    heard: LastReply,
    bar: Bar<'a, E>,
}

impl<'a, E: Screen> Replies<'a, E> {
    /// No reply of so many.
    pub fn new(screen: &'a mut E, all: usize) -> Replies<'a, E> {
        Replies {
            heard: LastReply {
                count: 0,
                last: [0; KEPT],
                width: 0,
            },
            bar: Bar::new(screen, all),
        }
    }

    /// No more follow.
    pub fn end(&mut self) -> LastReply {
        self.bar.end();
        self.heard
    }
}

impl<'a, E: Screen> Write for Replies<'a, E> {
    fn write(&mut self, from: &[u8]) -> io::Result<usize> {
        let heard = &mut self.heard;
        heard.count = heard.count.saturating_add(1);
        let width = from.len().min(KEPT);
        heard.last[..width].copy_from_slice(&from[..width]);
        heard.width = width;
        self.bar.show(self.heard.count);
        Ok(from.len())
    }

    fn flush(&mut self) -> io::Result<()> {
        Ok(())
    }
}
