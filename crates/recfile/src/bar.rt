use crate::screen::Screen;

// What a whole bar has in it, and an empty one.
const DONE: &str = "####################";

const LEFT: &str = "....................";

/// A bar that tells on a screen how much of some work is done. Where nobody sees the screen there is none.
#[derive(Drop)]
pub struct Bar<'a, E> {
    screen: &'a mut E,
    all: usize,
    drawn: usize,
}

impl<'a, E: Screen> Bar<'a, E> {
    /// The bar of so many pieces of work.
    pub fn new(screen: &'a mut E, all: usize) -> Bar<'a, E> {
        Bar {
            screen,
            all,
            drawn: 0,
        }
    }

    /// So many of them are done.
    pub fn show(&mut self, done: usize) {
        if !self.screen.is_seen() {
            return;
        }
        let width = done.saturating_mul(DONE.len()) / self.all.max(1);
        if width == self.drawn {
            return;
        }
        self.drawn = width;
        let all = self.all;
        if let (Some(front), Some(rest)) = (DONE.get(..width), LEFT.get(width..)) {
            let _ = write!(self.screen, "\r[{front}{rest}] {done} of {all}");
        }
    }

    /// Its line ends.
    pub fn end(&mut self) {
        if self.drawn > 0 {
            let _ = writeln!(self.screen);
        }
    }
}
