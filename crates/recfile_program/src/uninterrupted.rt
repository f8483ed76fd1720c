ghost use Rattle.std.specs.Prelude.{◌≡◌, IsTrue, IsErr};

use std::io;
use std::io::{Read, Write};

/// A standard stream, which is read and written again where a signal interrupted that.
#[derive(Drop)]
pub struct Uninterrupted<S> {
    stream: S,
}

impl<S: Drop> Uninterrupted<S> {
    /// That stream.
    pub fn new(stream: S) -> Uninterrupted<S>
        ensures { result.stream ≡ stream }
    {
        Uninterrupted { stream }
    }
}

// Whether a signal interrupted it.
fn is_interrupted(answer: &io::Result<usize>) -> bool
    ensures { IsTrue result → IsErr answer.now }
{
    match answer {
        Ok(_) => false,
        Err(error) => error.kind() == io::ErrorKind::Interrupted,
    }
}

// What it has left, and what it holds, is what the stream does.
impl<S: Read> Read for Uninterrupted<S> {
    ghost remaining = { λ stream. S.remaining stream.stream };

    fn read(&mut self, to: &mut [u8]) -> io::Result<usize> {
        for _ in 0..u64::MAX {
            let answer = self.stream.read(to);
            if !is_interrupted(&answer) {
                return answer;
            }
        }
        Err(io::Error::from(io::ErrorKind::Interrupted))
    }
}

impl<S: Write> Write for Uninterrupted<S> {
    ghost contents = { λ stream. S.contents stream.stream };

    fn write(&mut self, from: &[u8]) -> io::Result<usize> {
        for _ in 0..u64::MAX {
            let answer = self.stream.write(from);
            if !is_interrupted(&answer) {
                return answer;
            }
        }
        Err(io::Error::from(io::ErrorKind::Interrupted))
    }

    fn flush(&mut self) -> io::Result<()> {
        self.stream.flush()
    }
}
