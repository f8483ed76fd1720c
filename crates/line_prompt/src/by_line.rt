ghost use Rattle.std.specs.Prelude.{◌≡◌, ℕ, ◌+◌, ◌-◌, ◌<◌, ◌≤◌, min, [], ◌++◌, length, take, drop, slice_range, IfOk, OnOk, OnErr, IsTrue, false};
ghost use Rattle.std.specs.Io.{ReadsAtMost};
ghost use Rattle.std.specs.Io.BufRead.{take_through};
ghost use Rattle.std.specs.Io.KnownBytes.{Consumes, IsAtEnd, Keeps, ReadConsumes, prepend_known};
ghost use Rattle.line_prompt.specs.ByLine.{GivesFirstLine, HasFirstLine, IsWithinOneLine, KeepsFirstLine};

use memchr::memchr;
use std::io;
use std::io::Read;
use std::marker::Model;

// The most bytes of a line that one read gives.
const CHUNK: usize = 4096;

// The bytes that were read and not yet given: `chunk[start..end]`.
#[derive(Drop)]
struct Kept {
    chunk: [u8; CHUNK],
    start: usize,
    end: usize,
}

impl Model for Kept {
    ghost use Rattle.std.specs.Prelude.{ℕ, List, ◌≤◌, slice_range};

    ghost Value = { List ℕ };

    ghost view = { λ k. slice_range k.chunk k.start k.end };

    ghost invariant = { λ k. (k.start ≤ k.end) × (k.end ≤ 4096) };
}

fn empty_chunk() -> [u8; CHUNK] {
    [0; CHUNK]
}

// Moves a part of the chunk to its front, and answers how many bytes that are.
fn move_to_front(chunk: &mut [u8], start: usize, end: usize) -> usize
    requires ordered { start ≤ end }
    requires in_bounds { end ≤ length chunk.old }
    ensures count { result ≡ end - start }
    ensures moved { take result chunk.new ≡ slice_range chunk.old start end }
{
    chunk.copy_within(start..end, 0);
    end - start
}

// Reads once behind the first bytes of the chunk.
fn read_behind<R: Read>(lines: &mut R, chunk: &mut [u8], end: usize) -> io::Result<usize>
    requires { end < length chunk.old }
    ensures before { take end chunk.new ≡ take end chunk.old }
    ensures bound { IfOk result (λ count. end + count ≤ length chunk.new) }
    ensures bytes { IfOk result (λ count. Consumes (R.remaining lines.old) (R.remaining lines.new)
        (slice_range chunk.new end (end + count))) }
    ensures end { IfOk result (λ count. count ≡ 0 → IsAtEnd (R.remaining lines.new)) }
    ensures err { OnErr result (Keeps (R.remaining lines.old) (R.remaining lines.new)) }
{
    lines.read(&mut chunk[end..])
}

// How many of the bytes are the first line, with its LF: all of them, where there is none.
fn line_len(bytes: &[u8]) -> usize
    ensures bound { result ≤ length bytes.now }
    ensures some { result ≡ 0 → bytes.now ≡ [] }
    ensures line { take result bytes.now ≡ take_through 10 bytes.now }
{
    match memchr(b'\n', bytes) {
        Some(at) => at + 1,
        None => bytes.len(),
    }
}

// Copies as many bytes as one read gives, and answers how many.
fn copy_front(from: &[u8], by_line: bool, to: &mut [u8]) -> usize
    ensures from { result ≤ length from.now }
    ensures to { result ≤ length to.new }
    ensures copied { take result to.new ≡ take result from.now }
    ensures some { result ≡ 0 → 0 < length to.new → from.now ≡ [] }
    ensures line { IsTrue by_line
        → take result to.new ≡ take (length to.new) (take_through 10 from.now) }
{
    let front = if by_line { line_len(from) } else { from.len() };
    let count = front.min(to.len());
    to[..count].copy_from_slice(&from[..count]);
    count
}

impl Kept {
    fn new() -> Kept
        ensures { result ≡ [] }
    {
        Kept {
            chunk: empty_chunk(),
            start: 0,
            end: 0,
        }
    }

    fn bytes(&self) -> &[u8]
        ensures { (result.now ≡ self.now) × (length self.now ≤ 4096) }
    {
        &self.chunk[self.start..self.end]
    }

    // Whether more is to be read before a read gives what is kept.
    fn wants_more(&self, by_line: bool) -> bool
        ensures room { IsTrue result → length self.now < 4096 }
        ensures some { length self.now ≡ 0 → IsTrue result }
        ensures line { IsTrue by_line → result ≡ false → HasFirstLine self.now }
    {
        let kept = self.bytes();
        if by_line {
            return kept.len() < CHUNK && memchr(b'\n', kept).is_none();
        }
        kept.is_empty()
    }

    // Reads once behind what is kept, and answers whether that gave a byte.
    fn read_more<R: Read>(&mut self, lines: &mut R) -> io::Result<bool>
        requires { length self.old < 4096 }
        ensures bytes { Keeps (prepend_known self.old (R.remaining lines.old))
            (prepend_known self.new (R.remaining lines.new)) }
        ensures room { length self.new ≤ 4096 }
        ensures more { IfOk result (λ more. IsTrue more → length self.old < length self.new) }
        ensures end { IfOk result (λ more. more ≡ false → IsAtEnd (R.remaining lines.new)) }
    {
        self.end = move_to_front(&mut self.chunk, self.start, self.end);
        self.start = 0;
        let count = read_behind(lines, &mut self.chunk, self.end)?;
        self.end += count;
        Ok(count > 0)
    }

    // Reads until there is all that one read gives, or the lines end.
    fn fill<R: Read>(&mut self, lines: &mut R, by_line: bool) -> io::Result<()>
        ensures bytes { Keeps (prepend_known self.old (R.remaining lines.old))
            (prepend_known self.new (R.remaining lines.new)) }
        ensures line { IsTrue by_line
            → OnOk result (KeepsFirstLine self.new (prepend_known self.new (R.remaining lines.new))) }
        ensures end { IfOk result (λ _. length self.new ≡ 0 → IsAtEnd (R.remaining lines.new)) }
    {
        while self.wants_more(by_line) {
            if !self.read_more(lines)? {
                return Ok(());
            }
        }
        Ok(())
    }

    fn drop_front(&mut self, count: usize)
        requires { count ≤ length self.old }
        ensures { self.new ≡ drop count self.old }
    {
        self.start += count;
    }

    // Gives the front, as much as there is room for.
    fn give(&mut self, by_line: bool, to: &mut [u8]) -> usize
        ensures bound { result ≤ length to.new }
        ensures bytes { self.old ≡ take result to.new ++ self.new }
        ensures some { result ≡ 0 → 0 < length to.new → self.old ≡ [] }
        ensures line { IsTrue by_line
            → take result to.new ≡ take (length to.new) (take_through 10 self.old) }
    {
        let count = copy_front(self.bytes(), by_line, to);
        self.drop_front(count);
        count
    }
}

/// A reader of which each read gives at most one line, up to and with its LF, so that what follows a line that ends a
/// session stays unread. It gives a line of up to 4096 bytes whole where there is room for it, however the reader beneath
/// cuts it. Where it isn't to go by lines, it gives what it has as it comes.
#[derive(Drop)]
pub struct ByLine<R> {
    lines: R,
    kept: Kept,
    by_line: bool,
}

impl<R: Read> ByLine<R> {
    /// These lines, and whether a read gives at most one.
    pub fn new(lines: R, by_line: bool) -> ByLine<R>
        ensures lines { result.lines ≡ lines }
        ensures by_line { result.by_line ≡ by_line }
        ensures bytes { prepend_known result.kept (R.remaining result.lines) ≡ R.remaining lines }
    {
        ByLine {
            lines,
            kept: Kept::new(),
            by_line,
        }
    }

    /// Reads at most one line, where it goes by lines. A fault of the reader beneath is handed on at once, and what was
    /// read before it stays kept.
    pub fn read_line(&mut self, to: &mut [u8]) -> io::Result<usize>
        ensures bound { ReadsAtMost result to.new }
        ensures bytes { ReadConsumes (prepend_known self.old.kept (R.remaining self.old.lines))
            (prepend_known self.new.kept (R.remaining self.new.lines)) result to.new }
        ensures one_line { IsTrue self.old.by_line
            → IfOk result (λ count. IsWithinOneLine (take count to.new)) }
        ensures line { let left = prepend_known self.old.kept (R.remaining self.old.lines) in
            IsTrue self.old.by_line
            → IfOk result (λ count. GivesFirstLine left (length to.new) (take count to.new)) }
        ensures by_line { self.new.by_line ≡ self.old.by_line }
    {
        self.kept.fill(&mut self.lines, self.by_line)?;
        Ok(self.kept.give(self.by_line, to))
    }
}

// What it has left is what it kept and then what the reader beneath has.
impl<R: Read> Read for ByLine<R> {
    ghost remaining = { λ reader. prepend_known reader.kept (R.remaining reader.lines) };

    fn read(&mut self, to: &mut [u8]) -> io::Result<usize> {
        self.read_line(to)
    }
}
