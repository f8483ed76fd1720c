ghost use Rattle.std.specs.Prelude.{◌≡◌, ◌==◌, ℕ, ◌++◌, List, length, IfOk, IsTrue};
ghost use Rattle.command_text.specs.Script.{bounded_line_of};
ghost use Rattle.recfile.specs.PartLine.{IsPartOfLine, no_part};

use command_text::{Command, LONGEST_LINE, LineFault, read_bounded_line};
use std::alloc::{AllocError, Global};
use std::marker::Model;

/// What is kept of a line whose end hasn't come: its bytes, while a line may have so many, and then only that it is too
/// long.
#[derive(Drop)]
pub struct PartLine {
    bytes: Vec<u8>,
    long: bool,
}

impl Model for PartLine {
    ghost use Rattle.std.specs.Prelude.{◌≤◌, vec_len, vec_capacity};
    ghost use Rattle.command_text.specs.Script.{longest_line};
    ghost use Rattle.recfile.specs.PartLine.{Part};

    ghost Value = { Part };

    ghost view = { λ p. record { bytes = p.bytes.items; long = p.long } };

    ghost invariant = { λ p. (longest_line ≤ vec_capacity p.bytes)
        × (vec_len p.bytes ≤ longest_line) };
}

impl PartLine {
    /// No line has begun. It takes all the memory that it ever has.
    pub fn new(alloc: Global) -> Result<PartLine, AllocError>
        ensures { IfOk result (λ part. part ≡ no_part) }
    {
        Ok(PartLine {
            bytes: Vec::with_capacity(alloc, LONGEST_LINE)?,
            long: false,
        })
    }

    /// Goes on with the line.
    pub fn push(&mut self, piece: &[u8])
        ensures { (begun : List ℕ) → IsPartOfLine self.old begun → IsPartOfLine self.new (begun ++ piece.now) }
    {
        if self.long || piece.len() > LONGEST_LINE - self.bytes.len() {
            self.long = true;
            return;
        }
        let Ok(()) = self.bytes.extend_from_slice(piece) else {
            unreachable!();
        };
    }

    // What the line says that was kept.
    fn read(&self) -> Result<Option<Command>, LineFault>
        ensures { (begun : List ℕ) → IsPartOfLine self.now begun → result ≡ bounded_line_of begun }
    {
        if self.long {
            return Err(LineFault::LineTooLong);
        }
        read_bounded_line(&self.bytes)
    }

    // The next line begins.
    fn clear(&mut self)
        ensures { self.new ≡ no_part }
    {
        self.bytes.clear();
        self.long = false;
    }

    /// Whether no byte of a line has come.
    pub fn is_new(&self) -> bool
        ensures none { IsTrue result → self.now ≡ no_part }
        ensures some { (begun : List ℕ) → IsPartOfLine self.now begun → result ≡ (length begun == 0) }
    {
        !self.long && self.bytes.is_empty()
    }

    /// Ends the line with its last bytes, and answers what it says; no line has begun then. Faults: those of
    /// `read_bounded_line`.
    pub fn end(&mut self, piece: &[u8]) -> Result<Option<Command>, LineFault>
        ensures said { (begun : List ℕ) → IsPartOfLine self.old begun
            → result ≡ bounded_line_of (begun ++ piece.now) }
        ensures next { self.new ≡ no_part }
    {
        if self.is_new() {
            return read_bounded_line(piece);
        }
        self.push(piece);
        let said = self.read();
        self.clear();
        said
    }
}
