ghost use Rattle.std.specs.Prelude.{◌≡◌, ◌<◌, ◌≤◌, ◌++◌, List, [], ◌∷◌, IfOk, OnOk, IfErr, length};
ghost use Rattle.std.specs.Io.KnownBytes.{Appends};
ghost use Rattle.rec_types.specs.Widths.{widest_record};
ghost use Rattle.recfile.specs.Dumped.{AreSaidIn};
ghost use Rattle.recfile.specs.Spelled.{IsOfText, PartWritten, SpellsLines, Stops, Took, foot_in, head_in, line_in, lines_in};

use crate::dump::DumpFault;
use crate::script::write_text;
use command_text::{dump_foot, dump_head, push_put};
use rec_types::{Key, RecordSink};
use record_texts::{Form, push_record};
use std::alloc::{AllocError, Global};
use std::io::Write;

// How many bytes of a text wait at most before they are written, but for a line.
const WAITING_ROOM: usize = 65_536;

/// The text of a dump that is written piece by piece: in a form, or as a script. What was spelled and isn't written yet waits.
#[derive(Drop)]
pub(crate) struct DumpText {
    form: Option<Form>,
    // Where a line of a script is spelled.
    line: String,
    waiting: Vec<u8>,
}

// What stands before the lines of the records.
fn head_of(form: Option<Form>) -> &'static [u8]
    ensures { result.now ≡ head_in form }
{
    match form {
        Some(_) => b"",
        None => dump_head().as_bytes(),
    }
}

impl DumpText {
    /// The text before its records, which waits. Fault: that memory is refused.
    pub(crate) fn begin(alloc: Global, form: Option<Form>) -> Result<DumpText, AllocError>
        ensures { IfOk result (λ text. (text.form ≡ form) × (text.waiting.items ≡ head_in form)) }
    {
        let mut waiting = Vec::new(alloc);
        waiting.extend_from_slice(head_of(form))?;
        Ok(DumpText {
            form,
            line: String::new(alloc),
            waiting,
        })
    }

    // Spells the line of a record behind what waits.
    fn push_line(&mut self, key: &Key, value: &[u8]) -> Result<(), AllocError>
        requires { length value.now ≤ widest_record }
        ensures form { self.new.form ≡ self.old.form }
        ensures text { OnOk result (self.new.waiting.items
            ≡ self.old.waiting.items ++ line_in self.old.form (key.now, value.now)) }
        ensures said { OnOk result (AreSaidIn self.old.form ((key.now, value.now) ∷ [])) }
    {
        match self.form {
            Some(form) => push_record(&mut self.waiting, form, key, value),
            None => {
                self.line.clear();
                push_put(&mut self.line, key, value)?;
                self.waiting.extend_from_slice(self.line.as_bytes())
            }
        }
    }

    // Writes what waits.
    fn send<W: Write>(&mut self, out: &mut W) -> Result<(), DumpFault>
        ensures form { self.new.form ≡ self.old.form }
        ensures sent { OnOk result ((self.new.waiting.items ≡ [])
            × Appends (W.contents out.old) (W.contents out.new) self.old.waiting.items) }
        ensures stops { IfErr result (λ fault. (fault ≡ DumpFault.Write)
            × PartWritten (W.contents out.old) (W.contents out.new) self.old.waiting.items) }
    {
        match write_text(out, &self.waiting) {
            Ok(()) => {
                self.waiting.clear();
                Ok(())
            }
            Err(_) => Err(DumpFault::Write),
        }
    }

    /// Writes what waits, and the text behind the records. Faults: Memory, Write.
    pub(crate) fn end<W: Write>(&mut self, out: &mut W) -> Result<(), DumpFault>
        ensures whole { OnOk result (Appends (W.contents out.old) (W.contents out.new)
            (self.old.waiting.items ++ foot_in self.old.form)) }
        ensures stops { IfErr result (λ fault. IsOfText fault
            × PartWritten (W.contents out.old) (W.contents out.new)
            (self.old.waiting.items ++ foot_in self.old.form)) }
    {
        if self.form.is_none() {
            self.waiting.extend_from_slice(dump_foot().as_bytes())?;
        }
        self.send(out)
    }
}

impl<W: Write> RecordSink<W> for DumpText {
    ghost use Rattle.recfile.specs.Spelled.{Took, Stops, stops_before, stops_on, took_none, took_on};

    type Fault = DumpFault;

    ghost told = { λ old out es new behind. Took old (W.contents out) es new (W.contents behind) };

    ghost stops = { λ old out es fault _ behind. Stops old (W.contents out) es fault
        (W.contents behind) };

    /// Spells a record, and writes what waits where that is much.
    fn take(&mut self, out: &mut W, key: &Key, bytes: &[u8]) -> Result<(), DumpFault> {
        self.push_line(key, bytes)?;
        if self.waiting.len() < WAITING_ROOM {
            return Ok(());
        }
        self.send(out)
    }

    ghost told_none = { λ text out. took_none text (W.contents out) };

    ghost told_on = { λ a b c p q r es fs. took_on a b c (W.contents p) (W.contents q)
        (W.contents r) es fs };

    ghost stops_on = { λ a b c p q r es fs fault. stops_on a b (W.contents p) (W.contents q)
        (W.contents r) es fs fault };

    ghost stops_before = { λ a b p q es fs fault. stops_before a (W.contents p) (W.contents q) es fs
        fault };
}
