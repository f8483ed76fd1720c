ghost use Rattle.record_file.specs.TableCalls.{KeepsOrigin};
ghost use Rattle.std.specs.Prelude.{◌≡◌, ◌≢◌, ℕ, Result, Err, Some, IsTrue, IfOk, IfErr, OnOk, if◌then◌else◌};
ghost use Rattle.rec_types.specs.History.{replay};
ghost use Rattle.record_file.specs.Abstract.{open_of};
ghost use Rattle.record_file.specs.Runs.{seen};
ghost use Rattle.record_file.specs.Steps.{Aborts, Resumes};
ghost use Rattle.record_file.specs.declared.fault.AbortFault.{AbortFault};
ghost use Rattle.record_file.specs.declared.fault.AbortFault.TheVariants as abort_faults;
ghost use Rattle.record_file.specs.declared.fault.ResumeFault.{ResumeFault};
ghost use Rattle.recfile.specs.Ending.{EndingAsks, EndsAll, EndsOpen, StopsEnding, StopsOne, aborted, end_cause, rest_of, resumed, stopped_tx};

use rec_types::{Table, TxId};
use record_file::{AbortFault, Cause, RecordFile, ResumeFault};
use std::fmt;

/// Why the open transactions could not all be ended: the rollback of `tx` was stopped, after `undone` changes in its
/// last call, and `left` are still to be taken back.
#[derive(Clone, Copy, Debug, PartialEq, Eq)]
pub enum EndFault {
    Stopped {
        tx: TxId,
        undone: u32,
        left: u32,
        cause: Cause,
    },
}

impl fmt::Display for EndFault {
    ghost use Rattle.std.specs.Prelude.{◌≡◌};

    fn fmt<W: fmt::Write>(&self, f: &mut fmt::Formatter<W>) -> fmt::Result {
        let EndFault::Stopped {
            tx: TxId(tx),
            undone,
            left,
            cause,
        } = self;
        match cause {
            Cause::Device => write!(f, "Stopped {tx} {undone} {left} Device"),
            Cause::Damaged(page) => write!(f, "Stopped {tx} {undone} {left} Damaged {page}"),
            Cause::Memory => write!(f, "Stopped {tx} {undone} {left} Memory"),
        }
    }
}

// Whether the transaction is open, by what going on with its rollback answered. Fault: Stopped.
fn resumed(tx: TxId, answer: Result<u32, ResumeFault>) -> Result<bool, EndFault>
    ensures { result ≡ resumed tx answer }
{
    match answer {
        Ok(_) => Ok(true),
        Err(ResumeFault::NoSuchTx) => Ok(false),
        Err(ResumeFault::NotRolling) => Ok(true),
        Err(
            ResumeFault::Stopped {
                undone,
                left,
                cause,
            },
        ) => Err(EndFault::Stopped {
            tx,
            undone,
            left,
            cause,
        }),
    }
}

// The end of a transaction, by what its abort answered. Fault: Stopped.
fn aborted(tx: TxId, answer: Result<u32, AbortFault>) -> Result<(), EndFault>
    ensures { result ≡ aborted tx answer }
{
    match answer {
        Ok(_) | Err(AbortFault::NoSuchTx | AbortFault::Rolling) => Ok(()),
        Err(
            AbortFault::Stopped {
                undone,
                left,
                cause,
            },
        ) => Err(EndFault::Stopped {
            tx,
            undone,
            left,
            cause,
        }),
    }
}

// Goes on with the rollback of a transaction, where one is under way, and answers whether it is, or was, open. Fault:
// Stopped.
fn go_on<T: Table>(file: &mut RecordFile<T>, tx: TxId) -> Result<bool, EndFault>
    ensures step { (answer : Result ℕ ResumeFault) × (result ≡ resumed tx answer)
        × Resumes file.old.file tx.0 answer file.new.file }
    ensures asks { EndingAsks (seen T.TableState file.old) (end_cause result)
        (seen T.TableState file.new) }
    ensures origin { KeepsOrigin T.TableState file.old file.new }
{
    resumed(tx, file.resume(tx))
}

// Takes back all changes of a transaction that is active, and ends it; one that has ended stays so. Fault: Stopped.
fn give_up<T: Table>(file: &mut RecordFile<T>, tx: TxId) -> Result<(), EndFault>
    ensures step { (answer : Result ℕ AbortFault) × (result ≡ aborted tx answer)
        × Aborts file.old.file tx.0 answer file.new.file }
    ensures asks { EndingAsks (seen T.TableState file.old) (end_cause result)
        (seen T.TableState file.new) }
    ensures origin { KeepsOrigin T.TableState file.old file.new }
{
    aborted(tx, file.abort(tx))
}

// Ends a transaction, and answers whether it was open. Fault: Stopped.
fn end_one<T: Table>(file: &mut RecordFile<T>, tx: TxId) -> Result<bool, EndFault>
    ensures ended { IfOk result (λ was. EndsOpen file.old.file tx.0 was file.new.file) }
    ensures stopped { IfErr result (λ fault. StopsOne file.old.file fault file.new.file) }
    ensures number { IfErr result (λ fault. stopped_tx fault ≡ tx.0) }
    ensures asks { EndingAsks (seen T.TableState file.old) (end_cause result)
        (seen T.TableState file.new) }
    ensures origin { KeepsOrigin T.TableState file.old file.new }
{
    let _begun = file.begun();
    if !go_on(file, tx)? {
        return Ok(false);
    }
    give_up(file, tx)?;
    Ok(true)
}

fn one_if(test: bool) -> u32
    ensures { result ≡ (if test then 1 else 0) }
{
    if test { 1 } else { 0 }
}

/// Ends every open transaction, in ascending order of their numbers, and answers how many it ended: it goes on with
/// a rollback under way, and aborts the transaction where it is active then. Fault: Stopped, at the first rollback that
/// stops; the transactions below that one have ended, it is rolling, and those above are untouched. It takes no memory
/// of its own.
pub fn end_all<T: Table>(file: &mut RecordFile<T>) -> Result<u32, EndFault>
    ensures ended { IfOk result (λ count. EndsAll file.old.file count file.new.file) }
    ensures stopped { IfErr result (λ fault. StopsEnding file.old.file fault file.new.file) }
    ensures asks { EndingAsks (seen T.TableState file.old) (end_cause result)
        (seen T.TableState file.new) }
    ensures origin { KeepsOrigin T.TableState file.old file.new }
    ensures records { IsTrue (T.sound file.old.table)
        → OnOk result (T.contents file.new.table ≡ replay file.old.file.opening
        (rest_of (open_of file.old.file) file.old.file.history)) }
{
    let mut ended = 0;
    for number in 0..file.begun() {
        ended += one_if(end_one(file, TxId(number + 1))?);
    }
    let _begun = file.begun();
    Ok(ended)
}
