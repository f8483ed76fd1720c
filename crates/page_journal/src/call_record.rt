ghost use Rattle.std.specs.Prelude.{◌≡◌, List, [], ◌∷◌};
ghost use Rattle.std.specs.Borrow.{ftrue};
ghost use Rattle.page_journal.specs.FileEvents.{FileEvent, event_by_numbers};

use std::marker::{Model, PhantomData};

/// What a disk in files did, for clauses alone: no memory holds it.
#[derive(Drop)]
pub struct Record {
    marker: PhantomData<u8>,
    pub ghost events: { List FileEvent },
}

impl Model for Record {
    ghost also_owns = { λ _. ftrue };
}

impl Record {
    pub(crate) fn new() -> Record
        ensures { result.events ≡ [] }
    {
        Record {
            marker: PhantomData,
        }
    }

    /// Notes what these numbers and bytes say, of which the first number is the kind.
    pub(crate) fn note(&mut self, _numbers: &[u64], _bytes: &[u8])
        ensures { self.new.events ≡ event_by_numbers _numbers.now _bytes.now ∷ self.old.events }
    {}
}
