ghost use Rattle.std.specs.Prelude.{◌≡◌};
ghost use Rattle.rec_types.specs.Slots.{short_in};

use crate::Record;
use crate::record::ShortRecord;

/// Where the record of a key stands.
#[derive(Clone, Copy, Debug)]
pub(crate) enum Slot {
    /// Here.
    Short(ShortRecord),
    /// At this place of the long records.
    Long(u32),
}

/// The record of a slot that has it itself.
pub(crate) fn short_record(slot: &Option<Slot>) -> Option<Record>
    ensures { result ≡ short_in slot.now }
{
    match slot {
        Some(Slot::Short(record)) => Some(record.record()),
        Some(Slot::Long(_)) => None,
        None => None,
    }
}
