ghost use Rattle.std.specs.Prelude.{◌≡◌};
ghost use Rattle.record_file.specs.AtMost.{unless_enough};

use crate::EntrySink;
use rec_types::{Key, TxId};

/// Why a sink that takes so many entries took no more: it has them, or a fault of the sink that they go to.
#[derive(Clone, Copy, Debug, PartialEq, Eq)]
pub enum SinkStop<F> {
    Enough,
    Fault(F),
}

impl<F: Copy> SinkStop<F> {
    /// What telling a sink of so many entries answered, with the fault at which the one stopped that they go to. That there were
    /// enough is none.
    pub fn unless_enough<E: Copy>(
        told: Result<Result<(), SinkStop<F>>, E>,
    ) -> Result<Result<(), F>, E>
        ensures { result ≡ unless_enough told }
    {
        match told {
            Ok(Ok(()) | Err(SinkStop::Enough)) => Ok(Ok(())),
            Ok(Err(SinkStop::Fault(fault))) => Ok(Err(fault)),
            Err(fault) => Err(fault),
        }
    }
}

/// A sink that hands so many entries on to another, and stops then.
#[derive(Drop)]
pub struct AtMost<K> {
    pub sink: K,
    pub left: u32,
}

impl<K: EntrySink> EntrySink for AtMost<K> {
    ghost use Rattle.std.specs.Prelude.{◌≡◌, ◌+◌, length};
    ghost use Rattle.record_file.specs.AtMost.{StopsWithin, counted_none, counted_on, within_on, within_before};

    type Fault = SinkStop<K::Fault>;

    ghost told = { λ old es new. K.told old.sink es new.sink × (new.left + length es ≡ old.left) };

    ghost stops = { λ old es stop new. StopsWithin (λ xs. K.told old.sink xs new.sink)
        (λ xs fault. K.stops old.sink xs fault new.sink) old.left es stop };

    /// Hands the entry on. Faults: Enough, where the entry is one too many, or the last; that of the sink.
    fn take(
        &mut self,
        key: &Key,
        value: &[u8],
        owner: Option<TxId>,
    ) -> Result<(), SinkStop<K::Fault>> {
        if self.left == 0 {
            return Err(SinkStop::Enough);
        }
        self.sink.take(key, value, owner).map_err(SinkStop::Fault)?;
        self.left -= 1;
        if self.left == 0 {
            return Err(SinkStop::Enough);
        }
        Ok(())
    }

    ghost told_none = { λ sink. (K.told_none sink.sink, counted_none sink.left) };

    ghost told_on = { λ a b c es fs one two.
        (K.told_on a.sink b.sink c.sink es fs one.0 two.0, counted_on a.left b.left c.left es fs one.1 two.1) };

    ghost stops_on = { λ a b c es fs stop one two.
        within_on K.told K.stops K.told_on K.stops_on a.sink b.sink c.sink a.left b.left es fs stop one.0 one.1 two };

    ghost stops_before = { λ a b es fs stop one.
        within_before K.told K.stops K.stops_before a.sink b.sink a.left es fs stop one };
}
