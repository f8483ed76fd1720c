ghost use Rattle.std.specs.Prelude.{◌≡◌};
ghost use Rattle.rec_types.specs.Calls.{with_get, with_set, with_list, no_calls};

use crate::{Record, TableFault};

/// How often a table was called, by each of its calls that may change what contracts know of it; how often it had no
/// room; and how often a taking out found nothing. The numbers stay at their greatest value.
#[derive(Clone, Copy, Debug)]
pub struct TableCalls {
    pub gets: u64,
    pub sets: u64,
    pub lists: u64,
    pub no_rooms: u64,
    pub misses: u64,
}

/// No call was made.
pub const NO_CALLS: TableCalls = TableCalls {
    gets: 0,
    sets: 0,
    lists: 0,
    no_rooms: 0,
    misses: 0,
};

impl TableCalls {
    /// Counts a look.
    pub fn note_get(&mut self)
        ensures { self.new ≡ with_get self.old }
    {
        self.gets = self.gets.saturating_add(1);
    }

    /// Counts a call of `set`, which was to take a key out or not, with what it answered.
    pub fn note_set(&mut self, takes_out: bool, answer: &Result<Option<Record>, TableFault>)
        ensures { self.new ≡ with_set self.old takes_out answer.now }
    {
        self.sets = self.sets.saturating_add(1);
        match answer {
            Err(TableFault::NoRoom) => self.no_rooms = self.no_rooms.saturating_add(1),
            Ok(None) if takes_out => self.misses = self.misses.saturating_add(1),
            Ok(_) | Err(_) => {}
        }
    }

    /// Counts a list.
    pub fn note_list(&mut self)
        ensures { self.new ≡ with_list self.old }
    {
        self.lists = self.lists.saturating_add(1);
    }
}
