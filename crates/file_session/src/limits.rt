ghost use Rattle.std.specs.Prelude.{◌≡◌};
ghost use Rattle.rec_types.specs.LimitBounds.{most_records, most_log_records, most_begins};

use rec_types::{Limits, MOST_BEGINS, MOST_LOG_RECORDS, MOST_RECORDS};

/// The greatest limits.
pub fn greatest_limits() -> Limits
    ensures { result ≡ record {
      records = most_records;
      log_records = most_log_records;
      begins = most_begins;
    } }
{
    Limits::new(MOST_RECORDS, MOST_LOG_RECORDS, MOST_BEGINS).unwrap()
}
