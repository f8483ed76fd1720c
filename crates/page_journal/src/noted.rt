ghost use Rattle.std.specs.Prelude.{◌≡◌, ◌↔◌, IsOk, true};
ghost use Rattle.rec_types.specs.Table.{counted};
ghost use Rattle.page_store.specs.StoreFaults.{is_failed, OnlyFails};

use page_store::StoreFault;
use std::io;

/// Counts a call that failed, and hands its answer on.
pub(crate) fn noted<T: Drop>(
    failures: &mut u64,
    answer: Result<T, StoreFault>,
) -> Result<T, StoreFault>
    ensures same { result ≡ answer }
    ensures failures { failures.new ≡ counted failures.old (is_failed result) }
{
    if let Err(StoreFault::Failed) = &answer {
        *failures = failures.saturating_add(1);
    }
    answer
}

/// The same of a call of the system, whose error is the fault Failed.
pub(crate) fn noted_call<T: Drop>(
    failures: &mut u64,
    answer: io::Result<T>,
) -> Result<T, StoreFault>
    ensures failures { failures.new ≡ counted failures.old (is_failed result) }
    ensures fault { OnlyFails result }
{
    noted(failures, answer.map_err(StoreFault::from))
}

/// The same without a count.
pub(crate) fn told_call<T: Drop>(answer: io::Result<T>) -> Result<T, StoreFault>
    ensures { OnlyFails result }
{
    answer.map_err(StoreFault::from)
}

/// Counts one more, up to the greatest number.
pub(crate) fn count_up(n: &mut u64)
    ensures { n.new ≡ counted n.old true }
{
    *n = n.saturating_add(1);
}
