ghost use Rattle.std.specs.Prelude.{List};
ghost use Rattle.page_journal.specs.declared.disk_call.DiskCall.{DiskCall};
ghost use Rattle.page_journal.specs.Past.{coded_disk_calls};

use crate::disk_call::DiskCall as OneCall;
use std::marker::{Model, PhantomData};

/// Calls that were handed out, the newest first. It has no bytes.
#[derive(Drop)]
pub(crate) struct Past {
    marker: PhantomData<u8>,
    ghost calls: { List DiskCall } by { coded_disk_calls },
}

impl Model for Past {
    ghost use base.Fml.{ftrue};

    ghost also_owns = { λ _. ftrue };
}

/// Calls, of which the older ones were handed out.
#[derive(Drop)]
pub(crate) struct CallList {
    pub(crate) before: Option<Past>,
    pub(crate) calls: Vec<OneCall>,
}

impl Past {
    ghost use Rattle.std.specs.Prelude.{◌≡◌, ◌++◌, reverse};
    ghost use Rattle.page_journal.specs.PastCalls.{past_of};

    // The calls of a list.
    pub(crate) fn of(list: &CallList) -> Past
        ensures { result.calls ≡ reverse list.now.calls.items ++ past_of list.now.before }
    {
        let _ = list;
        Past {
            marker: PhantomData,
        }
    }
}
