ghost use Rattle.std.specs.Prelude.{◌≡◌, not, is_some, option_map, unwrap_or};

use rec_types::Record;

/// Whether a change leaves its key without a record, as far as it says: what it writes, or what a claim has seen.
pub fn is_lacking(before: &Option<Record>, after: Option<&Option<Record>>) -> bool
    ensures { result ≡ not (is_some (unwrap_or (option_map (λ w. w.now) after.entry) before.now)) }
{
    match after {
        Some(after) => after.is_none(),
        None => before.is_none(),
    }
}
