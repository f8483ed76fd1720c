ghost use Rattle.std.specs.Prelude.{◌≡◌, true};
ghost use Rattle.rec_types.specs.Table.{counted};

/// Counts one more, up to the greatest number.
pub(crate) fn count_up(n: &mut u64)
    ensures { n.new ≡ counted n.old true }
{
    if *n < u64::MAX {
        *n += 1;
    }
}
