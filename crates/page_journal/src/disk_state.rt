ghost use Rattle.std.specs.Prelude.{ℕ, Bool};
ghost use Rattle.page_journal.specs.Files.{Files};

/// What contracts know of a page file with a side file on a device. It has no code.
pub trait DiskState {
    /// What the files were when the disk was opened. No call changes it.
    ghost began: { Self → Files };

    /// Whether reads give what was written. No call changes it.
    ghost steady: { Self → Bool };

    /// What reads see.
    ghost seen: { Self → Files };

    /// What a crash at this moment may leave.
    ghost may_leave: { Self → Files → Type 0 };

    /// A number that doesn't fall. Each sync that succeeds raises it, and each taking away of a side file.
    ghost moment: { Self → ℕ };

    /// What a crash at that moment or later might have left.
    ghost left_since: { Self → ℕ → Files → Type 0 };

    /// How many calls failed, but those that append to the log of commits.
    ghost failures: { Self → ℕ };
}
