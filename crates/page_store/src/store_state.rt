ghost use Rattle.std.specs.Prelude.{ℕ, Bool, List, Option};
ghost use Rattle.page_store.specs.Guards.{Guard};
ghost use Rattle.page_store.specs.Journal.{Journal};
ghost use Rattle.page_store.specs.Opening.{Opening};

/// What contracts know of a store. It has no code.
pub trait StoreState {
    /// The pages.
    ghost pages: { Self → List (List ℕ) };

    /// How many bytes there are after the last page.
    ghost tail: { Self → ℕ };

    /// Whether what the store reads is what it wrote. No call changes it.
    ghost steady: { Self → Bool };

    /// What the store was opened from, and what was kept beside its pages since then. No call of a store changes it.
    ghost opening: { Self → Opening };

    /// How many reads there were.
    ghost reads: { Self → ℕ };

    /// How often the shape was asked for.
    ghost shapes: { Self → ℕ };

    /// How many changing calls there were.
    ghost writes: { Self → ℕ };

    /// How many calls failed.
    ghost failures: { Self → ℕ };

    /// The pages that the store was made of and the changing calls since then that succeeded, where it
    /// keeps them.
    ghost journal: { Self → Option Journal };

    /// Which pages the store lets be written over, and how many calls it has refused by itself.
    ghost guard: { Self → Guard };
}
