ghost use Rattle.std.specs.Prelude.{ℕ, Bool, List};
ghost use Rattle.rec_types.specs.Contents.{Contents};
ghost use Rattle.rec_types.specs.Table.{Damages};
ghost use Rattle.rec_types.specs.declared.table_calls.TableCalls.{TableCalls};

/// What contracts know of a table. It has no code.
pub trait TableState {
    /// The records.
    ghost contents: { Self → Contents };

    /// How many records there are at most, where the table is sound.
    ghost record_limit: { Self → ℕ };

    /// Whether what the table reads is what it wrote. No call changes it.
    ghost sound: { Self → Bool };

    /// How many calls a failed device read ended.
    ghost device_failures: { Self → ℕ };

    /// How many calls a refused growth ended.
    ghost memory_refusals: { Self → ℕ };

    /// How many calls a damaged page ended, and the last such page.
    ghost damages: { Self → Damages };

    /// How often the table was called, how often it had no room, and how often a taking out found nothing.
    ghost calls: { Self → TableCalls };

    /// What a table tells of what it was made of.
    ghost Source: { Type 0 };

    /// What the table was made of, and what is kept beside it. No call of a table changes it.
    ghost origin: { Self → Source };

    /// By that: the commits that are kept beside the table, each as its lines; none where none are.
    ghost commits: { Source → List (List (List ℕ)) };

    /// By that: the text of the commit that is in doubt beside the table, or nothing.
    ghost doubt: { Source → List ℕ };
}
