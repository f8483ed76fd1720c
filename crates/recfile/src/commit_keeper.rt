ghost use Rattle.std.specs.Prelude.{◌≡◌, ℕ, true, List, Option, Result};
ghost use Rattle.record_file.specs.declared.keeper.KeeperFault.{KeeperFault};
ghost use Rattle.recfile.specs.Run.{TellsWrites};

use rec_types::Table;
use record_file::{Keeper, Unlogged};

/// A keeper whose commits stand beside the table as scripts that make their writes, where it keeps any.
pub trait CommitKeeper<T: Table>: Keeper<T> {
    /// What it answers tells what stands there.
    ghost tells: { (keeper : Self) (old new : T) (es : List (List ℕ × Option (List ℕ)))
        (answer : Result (Unit {0}) KeeperFault)
        → Self.Keeper.answers keeper old es answer new → Self.Keeper.keeps ≡ true
        → TellsWrites T.TableState old es answer new };
}

impl<T: Table> CommitKeeper<T> for Unlogged {
    ghost use Rattle.std.proofs.lemmas.Bool.{false≢true};

    ghost tells = { λ keeper old new es answer answered keeps. absurd (false≢true keeps) };
}
