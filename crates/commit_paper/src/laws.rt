//! What holds of the text of a log. The functions do nothing: their contracts are the laws.
ghost use Rattle.std.specs.Prelude.{◌≡◌, ◌⊎◌, ◌≤◌, ◌++◌, ◌∷◌, [], List, ℕ, length, codes};
ghost use Rattle.commit_paper.specs.Steps.{Inks};
ghost use Rattle.commit_paper.specs.Text.{units_of, unit_text, log_text, zeros, IsUnit, AreUnits, Mixes};

/// Behind whole units stands a unit of which each byte is there or is zero still, and then anything: that unit is read
/// where all of it is there, and else nothing of it. Behind whole units and a zero nothing is read; without the zero what
/// stands there is.
pub fn torn_units()
    ensures torn { (units : List (List (List ℕ))) (unit : List (List ℕ)) (mixed rest : List ℕ)
        → AreUnits units → IsUnit unit
        → Mixes (zeros (length (unit_text unit))) (unit_text unit) mixed
        → (units_of (log_text units ++ mixed ++ rest) ≡ units)
        ⊎ ((mixed ≡ unit_text unit) × (units_of (log_text units ++ mixed ++ rest)
        ≡ units ++ unit ∷ units_of rest)) }
    ensures read_back { (units : List (List (List ℕ))) (rest : List ℕ) → AreUnits units
        → units_of (log_text units ++ 0 ∷ rest) ≡ units }
    ensures example { units_of (codes "begin" ++ 10 ∷ codes "put 1 a =x" ++ 10 ∷ codes "commit 1"
        ++ 10 ∷ codes "begin" ++ 10 ∷ codes "del 2 a" ++ 10 ∷ codes "commit 2" ++ 0 ∷ [])
        ≡ (codes "begin" ∷ codes "put 1 a =x" ∷ codes "commit 1" ∷ []) ∷ [] }
    ensures no_zero { units_of (codes "commit 1" ++ 10 ∷ codes "commit 2" ++ 10 ∷ [])
        ≡ (codes "commit 1" ∷ []) ∷ [] → ⊥ }
{}

/// What a crash may leave of a write of two bytes, by example: both, either or none of them, and no other byte changes.
pub fn writes_by_example()
    ensures none { Inks 0 (7 ∷ 8 ∷ []) (0 ∷ 0 ∷ 0 ∷ []) (0 ∷ 0 ∷ 0 ∷ []) }
    ensures second { Inks 0 (7 ∷ 8 ∷ []) (0 ∷ 0 ∷ 0 ∷ []) (0 ∷ 8 ∷ 0 ∷ []) }
    ensures both { Inks 0 (7 ∷ 8 ∷ []) (0 ∷ 0 ∷ 0 ∷ []) (7 ∷ 8 ∷ 0 ∷ []) }
    ensures beside { Inks 0 (7 ∷ 8 ∷ []) (0 ∷ 0 ∷ 0 ∷ []) (0 ∷ 0 ∷ 9 ∷ []) → ⊥ }
{}
