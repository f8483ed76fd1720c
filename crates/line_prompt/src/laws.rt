//! What one read of lines gives, by example. The function does nothing: its contract is the law.
ghost use Rattle.std.specs.Prelude.{ℕ, List, [], ◌∷◌, Some, None};
ghost use Rattle.line_prompt.specs.ByLine.{GivesFirstLine, lines_a_and_b};

/// Of the lines a and b a read gives the first with its LF, and where there is room for one byte that byte. It gives neither
/// both lines, nor the second, nor the first without its LF. Where it isn't known what bytes are left, nothing is said of
/// what it gives.
pub fn first_lines_by_example()
    ensures whole { GivesFirstLine (Some lines_a_and_b) 4096 (97 ∷ 10 ∷ []) }
    ensures front { GivesFirstLine (Some lines_a_and_b) 1 (97 ∷ []) }
    ensures both { GivesFirstLine (Some lines_a_and_b) 4096 lines_a_and_b → ⊥ }
    ensures second { GivesFirstLine (Some lines_a_and_b) 4096 (98 ∷ 10 ∷ []) → ⊥ }
    ensures cut { GivesFirstLine (Some lines_a_and_b) 4096 (97 ∷ []) → ⊥ }
    ensures unknown { (room : ℕ) (given : List ℕ) → GivesFirstLine None room given }
{}
