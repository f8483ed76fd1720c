//! Facts of the definitions that contracts of this crate cite.
ghost use Rattle.std.specs.Prelude.{◌≡◌, ◌≢◌, ℕ, ◌+◌, ◌<◌, ◌≤◌, ◌==◌, List, [], ◌∷◌, ◌++◌, length, take, Option, None, is_some};
ghost use Rattle.std.specs.List.{list_any};
ghost use Rattle.page_store.specs.PageMap.{PageMap, at};
ghost use Rattle.page_store.specs.FreeNumbers.{free_numbers, candidate, count_after, AreDistinct, pages_1_and_3};
ghost use Rattle.page_store.specs.Journal.{carried, writing_back};
ghost use Rattle.page_store.specs.declared.step.Step.{Step};
ghost use Rattle.page_store.specs.Fronts.{IsPartWay, tried, two_pages, new_page_1, page_1_written, closed_first, marked_late, two_tries, unmarked, page_1_twice};

/// The numbers that an edit takes: no page of such a number is in use, they ascend, they aren't 0,
/// and they are below the page count that the edit leaves.
pub fn candidates()
    ensures unused { (pages : List (Option (List ℕ))) (i : ℕ) →
        at pages (candidate pages i) ≡ None }
    ensures ascending { (pages : List (Option (List ℕ))) (i j : ℕ) →
        i < j → candidate pages i < candidate pages j }
    ensures some { (pages : List (Option (List ℕ))) (i : ℕ) →
        1 ≤ length pages → 1 ≤ candidate pages i }
    ensures below { (pages : List (Option (List ℕ))) (i taken : ℕ) →
        i < taken → candidate pages i < count_after pages taken }
{}

/// Where page 0 is not in use and the pages in use are exactly those of some distinct numbers, there
/// are page 0, these and the free ones, and no more. In the example the pages 1 and 3 of five are in
/// use. It fails for a number that is written twice, and for one that is missing.
pub fn page_total()
    ensures total { (pages : List (Option (List ℕ))) (used : List ℕ) →
        1 ≤ length pages → at pages 0 ≡ None → AreDistinct used →
        ((n : ℕ) → is_some (at pages n) ≡ list_any (λ u. n == u) used) →
        length pages ≡ 1 + length used + length (free_numbers pages) }
    ensures example { free_numbers pages_1_and_3 ≡ (2 ∷ 4 ∷ []) }
    ensures used { (n : ℕ) → is_some (at pages_1_and_3 n) ≡ list_any (λ u. n == u) (3 ∷ 1 ∷ []) }
    ensures twice { length pages_1_and_3
        ≢ 1 + length {A = ℕ} (3 ∷ 1 ∷ 3 ∷ []) + length (free_numbers pages_1_and_3) }
    ensures missing { length pages_1_and_3
        ≢ 1 + length {A = ℕ} (3 ∷ []) + length (free_numbers pages_1_and_3) }
{}

/// Where a writing back stops after any number of its calls, there are the old pages, perhaps with
/// pages of zeros behind them, or page 0 is the mark, or there is all that it was to write. In the
/// example page 1 of two is written. It fails where page 0 is closed before page 1 is written, and
/// where page 1 is written before page 0 is marked.
pub fn fronts_of_a_writing_back()
    ensures fronts { (old : List (List ℕ)) (pages : PageMap) (count : ℕ) (writing clean : List ℕ)
        → (k : ℕ) → 1 ≤ count → pages 0 ≡ None
        → IsPartWay old count writing (carried old (writing_back pages count writing clean))
        (carried old (take k (writing_back pages count writing clean))) }
    ensures example { writing_back new_page_1 2 (4 ∷ []) (5 ∷ []) ≡ page_1_written }
    ensures closed_first { IsPartWay two_pages 2 (4 ∷ []) (carried two_pages page_1_written)
        (carried two_pages (take 2 closed_first)) → ⊥ }
    ensures marked_late { IsPartWay two_pages 2 (4 ∷ []) (carried two_pages page_1_written)
        (carried two_pages (take 2 marked_late)) → ⊥ }
{}

/// The same holds where a writing back was tried any number of times before, and stopped: its calls
/// again lead to what they would have led to at once.
pub fn tries_of_a_writing_back()
    ensures fronts { (old : List (List ℕ)) (pages : PageMap) (count : ℕ) (writing clean : List ℕ)
        → (ks : List ℕ) → 1 ≤ count → pages 0 ≡ None
        → IsPartWay old count writing (carried old (writing_back pages count writing clean))
        (carried old (tried ks (writing_back pages count writing clean))) }
    ensures again { (old : List (List ℕ)) (pages : PageMap) (count : ℕ) (writing clean : List ℕ)
        → (ks : List ℕ) → carried (carried old (tried ks (writing_back pages count writing clean)))
        (writing_back pages count writing clean)
        ≡ carried old (writing_back pages count writing clean) }
    ensures example { tried (1 ∷ 2 ∷ []) page_1_written ≡ two_tries }
{}

/// Tries hold the calls of a writing back alone, in their order. Where page 1 of two is written, none
/// begin by writing page 1 with no mark in page 0, or before the mark, or by closing page 0 before
/// page 1 is written, or write page 1 twice with nothing between, whatever comes after.
pub fn tries_by_example()
    ensures unmarked { (ks : List ℕ) (more : List Step)
        → tried ks page_1_written ≢ unmarked ++ more }
    ensures marked_late { (ks : List ℕ) (more : List Step)
        → tried ks page_1_written ≢ marked_late ++ more }
    ensures closed_first { (ks : List ℕ) (more : List Step)
        → tried ks page_1_written ≢ closed_first ++ more }
    ensures twice { (ks : List ℕ) (more : List Step)
        → tried ks page_1_written ≢ page_1_twice ++ more }
{}
