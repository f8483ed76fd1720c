//! What a copy that is stopped leaves. The function does nothing: its contract is the law.
ghost use Rattle.std.specs.Prelude.{◌≡◌, ◌≤◌, ℕ, List, [], length, take};
ghost use Rattle.page_copy.specs.Copying.{IsNoneOrCopy, copying};
ghost use Rattle.page_copy.specs.Examples.{first_first, two_copied, pages_4_and_5};
ghost use Rattle.page_store.specs.Journal.{carried};

/// Where a copying stops after any number of its calls there is no page, or page 0 is one of zeros, or there is the whole
/// copy, which all of them lead to. It fails where page 0 is written before page 1.
pub fn stopped_copies()
    ensures all { (pages : List (List ℕ)) → 1 ≤ length pages → carried [] (copying pages) ≡ pages }
    ensures fronts { (pages : List (List ℕ)) (k : ℕ) → 1 ≤ length pages
        → IsNoneOrCopy pages (carried [] (take k (copying pages))) }
    ensures example { copying pages_4_and_5 ≡ two_copied }
    ensures first_first { IsNoneOrCopy pages_4_and_5 (carried [] (take 2 first_first)) → ⊥ }
{}
