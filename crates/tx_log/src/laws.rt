ghost use Rattle.std.specs.Prelude.{◌≡◌, ℕ, ◌≤◌, Bool, true, false, List, [], ◌∷◌, Some, None, map, reverse, take};
ghost use Rattle.rec_types.specs.History.{Change, undo_last, take_back, take_newest, log_use};
ghost use Rattle.tx_log.specs.Examples.{eight, nine, one, byte, changed_a, with_a_written};
ghost use Rattle.tx_log.specs.Log.{chain, lsn_of, kept_of, IsNumbered, AllWritten};
ghost use Rattle.rec_types.specs.Kept.{Kept};
ghost use Rattle.tx_log.specs.LogLaws.{IsChained};
ghost use Rattle.tx_log.specs.LogRefusals.{look_refusal_in, change_refusal_in};
ghost use Rattle.tx_log.specs.Owners.{before_owned};
ghost use Rattle.tx_log.specs.Walks.{absent_at};
ghost use Rattle.tx_log.specs.declared.log_record.LogRecord.TheVariants.{Update, Compensation, Unclaim};
ghost use Rattle.tx_log.specs.declared.refusal.ChangeRefusal.TheVariants.{NoSuchTx, Rolling, Held, LogFull};
ghost use Rattle.tx_log.specs.Remaining.{LosesLives, IsPart, out_of, taken_back_at};

/// A log of eight records, of a transaction that went back twice: its records are numbered, and lead to those before
/// them. On the way down the updates that were taken back are passed over.
pub fn two_partial_rollbacks()
    ensures numbered { IsNumbered (reverse eight) }
    ensures written { AllWritten (reverse eight) }
    ensures before { map lsn_of (chain (reverse (take 3 eight)) 3) ≡ 3 ∷ 2 ∷ 1 ∷ [] }
    ensures between { map lsn_of (chain (reverse (take 6 eight)) 6) ≡ 6 ∷ 1 ∷ [] }
    ensures after { chain (reverse eight) 8 ≡ [] }
    ensures taken_back { map (λ c. c.live) (kept_of (reverse eight))
        ≡ false ∷ false ∷ false ∷ false ∷ [] }
{}

/// A log of nine records, of a transaction that claimed a key it had written, wrote at one that it had claimed, claimed
/// one alone, and took all three back. Of claimed keys alone those are absent where nothing was seen. A compensation
/// that passes over a claim, an unclaim of an update, and one that doesn't lead to the claim's `prev` aren't written.
pub fn claims()
    ensures numbered { IsNumbered (reverse nine) }
    ensures written { AllWritten (reverse nine) }
    ensures before { map lsn_of (chain (reverse (take 5 nine)) 5) ≡ 5 ∷ 4 ∷ 3 ∷ 2 ∷ 1 ∷ [] }
    ensures after { map lsn_of (chain (reverse nine) 9) ≡ 1 ∷ [] }
    ensures taken_back { map (λ c. c.live) (kept_of (reverse nine))
        ≡ true ∷ false ∷ false ∷ false ∷ false ∷ [] }
    ensures claimed { absent_at (byte 98) (chain (reverse (take 3 nine)) 3) ≡ true }
    ensures put { absent_at (byte 98) (chain (reverse (take 4 nine)) 4) ≡ false }
    ensures seen { absent_at (byte 97) (chain (reverse (take 5 nine)) 5) ≡ false }
    ensures passed_over { AllWritten (Compensation 3 2 one (byte 97) None 0 ∷ reverse (take 2 nine))
        → ⊥ }
    ensures of_an_update { AllWritten (Unclaim 2 1 one (byte 97) 0 ∷ reverse (take 1 nine)) → ⊥ }
    ensures leads_elsewhere { AllWritten (Unclaim 3 2 one (byte 97) 0 ∷ reverse (take 2 nine)) → ⊥ }
{}

/// The log of eight records has the laws of a log. A record whose number isn't its place, one that doesn't lead to the
/// newest before it, a compensation that names no update, one that puts back another record, a change that is compensated
/// twice, and one that is told as live though it is compensated are in no log.
pub fn chained()
    ensures whole { IsChained eight (kept_of (reverse eight)) }
    ensures number { (cs : List Kept) → IsChained (Update 2 0 one (byte 97) None (Some (byte 49)) ∷ []) cs → ⊥ }
    ensures prev { (cs : List Kept) → IsChained (
        Update 1 0 one (byte 97) None (Some (byte 49))
        ∷ Update 2 0 one (byte 98) None (Some (byte 49))
        ∷ []
        ) cs → ⊥ }
    ensures unnamed { (cs : List Kept) → IsChained (Compensation 1 0 one (byte 97) None 0 ∷ []) cs → ⊥ }
    ensures another { (cs : List Kept) → IsChained (
        Update 1 0 one (byte 97) None (Some (byte 49))
        ∷ Compensation 2 1 one (byte 97) (Some (byte 50)) 0
        ∷ []
        ) cs → ⊥ }
    ensures twice { (cs : List Kept) → IsChained (
        Update 1 0 one (byte 97) None (Some (byte 49))
        ∷ Compensation 2 1 one (byte 97) None 0
        ∷ Compensation 3 2 one (byte 97) None 0
        ∷ []
        ) cs → ⊥ }
    ensures live { (c : Kept) → c.live ≡ true → IsChained (
        Update 1 0 one (byte 97) None (Some (byte 49))
        ∷ Compensation 2 1 one (byte 97) None 0
        ∷ []
        ) (c ∷ []) → ⊥ }
{}

/// Taking back makes no change live again, be it the newest change of a transaction, all from a place on, or the
/// newest of those. A history in which a change that was taken back is live is left by none of them.
pub fn nothing_lives_again()
    ensures newest { (t : ℕ) → (h : List Change) → LosesLives h (undo_last t h) }
    ensures from { (h : List Change) → (t p : ℕ) → LosesLives h (take_back h t p) }
    ensures newest_from { (h : List Change) → (t p n : ℕ) → LosesLives h (take_newest h t p n) }
    ensures example { LosesLives (out_of 1 97 ∷ out_of 2 98 ∷ [])
        (taken_back_at 1 97 ∷ out_of 2 98 ∷ []) }
    ensures again { LosesLives (taken_back_at 1 97 ∷ []) (out_of 1 97 ∷ []) → ⊥ }
{}

/// Any part of a history's live changes uses no more of the log than the history, with the same transactions open. A
/// change that was taken back is in no part.
pub fn a_part_uses_no_more()
    ensures uses { (is_open : ℕ → Bool) → (p h : List Change) → IsPart p h
        → log_use is_open p ≤ log_use is_open h }
    ensures part { IsPart (out_of 2 98 ∷ []) (taken_back_at 1 97 ∷ out_of 2 98 ∷ []) }
    ensures of_two { log_use (λ _. true) (taken_back_at 1 97 ∷ out_of 2 98 ∷ []) ≡ 4 }
    ensures of_one { log_use (λ _. true) (out_of 2 98 ∷ []) ≡ 2 }
    ensures taken { IsPart (taken_back_at 1 97 ∷ []) (taken_back_at 1 97 ∷ []) → ⊥ }
{}

/// What stood at a key before its owner came is told by the owner's first live change there, not by the newest, and by the
/// next one where the first was taken back; of a transaction that has ended, and at another key, there is none.
pub fn before_the_owner()
    ensures first { before_owned (λ _. true) (changed_a None 49 true ∷ changed_a (Some (byte 49)) 50 true ∷ []) (byte 97)
        ≡ Some None }
    ensures newest { before_owned (λ _. true)
        (changed_a None 49 true ∷ changed_a (Some (byte 49)) 50 true ∷ []) (byte 97)
        ≡ Some (Some (byte 49)) → ⊥ }
    ensures taken_back { before_owned (λ _. true)
        (changed_a None 49 false ∷ changed_a (Some (byte 49)) 50 true ∷ []) (byte 97)
        ≡ Some (Some (byte 49)) }
    ensures ended { before_owned (λ _. false) (changed_a None 49 true ∷ []) (byte 97) ≡ None }
    ensures elsewhere { before_owned (λ _. true) (changed_a None 49 true ∷ []) (byte 98) ≡ None }
{}

/// At a key that one of three transactions owns, over a log without room, each is refused for the first cause that it has:
/// that it isn't open, that it is being rolled back, that another owns the key, and of the owner that the log is full. It
/// may look, and with room for a record more it may change.
pub fn first_refusal()
    ensures no_such_tx { change_refusal_in (with_a_written 3) 4 (byte 97) ≡ Some NoSuchTx }
    ensures rolling { change_refusal_in (with_a_written 3) 2 (byte 97) ≡ Some Rolling }
    ensures held { change_refusal_in (with_a_written 3) 3 (byte 97) ≡ Some (Held one) }
    ensures full { change_refusal_in (with_a_written 3) 1 (byte 97) ≡ Some LogFull }
    ensures look { look_refusal_in (with_a_written 3) 1 (byte 97) ≡ None }
    ensures room { change_refusal_in (with_a_written 4) 1 (byte 97) ≡ None }
{}
