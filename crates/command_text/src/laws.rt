//! What holds of lines and texts. The functions do nothing: their contracts are the laws.
ghost use Rattle.std.specs.Prelude.{◌≡◌, ◌≢◌, ℕ, ◌<◌, ◌≤◌, true, false, List, [], ◌∷◌, ◌++◌, length, nat_lt, if◌then◌else◌, Some, None, Ok, Err, codes};
ghost use Rattle.std.specs.List.{All, list_all};
ghost use Rattle.commit_paper.specs.Text.{IsUnit};
ghost use Rattle.rec_types.specs.Widths.{key_width};
ghost use Rattle.percent_encoding.specs.Percent.{percent_decode};
ghost use Rattle.record_file.specs.declared.fault.Cause.TheVariants as causes;
ghost use Rattle.record_file.specs.declared.fault.PutFault.TheVariants as put_faults;
ghost use Rattle.record_file.specs.declared.fault.RollbackToFault.TheVariants as rollback_faults;
ghost use Rattle.command_text.specs.Dump.{dump_text, dump_commands, CanBePut};
ghost use Rattle.command_text.specs.Examples.{tx, x_owned_by_7, free};
ghost use Rattle.command_text.specs.Refusals.{begins_refused, is_refusal};
ghost use Rattle.command_text.specs.Grammar.{is_word, words_of, key_from_word, line_of};
ghost use Rattle.command_text.specs.Script.{bounded_entries_in, bounded_line_of, ended_lines, commands_of, lines_of, longest_line};
ghost use Rattle.command_text.specs.Texts.{escaped, is_plain, text_of, texts_of};
ghost use Rattle.command_text.specs.Units.{unit_lines};
ghost use Rattle.command_text.specs.declared.command.Command.TheVariants as command;
ghost use Rattle.command_text.specs.declared.command.LineFault.TheVariants as faults;
ghost use Rattle.command_text.specs.declared.reply.Reply.{Reply};
ghost use Rattle.command_text.specs.declared.reply.Reply.TheVariants as reply;

/// The lines of a script by example: cut at each LF, and nothing after the last one is no line.
pub fn lines_by_example()
    ensures none { lines_of [] ≡ [] }
    ensures ended { lines_of (codes "ab" ++ 10 ∷ codes "c" ++ 10 ∷ [])
        ≡ codes "ab" ∷ codes "c" ∷ [] }
    ensures unended { lines_of (codes "ab" ++ 10 ∷ codes "c") ≡ codes "ab" ∷ codes "c" ∷ [] }
    ensures blank { lines_of (10 ∷ 10 ∷ codes "c") ≡ [] ∷ [] ∷ codes "c" ∷ [] }
    ensures words { words_of (codes "  save   1 ") ≡ codes "save" ∷ codes "1" ∷ [] }
    ensures entries { commands_of
        (codes "log" ++ 10 ∷ codes "# log" ++ 10 ∷ 10 ∷ codes "lag" ++ 10 ∷ codes "list")
        ≡ Ok command.Log ∷ Err faults.UnknownCommand ∷ Ok command.List ∷ [] }
{}

/// A line that may have 65,536 bytes is read as any line is; a longer one is refused, whatever it says. By example: the
/// lines of a text that have their LF.
pub fn bounded_lines()
    ensures read { (line : List ℕ) → length line ≤ longest_line
        → bounded_line_of line ≡ line_of line }
    ensures refused { (line : List ℕ) → longest_line < length line
        → bounded_line_of line ≡ Err faults.LineTooLong }
    ensures ended { ended_lines (codes "ab" ++ 10 ∷ codes "c" ++ 10 ∷ [])
        ≡ codes "ab" ∷ codes "c" ∷ [] }
    ensures unended { ended_lines (codes "ab" ++ 10 ∷ codes "c") ≡ codes "ab" ∷ [] }
    ensures entries { bounded_entries_in (codes "log" ∷ codes "# log" ∷ codes "lag" ∷ [])
        ≡ Ok command.Log ∷ Err faults.UnknownCommand ∷ [] }
{}

/// Lines by example: what each says, and the first fault where there are two.
pub fn commands_by_example()
    ensures put { line_of (codes "put 1 a =x")
        ≡ Ok (Some (command.Put (tx 1) (codes "a") (codes "x"))) }
    ensures escapes { line_of (codes "put 012 %41%zz =%c3%A9%")
        ≡ Ok (Some (command.Put (tx 12) (codes "A%zz") (195 ∷ 169 ∷ 37 ∷ []))) }
    ensures ended { line_of (codes "begin" ++ 13 ∷ []) ≡ Ok (Some command.Begin) }
    ensures ended_twice { line_of (codes "begin" ++ 13 ∷ 13 ∷ []) ≡ Err faults.UnknownCommand }
    ensures comment { line_of (codes " #begin") ≡ Ok None }
    ensures unknown { line_of (codes "Begin") ≡ Err faults.UnknownCommand }
    ensures unknown_first { line_of (codes "frob x y z") ≡ Err faults.UnknownCommand }
    ensures count_first { line_of (codes "put x a b c") ≡ Err faults.WordCount }
    ensures number_first { line_of (codes "put x abcdefghijklmnopq b") ≡ Err faults.BadNumber }
    ensures key_first { line_of (codes "put 1 abcdefghijklmnopq b") ≡ Err faults.KeyTooLong }
    ensures mark { line_of (codes "put 1 a b=") ≡ Err faults.NoRecordMark }
    ensures from { line_of (codes "from %00 10") ≡ Ok (Some (command.From (0 ∷ []) 10)) }
    ensures upto { line_of (codes "upto ab 0") ≡ Ok (Some (command.Upto (codes "ab") 0)) }
    ensures key_before_number { line_of (codes "from abcdefghijklmnopq x") ≡ Err faults.KeyTooLong }
    ensures committed { line_of (codes "committed a") ≡ Ok (Some (command.Committed (codes "a"))) }
    ensures committed_by_none { line_of (codes "committed 1 a") ≡ Err faults.WordCount }
{}

/// A word of a line has a byte, and so its key has one: it is too long, or a key.
pub fn keys_of_words()
    ensures { (word : List ℕ) → is_word word ≡ true → key_from_word word
        ≡ (if nat_lt key_width (length (percent_decode word)) then Err faults.KeyTooLong
        else Ok (percent_decode word)) }
{}

/// What is written of bytes is read as the same bytes, and needs no escape itself: no space, no line's end.
pub fn escapes()
    ensures read_back { (bytes : List ℕ) → All (λ b. b < 256) bytes
        → percent_decode (escaped bytes) ≡ bytes }
    ensures plain { (bytes : List ℕ) → All (λ b. b < 256) bytes
        → list_all is_plain (escaped bytes) ≡ true }
    ensures upper_case { escaped (codes "%a" ++ 195 ∷ 32 ∷ []) ≡ codes "%25a%C3%20" }
    ensures lower_case { escaped (195 ∷ []) ≢ codes "%c3" }
{}

/// Replies by example.
pub fn replies_by_example()
    ensures begun { text_of (reply.Begin (Ok (tx 12))) ≡ codes "ok 12" ++ 10 ∷ [] }
    ensures none { text_of (reply.Get (Ok None)) ≡ codes "ok none" ++ 10 ∷ [] }
    ensures held { text_of (reply.Put (Err (put_faults.Held (tx 3))))
        ≡ codes "no Held 3" ++ 10 ∷ [] }
    ensures stopped { text_of (reply.Back (Err (rollback_faults.Stopped 1 20 (causes.Damaged 5))))
        ≡ codes "stopped 1 20 Damaged 5" ++ 10 ∷ [] }
    ensures list { text_of (reply.List (Ok (free ∷ x_owned_by_7 ∷ [])))
        ≡ codes "- %00 =" ++ 10 ∷ codes "- a =x @7" ++ 10 ∷ codes "ok 2" ++ 10 ∷ [] }
    ensures run { texts_of (reply.Log 4 8 ∷ reply.Bad faults.WordCount ∷ [])
        ≡ codes "ok 4 8" ++ 10 ∷ codes "bad WordCount" ++ 10 ∷ [] }
    ensures run_in_order { texts_of (reply.Log 4 8 ∷ reply.Bad faults.WordCount ∷ [])
        ≢ texts_of (reply.Bad faults.WordCount ∷ reply.Log 4 8 ∷ []) }
{}

/// A reply is a refusal exactly where its text begins as `no`, `bad` or `stopped` does. By example: a key without a
/// record is no refusal, and a line that can't be read is one.
pub fn refusals_by_text()
    ensures begins { (r : Reply) → begins_refused (text_of r) ≡ is_refusal r }
    ensures absent { is_refusal (reply.Get (Ok None)) ≡ false }
    ensures held { is_refusal (reply.Put (Err (put_faults.Held (tx 3)))) ≡ true }
    ensures unread { is_refusal (reply.Bad faults.WordCount) ≡ true }
{}

/// The lines of a dump, whatever bytes its keys and records have: a transaction begins, puts each record, and commits.
pub fn dumps()
    ensures said { (records : List (List ℕ × List ℕ)) → All CanBePut records
        → commands_of (dump_text records) ≡ dump_commands records }
    ensures empty { dump_text [] ≡ codes "begin" ++ 10 ∷ codes "commit 1" ++ 10 ∷ [] }
    ensures one { dump_text ((10 ∷ 37 ∷ [], codes "a =") ∷ []) ≡ codes "begin" ++ 10
        ∷ codes "put 1 %0A%25 =a%20=" ++ 10 ∷ codes "commit 1" ++ 10 ∷ [] }
{}

/// What a commit writes is a unit of lines of which the last alone ends it. A claim writes nothing, and its line would end one.
pub fn units_by_example()
    ensures lines { unit_lines 3 ((97 ∷ [], Some (120 ∷ [])) ∷ (98 ∷ [], None) ∷ [])
        ≡ codes "begin" ∷ codes "put 3 a =x" ∷ codes "del 3 b" ∷ codes "commit 3" ∷ [] }
    ensures unit { IsUnit (codes "begin" ∷ codes "put 3 a =x" ∷ codes "commit 3" ∷ []) }
    ensures claim { IsUnit (codes "begin" ∷ codes "claim 3 a" ∷ codes "commit 3" ∷ []) → ⊥ }
    ensures uncommitted { IsUnit (codes "begin" ∷ codes "put 3 a =x" ∷ []) → ⊥ }
{}
