//! Records in each form by example. The function does nothing: its contract is the law.
ghost use Rattle.std.specs.Prelude.{◌≡◌, [], ◌∷◌};
ghost use Rattle.record_texts.specs.Examples.{red_apple, tab_and_mark, tsv_of_both, csv_of_both, json_of_both, raw_tab};
ghost use Rattle.record_texts.specs.Forms.{records_text};
ghost use Rattle.record_texts.specs.declared.form.Form.TheVariants.{Tsv, Csv, Json};

/// Two records in each form. A tab of a key doesn't stand for itself between tabs: it would end the key.
pub fn forms_by_example()
    ensures tsv { records_text Tsv (red_apple ∷ tab_and_mark ∷ []) ≡ tsv_of_both }
    ensures csv { records_text Csv (red_apple ∷ tab_and_mark ∷ []) ≡ csv_of_both }
    ensures json { records_text Json (red_apple ∷ tab_and_mark ∷ []) ≡ json_of_both }
    ensures raw { ¬ (records_text Tsv (tab_and_mark ∷ []) ≡ raw_tab) }
{}
