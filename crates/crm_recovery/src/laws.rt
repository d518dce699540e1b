// What holds of attempts that are finished. Nothing runs here: the contracts are the laws.
ghost use Rattle.std.specs.Prelude.{◌≡◌, ℕ, List, [], true, ◌++◌};
ghost use Rattle.std.specs.List.{list_all};
ghost use Rattle.qc_base.specs.Rows.{OutsideRows};
ghost use Rattle.qc_base.specs.LogLines.{unfinished};
ghost use Rattle.qc_base.specs.declared.log_line.LogLine.{LogLine};
ghost use Rattle.qc_catalogue.specs.Catalogue.{IsCatalogueOf};
ghost use Rattle.qc_catalogue.specs.declared.catalogue.Catalogue.{Catalogue};
ghost use Rattle.qc_catalogue.specs.Rows.{has_its_phases};
ghost use Rattle.qc_entries.specs.Entries.{EntriesView};
ghost use Rattle.crm_log.specs.Log.{SpellsLog, all_lines};
ghost use Rattle.crm_history.specs.declared.ended.Ended.{Ended};
ghost use Rattle.crm_history.specs.Legal.{is_log_legal};
ghost use Rattle.crm_recovery.specs.Reading.{DamagedLines, JustOpened};
ghost use Rattle.crm_recovery.specs.Settling.{done_groups, settled_rows, settling_puts};

/// Each resource of a catalogue that was read hears of the phase in which it puts: of the abort phase where it is early,
/// of the commit phase where it is late.
pub fn each_catalogue_can_be_finished()
    ensures { (text : List ℕ) (c : Catalogue) → IsCatalogueOf text c → list_all has_its_phases c.resources ≡ true }
{}

/// Behind the lines Done of all attempts that it leaves unfinished, a legal log is legal, and no attempt is unfinished.
pub fn nothing_is_left_to_finish()
    ensures legal { (c : Catalogue) (sent : ℕ) (ended : List Ended) (lines : List LogLine)
        → is_log_legal c sent ended lines ≡ true
        → is_log_legal c sent ended (lines ++ all_lines (done_groups lines)) ≡ true }
    ensures finished { (lines : List LogLine) → unfinished (lines ++ all_lines (done_groups lines)) ≡ [] }
{}

/// Where no attempt is unfinished nothing is put, and the rows are settled.
pub fn where_all_is_done_nothing_is_put()
    ensures puts { (c : Catalogue) (ended : List Ended) (lines : List LogLine)
        → unfinished lines ≡ [] → settling_puts c ended lines ≡ [] }
    ensures rows { (c : Catalogue) (ended : List Ended) (lines : List LogLine) (rows : OutsideRows)
        → unfinished lines ≡ [] → settled_rows c ended lines rows ≡ rows }
{}

/// A file that spells a legal log is damaged nowhere.
pub fn a_legal_log_is_not_damaged()
    ensures { (c : Catalogue) (sent : ℕ) (ended : List Ended) (file : List ℕ) (log : List (List LogLine))
        (start : EntriesView) (at : ℕ) → JustOpened start → SpellsLog file log
        → is_log_legal c sent ended (all_lines log) ≡ true → ¬ DamagedLines c sent ended file start at }
{}
