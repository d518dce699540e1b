// What holds of the lines that a file spells. Nothing runs here: the contracts are the laws.
ghost use Rattle.std.specs.Prelude.{◌≡◌, ◌⊎◌, ℕ, List, [], ◌∷◌, ◌++◌, true};
ghost use Rattle.std.specs.List.{list_all};
ghost use Rattle.qc_base.specs.Spelling.{is_line};
ghost use Rattle.qc_base.specs.declared.log_line.LogLine.{LogLine};
ghost use Rattle.qc_frame.specs.Log.{Whole, WholeOrNot};
ghost use Rattle.qc_entries.specs.Entries.{EntriesView, NoEntries};
ghost use Rattle.crm_log.specs.Lines.{NextLine, DamagedLine};
ghost use Rattle.crm_log.specs.Log.{SpellsLog, LinesAhead, LinesFrom, all_lines, lines_payload};

/// Where a log was just opened, all lines that its file spells are ahead. The line that is read is the first of those
/// ahead, and the others are ahead behind it; the end is found only where none is ahead; and no damage is told. So what
/// is read to the end of a file are all its lines, in their order.
pub fn lines_are_read_as_they_are_spelled()
    ensures opened { (file : List ℕ) → (log : List (List LogLine)) → (entries : EntriesView)
        → entries.left ≡ [] → entries.log.place ≡ 16 → SpellsLog file log → LinesAhead file entries (all_lines log) }
    ensures next { (file : List ℕ) → (old : EntriesView) → (new : EntriesView) → (at : ℕ) → (line : LogLine)
        → (lines : List LogLine) → LinesAhead file old lines → NextLine file old new at line
        → LinesFrom line file new lines }
    ensures end { (file : List ℕ) → (now : List ℕ) → (old : EntriesView) → (new : EntriesView)
        → (lines : List LogLine) → LinesAhead file old lines → NoEntries file now old new → lines ≡ [] }
    ensures sound { (file : List ℕ) → (old : EntriesView) → (at : ℕ)
        → (lines : List LogLine) → LinesAhead file old lines → ¬ DamagedLine file old at }
{}

/// A file with one group of lines more spells these lines behind those that it spelled, and one with the group or not
/// spells them all or none of them.
pub fn a_group_of_lines_is_added_whole()
    ensures whole { (old : List ℕ) → (new : List ℕ) → (log : List (List LogLine)) → (lines : List LogLine)
        → list_all is_line lines ≡ true → SpellsLog old log → Whole (lines_payload lines) old new
        → SpellsLog new (log ++ lines ∷ []) }
    ensures whole_or_not { (old : List ℕ) → (new : List ℕ) → (log : List (List LogLine)) → (lines : List LogLine)
        → list_all is_line lines ≡ true → SpellsLog old log → WholeOrNot (lines_payload lines) old new
        → SpellsLog new log ⊎ SpellsLog new (log ++ lines ∷ []) }
{}
