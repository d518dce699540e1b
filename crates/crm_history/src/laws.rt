// What holds of legal logs. Nothing runs here: the contracts are the laws.
ghost use Rattle.std.specs.Prelude.{◌≡◌, ◌&&◌, ◌∷◌, [], ◌++◌, ℕ, List};
ghost use Rattle.qc_base.specs.declared.log_line.LogLine.{LogLine};
ghost use Rattle.qc_catalogue.specs.declared.catalogue.Catalogue.{Catalogue};
ghost use Rattle.crm_history.specs.declared.ended.Ended.{Ended};
ghost use Rattle.crm_history.specs.Legal.{is_log_legal, line_may_follow};

/// A log with a line more is legal exactly where it was legal without it, and the line may follow.
pub fn a_log_is_legal_line_by_line()
    ensures { (c : Catalogue) (sent : ℕ) (ended : List Ended) (lines : List LogLine) (line : LogLine)
        → is_log_legal c sent ended (lines ++ line ∷ [])
        ≡ (is_log_legal c sent ended lines && line_may_follow c sent ended lines line) }
{}
