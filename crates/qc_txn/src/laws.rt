// What holds of each attempt. Nothing runs here: the contract is the law.
ghost use Rattle.std.specs.Prelude.{◌≡◌, ℕ, List, None, find};
ghost use Rattle.qc_play.specs.declared.record.PlayRecord.{PlayRecord};
ghost use Rattle.qc_catalogue.specs.declared.catalogue.Catalogue.{Catalogue};
ghost use Rattle.qc_play.specs.Play.{Seen};
ghost use Rattle.qc_txn.specs.Attempt.{AttemptView};
ghost use Rattle.qc_txn.specs.Ends.{PlaysAll, end_of, votes_of};
ghost use Rattle.qc_txn.specs.Outcome.{new_play, outcome, votes_no};
ghost use Rattle.qc_txn.specs.Parts.{parts_of};

/// An attempt whose calls were run from the first on, up to the last or to one that failed, ends by the outcome of its
/// recording on the rows as it saw them first, where each resource votes by its records: of votes one after another the
/// first that isn't ready counts (docs/RULES.md, "Outcome").
pub fn an_attempt_ends_by_its_outcome()
    ensures votes { (c : Catalogue) → (records : List PlayRecord) → (names : List (List ℕ))
        → votes_of c records names None ≡ find (votes_no c records) names }
    ensures outcome { (c : Catalogue) → (view : List Seen) → (old : AttemptView) → (new : AttemptView)
        → old.play ≡ new_play view → old.why ≡ None → PlaysAll (parts_of c old.recording old.kind) old new
        → outcome c old.recording old.kind view ≡ end_of c new }
{}
