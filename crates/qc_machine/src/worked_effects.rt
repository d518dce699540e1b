// Worked attempts that change outside rows, computed from the definitions. Nothing runs here: the contracts are the
// equations.
ghost use Rattle.std.specs.Prelude.{◌≡◌, [], ◌∷◌, ◌++◌, Some, codes};
ghost use Rattle.qc_base.specs.declared.log_line.LogLine.TheVariants.{Done};
ghost use Rattle.qc_machine.specs.WorkedEffects.{alone, beside, with_few_phases, others, letters_written};
ghost use Rattle.qc_machine.specs.WorkedEffects.{play_told, called, ends, finished, drawer, letters};
ghost use Rattle.qc_machine.specs.WorkedEffects.{four_bolts, four_told, drawer_lines, two_letters, letters_told};
ghost use Rattle.qc_machine.specs.WorkedEffects.{letters_twice, letters_twice_told, thirteen_pieces, thirteen_told};
ghost use Rattle.qc_machine.specs.WorkedEffects.{pieces_and_letter, pieces_and_letter_told, four_then_seven};
ghost use Rattle.qc_machine.specs.WorkedEffects.{none_and_pieces, none_and_pieces_told, four_then_seven_told};
ghost use Rattle.qc_machine.specs.WorkedEffects.{undone, undone_told, no_bolts, no_bolts_told, twice, doomed, one_taken};
ghost use Rattle.qc_machine.specs.WorkedEffects.{undone_and_doomed, undone_and_doomed_told, doomed_and_failing};
ghost use Rattle.qc_machine.specs.WorkedEffects.{both, both_told};

/// A row of an early resource has its new amount as soon as its call ran, when its record stands in a group of the log
/// already. After the phase Done stands behind it, in a group of its own (docs/RULES.md, "Work", "Phase").
pub fn an_early_row_is_put_at_once()
    ensures told { play_told (alone four_bolts) ≡ four_told }
    ensures at_once { drawer (called (alone four_bolts)).site ≡ Some 104 }
    ensures logged { (called (alone four_bolts)).site.groups ≡ drawer_lines ∷ [] }
    ensures ends { (called (alone four_bolts)).site.log ≡ record { gate = 107; size = 108 } }
    ensures finished { (finished (alone four_bolts)).groups ≡ drawer_lines ∷ (Done 1 ∷ []) ∷ [] }
    ensures last { (finished (alone four_bolts)).log ≡ record { gate = 125; size = 126 } }
{}

/// A row of a late resource stays as it was until the commit phase. Its record waits until the end of the attempt, where
/// a commit forces it (docs/RULES.md, "Work", "Outcome", "Phase").
pub fn a_late_row_is_put_in_the_commit_phase()
    ensures told { play_told (alone two_letters) ≡ letters_told }
    ensures waits { (called (alone two_letters)).site.groups ≡ [] }
    ensures forced { (ends (alone two_letters)).left.site.groups ≡ letters_written 1 1 2 ∷ [] }
    ensures stays { letters (ends (alone two_letters)).left.site ≡ Some 0 }
    ensures put { letters (finished (alone two_letters)) ≡ Some 2 }
    ensures finished { (finished (alone two_letters)).groups ≡ letters_written 1 1 2 ∷ (Done 1 ∷ []) ∷ [] }
{}

/// A phase goes over the records of a resource in order: a late one gets its amounts from the first on
/// (docs/RULES.md, "Phase").
pub fn later_records_are_put_behind_earlier_ones()
    ensures told { play_told (alone letters_twice) ≡ letters_twice_told }
    ensures put { letters (finished (alone letters_twice)) ≡ Some 3 }
{}

/// An attempt is put back where a call fails, the last record first, and its Done is forced too (docs/RULES.md, "Phase").
pub fn a_failed_attempt_is_put_back()
    ensures told { play_told (alone four_then_seven) ≡ four_then_seven_told }
    ensures back { drawer (finished (alone four_then_seven)) ≡ Some 100 }
    ensures finished { (finished (alone four_then_seven)).groups ≡ drawer_lines ∷ (Done 1 ∷ []) ∷ [] }
    ensures forced { (finished (alone four_then_seven)).staged ≡ [] }
{}

/// So is one of whose resources one isn't ready. Those behind it aren't asked, and hear of the abort; its own records
/// that are answered forget are forgotten all the same (docs/RULES.md, "Outcome").
pub fn an_attempt_that_is_not_ready_is_put_back()
    ensures told { play_told (alone thirteen_pieces) ≡ thirteen_told }
    ensures back { drawer (finished (alone thirteen_pieces)) ≡ Some 100 }
    ensures unasked { play_told (alone pieces_and_letter) ≡ pieces_and_letter_told }
    ensures letters { letters (finished (alone pieces_and_letter)) ≡ Some 0 }
    ensures forgotten { play_told (alone none_and_pieces) ≡ none_and_pieces_told }
    ensures none { drawer (finished (alone none_and_pieces)) ≡ Some 100 }
{}

/// A record that was taken back isn't delivered, and numbers go on behind it. One whose amounts are the same is
/// forgotten in the prepare phase (docs/RULES.md, "Work", "Outcome").
pub fn forgotten_records_are_not_delivered()
    ensures taken_back { play_told (alone undone) ≡ undone_told }
    ensures drawer { drawer (finished (alone undone)) ≡ Some 101 }
    ensures same { play_told (alone no_bolts) ≡ no_bolts_told }
    ensures twice { play_told (alone twice) ≡ codes "played 1 attempt 1 normal failed call 1 step 3: -" }
{}

/// Where `abort` ran no resource is asked, and what was changed is put back. A call that fails behind it tells why
/// (docs/RULES.md, "Outcome").
pub fn an_attempt_may_be_forced_to_abort()
    ensures alone { play_told (alone doomed) ≡ codes "played 1 attempt 1 normal failed forced: -" }
    ensures told { play_told (alone undone_and_doomed) ≡ undone_and_doomed_told }
    ensures back { drawer (finished (alone undone_and_doomed)) ≡ Some 100 }
    ensures behind { play_told (alone doomed_and_failing) ≡ codes "played 1 attempt 1 normal failed call 2 step 1: -" }
{}

/// Resources hear of a phase in the order in which they were registered, those that are registered for it
/// (docs/RULES.md, "Phase").
pub fn resources_hear_in_order_of_registration()
    ensures told { play_told (alone both) ≡ both_told }
    ensures drawer { drawer (finished (alone both)) ≡ Some 102 }
    ensures letters { letters (finished (alone both)) ≡ Some 1 }
    ensures few { play_told (with_few_phases both)
        ≡ codes "played 1 attempt 1 normal commit: post BeginCommit false, post CommitRecord 1, post EndCommit" }
    ensures few_back { play_told (with_few_phases four_then_seven) ≡ four_then_seven_told }
{}

/// A force takes along what waits of other attempts, also that of an attempt that changed nothing outside. Such an
/// attempt has no Done, and what waits of others stays theirs (docs/RULES.md, "Work", "Phase").
pub fn a_force_takes_along_what_waits()
    ensures told { play_told (beside four_bolts) ≡ four_told }
    ensures early { (called (beside four_bolts)).site.groups ≡ (others ++ drawer_lines) ∷ [] }
    ensures none { play_told (beside one_taken) ≡ codes "played 1 attempt 1 normal commit: -" }
    ensures forced { (finished (beside one_taken)).groups ≡ others ∷ [] }
    ensures late { (finished (beside two_letters)).groups
        ≡ (others ++ letters_written 1 1 2) ∷ (Done 1 ∷ []) ∷ [] }
    ensures letters { letters (finished (beside two_letters)) ≡ Some 2 }
{}
