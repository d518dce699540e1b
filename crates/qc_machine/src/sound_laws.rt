// What holds of a log of compensations beside its history. Nothing runs here: the contracts are the laws.
ghost use Rattle.std.specs.Prelude.{◌≡◌, ◌≤◌, ◌==◌, ◌++◌, ◌∷◌, ℕ, List, [], length, map, filter_map, reverse};
ghost use Rattle.std.specs.Prelude.{Bool, true, false, is_some};
ghost use Rattle.std.specs.List.{list_all};
ghost use Rattle.qc_base.specs.Rows.{OutsideRows, put_row};
ghost use Rattle.qc_base.specs.LogLines.{is_done, is_opened, is_unfinished, unfinished, unforgotten};
ghost use Rattle.qc_base.specs.declared.recording.Row.{Row};
ghost use Rattle.qc_base.specs.declared.fact.Fact.{Fact};
ghost use Rattle.qc_base.specs.declared.log_line.LogLine.{LogLine};
ghost use Rattle.qc_catalogue.specs.declared.catalogue.Catalogue.{Catalogue};
ghost use Rattle.qc_play.specs.Play.{outside_row};
ghost use Rattle.qc_rows.specs.Outside.{outside_amount};
ghost use Rattle.crm_history.specs.declared.ended.Ended.{Ended};
ghost use Rattle.crm_history.specs.Legal.{is_committed, is_log_legal};
ghost use Rattle.crm_driver.specs.Puts.{RowPut};
ghost use Rattle.crm_log.specs.Log.{all_lines};
ghost use Rattle.crm_recovery.specs.Settling.{attempts_puts, done_group, done_groups, phase_puts, rows_after};
ghost use Rattle.qc_machine.specs.Finishable.{are_rising, has_key, is_among, is_late, led_to};
ghost use Rattle.qc_machine.specs.Finishable.{AreFinishable, HaveAmounts, IsFinishable, IsWithin, OthersHave};
ghost use Rattle.qc_machine.specs.History.{Reader, History, after_fact, goes_on};
ghost use Rattle.qc_machine.specs.Holding.{has_row, HaveNoCommon};
ghost use Rattle.qc_machine.specs.OwnLines.{is_named, is_own};
ghost use Rattle.qc_machine.specs.Sound.{all_agree, commits, ended_by, ended_in, is_log_of, settled_by_log, IsSound};

use crm_recovery::nothing_is_left_to_finish;

/// A log stays legal where more messages were sent and more attempts ended, as long as none of these is one that the
/// log opens for another message. So it does beside a history that goes on by a fact.
pub fn a_log_is_of_a_longer_history()
    ensures legal { (c : Catalogue) (sent more : ℕ) (ended others : List Ended) (lines : List LogLine)
        → sent ≤ more → all_agree others lines ≡ true
        → is_log_legal c sent ended lines ≡ true → is_log_legal c more (ended ++ others) lines ≡ true }
    ensures beside { (read : Reader) (h : History) (fact : Fact) (lines : List LogLine)
        → 1 ≤ length h.facts → goes_on read h fact ≡ true
        → all_agree (filter_map ended_by (fact ∷ [])) lines ≡ true
        → is_log_of h lines ≡ true → is_log_of (after_fact read h fact) lines ≡ true }
    ensures nothing { (lines : List LogLine) → all_agree [] lines ≡ true }
{}

/// Where history, log and outside rows agree and no attempt is unfinished, the rows are those that the history settles;
/// and where they are, beside a legal log that leaves no attempt unfinished, the three agree.
pub fn where_all_is_done_rows_are_settled()
    ensures settled { (h : History) (lines : List LogLine) (rows : OutsideRows)
        → IsSound h lines rows → unfinished lines ≡ []
        → (resource key : List ℕ) → rows resource key ≡ outside_amount h.outside resource key }
    ensures sound { (h : History) (lines : List LogLine) (rows : OutsideRows)
        → is_log_of h lines ≡ true → unfinished lines ≡ []
        → ((resource key : List ℕ) → rows resource key ≡ outside_amount h.outside resource key)
        → IsSound h lines rows }
{}

/// Settling makes no row and drops none. So where history, log and outside rows agree, the rows that are there are
/// those that the history has.
pub fn settling_keeps_rows_there()
    ensures settling { (h : History) (lines : List LogLine) (rows : OutsideRows) (resource key : List ℕ)
        → is_some (settled_by_log h lines rows resource key) ≡ is_some (rows resource key) }
    ensures sound { (h : History) (lines : List LogLine) (rows : OutsideRows) → IsSound h lines rows
        → (resource key : List ℕ)
        → is_some (rows resource key) ≡ is_some (outside_amount h.outside resource key) }
{}

/// The attempts that a legal log leaves unfinished stand in rising number, and are those that are opened and not
/// done. An attempt that isn't opened has no line.
pub fn unfinished_attempts_are_told_in_order()
    ensures order { (c : Catalogue) (sent : ℕ) (ended : List Ended) (lines : List LogLine)
        → is_log_legal c sent ended lines ≡ true → are_rising (unfinished lines) ≡ true }
    ensures among { (c : Catalogue) (sent : ℕ) (ended : List Ended) (lines : List LogLine)
        → is_log_legal c sent ended lines ≡ true
        → (attempt : ℕ) → is_among attempt (unfinished lines) ≡ is_unfinished lines attempt }
    ensures unopened { (c : Catalogue) (sent : ℕ) (ended : List Ended) (lines : List LogLine) (attempt : ℕ)
        → is_log_legal c sent ended lines ≡ true → is_opened lines attempt ≡ false → is_named lines attempt ≡ false }
{}

/// The phase of an attempt leads its rows to the last amounts where it was committed, and back to the first ones
/// where it wasn't, wherever between two puts a crash cut it short before. Other rows stay.
pub fn a_phase_may_be_put_again()
    ensures own { (c : Catalogue) (lines : List LogLine) (attempt : ℕ) (mine : List Row) (first now : OutsideRows)
        (committed : Bool) (rows : OutsideRows) → IsFinishable c lines rows attempt mine first now committed
        → HaveAmounts mine (rows_after (phase_puts c lines attempt committed) rows) (led_to committed first now) }
    ensures others { (c : Catalogue) (lines : List LogLine) (attempt : ℕ) (mine : List Row) (first now : OutsideRows)
        (committed : Bool) (rows : OutsideRows) → IsFinishable c lines rows attempt mine first now committed
        → OthersHave mine (rows_after (phase_puts c lines attempt committed) rows) rows }
{}

/// Where each attempt that a legal log leaves unfinished can be finished, history, log and outside rows agree.
pub fn what_can_be_finished_is_sound()
    ensures { (h : History) (lines : List LogLine) (rows : OutsideRows) → is_log_of h lines ≡ true
        → AreFinishable h lines rows (unfinished lines) → IsSound h lines rows }
{}

/// A recovery leaves history, log and outside rows in agreement, and nothing more to settle: its puts and then its
/// lines Done.
pub fn a_recovered_site_is_sound()
    ensures sound { (h : History) (lines : List LogLine) (rows : OutsideRows) → IsSound h lines rows
        → IsSound h (lines ++ all_lines (done_groups lines)) (settled_by_log h lines rows) }
    ensures settled { (h : History) (lines : List LogLine) (rows next : OutsideRows)
        → settled_by_log h (lines ++ all_lines (done_groups lines)) next ≡ next }
{
    nothing_is_left_to_finish();
}

/// A fact that commits no attempt keeps history, log and outside rows in agreement, and what can be finished: an
/// attempt is put back whether its failure stands or not.
pub fn a_fact_that_commits_nothing_keeps_a_site_sound()
    ensures sound { (read : Reader) (h : History) (fact : Fact) (lines : List LogLine) (rows : OutsideRows)
        → 1 ≤ length h.facts → goes_on read h fact ≡ true → commits fact ≡ false
        → all_agree (filter_map ended_by (fact ∷ [])) lines ≡ true
        → IsSound h lines rows → IsSound (after_fact read h fact) lines rows }
    ensures left { (read : Reader) (h : History) (fact : Fact) (lines : List LogLine) (rows : OutsideRows)
        → 1 ≤ length h.facts → goes_on read h fact ≡ true → commits fact ≡ false
        → AreFinishable h lines rows (unfinished lines)
        → AreFinishable (after_fact read h fact) lines rows (unfinished lines) }
{}

/// What each write keeps of what can be finished:
///
/// - `lines`: lines of one attempt, new or not, that isn't committed. With them its records lead the rows as they stand
///   from the settled amounts, its rows are those that it had or more, and no other attempt has one of them.
/// - `fact`: a fact that ends an attempt of the log. Its records lead to what the fact settles, and the fact settles no
///   other row. `fact_beside`: one that ends another attempt, and settles no outside row.
/// - `put`: a put of a row that an attempt has a record of, and that its phase puts.
/// - `done`: Done of an attempt, with its rows led to where its phase leads, and no other row changed.
pub fn each_write_keeps_what_can_be_finished()
    ensures lines { (h : History) (lines more : List LogLine) (a : ℕ) (rows : OutsideRows)
        (mine : List Row) (first now : OutsideRows) (is : AreFinishable h lines rows (unfinished lines))
        → list_all (is_own a) more ≡ true → is_log_of h (lines ++ more) ≡ true
        → is_unfinished (lines ++ more) a ≡ true → is_committed a (ended_in h) ≡ false
        → IsFinishable h.catalogue (lines ++ more) rows a mine first now false
        → HaveAmounts mine (outside_amount h.outside) first
        → ((b : ℕ) → (b == a) ≡ false → is_among b (unfinished lines) ≡ true → HaveNoCommon mine (is.mine b))
        → (is_among a (unfinished lines) ≡ true → IsWithin (is.mine a) mine)
        → AreFinishable h (lines ++ more) rows (unfinished (lines ++ more)) }
    ensures fact { (h g : History) (e : Ended) (lines : List LogLine) (rows : OutsideRows)
        (is : AreFinishable h lines rows (unfinished lines))
        → g.catalogue ≡ h.catalogue → ended_in g ≡ ended_in h ++ e ∷ []
        → is_among e.attempt (unfinished lines) ≡ true
        → IsFinishable h.catalogue lines rows e.attempt (is.mine e.attempt) (is.first e.attempt) (is.now e.attempt)
        (is_committed e.attempt (ended_in g))
        → HaveAmounts (is.mine e.attempt) (outside_amount g.outside)
        (led_to (is_committed e.attempt (ended_in g)) (is.first e.attempt) (is.now e.attempt))
        → OthersHave (is.mine e.attempt) (outside_amount g.outside) (outside_amount h.outside)
        → AreFinishable g lines rows (unfinished lines) }
    ensures fact_beside { (h g : History) (e : Ended) (lines : List LogLine) (rows : OutsideRows)
        → AreFinishable h lines rows (unfinished lines)
        → g.catalogue ≡ h.catalogue → ended_in g ≡ ended_in h ++ e ∷ []
        → is_among e.attempt (unfinished lines) ≡ false
        → ((r k : List ℕ) → outside_amount g.outside r k ≡ outside_amount h.outside r k)
        → AreFinishable g lines rows (unfinished lines) }
    ensures put { (h : History) (lines : List LogLine) (rows : OutsideRows) (a : ℕ) (resource key : List ℕ) (n : ℕ)
        (is : AreFinishable h lines rows (unfinished lines)) → is_among a (unfinished lines) ≡ true
        → has_row (is.mine a) (outside_row resource key) ≡ true
        → has_key (reverse (unforgotten lines a resource)) key ≡ true
        → is_late h.catalogue resource ≡ is_committed a (ended_in h)
        → AreFinishable h lines (put_row resource key n rows) (unfinished lines) }
    ensures done { (h : History) (lines more : List LogLine) (a : ℕ) (rows next : OutsideRows)
        (is : AreFinishable h lines rows (unfinished lines))
        → list_all (is_own a) more ≡ true → is_log_of h (lines ++ more) ≡ true
        → is_among a (unfinished lines) ≡ true → is_done (lines ++ more) a ≡ true
        → HaveAmounts (is.mine a) next (led_to (is_committed a (ended_in h)) (is.first a) (is.now a))
        → OthersHave (is.mine a) next rows
        → AreFinishable h (lines ++ more) next (unfinished (lines ++ more)) }
{}

/// A recovery that a crash cuts short leaves what a later one can finish, and history, log and outside rows in
/// agreement: some attempts have had their phase and their Done, and the next one some of the puts of its phase.
pub fn a_recovery_may_be_cut_short()
    ensures left { (h : History) (lines : List LogLine) (rows : OutsideRows) (front rest : List ℕ) (a : ℕ)
        (done left : List RowPut)
        → is_log_of h lines ≡ true → AreFinishable h lines rows (unfinished lines)
        → unfinished lines ≡ front ++ a ∷ rest
        → phase_puts h.catalogue lines a (is_committed a (ended_in h)) ≡ done ++ left
        → AreFinishable h (lines ++ all_lines (map done_group front))
        (rows_after done (rows_after (attempts_puts h.catalogue (ended_in h) lines front) rows))
        (unfinished (lines ++ all_lines (map done_group front))) }
    ensures sound { (h : History) (lines : List LogLine) (rows : OutsideRows) (front rest : List ℕ) (a : ℕ)
        (done left : List RowPut)
        → is_log_of h lines ≡ true → AreFinishable h lines rows (unfinished lines)
        → unfinished lines ≡ front ++ a ∷ rest
        → phase_puts h.catalogue lines a (is_committed a (ended_in h)) ≡ done ++ left
        → IsSound h (lines ++ all_lines (map done_group front))
        (rows_after done (rows_after (attempts_puts h.catalogue (ended_in h) lines front) rows)) }
{
    nothing_is_left_to_finish();
}
