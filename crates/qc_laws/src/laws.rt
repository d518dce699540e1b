// What holds of an attempt, the log and the outside rows. Nothing runs here: the contracts are the laws.
ghost use Rattle.std.specs.Prelude.{◌≡◌, ◌==◌, ℕ, List, Bool, true, false, Some, None, if◌then◌else◌};
ghost use Rattle.std.specs.List.{list_all};
ghost use Rattle.qc_base.specs.Rows.{OutsideRows};
ghost use Rattle.qc_base.specs.declared.recording.Row.{Row};
ghost use Rattle.qc_base.specs.LogLines.{is_done, is_unfinished, registrations};
ghost use Rattle.qc_base.specs.Spelling.{is_between};
ghost use Rattle.qc_catalogue.specs.declared.catalogue.Catalogue.{Catalogue};
ghost use Rattle.qc_catalogue.specs.declared.catalogue.Resource.{Resource};
ghost use Rattle.qc_catalogue.specs.Lookup.{resource_named};
ghost use Rattle.qc_play.specs.declared.effect.Effect.{Effect};
ghost use Rattle.qc_play.specs.declared.record.PlayRecord.{PlayRecord};
ghost use Rattle.qc_play.specs.Effects.{IsOuter, LeadsTo, Outer, amounts_in, outer_of};
ghost use Rattle.qc_play.specs.Play.{Seen, outside_row};
ghost use Rattle.qc_txn.specs.Outcome.{decision, ended, new_play, not_ready};
ghost use Rattle.qc_txn.specs.Parts.{Part};
ghost use Rattle.crm_clerk.specs.Clerk.{forgetting_lines};
ghost use Rattle.crm_history.specs.declared.ended.Ended.{Ended};
ghost use Rattle.crm_history.specs.Legal.{
  has_row as is_row_of,
  is_about,
  is_log_legal,
  is_row_free,
  lines_follow,
};
ghost use Rattle.qc_worker.specs.Effects.{change_lines};
ghost use Rattle.qc_machine.specs.Carrying.{carry_all, clerk_over};
ghost use Rattle.qc_machine.specs.Finishable.{IsFinishable};
ghost use Rattle.qc_machine.specs.Holding.{has_row, HaveNoCommon};
ghost use Rattle.qc_machine.specs.LogAndRows.{LogAndRows, lines_of};
ghost use Rattle.qc_machine.specs.OwnLines.{is_named};
ghost use Rattle.qc_machine.specs.Playing.{ended_attempt, why_ended, work_on};
ghost use Rattle.qc_machine.specs.Preparing.{prepared_all};
ghost use Rattle.qc_machine.specs.Underway.{Underway, at_end, phased, run_on, run_part};
ghost use Rattle.qc_laws.specs.Logged.{
  AreKnown,
  HasGoneOn,
  IsCarried,
  IsCarriedSoFar,
  IsLogged,
  LeavesOthers,
  OnlyForgets,
};
ghost use Rattle.qc_laws.specs.Writing.{MayWrite};

/// The effects of each call are carried out: the log has exactly the records of the attempt, an early resource's rows
/// stand as the attempt sees them, and a late one's as they were at first. So it is before its first call, and so it
/// stays, call by call. The attempt itself goes on as the machine's orders have it. Rows that aren't its own stay as
/// they were, and so do the lines of other attempts, and with them what is carried out of these (docs/RULES.md,
/// "Work").
pub fn effects_are_carried_out()
    ensures begun { (c : Catalogue) (rows : List Row) (view : List Seen) (x : Underway)
        → x.held.play ≡ new_play view → is_named (lines_of x.site) x.held.attempt ≡ false
        → ((r k : List ℕ) → has_row rows (outside_row r k) ≡ true → x.site.rows r k ≡ amounts_in view r k)
        → IsCarriedSoFar c rows (amounts_in view) x }
    ensures effects { (c : Catalogue) (attempt id : ℕ) (rows : List Row) (first : OutsideRows) (o : LogAndRows)
        (before after : Outer) (effects : List Effect) → AreKnown c rows first → IsOuter first before
        → IsCarried c o attempt id rows first before → LeadsTo before effects after
        → IsCarried c (carry_all c attempt id effects o) attempt id rows first after
        × LeavesOthers attempt rows o (carry_all c attempt id effects o) }
    ensures part { (c : Catalogue) (rows : List Row) (first : OutsideRows) (count : ℕ) (x : Underway) (p : Part)
        → AreKnown c rows first → IsCarriedSoFar c rows first x
        → HasGoneOn c rows first x (run_part c count x p) }
    ensures calls { (c : Catalogue) (rows : List Row) (first : OutsideRows) (parts all : List Part) (x : Underway)
        → AreKnown c rows first → IsCarriedSoFar c rows first x
        → HasGoneOn c rows first x (run_on c parts all x) }
    ensures held { (c : Catalogue) (parts all : List Part) (x : Underway)
        → (run_on c parts all x).held ≡ work_on parts all x.held }
    ensures others { (c : Catalogue) (o after : LogAndRows) (a b id : ℕ) (rows theirs : List Row)
        (first : OutsideRows) (st : Outer) → LeavesOthers a rows o after → (b == a) ≡ false
        → HaveNoCommon theirs rows → IsCarried c o b id theirs first st
        → IsCarried c after b id theirs first st }
{}

/// The prepare phases, one after another by the log, find the resource that the attempt's outcome names, or none where
/// it names none. So at its end an attempt fails or commits as its outcome says, and for the same reason. The lines
/// that the votes add say that records of the attempt are forgotten, and nothing else; no row changes
/// (docs/RULES.md, "Outcome").
pub fn votes_are_those_of_the_outcome()
    ensures refuser { (c : Catalogue) (o : LogAndRows) (attempt id : ℕ) (records : List PlayRecord)
        → IsLogged c (lines_of o) attempt id records
        → (prepared_all c attempt (registrations (lines_of o) attempt) o).refuser ≡ not_ready c records }
    ensures why { (c : Catalogue) (x : Underway)
        → IsLogged c (lines_of x.site) x.held.attempt x.held.id x.held.play.records
        → (at_end c x).why ≡ why_ended c x.held }
    ensures left { (c : Catalogue) (x : Underway)
        → IsLogged c (lines_of x.site) x.held.attempt x.held.id x.held.play.records
        → (at_end c x).left.held ≡ ended_attempt (why_ended c x.held) x.held }
    ensures decided { (c : Catalogue) (x : Underway)
        → IsLogged c (lines_of x.site) x.held.attempt x.held.id x.held.play.records → x.held.why ≡ None
        → ended x.held.play (at_end c x).why ≡ decision c x.held.play }
    ensures forgets { (c : Catalogue) (x : Underway) → OnlyForgets x.held.attempt x.site (at_end c x).left.site }
    ensures leaves { (c : Catalogue) (rows : List Row) (x : Underway)
        → LeavesOthers x.held.attempt rows x.site (at_end c x).left.site }
{}

/// What an attempt writes may follow what stands in the log: the lines of a change, where its row is the catalogue's
/// and no other unfinished attempt has a record of it; those of a retract; those of the votes; and Done. So a legal log
/// is legal behind each effect, each call, the end and the phase of an attempt (docs/RULES.md, "Work").
pub fn an_attempt_keeps_the_log_legal()
    ensures change { (c : Catalogue) (sent : ℕ) (ended : List Ended) (o : LogAndRows) (attempt id : ℕ) (r : Resource)
        (key : List ℕ) (old new : ℕ) → is_log_legal c sent ended (lines_of o) ≡ true
        → is_done (lines_of o) attempt ≡ false → is_between 1 sent id ≡ true
        → list_all (is_about attempt id) ended ≡ true → resource_named r.name c.resources ≡ Some r
        → is_row_of c r.name key ≡ true → is_row_free (lines_of o) r.name key attempt ≡ true
        → lines_follow c sent ended (lines_of o) (change_lines (clerk_over o attempt id) r key old new) ≡ true }
    ensures retract { (c : Catalogue) (sent : ℕ) (ended : List Ended) (o : LogAndRows) (attempt id : ℕ)
        (resource : List ℕ) → is_done (lines_of o) attempt ≡ false
        → lines_follow c sent ended (lines_of o) (forgetting_lines (clerk_over o attempt id) resource) ≡ true }
    ensures effects { (c : Catalogue) (sent : ℕ) (ended : List Ended) (attempt id : ℕ) (rows : List Row)
        (first : OutsideRows) (effects : List Effect) (o : LogAndRows) (before after : Outer)
        → AreKnown c rows first → IsCarried c o attempt id rows first before → IsOuter first before
        → LeadsTo before effects after → MayWrite c sent ended (lines_of o) attempt id rows first
        → MayWrite c sent ended (lines_of (carry_all c attempt id effects o)) attempt id rows first }
    ensures calls { (c : Catalogue) (sent : ℕ) (ended : List Ended) (rows : List Row) (first : OutsideRows)
        (parts all : List Part) (x : Underway) → AreKnown c rows first → IsCarriedSoFar c rows first x
        → MayWrite c sent ended (lines_of x.site) x.held.attempt x.held.id rows first
        → MayWrite c sent ended (lines_of (run_on c parts all x).site) (run_on c parts all x).held.attempt
        (run_on c parts all x).held.id rows first }
    ensures votes { (c : Catalogue) (sent : ℕ) (ended : List Ended) (first : OutsideRows) (x : Underway)
        → IsLogged c (lines_of x.site) x.held.attempt x.held.id x.held.play.records
        → IsOuter first (outer_of x.held.play) → is_log_legal c sent ended (lines_of x.site) ≡ true
        → is_log_legal c sent ended (lines_of (at_end c x).left.site) ≡ true }
    ensures phase { (c : Catalogue) (sent : ℕ) (ended : List Ended) (attempt : ℕ) (committed : Bool) (o : LogAndRows)
        → is_log_legal c sent ended (lines_of o) ≡ true → is_done (lines_of o) attempt ≡ false
        → is_log_legal c sent ended (lines_of (phased c attempt committed o)) ≡ true }
{}

/// Behind each call and at its end an attempt can be finished, committed or not, whatever its votes forgot: the records
/// that the log keeps lead its rows from the first amounts to the last ones. Its phase leads them to the last amounts
/// where it was committed, and back to the first ones where it wasn't; other rows stay as they were, and the log leaves
/// the attempt finished (docs/RULES.md, "Phase").
pub fn a_phase_settles_the_rows_of_its_attempt()
    ensures going { (c : Catalogue) (rows : List Row) (first : OutsideRows) (x : Underway) (committed : Bool)
        → AreKnown c rows first → IsCarriedSoFar c rows first x
        → IsFinishable c (lines_of x.site) x.site.rows x.held.attempt rows first (amounts_in x.held.play.view)
        committed }
    ensures ended { (c : Catalogue) (rows : List Row) (first : OutsideRows) (x : Underway) (committed : Bool)
        → AreKnown c rows first → IsCarriedSoFar c rows first x
        → IsFinishable c (lines_of (at_end c x).left.site) (at_end c x).left.site.rows x.held.attempt rows first
        (amounts_in x.held.play.view) committed }
    ensures own { (c : Catalogue) (rows : List Row) (first : OutsideRows) (x : Underway) (committed : Bool)
        → AreKnown c rows first → IsCarriedSoFar c rows first x
        → (r k : List ℕ) → has_row rows (outside_row r k) ≡ true
        → (phased c x.held.attempt committed (at_end c x).left.site).rows r k
        ≡ (if committed then amounts_in x.held.play.view r k else first r k) }
    ensures others { (c : Catalogue) (rows : List Row) (first : OutsideRows) (x : Underway) (committed : Bool)
        → AreKnown c rows first → IsCarriedSoFar c rows first x
        → (r k : List ℕ) → has_row rows (outside_row r k) ≡ false
        → (phased c x.held.attempt committed (at_end c x).left.site).rows r k ≡ x.site.rows r k }
    ensures finished { (c : Catalogue) (attempt : ℕ) (committed : Bool) (o : LogAndRows)
        → is_unfinished (lines_of (phased c attempt committed o)) attempt ≡ false }
{}
