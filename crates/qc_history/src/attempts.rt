// Attempts on messages: whether one can be played, its begin, and its end.
ghost use Rattle.std.specs.Prelude.{◌≡◌, ◌≤◌, List, length, max, true, false, None, IfOk, OnOk, is_some};
ghost use Rattle.std.specs.Option.{option_map_or};
ghost use Rattle.qc_machine.specs.History.{plays_inside, settled_amount};
ghost use Rattle.qc_machine.specs.Taking.{can_play};
ghost use Rattle.qc_play.specs.Play.{rows_in};
ghost use Rattle.qc_rows.specs.Places.{are_reserved, rows_seen};
ghost use Rattle.qc_rows.specs.Tables.{TableRows, row_amount};
ghost use Rattle.qc_store.specs.Live.{is_waiting, live_message};
ghost use Rattle.qc_txn.specs.Outcome.{view_of};
ghost use Rattle.qc_history.specs.Adding.{AddsFact, SetsAside};
ghost use Rattle.qc_history.specs.Playing.{BeginsOn, HasOutcome, fact_ended, kind_by, kind_of_attempt};

use crate::history::History;
use crate::places::{is_queued, kind_at};
use qc_base::{Amount, Kind, Moment, NoMemory, Place, Recording, Row, Space};
use qc_catalogue::Catalogue;
use qc_play::CallState;
use qc_rows::{OutsideAmounts, Tables};
use qc_txn::{Attempt, effects_of, is_playable};
use std::alloc::Global;

// Whether an attempt of this kind on a recording can be played, and changes nothing outside.
fn plays_inside(catalogue: &Catalogue, recording: &Recording, kind: Kind) -> bool
    requires { length recording.now.calls ≤ 64 }
    ensures { result ≡ plays_inside catalogue.now recording.now kind }
{
    is_playable(catalogue, recording, kind) && effects_of(catalogue, recording, kind) == 0
}

// The kind of an attempt on a message with this recording, which stands at this place.
fn kind_by(catalogue: &Catalogue, recording: &Recording, place: Place) -> Option<Kind>
    ensures { result ≡ kind_by catalogue.now recording.now place }
{
    if !is_queued(&place) {
        return None;
    }
    let kind = kind_at(place);
    if !is_playable(catalogue, recording, kind) {
        return None;
    }
    Some(kind)
}

// What an attempt sees of a row, where an inside row of its name and key has this amount.
fn amount_seen(outside: &OutsideAmounts, row: &Row, amount: Amount) -> Option<Amount>
    ensures { (tables : List TableRows) → amount ≡ row_amount tables row.now
        → result ≡ settled_amount tables outside.now row.now }
{
    match row.space {
        Space::Inside => Some(amount),
        Space::Outside => outside.amount(&row.name, &row.key),
    }
}

// The rows with their settled amounts.
fn see(
    alloc: Global,
    tables: &Tables,
    outside: &OutsideAmounts,
    rows: &[Row],
) -> Result<Vec<(Row, Option<Amount>)>, NoMemory>
    ensures { IfOk result (λ seen. seen.items ≡ view_of (settled_amount tables.now.tables outside.now) rows.now) }
{
    let amounts = tables.copy_rows(alloc, rows)?;
    let mut seen = Vec::new(alloc);
    for index in 0..rows.len() {
        let row = rows[index];
        let amount = amount_seen(outside, &row, amounts[index]);
        seen.push((row, amount)).map_err(|_| NoMemory)?;
    }
    Ok(seen)
}

fn greater(a: u64, b: u64) -> u64
    ensures { result ≡ max a b }
{
    if a < b { b } else { a }
}

impl History {
    /// The kind of an attempt on the message of an id. None exactly where no message of this id stands in the queues 0
    /// to 5, or the attempt can't be played.
    pub fn kind_of_attempt(&self, id: u64) -> Option<Kind>
        ensures { result ≡ kind_of_attempt self.now.catalogue id self.now.store.messages }
    {
        let Some((recording, place)) = self.store.message(id) else {
            return None;
        };
        kind_by(&self.catalogue, recording, place)
    }

    /// Whether the attempt that the place of the message of an id asks for can be played, and changes nothing outside.
    /// A message that is consumed, or that isn't there, asks for none.
    pub fn plays_inside(&self, id: u64) -> bool
        ensures { result ≡ option_map_or (can_play self.now.catalogue) (live_message id self.now.store.messages) false }
    {
        let Some((recording, place)) = self.store.message(id) else {
            return false;
        };
        plays_inside(&self.catalogue, recording, kind_at(place))
    }

    /// The attempt with a number on the message of an id, before its first call: it sees the settled amounts of its
    /// rows (docs/RULES.md, "Take"), and has room for the effects of all its calls. The error is want of memory.
    pub fn begin(&self, alloc: Global, id: u64, number: u64) -> Result<Attempt, NoMemory>
        requires { is_some (kind_of_attempt self.now.catalogue id self.now.store.messages) ≡ true }
        ensures { IfOk result (λ a. BeginsOn self.now id number a) }
    {
        let Some((recording, place)) = self.store.message(id) else {
            unreachable!();
        };
        let kind = kind_at(place);
        let Some(rows) = self.rows.rows(id, kind) else {
            unreachable!();
        };
        let seen = see(alloc, &self.tables, &self.outside, rows)?;
        let room = usize::from(effects_of(&self.catalogue, recording, kind));
        let state = CallState::make(alloc, seen.as_slice(), room)?;
        Attempt::begin(alloc, &self.catalogue, id, number, kind, recording, state)
    }

    /// Takes memory for the end of an attempt: its inside rows have a place from now on. The error is want of memory.
    pub fn reserve(&mut self, alloc: Global, attempt: &Attempt) -> Result<(), NoMemory>
        ensures aside { SetsAside self.old self.new }
        ensures reserved { OnOk result (are_reserved (rows_in attempt.now.play.view) self.new.tables.places ≡ true) }
    {
        let rows = attempt.rows(alloc)?;
        self.tables.reserve(alloc, rows.as_slice())
    }

    /// Settles the end of an attempt at a moment: a committed one consumes its message, and its rows, inside and outside,
    /// get their amounts; a failed one sends its message on by the retry rule. Its message stands in one of the queues 0
    /// to 5, and its inside rows have places (`reserve`). This takes no memory.
    pub fn end(&mut self, attempt: &Attempt, at: Moment)
        requires waiting { is_waiting attempt.now.id self.old.store.messages ≡ true }
        requires reserved { are_reserved (rows_seen attempt.now.play.view) self.old.tables.places ≡ true }
        ensures { AddsFact (fact_ended at attempt.now) (HasOutcome attempt.now) self.old self.new }
    {
        match attempt.why() {
            Some(_) => self.fail(attempt, at),
            None => self.commit(attempt, at),
        }
    }

    // A failed attempt: its message goes on by the retry rule.
    fn fail(&mut self, attempt: &Attempt, at: Moment)
        requires waiting { is_waiting attempt.now.id self.old.store.messages ≡ true }
        requires failed { is_some attempt.now.why ≡ true }
        ensures { AddsFact (fact_ended at attempt.now) (HasOutcome attempt.now) self.old self.new }
    {
        self.store.fail(attempt.id(), at);
        self.attempt = greater(self.attempt, attempt.number());
        self.facts = self.facts.saturating_add(1);
        self.last = at;
    }

    // A committed attempt: its message is consumed, and its rows get their amounts.
    fn commit(&mut self, attempt: &Attempt, at: Moment)
        requires waiting { is_waiting attempt.now.id self.old.store.messages ≡ true }
        requires reserved { are_reserved (rows_seen attempt.now.play.view) self.old.tables.places ≡ true }
        requires committed { attempt.now.why ≡ None }
        ensures { AddsFact (fact_ended at attempt.now) (HasOutcome attempt.now) self.old self.new }
    {
        let id = attempt.id();
        self.store.consume(id, attempt.number());
        self.rows.remove(id);
        self.tables.apply_view(attempt.state().view());
        self.outside.apply_view(attempt.state().view());
        self.attempt = greater(self.attempt, attempt.number());
        self.facts = self.facts.saturating_add(1);
        self.last = at;
    }
}
