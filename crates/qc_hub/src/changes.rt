// Changes of the site, each one step: a fact is added to the journal, and then settled.
ghost use Rattle.std.specs.Prelude.{◌≡◌, ◌+◌, ◌≤◌, true, [], ◌∷◌, length, ℕ, IsErrOf, OnOk, None, is_some};
ghost use Rattle.qc_base.specs.declared.recording.Recording.{Recording};
ghost use Rattle.qc_base.specs.Spelling.{is_recording};
ghost use Rattle.qc_catalogue.specs.Lookup.{app_named};
ghost use Rattle.qc_frame.specs.Calls.{LogStands};
ghost use Rattle.qc_history.specs.Playing.{fact_ended};
ghost use Rattle.qc_journal.specs.Journal.{CanAppend, log_of};
ghost use Rattle.qc_machine.specs.Moving.{moved_by};
ghost use Rattle.qc_machine.specs.Playing.{end_in, end_reply, on_held, play_in, play_reply};
ghost use Rattle.qc_machine.specs.Sending.{added, fact_sent};
ghost use Rattle.qc_machine.specs.State.{in_slot};
ghost use Rattle.qc_machine.specs.Switching.{switch_step};
ghost use Rattle.qc_players.specs.Orders.{unfit_for};
ghost use Rattle.qc_players.specs.Players.{held_of, players_of};
ghost use Rattle.qc_players.specs.declared.order.PlayerOrder.TheVariants.{End as end_order};
ghost use Rattle.qc_recorder.specs.Fits.{recording_fits};
ghost use Rattle.qc_hub.specs.Calls.{Appends, IsReady, StepsBy};
ghost use Rattle.qc_hub.specs.Moving.{AreBatches, HasBatch, IsBatch};
ghost use Rattle.qc_hub.specs.Rooms.{HasRoom};
ghost use Rattle.qc_hub.specs.Taking.{IsBegun};

use crate::error::HubError;
use crate::hub::Hub;
use qc_base::{Fact, Moment, Name, Notices, Recording};
use qc_protocol::Reply;
use qc_site::Site;
use qc_txn::Attempt;
use std::alloc::Global;

impl Hub {
    // A fact for which there is room is added to the journal. Each takes some bytes there, so facts can be counted.
    fn append<S: Site>(&mut self, site: &mut S, fact: &Fact) -> Result<(), HubError>
        requires stands { LogStands S.Site (log_of self.old.journal) site.old }
        requires can { CanAppend self.old.journal fact.now }
        requires counted { self.old.history.facts ≤ self.old.journal.place }
        ensures { Appends S.Site fact.now result self.old site.old self.new site.new }
    {
        match self.journal.append_forced(site, fact) {
            Ok(()) => {
                prove!(self.history.facts() < self.journal.length());
                Ok(())
            }
            Err(_) => {
                self.in_fault = true;
                Err(HubError::SiteFault)
            }
        }
    }

    // A message is sent now, for which there is room.
    pub(crate) fn add_sent<S: Site>(
        &mut self,
        site: &mut S,
        recording: Recording,
    ) -> Result<Reply, HubError>
        requires ready { IsReady S.Site self.old site.old }
        requires limits { is_recording recording ≡ true }
        requires fits { recording_fits self.old.history.catalogue recording ≡ true }
        requires room { HasRoom recording self.old }
        ensures steps { StepsBy S.Site 0 (λ s. added (fact_sent s recording) s) result self.old site.old self.new
            site.new }
        ensures takes_no_memory { ¬ IsErrOf result HubError.NoMemory }
    {
        let fact = Fact::Sent(self.history.store().len() + 1, self.last, recording);
        self.append(site, &fact)?;
        let id = self.history.sent(sent_recording(fact), self.last);
        Ok(Reply::Sent(id))
    }

    // An application is switched on or off now, for which there is room.
    pub(crate) fn add_switch<S: Site>(
        &mut self,
        site: &mut S,
        app: Name,
        on: bool,
    ) -> Result<Reply, HubError>
        requires ready { IsReady S.Site self.old site.old }
        requires known { is_some (app_named app self.old.history.catalogue.apps) ≡ true }
        requires room { 1 ≤ self.old.history.off.room }
        requires journal_room { 15 + length app ≤ self.old.journal.spare }
        ensures steps { StepsBy S.Site 0 (λ s. switch_step s app on) result self.old site.old self.new site.new }
        ensures takes_no_memory { ¬ IsErrOf result HubError.NoMemory }
    {
        let fact = Fact::Switched(app, on, self.last);
        self.append(site, &fact)?;
        self.history.switch(app, on, self.last);
        Ok(Reply::Switched(app, on))
    }

    // The attempt that the player holds ends now, as its stage allows.
    pub(crate) fn add_end<S: Site>(
        &mut self,
        alloc: Global,
        site: &mut S,
        player: u64,
    ) -> Result<Reply, HubError>
        requires ready { IsReady S.Site self.old site.old }
        requires fit { unfit_for end_order player (players_of self.old.players) ≡ None }
        ensures steps { StepsBy S.Site 0 (λ s. on_held s (end_in s player) (in_slot player s.players)) result self.old
            site.old self.new site.new }
        ensures takes_no_memory { ¬ IsErrOf result HubError.NoMemory }
    {
        let _ = self.players.decide(player);
        let Some(attempt) = self.players.attempt(player) else {
            unreachable!();
        };
        let fact = end_fact(attempt, self.last);
        self.append(site, &fact)?;
        let Some(attempt) = self.players.attempt(player) else {
            unreachable!();
        };
        self.history.end(attempt, self.last);
        Ok(end_reply(alloc, attempt))
    }

    // An attempt that has begun, and whose rows have places, runs all its calls and ends now. No player holds it then.
    pub(crate) fn add_play<S: Site>(
        &mut self,
        alloc: Global,
        site: &mut S,
        player: u64,
        attempt: Attempt,
    ) -> Result<Reply, HubError>
        requires ready { IsReady S.Site self.old site.old }
        requires begun { IsBegun player attempt self.old }
        ensures steps { StepsBy S.Site 0 (λ s. play_in s player (held_of attempt)) result self.old site.old self.new
            site.new }
        ensures takes_no_memory { ¬ IsErrOf result HubError.NoMemory }
    {
        let mut attempt = attempt;
        attempt.run_left(self.history.catalogue());
        let _ = attempt.decide();
        let fact = end_fact(&attempt, self.last);
        self.append(site, &fact)?;
        self.history.end(&attempt, self.last);
        Ok(play_reply(alloc, &attempt))
    }
}

impl Hub {
    // The batches of a move are added and settled one after another. There is room for each of them.
    pub(crate) fn add_batches<S: Site>(
        &mut self,
        site: &mut S,
        facts: &[Fact],
        count: u64,
    ) -> Result<Reply, HubError>
        requires ready { IsReady S.Site self.old site.old }
        requires batches { AreBatches facts.now self.old }
        ensures steps { StepsBy S.Site 0 (λ s. moved_by facts.now count s) result self.old site.old self.new site.new }
        ensures takes_no_memory { ¬ IsErrOf result HubError.NoMemory }
    {
        for fact in facts {
            self.add_batch(site, fact, count)?;
        }
        Ok(Reply::Moved(count))
    }

    // A batch of a move of so many messages is added and settled, for which there is room.
    fn add_batch<S: Site>(
        &mut self,
        site: &mut S,
        fact: &Fact,
        count: u64,
    ) -> Result<Reply, HubError>
        requires ready { IsReady S.Site self.old site.old }
        requires batch { IsBatch fact.now self.old }
        ensures steps { StepsBy S.Site 0 (λ s. moved_by (fact.now ∷ []) count s) result self.old site.old self.new
            site.new }
        ensures takes_no_memory { ¬ IsErrOf result HubError.NoMemory }
        ensures added { OnOk result (HasBatch fact.now self.old self.new) }
    {
        self.append(site, fact)?;
        let Fact::Moved(_, queue, at, ids) = fact else {
            unreachable!();
        };
        self.history.move_batch(ids.as_slice(), *queue, *at);
        Ok(Reply::Moved(count))
    }
}

// What was recorded of a message that was sent.
fn sent_recording(fact: Fact) -> Recording
    requires { (id : ℕ) × (at : ℕ) × (r : Recording) × (fact ≡ Fact.Sent id at r) }
    ensures { (id at : ℕ) (r : Recording) → fact ≡ Fact.Sent id at r → result ≡ r }
{
    let Fact::Sent(_, _, recording) = fact else {
        unreachable!();
    };
    recording
}

// The fact of an attempt whose end is decided.
fn end_fact(attempt: &Attempt, at: Moment) -> Fact
    ensures { result ≡ fact_ended at attempt.now }
{
    match attempt.why() {
        Some(_) => Fact::Failed(attempt.id(), attempt.number(), at),
        None => Fact::Played(attempt.id(), attempt.number(), attempt.kind(), at),
    }
}

// What is told of the end. No resource takes part yet, so nothing was heard.
fn end_reply(alloc: Global, attempt: &Attempt) -> Reply
    ensures { result ≡ end_reply attempt.now.number [] attempt.now.why }
{
    let heard = Notices::over(Vec::new(alloc));
    match attempt.why() {
        Some(why) => Reply::NotCommitted(attempt.number(), why, heard),
        None => Reply::Committed(attempt.number(), heard),
    }
}

// The same of an attempt that was played in one order.
fn play_reply(alloc: Global, attempt: &Attempt) -> Reply
    ensures { result ≡ play_reply (held_of attempt.now) [] attempt.now.why }
{
    let heard = Notices::over(Vec::new(alloc));
    let (id, number, kind) = (attempt.id(), attempt.number(), attempt.kind());
    match attempt.why() {
        Some(why) => Reply::PlayFailed(id, number, kind, why, heard),
        None => Reply::Played(id, number, kind, heard),
    }
}
