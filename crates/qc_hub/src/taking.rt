// Orders that take a message: which one, why none, and the attempt on it.
ghost use Rattle.std.specs.Prelude.{◌≡◌, ℕ, List, Some};
ghost use Rattle.qc_base.specs.declared.message.Message.{Message};
ghost use Rattle.qc_machine.specs.Attempts.{chosen_message};
ghost use Rattle.qc_machine.specs.Refuse.{is_of_line};
ghost use Rattle.qc_machine.specs.State.{State};
ghost use Rattle.qc_machine.specs.Step.{step};
ghost use Rattle.qc_hub.specs.Calls.{CarriesOut, IsReady, StepsInMemory, taking};
ghost use Rattle.qc_hub.specs.Stands.{IsHubOf};
ghost use Rattle.qc_hub.specs.Taking.{Begins, Chooses, Numbers, last_after, taken, told_of};

use crate::error::HubError;
use crate::hub::{Hub, later};
use crate::rooms::{FACT_ROOM, LOG_ROOM};
use qc_base::Moment;
use qc_listener::{Chosen, choose};
use qc_protocol::{Refusal, Reply};
use qc_site::Site;
use qc_txn::Attempt;
use std::alloc::Global;

/// Why no attempt is begun.
#[derive(Clone, Copy, Debug, PartialEq, Eq)]
pub(crate) enum NotBegun {
    Refused(Refusal),
    NoMemory,
}

impl Hub {
    /// A player takes a message of an application and holds an attempt on it (docs/RULES.md, "Take").
    ///
    /// It is the step of the order `take` with this own moment, and its errors are those of `apply`.
    pub fn take<S: Site>(
        &mut self,
        alloc: Global,
        _site: &mut S,
        at: Moment,
        player: u64,
        app: &[u8],
    ) -> Result<Reply, HubError>
        requires { IsReady S.Site self.old _site.old }
        ensures { CarriesOut S.Site (taking at player app.now) result self.old _site.old self.new _site.new }
    {
        self.take_message(alloc, at, player, app)
    }

    fn take_message(
        &mut self,
        alloc: Global,
        at: Moment,
        player: u64,
        app: &[u8],
    ) -> Result<Reply, HubError>
        requires { (s : State) × IsHubOf self.old s }
        ensures { StepsInMemory at (λ s. step s (taking at player app.now)) result self.old self.new }
    {
        let before = self.last;
        self.last = later(at, before);
        let attempt = match self.begin(alloc, player, app) {
            Ok(attempt) => attempt,
            Err(why) => return self.not_begun(before, why),
        };
        let taken = taken(&attempt);
        let Ok(()) = self.players.hold(alloc, player, attempt) else {
            return Err(HubError::NoMemory);
        };
        Ok(taken)
    }

    // The attempt of a player on the message of an application that is taken now. All memory for its end is there.
    pub(crate) fn begin(
        &mut self,
        alloc: Global,
        player: u64,
        app: &[u8],
    ) -> Result<Attempt, NotBegun>
        requires { (s : State) × IsHubOf self.old s }
        ensures { Begins player app.now result self.old self.new }
    {
        let id = match self.chosen(player, app) {
            Ok(id) => id,
            Err(refusal) => return Err(NotBegun::Refused(refusal)),
        };
        let number = match self.number_for(id) {
            Ok(number) => number,
            Err(refusal) => return Err(NotBegun::Refused(refusal)),
        };
        let Ok(attempt) = self.history.begin(alloc, id, number) else {
            return Err(NotBegun::NoMemory);
        };
        let Ok(()) = self.history.reserve(alloc, &attempt) else {
            return Err(NotBegun::NoMemory);
        };
        Ok(attempt)
    }

    // What is answered where no attempt is begun. What isn't built leaves the last moment as it was before.
    pub(crate) fn not_begun(&mut self, before: Moment, why: NotBegun) -> Result<Reply, HubError>
        ensures told { result ≡ told_of why }
        ensures last { self.new ≡ record self.old { last = last_after why before self.old.last } }
    {
        self.last = last_after(&why, before, self.last);
        told_of(why)
    }

    // The id of the message that the player takes now of an application, or why there is none.
    fn chosen(&self, player: u64, app: &[u8]) -> Result<u64, Refusal>
        ensures { (s : State) → IsHubOf self.now s → Chooses s player app.now result }
    {
        if let Some(refusal) = self.players.busy(player) {
            return Err(refusal);
        }
        let Some(app) = self.history.catalogue().app(app) else {
            return Err(Refusal::UnknownApp);
        };
        if self.history.is_off(&app.name) {
            return Err(Refusal::SwitchedOff);
        }
        let (store, rows) = (self.history.store(), self.history.rows());
        match choose(store, rows, self.players.held(), &app.name, self.last) {
            Chosen::Take(id) => Ok(id),
            Chosen::NothingDue(earliest, blocked) => Err(Refusal::NothingDue(earliest, blocked)),
        }
    }

    // The number of the attempt on the message that is chosen, or why it isn't begun.
    fn number_for(&self, id: u64) -> Result<u64, Refusal>
        ensures { (s : State) (app : List ℕ) (m : Message) → IsHubOf self.now s → chosen_message s app ≡ Some m
            → m.id ≡ id → Numbers s m result }
    {
        if !self.history.plays_inside(id) {
            return Err(Refusal::NotBuilt);
        }
        if let Some(full) = self.journal_full(FACT_ROOM) {
            return Err(full);
        }
        if let Some(full) = self.log_full(LOG_ROOM) {
            return Err(full);
        }
        match self.next_attempt() {
            Some(number) => Ok(number),
            None => Err(Refusal::Full(self.journal.length())),
        }
    }
}

// Whether a refusal leaves the last moment as it was: the order isn't one, or isn't built.
fn is_of_line(refusal: Refusal) -> bool
    ensures { result ≡ is_of_line refusal }
{
    matches!(
        refusal,
        Refusal::LineTooLong | Refusal::Malformed(_) | Refusal::NotBuilt
    )
}

// What is told where no attempt is begun.
fn told_of(why: NotBegun) -> Result<Reply, HubError>
    ensures { result ≡ told_of why }
{
    match why {
        NotBegun::Refused(refusal) => Ok(Reply::Refused(refusal)),
        NotBegun::NoMemory => Err(HubError::NoMemory),
    }
}

// The last moment seen where no attempt is begun: as it was before, where the order isn't one or isn't built.
fn last_after(why: &NotBegun, before: Moment, used: Moment) -> Moment
    ensures { result ≡ last_after why.now before used }
{
    match why {
        NotBegun::Refused(refusal) => { if is_of_line(*refusal) { before } else { used } }
        NotBegun::NoMemory => used,
    }
}

// What is told of an attempt that is taken.
fn taken(attempt: &Attempt) -> Reply
    ensures { result ≡ taken attempt.now }
{
    let left = u64::from(attempt.left());
    Reply::Taken(attempt.id(), attempt.number(), attempt.kind(), left)
}
