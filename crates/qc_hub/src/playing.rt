// Orders on the attempts of players: their next call, their end, what follows it, and all of it in one order.
ghost use Rattle.std.specs.Prelude.{◌≡◌, Ok, IsErrOf};
ghost use Rattle.qc_machine.specs.Playing.{has_committed};
ghost use Rattle.qc_machine.specs.State.{State};
ghost use Rattle.qc_machine.specs.Step.{step};
ghost use Rattle.qc_hub.specs.Calls.{CarriesOut, IsReady, StepsInMemory, ending, finishing, playing, working};
ghost use Rattle.qc_hub.specs.Stands.{IsHubOf};

use crate::error::HubError;
use crate::hub::{Hub, later};
use qc_base::{Moment, Notices, Stage};
use qc_players::PlayerOrder;
use qc_protocol::{Refusal, Reply};
use qc_site::Site;
use std::alloc::Global;

fn has_committed(stage: Stage) -> bool
    ensures { result ≡ has_committed stage }
{
    matches!(stage, Stage::Commit)
}

impl Hub {
    /// The attempt that a player holds runs its next call (docs/RULES.md, "Work").
    ///
    /// It is the step of the order `work` with this own moment. It takes no memory.
    pub fn work<S: Site>(
        &mut self,
        _alloc: Global,
        _site: &mut S,
        at: Moment,
        player: u64,
    ) -> Result<Reply, HubError>
        requires { IsReady S.Site self.old _site.old }
        ensures carried { CarriesOut S.Site (working at player) result self.old _site.old self.new _site.new }
        ensures takes_no_memory { ¬ IsErrOf result HubError.NoMemory }
    {
        Ok(self.run_call(at, player))
    }

    fn run_call(&mut self, at: Moment, player: u64) -> Reply
        requires { (s : State) × IsHubOf self.old s }
        ensures { StepsInMemory at (λ s. step s (working at player)) (Ok result) self.old self.new }
    {
        self.last = later(at, self.last);
        if let Some(refusal) = self.players.unfit(player, PlayerOrder::Work) {
            return Reply::Refused(refusal);
        }
        self.players.work(player, self.history.catalogue())
    }

    /// The attempt that a player holds ends: its fact is added to the journal, and settled (docs/RULES.md, "End").
    ///
    /// It is the step of the order `end` with this own moment, and its errors are those of `apply`. It takes no memory.
    pub fn end<S: Site>(
        &mut self,
        alloc: Global,
        site: &mut S,
        at: Moment,
        player: u64,
    ) -> Result<Reply, HubError>
        requires { IsReady S.Site self.old site.old }
        ensures carried { CarriesOut S.Site (ending at player) result self.old site.old self.new site.new }
        ensures takes_no_memory { ¬ IsErrOf result HubError.NoMemory }
    {
        self.last = later(at, self.last);
        if let Some(refusal) = self.players.unfit(player, PlayerOrder::End) {
            return Ok(Reply::Refused(refusal));
        }
        self.add_end(alloc, site, player)
    }

    /// What follows the end of the attempt that a player holds: its message and its rows are let go (docs/RULES.md,
    /// "Phase").
    ///
    /// It is the step of the order `phase` with this own moment. It takes no memory.
    pub fn phase<S: Site>(
        &mut self,
        alloc: Global,
        _site: &mut S,
        at: Moment,
        player: u64,
    ) -> Result<Reply, HubError>
        requires { IsReady S.Site self.old _site.old }
        ensures carried { CarriesOut S.Site (finishing at player) result self.old _site.old self.new _site.new }
        ensures takes_no_memory { ¬ IsErrOf result HubError.NoMemory }
    {
        Ok(self.let_go(alloc, at, player))
    }

    fn let_go(&mut self, alloc: Global, at: Moment, player: u64) -> Reply
        ensures { StepsInMemory at (λ s. step s (finishing at player)) (Ok result) self.old self.new }
    {
        self.last = later(at, self.last);
        if let Some(refusal) = self.players.unfit(player, PlayerOrder::Phase) {
            return Reply::Refused(refusal);
        }
        let Some(attempt) = self.players.release(player) else {
            return Reply::Refused(Refusal::SlotIdle);
        };
        let heard = Notices::over(Vec::new(alloc));
        Reply::Finished(attempt.number(), has_committed(attempt.stage()), heard)
    }

    /// A player takes a message of an application, runs all calls of the attempt on it, ends it and lets it go, in one
    /// step (docs/RULES.md, "Play").
    ///
    /// It is the step of the order `play` with this own moment, and its errors are those of `apply`.
    pub fn play<S: Site>(
        &mut self,
        alloc: Global,
        site: &mut S,
        at: Moment,
        player: u64,
        app: &[u8],
    ) -> Result<Reply, HubError>
        requires { IsReady S.Site self.old site.old }
        ensures { CarriesOut S.Site (playing at player app.now) result self.old site.old self.new site.new }
    {
        let before = self.last;
        self.last = later(at, before);
        match self.begin(alloc, player, app) {
            Ok(attempt) => self.add_play(alloc, site, player, attempt),
            Err(why) => self.not_begun(before, why),
        }
    }
}
