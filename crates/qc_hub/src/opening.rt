// Reading a site's logs.
ghost use Rattle.std.specs.Prelude.{◌≡◌, ◌<◌, IfOk, true};
ghost use Rattle.qc_base.specs.Spelling.{is_fact};
ghost use Rattle.qc_frame.specs.Calls.{LogStands};
ghost use Rattle.qc_frame.specs.Log.{just_opened};
ghost use Rattle.qc_journal.specs.Journal.{log_of};
ghost use Rattle.qc_history.specs.Stands.{IsHistoryOf};
ghost use Rattle.qc_machine.specs.History.{no_facts};
ghost use Rattle.qc_machine.specs.Sites.{no_clients, no_players};
ghost use Rattle.qc_players.specs.Players.{players_of};
ghost use Rattle.qc_hub.specs.Calls.{OpensSite};
ghost use Rattle.qc_hub.specs.Opening.{in_journal, in_log, damage_at, log_used};
ghost use Rattle.qc_hub.specs.Opening.{IsUnread, FindsLogs, TakesFact, ReadsFacts, FindsNoLine};

use crate::clients::Clients;
use crate::hub::Hub;
use qc_base::{Fact, NoMemory};
use qc_frame::{Damage, Log, LogError};
use qc_history::History;
use qc_journal::Journal;
use qc_machine::{Limits, OpenError};
use qc_players::Players;
use qc_site::{Site, SiteFile};
use std::alloc::Global;

const LOG_HEADER: [u8; 16] = *b"QC-CRMLOG--0001\n";

// Where the first entry of a log stands: behind the header, a gate and four bytes.
const FIRST_ENTRY: u64 = 21;

// What the longest fact of an attempt's end needs of room in the journal: its spelling and four bytes.
const END_ROOM: usize = 30;

// Why a site can't be opened where its journal can't be read on.
fn journal_error(error: LogError) -> OpenError
    ensures { result ≡ in_journal error }
{
    match error {
        LogError::SiteFault => OpenError::SiteFault,
        LogError::NotMade => OpenError::NotMade,
        LogError::Damaged(at) => damaged(at),
        LogError::NoMemory => OpenError::NoMemory,
    }
}

// Why a site can't be opened where its log of compensations can't be read on. Each group there is one too many.
fn log_error(error: LogError) -> OpenError
    ensures { result ≡ in_log error }
{
    match error {
        LogError::SiteFault => OpenError::SiteFault,
        LogError::NotMade => OpenError::NotMade,
        LogError::Damaged(_) => used_log(),
        LogError::NoMemory => OpenError::NoMemory,
    }
}

fn damaged(at: u64) -> OpenError
    ensures { result ≡ OpenError.Damaged (damage_at at) }
{
    let file = SiteFile::Journal;
    OpenError::Damaged(Damage { file, at })
}

fn used_log() -> OpenError
    ensures { result ≡ OpenError.Damaged log_used }
{
    let file = SiteFile::CrmLog;
    let at = FIRST_ENTRY;
    OpenError::Damaged(Damage { file, at })
}

// What a hub holds before a fact was read: no facts, no recorders and no attempts.
fn empty(alloc: Global) -> Result<(History, Clients, Players), NoMemory>
    ensures history { IfOk result (λ parts. IsHistoryOf parts.0 no_facts) }
    ensures clients { IfOk result (λ parts. parts.1 ≡ no_clients) }
    ensures players { IfOk result (λ parts. players_of parts.2 ≡ no_players) }
{
    let history = History::make(alloc)?;
    let clients = Clients::make(alloc)?;
    let players = Players::make(alloc)?;
    Ok((history, clients, players))
}

impl Hub {
    /// Syncs both logs of the site and reads them, the journal first, and closes their end gates where those aren't 0.
    ///
    /// `NotMade` comes exactly where one of the logs hasn't its header, which is looked at before any group, and
    /// `NoCatalogue` exactly where both have and the journal has no open group. `Damaged` comes exactly where the
    /// journal's groups go on as no history does, or else where the log of compensations has an open group
    /// (docs/RULES.md, "Opening"). `SiteFault` comes only where the site's count of faults rose.
    pub fn open<S: Site>(alloc: Global, site: &mut S, limits: Limits) -> Result<Hub, OpenError>
        ensures { OpensSite S.Site limits result site.old site.new }
    {
        let mut hub = Hub::unread(alloc, site, limits)?;
        hub.read_facts(alloc, site)?;
        if hub.history.facts() == 0 {
            return Err(OpenError::NoCatalogue);
        }
        hub.read_log(alloc, site)?;
        Ok(hub)
    }

    // A hub that stands before the first groups of both logs. The end of an attempt will take no memory.
    fn unread<S: Site>(alloc: Global, site: &mut S, limits: Limits) -> Result<Hub, OpenError>
        ensures { FindsLogs S.Site limits result site.old site.new }
    {
        let Ok((history, clients, players)) = empty(alloc) else {
            return Err(OpenError::NoMemory);
        };
        let mut journal = match Journal::open(alloc, site) {
            Ok(journal) => journal,
            Err(error) => return Err(journal_error(error)),
        };
        let Ok(()) = journal.reserve(alloc, END_ROOM) else {
            return Err(OpenError::NoMemory);
        };
        let log = match Log::open(alloc, site, SiteFile::CrmLog, &LOG_HEADER) {
            Ok(log) => log,
            Err(error) => return Err(log_error(error)),
        };
        Ok(Hub {
            journal,
            log,
            last: history.last(),
            history,
            clients,
            players,
            limits,
            in_fault: false,
        })
    }

    // Reads the journal to its end. The last moment seen is then that of its last fact.
    fn read_facts<S: Site>(&mut self, alloc: Global, site: &mut S) -> Result<(), OpenError>
        requires stands { LogStands S.Site (log_of self.old.journal) site.old }
        requires unread { IsUnread self.old.limits self.old }
        ensures { ReadsFacts S.Site result self.old site.old self.new site.new }
    {
        let mut numbers = Vec::new(alloc);
        loop {
            let next = match self.journal.next_fact(alloc, site) {
                Ok(next) => next,
                Err(error) => return Err(journal_error(error)),
            };
            let Some((at, fact)) = next else {
                self.last = self.history.last();
                return Ok(());
            };
            self.take_fact(alloc, at, fact, &mut numbers)?;
        }
    }

    // Reads the log of compensations to its end, which is its start.
    fn read_log<S: Site>(&mut self, alloc: Global, site: &mut S) -> Result<(), OpenError>
        requires stands { LogStands S.Site self.old.log site.old }
        requires opened { self.old.log ≡ just_opened SiteFile.CrmLog 16 self.old.log.length }
        ensures { FindsNoLine S.Site result self.old site.old self.new site.new }
    {
        let next = match self.log.next_group(alloc, site) {
            Ok(next) => next,
            Err(error) => return Err(log_error(error)),
        };
        if next.is_some() {
            return Err(used_log());
        }
        Ok(())
    }

    // Goes on with a fact that was read, whose entry has this offset. Beside it the numbers of the attempts in the
    // facts are kept.
    fn take_fact(
        &mut self,
        alloc: Global,
        at: u64,
        fact: Fact,
        numbers: &mut Vec<u64>,
    ) -> Result<(), OpenError>
        requires limits { is_fact fact ≡ true }
        requires few { self.old.history.facts < 4611686018427387904 }
        ensures { TakesFact at fact result self.old numbers.old.items self.new numbers.new.items }
    {
        match self.history.take(alloc, fact, numbers) {
            Ok(true) => Ok(()),
            Ok(false) => Err(damaged(at)),
            Err(_) => Err(OpenError::NoMemory),
        }
    }
}
