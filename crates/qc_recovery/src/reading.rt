// The logs of a site are read, the journal first, and the other one beside its history.
ghost use Rattle.std.specs.Prelude.{◌≡◌, ◌<◌, IfOk, true};
ghost use Rattle.qc_base.specs.Spelling.{is_fact};
ghost use Rattle.qc_frame.specs.Calls.{LogStands};
ghost use Rattle.qc_journal.specs.Journal.{log_of};
ghost use Rattle.crm_recovery.specs.Reading.{JustOpened};
ghost use Rattle.qc_recovery.specs.Opening.{IsUnread, FindsLogs, TakesFact, ReadsFacts, ReadsLines};

use crate::errors::{damaged_fact, journal_error, log_error};
use crate::numbers::ended_by;
use crm_history::Ended;
use crm_log::CrmLog;
use crm_recovery::read_lines;
use qc_base::{Fact, LogLine};
use qc_history::History;
use qc_journal::Journal;
use qc_machine::OpenError;
use qc_site::Site;
use std::alloc::Global;

// What was read of a site so far: what the facts settle, the attempts that they end, in order, and the lines.
#[derive(Drop)]
pub(crate) struct Reading {
    pub(crate) journal: Journal,
    pub(crate) log: CrmLog,
    pub(crate) history: History,
    pub(crate) ended: Vec<Ended>,
    pub(crate) lines: Vec<LogLine>,
}

impl Reading {
    // Opens both logs, and stands before their first groups.
    pub(crate) fn begin<S: Site>(alloc: Global, site: &mut S) -> Result<Reading, OpenError>
        ensures { FindsLogs S.Site result site.old site.new }
    {
        let Ok(history) = History::make(alloc) else {
            return Err(OpenError::NoMemory);
        };
        let journal = match Journal::open(alloc, site) {
            Ok(journal) => journal,
            Err(error) => return Err(journal_error(error)),
        };
        let log = match CrmLog::open(alloc, site) {
            Ok(log) => log,
            Err(error) => return Err(log_error(error)),
        };
        Ok(Reading {
            journal,
            log,
            history,
            ended: Vec::new(alloc),
            lines: Vec::new(alloc),
        })
    }

    // Reads the journal to its end.
    pub(crate) fn read_facts<S: Site>(
        &mut self,
        alloc: Global,
        site: &mut S,
    ) -> Result<(), OpenError>
        requires stands { LogStands S.Site (log_of self.old.journal) site.old }
        requires unread { IsUnread self.old }
        ensures { ReadsFacts S.Site result self.old site.old self.new site.new }
    {
        let mut numbers = Vec::new(alloc);
        loop {
            let next = match self.journal.next_fact(alloc, site) {
                Ok(next) => next,
                Err(error) => return Err(journal_error(error)),
            };
            let Some((at, fact)) = next else {
                return Ok(());
            };
            self.take_fact(alloc, at, fact, &mut numbers)?;
        }
    }

    // Goes on with a fact that was read, whose entry has this offset. Beside it the numbers of the attempts in the
    // facts are kept.
    fn take_fact(
        &mut self,
        alloc: Global,
        at: u64,
        fact: Fact,
        numbers: &mut Vec<u64>,
    ) -> Result<(), OpenError>
        requires limits { is_fact fact ≡ true }
        requires few { self.old.history.facts < 4611686018427387904 }
        ensures { TakesFact at fact result self.old numbers.old.items self.new numbers.new.items }
    {
        let end = ended_by(&fact);
        match self.history.take(alloc, fact, numbers) {
            Ok(true) => {}
            Ok(false) => return Err(damaged_fact(at)),
            Err(_) => return Err(OpenError::NoMemory),
        }
        if let Some(end) = end {
            let Ok(()) = self.ended.push(end) else {
                return Err(OpenError::NoMemory);
            };
        }
        Ok(())
    }

    // Reads the log of compensations to its end, beside the history.
    pub(crate) fn read_log<S: Site>(&mut self, alloc: Global, site: &mut S) -> Result<(), OpenError>
        requires stands { LogStands S.Site self.old.log.log site.old }
        requires opened { JustOpened self.old.log }
        ensures { ReadsLines S.Site result self.old site.old self.new site.new }
    {
        let catalogue = self.history.catalogue();
        let sent = self.history.store().len();
        match read_lines(
            alloc,
            &mut self.log,
            site,
            catalogue,
            sent,
            self.ended.as_slice(),
        ) {
            Ok(lines) => {
                self.lines = lines;
                Ok(())
            }
            Err(error) => Err(log_error(error)),
        }
    }
}
