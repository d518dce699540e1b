// A clerk with its log and its site.
ghost use Rattle.std.specs.Prelude.{◌≡◌, ◌+◌, ◌≤◌, ◌==◌, true, IfOk};
ghost use Rattle.std.specs.List.{list_any};
ghost use Rattle.crm_log.specs.Parts.{are_phases};

use crm_clerk::{Clerk, ClerkError};
use crm_log::CrmLog;
use crm_log_tests::log_at_end;
use qc_base::{Amount, LogRecord, Name, Text};
use qc_frame::LogError;
use qc_site::{Failed, Site};
use std::alloc::Global;

/// A clerk with its log and its site, and how many more calls it has room for.
#[derive(Drop)]
pub struct Desk<S> {
    pub site: S,
    pub log: CrmLog,
    pub clerk: Clerk,
    pub calls: usize,
}

impl<S: Site + Drop> Desk<S> {
    ghost use Rattle.crm_clerk_tests.specs.Desk.{IsReady};

    /// The desk of attempt 1 on message 7, over the log of this site, with room for ten calls.
    pub fn open(alloc: Global, site: S) -> Result<Desk<S>, LogError>
        ensures { IfOk result (λ d. IsReady S.Site d.site d.log d.clerk d.calls × (d.calls ≡ 10)) }
    {
        let mut site = site;
        let (mut log, _) = log_at_end(alloc, &mut site)?;
        log.reserve(alloc, 2640)?;
        let clerk = Clerk::begin(alloc, 1, 7, 10)?;
        Ok(Desk {
            site,
            log,
            clerk,
            calls: 10,
        })
    }

    /// Registers a resource for these phases, 1 to 7.
    pub fn register(&mut self, resource: &Name, phases: u8) -> Result<(), ClerkError>
        requires phases { are_phases phases ≡ true }
        requires some { 1 ≤ self.old.calls }
        requires ready { IsReady S.Site self.old.site self.old.log self.old.clerk self.old.calls }
        ensures ready { IsReady S.Site self.new.site self.new.log self.new.clerk self.new.calls }
        ensures calls { self.new.calls + 1 ≡ self.old.calls }
    {
        self.calls -= 1;
        self.clerk.register(&mut self.log, resource, phases)
    }

    /// Writes a record of a row of a resource.
    pub fn write(
        &mut self,
        resource: &Name,
        key: &Text,
        old: Amount,
        new: Amount,
    ) -> Result<u32, ClerkError>
        requires some { 1 ≤ self.old.calls }
        requires ready { IsReady S.Site self.old.site self.old.log self.old.clerk self.old.calls }
        ensures ready { IsReady S.Site self.new.site self.new.log self.new.clerk self.new.calls }
        ensures calls { self.new.calls + 1 ≡ self.old.calls }
    {
        self.calls -= 1;
        self.clerk
            .write_record(&mut self.log, resource, key, old, new)
    }

    /// Forgets the last record of a resource.
    pub fn forget_last(&mut self, resource: &Name) -> Result<(), ClerkError>
        requires some { 1 ≤ self.old.calls }
        requires ready { IsReady S.Site self.old.site self.old.log self.old.clerk self.old.calls }
        ensures ready { IsReady S.Site self.new.site self.new.log self.new.clerk self.new.calls }
        ensures calls { self.new.calls + 1 ≡ self.old.calls }
    {
        self.calls -= 1;
        self.clerk.forget_last(&mut self.log, resource)
    }

    /// Forgets the record of a resource with this number, where it is there and unforgotten, and tells whether it was.
    pub fn forget(&mut self, resource: &Name, seq: u32) -> bool
        requires some { 1 ≤ self.old.calls }
        requires ready { IsReady S.Site self.old.site self.old.log self.old.clerk self.old.calls }
        ensures ready { IsReady S.Site self.new.site self.new.log self.new.clerk self.new.calls }
        ensures calls { self.new.calls + 1 ≡ self.old.calls }
    {
        self.calls -= 1;
        if !has_seq(self.clerk.records(resource), seq) {
            return false;
        }
        self.clerk.forget(&mut self.log, resource, seq);
        true
    }

    /// Ends the attempt, and makes all lines that wait one group of the log. Hands the site back.
    pub fn finish(self) -> Result<S, Failed>
        requires some { 1 ≤ self.calls }
        requires ready { IsReady S.Site self.site self.log self.clerk self.calls }
    {
        let Desk {
            mut site,
            mut log,
            clerk,
            calls: _,
        } = self;
        clerk.finish(&mut log);
        log.force(&mut site)?;
        Ok(site)
    }

    /// Makes all lines that wait one group of the log.
    pub fn force(&mut self) -> Result<(), Failed>
        requires ready { IsReady S.Site self.old.site self.old.log self.old.clerk self.old.calls }
    {
        self.clerk.force_log(&mut self.log, &mut self.site)
    }
}

fn has_seq(records: &[LogRecord], seq: u32) -> bool
    ensures { result ≡ list_any (λ r. r.seq == seq) records.now }
{
    records.iter().any(|r| r.seq == seq)
}
