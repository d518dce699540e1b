// The compensator of a resource's rows.
ghost use Rattle.std.specs.Prelude.{◌≡◌, ◌<◌, ◌++◌, [], ◌∷◌, IfOk};
ghost use Rattle.crm_driver.specs.Compensators.{new_state};
ghost use Rattle.crm_driver.specs.RowRules.{rules_of, state_of, told_of};

use crate::Compensator;
use crate::put::put_amount;
use crate::ready::is_ready;
use qc_base::{Amount, Heard, LogRecord, Name, NoMemory};
use qc_catalogue::Resource;
use qc_site::{Failed, Site};
use std::alloc::Global;
use std::marker::Model;

/// The compensator of a resource's rows (docs/RULES.md, "Outcome" and "Phase").
///
/// In the prepare phase it answers that a record is to be forgotten exactly where its amounts are equal, and that it is
/// ready exactly where the resource has no bounds or the last new amount of each row lies within them. In the commit
/// phase a late resource puts the new amounts, and in the abort phase an early one puts the old ones back.
#[derive(Debug, Drop)]
pub struct RowCompensator {
    resource: Name,
    early: bool,
    bounds: Option<(Amount, Amount)>,
    heard: Vec<Heard>,
    // Since the last begin.
    delivered: Vec<LogRecord>,
}

impl Model for RowCompensator {
    ghost use Rattle.std.specs.Prelude.{◌≤◌, ◌-◌, ◌+◌, vec_len, vec_capacity};
    ghost use Rattle.crm_driver.specs.RowRules.{RowCompensatorView};

    ghost Value = { RowCompensatorView };

    ghost view = { λ c. record {
      resource = c.resource;
      early = c.early;
      bounds = c.bounds;
      heard = c.heard.items;
      delivered = c.delivered.items;
      spare = vec_capacity c.heard - vec_len c.heard;
    } };

    ghost invariant = { λ c. (vec_len c.heard ≤ vec_capacity c.heard)
        × (vec_len c.delivered + (vec_capacity c.heard - vec_len c.heard) ≤ vec_capacity c.delivered) };
}

impl RowCompensator {
    /// The compensator of this resource, which has heard nothing and has room for so many calls. The error is want of
    /// memory.
    pub fn over(alloc: Global, resource: &Resource, room: usize) -> Result<RowCompensator, NoMemory>
        ensures { IfOk result (λ c. state_of c ≡ new_state (rules_of resource.now) room) }
    {
        let heard = Vec::with_capacity(alloc, room).map_err(|_| NoMemory)?;
        let delivered = Vec::with_capacity(alloc, room).map_err(|_| NoMemory)?;
        Ok(RowCompensator {
            resource: resource.name,
            early: resource.early,
            bounds: resource.bounds,
            heard,
            delivered,
        })
    }

    /// What it heard, in order.
    pub fn heard(&self) -> &[Heard]
        ensures { result.now ≡ self.now.heard }
    {
        self.heard.as_slice()
    }

    /// How many calls more it can take.
    pub fn spare(&self) -> usize
        ensures { result ≡ self.now.spare }
    {
        self.heard.capacity() - self.heard.len()
    }

    fn hear_begin(&mut self, entry: Heard)
        requires { 0 < self.old.spare }
        ensures { self.new ≡ told_of entry [] self.old }
    {
        self.delivered.clear();
        self.heard.push_reserved(entry);
    }

    fn hear_record(&mut self, entry: Heard, rec: &LogRecord)
        requires { 0 < self.old.spare }
        ensures { self.new ≡ told_of entry (self.old.delivered ++ rec.now ∷ []) self.old }
    {
        self.delivered.push_reserved(*rec);
        self.heard.push_reserved(entry);
    }

    fn hear_end(&mut self, entry: Heard)
        requires { 0 < self.old.spare }
        ensures { self.new ≡ told_of entry self.old.delivered self.old }
    {
        self.heard.push_reserved(entry);
    }
}

impl Compensator for RowCompensator {
    ghost state = { λ c. state_of c };

    fn begin_prepare(&mut self) {
        self.hear_begin(Heard::BeginPrepare);
    }

    fn prepare_record(&mut self, rec: &LogRecord) -> bool {
        let forgets = rec.old.get() == rec.new.get();
        self.hear_record(Heard::PrepareRecord(rec.seq, forgets), rec);
        forgets
    }

    fn end_prepare(&mut self) -> bool {
        let ready = is_ready(&self.bounds, self.delivered.as_slice());
        self.hear_end(Heard::EndPrepare(ready));
        ready
    }

    fn begin_commit(&mut self, recovery: bool) {
        self.hear_begin(Heard::BeginCommit(recovery));
    }

    fn commit_record<S: Site>(&mut self, site: &mut S, rec: &LogRecord) -> Result<(), Failed> {
        self.hear_record(Heard::CommitRecord(rec.seq), rec);
        if self.early {
            return Ok(());
        }
        put_amount(site, &self.resource, &rec.key, rec.new)
    }

    fn end_commit(&mut self) {
        self.hear_end(Heard::EndCommit);
    }

    fn begin_abort(&mut self, recovery: bool) {
        self.hear_begin(Heard::BeginAbort(recovery));
    }

    fn abort_record<S: Site>(&mut self, site: &mut S, rec: &LogRecord) -> Result<(), Failed> {
        self.hear_record(Heard::AbortRecord(rec.seq), rec);
        if !self.early {
            return Ok(());
        }
        put_amount(site, &self.resource, &rec.key, rec.old)
    }

    fn end_abort(&mut self) {
        self.hear_end(Heard::EndAbort);
    }
}
