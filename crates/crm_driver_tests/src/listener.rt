// A compensator that isn't one of a resource's rows.
ghost use Rattle.std.specs.Prelude.{◌≡◌, ◌<◌, ◌++◌, [], ◌∷◌, IfOk};
ghost use Rattle.crm_driver.specs.Compensators.{new_state};
ghost use Rattle.crm_driver_tests.specs.Listener.{state_of, told_of, listener_rules};

use crm_driver::{Compensator, put_amount};
use qc_base::{Heard, LogRecord, Name, NoMemory};
use qc_site::{Failed, Site};
use std::alloc::Global;
use std::marker::Model;

/// Forgets the records whose new amount is 0, is ready after two records, puts nothing in the commit phase, and puts
/// each old amount back in the abort phase.
#[derive(Debug, Drop)]
pub struct Listener {
    resource: Name,
    heard: Vec<Heard>,
    // Since the last begin.
    delivered: Vec<LogRecord>,
}

impl Model for Listener {
    ghost use Rattle.std.specs.Prelude.{◌≤◌, ◌-◌, ◌+◌, vec_len, vec_capacity};
    ghost use Rattle.crm_driver_tests.specs.Listener.{ListenerView};

    ghost Value = { ListenerView };

    ghost view = { λ l. record {
      resource = l.resource;
      heard = l.heard.items;
      delivered = l.delivered.items;
      spare = vec_capacity l.heard - vec_len l.heard;
    } };

    ghost invariant = { λ l. (vec_len l.heard ≤ vec_capacity l.heard)
        × (vec_len l.delivered + (vec_capacity l.heard - vec_len l.heard) ≤ vec_capacity l.delivered) };
}

impl Listener {
    /// A listener that puts rows of this resource, with room for so many calls. The error is want of memory.
    pub fn over(alloc: Global, resource: &Name, room: usize) -> Result<Listener, NoMemory>
        ensures { IfOk result (λ l. state_of l ≡ new_state (listener_rules resource.now) room) }
    {
        let heard = Vec::with_capacity(alloc, room).map_err(|_| NoMemory)?;
        let delivered = Vec::with_capacity(alloc, room).map_err(|_| NoMemory)?;
        Ok(Listener {
            resource: *resource,
            heard,
            delivered,
        })
    }

    /// What it heard, in order.
    pub fn heard(&self) -> &[Heard]
        ensures { result.now ≡ self.now.heard }
    {
        self.heard.as_slice()
    }

    fn hear(&mut self, entry: Heard)
        requires { 0 < self.old.spare }
        ensures { self.new ≡ told_of entry self.old.delivered self.old }
    {
        self.heard.push_reserved(entry);
    }

    fn hear_begin(&mut self, entry: Heard)
        requires { 0 < self.old.spare }
        ensures { self.new ≡ told_of entry [] self.old }
    {
        self.delivered.clear();
        self.heard.push_reserved(entry);
    }

    fn hear_record(&mut self, entry: Heard, rec: &LogRecord)
        requires { 0 < self.old.spare }
        ensures { self.new ≡ told_of entry (self.old.delivered ++ rec.now ∷ []) self.old }
    {
        self.delivered.push_reserved(*rec);
        self.heard.push_reserved(entry);
    }
}

impl Compensator for Listener {
    ghost state = { λ l. state_of l };

    fn begin_prepare(&mut self) {
        self.hear_begin(Heard::BeginPrepare);
    }

    fn prepare_record(&mut self, rec: &LogRecord) -> bool {
        let forgets = rec.new.get() == 0;
        self.hear_record(Heard::PrepareRecord(rec.seq, forgets), rec);
        forgets
    }

    fn end_prepare(&mut self) -> bool {
        let ready = self.delivered.len() == 2;
        self.hear(Heard::EndPrepare(ready));
        ready
    }

    fn begin_commit(&mut self, recovery: bool) {
        self.hear_begin(Heard::BeginCommit(recovery));
    }

    fn commit_record<S: Site>(&mut self, _site: &mut S, rec: &LogRecord) -> Result<(), Failed> {
        self.hear_record(Heard::CommitRecord(rec.seq), rec);
        Ok(())
    }

    fn end_commit(&mut self) {
        self.hear(Heard::EndCommit);
    }

    fn begin_abort(&mut self, recovery: bool) {
        self.hear_begin(Heard::BeginAbort(recovery));
    }

    fn abort_record<S: Site>(&mut self, site: &mut S, rec: &LogRecord) -> Result<(), Failed> {
        self.hear_record(Heard::AbortRecord(rec.seq), rec);
        put_amount(site, &self.resource, &rec.key, rec.old)
    }

    fn end_abort(&mut self) {
        self.hear(Heard::EndAbort);
    }
}
