// A clerk with its log and its site, for the worker.
ghost use Rattle.std.specs.Prelude.{◌≡◌, true, false, IfOk};
ghost use Rattle.qc_worker_tests.specs.Bench.{IsAllowed, IsReady};

use crm_clerk::Clerk;
use crm_log::CrmLog;
use crm_log_tests::log_at_end;
use qc_catalogue::Resource;
use qc_frame::LogError;
use qc_play::Effect;
use qc_site::{Failed, Site};
use qc_worker::carry_out;
use std::alloc::Global;

/// A clerk with its log and its site, how many more effects there is room for, and whether the site failed.
#[derive(Drop)]
pub struct Bench<S> {
    pub site: S,
    pub log: CrmLog,
    pub clerk: Clerk,
    pub effects: usize,
    pub stopped: bool,
}

/// What became of an effect.
#[derive(Clone, Copy, Debug, PartialEq, Eq)]
pub enum Carried {
    Done,
    Failed,
    Refused,
}

// Whether an effect may be carried out.
fn is_allowed(clerk: &Clerk, resource: &Resource, effect: &Effect) -> bool
    ensures { result ≡ true → IsAllowed clerk.now resource.now effect.now }
{
    if resource.phases < 1 {
        return false;
    }
    if resource.phases > 7 {
        return false;
    }
    match effect {
        Effect::Change {
            resource: name,
            key: _,
            old: _,
            new: _,
        } => name.as_bytes() == resource.name.as_bytes(),
        Effect::Retract { resource: name } => {
            if clerk.last(&resource.name).is_none() {
                return false;
            }
            name.as_bytes() == resource.name.as_bytes()
        }
    }
}

impl<S: Site + Drop> Bench<S> {
    /// The bench of attempt 1 on message 7, over the log of this site, with room for ten effects.
    pub fn open(alloc: Global, site: S) -> Result<Bench<S>, LogError>
        ensures { IfOk result (λ b. IsReady S.Site b.site b.log b.clerk b.effects b.stopped) }
    {
        let mut site = site;
        let (mut log, _) = log_at_end(alloc, &mut site)?;
        log.reserve(alloc, 3960)?;
        let clerk = Clerk::begin(alloc, 1, 7, 20)?;
        Ok(Bench {
            site,
            log,
            clerk,
            effects: 10,
            stopped: false,
        })
    }

    /// Carries out an effect of this resource. It is refused where it isn't one, or nothing is there to take back, and
    /// where the site failed before or no effect more has room.
    pub fn carry(&mut self, resource: &Resource, effect: &Effect) -> Carried
        requires { IsReady S.Site self.old.site self.old.log self.old.clerk self.old.effects self.old.stopped }
        ensures { IsReady S.Site self.new.site self.new.log self.new.clerk self.new.effects self.new.stopped }
    {
        if self.stopped {
            return Carried::Refused;
        }
        if self.effects < 1 {
            return Carried::Refused;
        }
        if !is_allowed(&self.clerk, resource, effect) {
            return Carried::Refused;
        }
        self.effects -= 1;
        match carry_out(
            &mut self.clerk,
            &mut self.log,
            &mut self.site,
            resource,
            effect,
        ) {
            Ok(()) => Carried::Done,
            Err(Failed) => {
                self.stopped = true;
                Carried::Failed
            }
        }
    }

    /// Makes all lines that wait one group of the log, and tells whether the site did it.
    pub fn force(&mut self) -> bool
        requires { IsReady S.Site self.old.site self.old.log self.old.clerk self.old.effects self.old.stopped }
    {
        if self.stopped {
            return false;
        }
        self.clerk.force_log(&mut self.log, &mut self.site).is_ok()
    }
}
