// An attempt with its clerk, its log and its site.
ghost use Rattle.std.specs.Prelude.{◌≡◌, true, IfSome};
ghost use Rattle.qc_underway.specs.Standing.{has_phases};
ghost use Rattle.qc_underway_tests.specs.Bench.{IsReady};

use crm_clerk::Clerk;
use crm_log::CrmLog;
use crm_log_tests::log_at_end;
use qc_base::{Kind, Recording, Stage};
use qc_catalogue::Catalogue;
use qc_play::CallState;
use qc_site::{Failed, Site};
use qc_txn::{Attempt, effects_of, is_playable};
use qc_underway::run_next;
use std::alloc::Global;

/// An attempt with its clerk, its log and its site, and whether the site failed.
#[derive(Drop)]
pub struct Bench<S> {
    pub site: S,
    pub log: CrmLog,
    pub clerk: Clerk,
    pub attempt: Attempt,
    pub stopped: bool,
}

/// What became of a call: its number, or the step at which it failed; or the site failed; or no call was left.
#[derive(Clone, Copy, Debug, PartialEq, Eq)]
pub enum Answer {
    Ran(u8),
    FailedAt(u8),
    Stopped,
    Refused,
}

fn has_phases(catalogue: &Catalogue) -> bool
    ensures { result ≡ has_phases catalogue.now }
{
    catalogue
        .resources()
        .iter()
        .all(|resource| 1 <= resource.phases && resource.phases <= 7)
}

impl<S: Site + Drop> Bench<S> {
    /// The bench of attempt 1 on message 7 with this recording, over the log of this site; None where it can't be
    /// played, or has more than 64 effects.
    pub fn open(
        alloc: Global,
        site: S,
        catalogue: &Catalogue,
        recording: &Recording,
        state: CallState,
    ) -> Option<Bench<S>>
        ensures { IfSome result (λ b. IsReady S.Site catalogue.now b.site b.log b.clerk b.attempt b.stopped) }
    {
        if recording.calls.as_slice().len() > 64
            || !is_playable(catalogue, recording, Kind::Normal)
            || !has_phases(catalogue)
        {
            return None;
        }
        let effects = effects_of(catalogue, recording, Kind::Normal) as usize;
        if effects > 64 {
            return None;
        }
        if effects > state.room() {
            return None;
        }
        let mut site = site;
        let Ok((mut log, _)) = log_at_end(alloc, &mut site) else {
            return None;
        };
        let Ok(()) = log.reserve(alloc, 396 * effects) else {
            return None;
        };
        let Ok(clerk) = Clerk::begin(alloc, 1, 7, 2 * effects) else {
            return None;
        };
        let Ok(attempt) = Attempt::begin(alloc, catalogue, 7, 1, Kind::Normal, recording, state)
        else {
            return None;
        };
        Some(Bench {
            site,
            log,
            clerk,
            attempt,
            stopped: false,
        })
    }

    /// Runs the next call, where one is left and the site hasn't failed.
    pub fn next(&mut self, catalogue: &Catalogue) -> Answer
        requires { IsReady S.Site catalogue.now self.old.site self.old.log self.old.clerk self.old.attempt self.old.stopped }
        ensures { IsReady S.Site catalogue.now self.new.site self.new.log self.new.clerk self.new.attempt self.new.stopped }
    {
        if self.stopped {
            return Answer::Refused;
        }
        match self.attempt.stage() {
            Stage::Calls => {}
            _ => return Answer::Refused,
        }
        match run_next(
            &mut self.attempt,
            &mut self.clerk,
            &mut self.log,
            &mut self.site,
            catalogue,
        ) {
            Ok(Ok(number)) => Answer::Ran(number),
            Ok(Err(step)) => Answer::FailedAt(step),
            Err(Failed) => {
                self.stopped = true;
                Answer::Stopped
            }
        }
    }

    /// Makes all lines that wait one group of the log, and tells whether the site did it.
    pub fn force(&mut self, catalogue: &Catalogue) -> bool
        requires { IsReady S.Site catalogue.now self.old.site self.old.log self.old.clerk self.old.attempt self.old.stopped }
    {
        let _played_by = catalogue;
        if self.stopped {
            return false;
        }
        self.clerk.force_log(&mut self.log, &mut self.site).is_ok()
    }
}
