// Each unfinished attempt gets its phase, and then its Done.
ghost use Rattle.std.specs.Prelude.{◌≡◌, ◌+◌, ◌≤◌, ◌<◌, ◌∷◌, [], ℕ, true, length, OnOk, IfOk, IsErr, IsErrOf};
ghost use Rattle.std.specs.List.{list_any};
ghost use Rattle.qc_base.specs.LogLines.{unfinished as unfinished_attempts};
ghost use Rattle.qc_base.specs.Spelling.{is_attempt, spelled_line};
ghost use Rattle.qc_base.specs.declared.log_line.LogLine.{LogLine};
ghost use Rattle.qc_frame.specs.Calls.{LogStands};
ghost use Rattle.crm_history.specs.Legal.{is_committed};
ghost use Rattle.crm_recovery.specs.Settling.{done_group, done_groups, phase_puts, recoveries, recovery_of, settling_puts};
ghost use Rattle.crm_recovery.specs.Calls.{CanFinish, Finishes};
ghost use Rattle.crm_recovery.specs.Moments.{AddsDone, FinishesInTurn, finish_of, finishes};

use crate::error::FinishError;
use crate::phase::{deliver_all, room_for, tellings_of};
use crm_history::{Ended, is_committed};
use crm_log::{CrmLog, size_of_line, unfinished};
use qc_base::{LogLine, NoMemory, Notices, Recovered};
use qc_catalogue::Catalogue;
use qc_site::{Failed, Site};
use std::alloc::Global;

// Done of an attempt, as a group of its own.
fn write_done<S: Site>(log: &mut CrmLog, site: &mut S, attempt: u64) -> Result<(), Failed>
    requires stands { LogStands S.Site log.old.log site.old }
    requires ended { log.old.log.ended ≡ true }
    requires waits { log.old.log.payload ≡ [] }
    requires limits { is_attempt attempt ≡ true }
    requires room { length (spelled_line (LogLine.Done attempt)) + 4 ≤ log.old.log.spare }
    ensures finishes { Finishes S.Site [] (done_group attempt ∷ []) (IsErr result)
        result log.old site.old log.new site.new }
    ensures moments { AddsDone S.Site attempt result site.old site.new }
{
    // it is the site's CrmLog, and no other file changes
    let _ = log.length();
    log.stage_line(&LogLine::Done(attempt));
    log.force(site)
}

// The phase of one attempt, and then its Done. All memory is taken before the first put.
fn finish_one<S: Site>(
    alloc: Global,
    log: &mut CrmLog,
    site: &mut S,
    catalogue: &Catalogue,
    ended: &[Ended],
    lines: &[LogLine],
    attempt: u64,
) -> Result<Recovered, FinishError>
    requires stands { LogStands S.Site log.old.log site.old }
    requires ended { log.old.log.ended ≡ true }
    requires waits { log.old.log.payload ≡ [] }
    requires can { CanFinish catalogue.now ended.now lines.now }
    requires limits { is_attempt attempt ≡ true }
    ensures told { IfOk result (λ recovered. recovered ≡ recovery_of ended.now lines.now attempt) }
    ensures finishes { Finishes S.Site (phase_puts catalogue.now lines.now attempt (is_committed attempt ended.now))
        (done_group attempt ∷ []) (IsErrOf result FinishError.SiteFault)
        result log.old site.old log.new site.new }
    ensures moments { FinishesInTurn S.Site (finish_of catalogue.now ended.now lines.now attempt ∷ [])
        result site.old site.new }
{
    let committed = is_committed(ended, attempt);
    let mut tellings = tellings_of(alloc, catalogue, lines, attempt, committed)?;
    let mut notices = room_for(alloc, tellings.as_slice())?;
    log.reserve(alloc, size_of_line(&LogLine::Done(attempt)) + 4)?;
    deliver_all(tellings.as_mut_slice(), site, committed, &mut notices)?;
    write_done(log, site, attempt)?;
    Ok(Recovered {
        attempt,
        committed,
        notices: Notices::over(notices),
    })
}

/// Finishes each attempt that these lines leave unfinished, in rising number, and tells what its compensators were told
/// (docs/RULES.md, "Recovery").
///
/// An attempt gets the commit phase exactly where it was committed, otherwise the abort phase: each of its resources
/// that is registered for the phase, in order of registration, over its unforgotten records from the first on, with the
/// flag true. Then its Done is forced as a group of its own, before the next attempt's phase. A row that isn't there,
/// which no honest site of a catalogue lacks, is passed over.
///
/// The lines are those that were read of the log, which is at its end, with nothing waiting. A crash at any moment leaves
/// a front of this: whole attempts, and of the next one some of its puts and no Done. `SiteFault` comes only where the
/// site's count of faults rose: at a put, or at a force. After an error the log is opened again. The memory for an
/// attempt is taken before its first put.
pub fn finish_all<S: Site>(
    alloc: Global,
    log: &mut CrmLog,
    site: &mut S,
    catalogue: &Catalogue,
    ended: &[Ended],
    lines: &[LogLine],
) -> Result<Vec<Recovered>, FinishError>
    requires stands { LogStands S.Site log.old.log site.old }
    requires ended { log.old.log.ended ≡ true }
    requires waits { log.old.log.payload ≡ [] }
    requires can { CanFinish catalogue.now ended.now lines.now }
    ensures told { IfOk result (λ recovered. recovered.items ≡ recoveries ended.now lines.now) }
    ensures finishes { Finishes S.Site (settling_puts catalogue.now ended.now lines.now) (done_groups lines.now)
        (IsErrOf result FinishError.SiteFault) result log.old site.old log.new site.new }
    ensures moments { FinishesInTurn S.Site (finishes catalogue.now ended.now lines.now) result site.old site.new }
{
    let attempts = unfinished(alloc, lines)?;
    let mut recovered = Vec::with_capacity(alloc, attempts.len()).map_err(|_| NoMemory)?;
    for attempt in attempts.as_slice() {
        let one = finish_one(alloc, log, site, catalogue, ended, lines, *attempt)?;
        recovered.push_reserved(one);
    }
    Ok(recovered)
}
