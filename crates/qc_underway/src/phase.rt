// The phase of an attempt, and its end. No call takes memory.
ghost use Rattle.std.specs.Prelude.{◌≡◌, ◌+◌, ◌≤◌, length, vec_len, vec_capacity, OnOk};
ghost use Rattle.qc_base.specs.LogLines.{has_phase, notices_to};
ghost use Rattle.qc_frame.specs.Calls.{LogStands};
ghost use Rattle.crm_clerk.specs.Staging.{HasRoomFor};
ghost use Rattle.crm_driver.specs.Puts.{MakesPuts};
ghost use Rattle.crm_recovery.specs.Tellings.{phase_flag};
ghost use Rattle.qc_underway.specs.Compensators.{CanHear, Hears, IsOrderly, TellsMore, hears_more, kept_of, records_of};
ghost use Rattle.qc_underway.specs.Phase.{DeliversOne, DeliversPhase, EndsAttempt, phase_heard, phase_order, rules_puts};
ghost use Rattle.qc_underway.specs.Votes.{as_registration};

use crate::compensators::{Compensators, Named, place_of, tell};
use crm_clerk::Clerk;
use crm_driver::{abort, commit};
use crm_log::CrmLog;
use qc_base::{LogRecord, Name, Notice};
use qc_site::{Failed, Site};

const COMMIT: u8 = 2;

const ABORT: u8 = 4;

// Whether phases have the commit phase, or the abort phase.
fn hears_phase(phases: u8, committed: bool) -> bool
    ensures { result ≡ has_phase (phase_flag committed) phases }
{
    if committed {
        (phases / COMMIT) % 2 == 1
    } else {
        (phases / ABORT) % 2 == 1
    }
}

// The phase of one resource, with the flag false.
fn deliver_to<S: Site>(
    named: &mut Named,
    site: &mut S,
    records: &[LogRecord],
    committed: bool,
) -> Result<(), Failed>
    requires calls { length records.now + 2 ≤ (kept_of named.old).state.spare }
    ensures puts { MakesPuts S.Site (rules_puts (kept_of named.old).state.rules committed records.now)
        result site.old site.new }
    ensures named { OnOk result (kept_of named.new
        ≡ hears_more (phase_heard committed records.now) (phase_order committed records.now) (kept_of named.old)) }
{
    if committed {
        commit(&mut named.compensator, site, records, false)
    } else {
        abort(&mut named.compensator, site, records, false)
    }
}

// The phase of one resource, and what its compensator heard of it.
fn deliver_one<S: Site>(
    named: &mut Named,
    site: &mut S,
    records: &[LogRecord],
    committed: bool,
    notices: &mut Vec<Notice>,
) -> Result<(), Failed>
    requires calls { length records.now + 2 ≤ (kept_of named.old).state.spare }
    requires room { vec_len notices.old + (length records.now + 2) ≤ vec_capacity notices.old }
    ensures puts { MakesPuts S.Site (rules_puts (kept_of named.old).state.rules committed records.now)
        result site.old site.new }
    ensures named { OnOk result (kept_of named.new
        ≡ hears_more (phase_heard committed records.now) (phase_order committed records.now) (kept_of named.old)) }
    ensures notices { OnOk result (TellsMore (notices_to named.old.name (phase_heard committed records.now))
        notices.old notices.new) }
{
    let before = named.compensator.heard().len();
    deliver_to(named, site, records, committed)?;
    tell(named, before, notices);
    Ok(())
}

// The phase of a resource, where it is registered for it.
fn deliver_registered<S: Site>(
    clerk: &Clerk,
    site: &mut S,
    told: &mut Compensators,
    notices: &mut Vec<Notice>,
    registered: &(Name, u8),
    committed: bool,
) -> Result<(), Failed>
    requires hears { Hears 1 (length (records_of clerk.now registered.now.0)) registered.now.0 told.old }
    requires room { vec_len notices.old + (length (records_of clerk.now registered.now.0) + 2)
        ≤ vec_capacity notices.old }
    ensures { DeliversOne S.Site clerk.now committed (as_registration registered.now) result
        told.old notices.old site.old told.new notices.new site.new }
{
    if !hears_phase(registered.1, committed) {
        return Ok(());
    }
    let Some(place) = place_of(&told.each, &registered.0) else {
        return Ok(());
    };
    deliver_one(
        &mut told.each[place],
        site,
        clerk.records(&registered.0),
        committed,
        notices,
    )
}

/// Delivers the commit phase, or the abort phase, to the resources that an attempt has registered for it, in order of
/// registration, over their records that aren't forgotten, with the flag false (docs/RULES.md, "Phase"). The rows are
/// put as the compensators make them; one that isn't there, which no honest site of a catalogue lacks, is passed over.
/// What each resource hears goes to the end of the notices. This takes no memory.
///
/// `Failed` comes only where the site's count of faults rose, at a put. The puts before it are made then, and the
/// compensators are of no more use.
///
/// Compensators and notices have room for a phase of all registered resources.
pub fn deliver<S: Site>(
    clerk: &Clerk,
    site: &mut S,
    told: &mut Compensators,
    notices: &mut Vec<Notice>,
    committed: bool,
) -> Result<(), Failed>
    requires orderly { IsOrderly clerk.now }
    requires hears { CanHear 1 clerk.now told.old notices.old }
    ensures { DeliversPhase S.Site clerk.now committed result
        told.old notices.old.items site.old notices.new.items site.new }
{
    for registered in clerk.registered() {
        deliver_registered(clerk, site, told, notices, registered, committed)?;
    }
    Ok(())
}

/// Ends an attempt: writes Done and forces it, with all that waits, where the attempt was opened, and does nothing
/// otherwise. The clerk is gone then. This takes no memory.
///
/// `Failed` comes only where the site's count of faults rose. What waited is gone then, and the log is opened again.
///
/// The log stands on the site, at its end, with room for one line.
pub fn finish<S: Site>(clerk: Clerk, log: &mut CrmLog, site: &mut S) -> Result<(), Failed>
    requires orderly { IsOrderly clerk }
    requires room { HasRoomFor 1 log.old }
    requires stands { LogStands S.Site log.old.log site.old }
    ensures { EndsAttempt S.Site clerk result log.old site.old log.new site.new }
{
    if clerk.registered().is_empty() {
        return Ok(());
    }
    clerk.finish(log);
    log.force(site)
}
