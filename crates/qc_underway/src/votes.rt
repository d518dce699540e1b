// The votes of an attempt's resources. No call takes memory.
ghost use Rattle.std.specs.Prelude.{◌≡◌, ◌+◌, ◌≤◌, length, map, filter, vec_len, vec_capacity};
ghost use Rattle.qc_base.specs.LogLines.{has_phase, notices_to, registrations};
ghost use Rattle.qc_base.specs.declared.log_line.LogRecord.{LogRecord};
ghost use Rattle.qc_site.specs.Image.{Image};
ghost use Rattle.qc_catalogue.specs.declared.catalogue.Catalogue.{Catalogue};
ghost use Rattle.crm_clerk.specs.Calls.{HasStaged};
ghost use Rattle.crm_clerk.specs.Staging.{HasRoomFor};
ghost use Rattle.qc_machine.specs.LogAndRows.{LogAndRows, lines_of};
ghost use Rattle.qc_machine.specs.Preparing.{prepared_all};
ghost use Rattle.qc_underway.specs.Compensators.{CanHear, Hears, IsMadeBy, IsOrderly, TellsMore, all_records, hears_more, kept_of, records_of};
ghost use Rattle.qc_underway.specs.Standing.{IsUnderway};
ghost use Rattle.qc_underway.specs.Votes.{Asks, AsksRegistered, CanForget, ForgetsSome, IsPrepared, as_registration, asked_heard, forgot_all};

use crate::compensators::{Compensators, Named, place_of, tell};
use crm_clerk::Clerk;
use crm_driver::prepare;
use crm_log::CrmLog;
use qc_base::{LogRecord, Name, Notice};

const PREPARE: u8 = 1;

// Whether phases have the prepare phase.
fn takes_votes(phases: u8) -> bool
    ensures { result ≡ has_phase 1 phases }
{
    (phases / PREPARE) % 2 == 1
}

// The prepare phase of one resource. The numbers of the records that are to be forgotten are then in `forget`.
fn ask(
    named: &mut Named,
    records: &[LogRecord],
    forget: &mut Vec<u32>,
    notices: &mut Vec<Notice>,
) -> bool
    requires calls { length records.now + 2 ≤ (kept_of named.old).state.spare }
    requires forget { length records.now ≤ vec_capacity forget.old }
    requires room { vec_len notices.old + (length records.now + 2) ≤ vec_capacity notices.old }
    ensures answer { result ≡ (kept_of named.old).state.rules.ready records.now }
    ensures named { kept_of named.new
        ≡ hears_more (asked_heard (kept_of named.old).state.rules records.now) records.now (kept_of named.old) }
    ensures forget { forget.new.items
        ≡ map (λ (r : LogRecord). r.seq) (filter (kept_of named.old).state.rules.forgets records.now) }
    ensures capacity { vec_capacity forget.new ≡ vec_capacity forget.old }
    ensures notices { TellsMore (notices_to named.old.name
        (asked_heard (kept_of named.old).state.rules records.now)) notices.old notices.new }
{
    let before = named.compensator.heard().len();
    forget.clear();
    let ready = prepare(&mut named.compensator, records, forget);
    tell(named, before, notices);
    ready
}

// The clerk forgets the records of a resource that have these numbers.
fn forget_all(clerk: &mut Clerk, log: &mut CrmLog, resource: &Name, seqs: &[u32])
    requires there { CanForget (records_of clerk.old resource.now) 1 seqs.now }
    requires room { HasRoomFor (length seqs.now) log.old }
    ensures { HasStaged (forgot_all clerk.old.attempt resource.now seqs.now) 0 clerk.old log.old clerk.new log.new }
{
    for seq in seqs {
        clerk.forget(log, resource, *seq);
    }
}

// A resource is asked.
fn ask_one(
    clerk: &mut Clerk,
    log: &mut CrmLog,
    told: &mut Compensators,
    notices: &mut Vec<Notice>,
    resource: &Name,
) -> bool
    requires orderly { IsOrderly clerk.old }
    requires hears { Hears 1 (length (records_of clerk.old resource.now)) resource.now told.old }
    requires log { HasRoomFor (length (records_of clerk.old resource.now)) log.old }
    requires room { vec_len notices.old + (length (records_of clerk.old resource.now) + 2) ≤ vec_capacity notices.old }
    ensures { Asks resource.now result told.old clerk.old log.old notices.old
        told.new clerk.new log.new notices.new }
{
    let Some(place) = place_of(&told.each, resource) else {
        return true;
    };
    let ready = ask(
        &mut told.each[place],
        clerk.records(resource),
        &mut told.forget,
        notices,
    );
    forget_all(clerk, log, resource, told.forget.as_slice());
    ready
}

// A resource is asked, where it is registered for the prepare phase.
fn ask_registered(
    clerk: &mut Clerk,
    log: &mut CrmLog,
    told: &mut Compensators,
    notices: &mut Vec<Notice>,
    registered: &(Name, u8),
) -> bool
    requires orderly { IsOrderly clerk.old }
    requires hears { Hears 1 (length (records_of clerk.old registered.now.0)) registered.now.0 told.old }
    requires log { HasRoomFor (length (records_of clerk.old registered.now.0)) log.old }
    requires room { vec_len notices.old + (length (records_of clerk.old registered.now.0) + 2)
        ≤ vec_capacity notices.old }
    ensures { AsksRegistered (as_registration registered.now) result told.old clerk.old log.old notices.old
        told.new clerk.new log.new notices.new }
{
    if !takes_votes(registered.1) {
        return true;
    }
    ask_one(clerk, log, told, notices, &registered.0)
}

/// Asks the resources that an attempt has registered for the prepare phase, in order of registration, up to the first
/// that isn't ready, and tells that one (docs/RULES.md, "Outcome"). The records that are answered forget are forgotten,
/// by a line of the log that waits, also where the resource isn't ready. What each resource hears goes to the end of
/// the notices. This takes no memory and makes no call of the site.
///
/// Compensators and notices have room for two phases of all registered resources, and keep room for one; the log has
/// room for a line for each record that isn't forgotten.
pub fn ask_all(
    clerk: &mut Clerk,
    log: &mut CrmLog,
    told: &mut Compensators,
    notices: &mut Vec<Notice>,
) -> Option<Name>
    requires orderly { IsOrderly clerk.old }
    requires hears { CanHear 2 clerk.old told.old notices.old }
    requires log { HasRoomFor (all_records clerk.old) log.old }
    ensures prepared { (c : Catalogue) → IsMadeBy c told.old
        → (o : LogAndRows) → (shown : Image) → IsUnderway shown log.old clerk.old o
        → IsPrepared (prepared_all c clerk.old.attempt (registrations (lines_of o) clerk.old.attempt) o)
        result notices.old.items notices.new.items shown log.new clerk.new }
    ensures forgets { ForgetsSome clerk.old log.old clerk.new log.new }
    ensures orderly { IsOrderly clerk.new }
    ensures hears { CanHear 1 clerk.new told.new notices.new }
    ensures made { (c : Catalogue) → IsMadeBy c told.old → IsMadeBy c told.new }
{
    for index in 0..clerk.registered().len() {
        let registered = clerk.registered()[index];
        if !ask_registered(clerk, log, told, notices, &registered) {
            return Some(registered.0);
        }
    }
    None
}
