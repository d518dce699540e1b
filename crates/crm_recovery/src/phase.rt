// The phase of one attempt: all memory that it takes, and then its delivery, which takes none.
ghost use Rattle.std.specs.Prelude.{◌≡◌, ◌+◌, ◌≤◌, ◌++◌, ℕ, [], length, map, flat_map, vec_len, vec_capacity, OnOk, IfOk, IfSome, option_map, All};
ghost use Rattle.qc_base.specs.LogLines.{has_phase, notices_to, unforgotten};
ghost use Rattle.crm_driver.specs.Puts.{MakesPuts};
ghost use Rattle.crm_recovery.specs.Tellings.{phase_flag, heard_by, heard_in, plans, plan_of, new_plan, plan_notices, plan_puts, notices_in, IsReady};

use crate::records::unforgotten;
use crate::telling::Telling;
use crm_driver::{RowCompensator, abort, commit};
use qc_base::{LogLine, NoMemory, Notice};
use qc_catalogue::{Catalogue, Resource};
use qc_site::{Failed, Site};
use std::alloc::Global;

const COMMIT: u8 = 2;

const ABORT: u8 = 4;

// Whether phases have the commit phase, or the abort phase.
fn has_phase(phases: u8, committed: bool) -> bool
    ensures { result ≡ has_phase (phase_flag committed) phases }
{
    if committed {
        (phases / COMMIT) % 2 == 1
    } else {
        (phases / ABORT) % 2 == 1
    }
}

// The catalogue's resource that a line registers for the phase of an attempt.
fn heard_by<'a>(
    catalogue: &'a Catalogue,
    attempt: u64,
    committed: bool,
    line: &LogLine,
) -> Option<&'a Resource>
    ensures { option_map (λ r. r.now) result ≡ heard_by catalogue.now attempt committed line.now }
{
    match line {
        LogLine::Registered(own, name, phases) => {
            if *own != attempt {
                return None;
            }
            if !has_phase(*phases, committed) {
                return None;
            }
            catalogue.resource(name.as_bytes())
        }
        _ => None,
    }
}

// A resource's new compensator, with the records of an attempt that aren't forgotten.
fn telling_of(
    alloc: Global,
    lines: &[LogLine],
    attempt: u64,
    resource: &Resource,
) -> Result<Telling, NoMemory>
    ensures { IfOk result (λ t. plan_of t
        ≡ new_plan resource.now (unforgotten lines.now attempt resource.now.name)) }
{
    let records = unforgotten(alloc, lines, attempt, &resource.name)?;
    let Some(room) = records.len().checked_add(2) else {
        return Err(NoMemory);
    };
    let compensator = RowCompensator::over(alloc, resource, room)?;
    Ok(Telling {
        name: resource.name,
        records,
        compensator,
    })
}

/// What each resource is to be told that is registered for the phase of an attempt, in order of registration.
pub(crate) fn tellings_of(
    alloc: Global,
    catalogue: &Catalogue,
    lines: &[LogLine],
    attempt: u64,
    committed: bool,
) -> Result<Vec<Telling>, NoMemory>
    ensures { IfOk result (λ tellings. map plan_of tellings.items
        ≡ plans catalogue.now lines.now attempt committed) }
{
    let mut tellings = Vec::new(alloc);
    for line in lines {
        if let Some(resource) = heard_by(catalogue, attempt, committed, line) {
            let telling = telling_of(alloc, lines, attempt, resource)?;
            let Ok(()) = tellings.push(telling) else {
                return Err(NoMemory);
            };
        }
    }
    Ok(tellings)
}

// How many notices these tell, where that is a number of the machine.
fn notices_in(tellings: &[Telling]) -> Option<usize>
    ensures { IfSome result (λ n. n ≡ notices_in (map plan_of tellings.now)) }
{
    let mut count: usize = 0;
    for telling in tellings {
        let more = telling.records.len().checked_add(2)?;
        count = count.checked_add(more)?;
    }
    Some(count)
}

/// The room for all notices of a phase.
pub(crate) fn room_for(alloc: Global, tellings: &[Telling]) -> Result<Vec<Notice>, NoMemory>
    ensures { IfOk result (λ v. (v.items ≡ []) × (notices_in (map plan_of tellings.now) ≤ vec_capacity v)) }
{
    let Some(count) = notices_in(tellings) else {
        return Err(NoMemory);
    };
    Vec::with_capacity(alloc, count).map_err(|_| NoMemory)
}

// The phase of one resource, with the flag true.
fn deliver_to<S: Site>(telling: &mut Telling, site: &mut S, committed: bool) -> Result<(), Failed>
    requires ready { IsReady (plan_of telling.old) }
    ensures puts { MakesPuts S.Site (plan_puts committed (plan_of telling.old)) result site.old site.new }
    ensures heard { OnOk result (telling.new.compensator.heard ≡ heard_in committed telling.old.records.items) }
    ensures name { telling.new.name ≡ telling.old.name }
{
    let records = telling.records.as_slice();
    if committed {
        commit(&mut telling.compensator, site, records, true)
    } else {
        abort(&mut telling.compensator, site, records, true)
    }
}

// What a compensator heard goes to the end of the notices, which have room for it.
fn tell(telling: &Telling, notices: &mut Vec<Notice>)
    requires room { vec_len notices.old + length telling.now.compensator.heard ≤ vec_capacity notices.old }
    ensures told { notices.new.items ≡ notices.old.items
        ++ notices_to telling.now.name telling.now.compensator.heard }
    ensures len { vec_len notices.new ≡ vec_len notices.old + length telling.now.compensator.heard }
    ensures capacity { vec_capacity notices.new ≡ vec_capacity notices.old }
{
    for heard in telling.compensator.heard() {
        notices.push_reserved(Notice {
            resource: telling.name,
            heard: *heard,
        });
    }
}

// The phase of one resource, and what its compensator was told of it.
fn deliver_one<S: Site>(
    telling: &mut Telling,
    site: &mut S,
    committed: bool,
    notices: &mut Vec<Notice>,
) -> Result<(), Failed>
    requires ready { IsReady (plan_of telling.old) }
    requires room { vec_len notices.old + length telling.old.records.items + 2 ≤ vec_capacity notices.old }
    ensures puts { MakesPuts S.Site (plan_puts committed (plan_of telling.old)) result site.old site.new }
    ensures told { OnOk result (notices.new.items ≡ notices.old.items
        ++ plan_notices committed (plan_of telling.old)) }
    ensures len { OnOk result (vec_len notices.new
        ≡ vec_len notices.old + (length telling.old.records.items + 2)) }
    ensures capacity { OnOk result (vec_capacity notices.new ≡ vec_capacity notices.old) }
{
    deliver_to(telling, site, committed)?;
    tell(telling, notices);
    Ok(())
}

/// The phase of all these resources, in order. What their compensators were told goes to the end of the notices, which
/// have room for it.
pub(crate) fn deliver_all<S: Site>(
    tellings: &mut [Telling],
    site: &mut S,
    committed: bool,
    notices: &mut Vec<Notice>,
) -> Result<(), Failed>
    requires ready { All IsReady (map plan_of tellings.old) }
    requires room { vec_len notices.old + notices_in (map plan_of tellings.old) ≤ vec_capacity notices.old }
    ensures puts { MakesPuts S.Site (flat_map (plan_puts committed) (map plan_of tellings.old))
        result site.old site.new }
    ensures told { OnOk result (notices.new.items ≡ notices.old.items
        ++ flat_map (plan_notices committed) (map plan_of tellings.old)) }
{
    for place in 0..tellings.len() {
        deliver_one(&mut tellings[place], site, committed, notices)?;
    }
    Ok(())
}
