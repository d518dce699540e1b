// The end of an attempt on a bench: votes, phase and Done.
ghost use Rattle.std.specs.Prelude.{◌≡◌, ◌+◌, ℕ, List, [], length, sum_by, true, vec_capacity, IfSome};
ghost use Rattle.std.specs.List.{list_all, list_any};
ghost use Rattle.std.specs.Str.{bytes_eq};
ghost use Rattle.qc_frame.specs.Calls.{LogStands};
ghost use Rattle.crm_clerk.specs.Staging.{HasRoomFor};
ghost use Rattle.qc_underway.proofs.Made.{is_made};
ghost use Rattle.qc_underway.specs.Compensators.{CanHear, IsOrderly, all_records, records_of};
ghost use Rattle.qc_underway_tests.specs.Bench.{IsReady};
ghost use Rattle.qc_underway_tests.specs.Closing.{AsksFrom};

use crate::bench::Bench;
use crm_clerk::Clerk;
use crm_log::CrmLog;
use qc_base::{Name, Notice};
use qc_catalogue::Catalogue;
use qc_site::Site;
use qc_underway::{Compensators, ask_all, deliver, finish, room_for_notices};
use std::alloc::Global;

/// What became of an attempt's end: the resource that isn't ready, what was heard, and whether the site failed.
#[derive(Debug, Drop)]
pub struct Ended {
    pub refuser: Option<Name>,
    pub notices: Vec<Notice>,
    pub failed: bool,
}

// How many records of these resources aren't forgotten.
fn count(clerk: &Clerk, registered: &[(Name, u8)]) -> Option<usize>
    ensures { IfSome result (λ n. n ≡ sum_by (λ (p : List ℕ × ℕ). length (records_of clerk.now p.0)) registered.now) }
{
    let mut total: usize = 0;
    for one in registered {
        total = total.checked_add(clerk.records(&one.0).len())?;
    }
    Some(total)
}

fn is_among(names: &[Name], resource: &Name) -> bool
    ensures { result ≡ list_any (λ n. bytes_eq n resource.now) names.now }
{
    names
        .iter()
        .any(|name| name.as_bytes() == resource.as_bytes())
}

fn is_one_of(catalogue: &Catalogue, names: &[Name], resource: &Name) -> bool
    ensures { result ≡ is_made catalogue.now names.now resource.now }
{
    is_among(names, resource) && catalogue.resource(resource.as_bytes()).is_some()
}

fn are_ours(catalogue: &Catalogue, names: &[Name], registered: &[(Name, u8)]) -> bool
    ensures { result ≡ list_all (λ (p : List ℕ × ℕ). is_made catalogue.now names.now p.0) registered.now }
{
    for one in registered {
        if !is_one_of(catalogue, names, &one.0) {
            return false;
        }
    }
    true
}

// What the phases of an attempt need, where its resources are among these; None where they aren't, or for want of
// memory.
fn set_aside(
    alloc: Global,
    catalogue: &Catalogue,
    names: &[Name],
    clerk: &Clerk,
    log: &mut CrmLog,
) -> Option<(Compensators, Vec<Notice>)>
    requires ended { log.old.log.ended ≡ true }
    requires nothing { log.old.log.payload ≡ [] }
    ensures { IfSome result (λ made. AsksFrom clerk.now log.old log.new made.0 made.1) }
{
    let registered = clerk.registered();
    if !are_ours(catalogue, names, registered) {
        return None;
    }
    let records = count(clerk, registered)?;
    if records > 64 {
        return None;
    }
    let Ok(told) = Compensators::make(alloc, catalogue, names, records) else {
        return None;
    };
    let Ok(notices) = room_for_notices(alloc, registered.len(), records) else {
        return None;
    };
    let Ok(()) = log.reserve(alloc, 132 * (records + 1)) else {
        return None;
    };
    Some((told, notices))
}

// Votes, the log's force, the phase and Done, in this order; it commits where it shall and all are ready.
fn close<S: Site>(
    site: &mut S,
    log: &mut CrmLog,
    clerk: Clerk,
    made: (Compensators, Vec<Notice>),
    commits: bool,
) -> Ended
    requires orderly { IsOrderly clerk }
    requires hears { CanHear 2 clerk made.0 made.1 }
    requires room { HasRoomFor (all_records clerk + 1) log.old }
    requires stands { LogStands S.Site log.old.log site.old }
{
    let mut clerk = clerk;
    let (mut told, mut notices) = made;
    let refuser = ask_all(&mut clerk, log, &mut told, &mut notices);
    let committed = commits && refuser.is_none();
    let delivered = deliver(&clerk, site, &mut told, &mut notices, committed);
    let failed = match delivered {
        Ok(()) => finish(clerk, log, site).is_err(),
        Err(_) => true,
    };
    Ended {
        refuser,
        notices,
        failed,
    }
}

impl<S: Site + Drop> Bench<S> {
    /// Forces the log and ends the attempt, whose resources are among these. None where they aren't, where the site
    /// had failed, or for want of memory.
    pub fn end(
        self,
        alloc: Global,
        catalogue: &Catalogue,
        names: &[Name],
        commits: bool,
    ) -> Option<(S, Ended)>
        requires { IsReady S.Site catalogue.now self.site self.log self.clerk self.attempt self.stopped }
    {
        if self.stopped {
            return None;
        }
        let mut site = self.site;
        let mut log = self.log;
        let mut clerk = self.clerk;
        let Ok(()) = clerk.force_log(&mut log, &mut site) else {
            return None;
        };
        let made = set_aside(alloc, catalogue, names, &clerk, &mut log)?;
        let ended = close(&mut site, &mut log, clerk, made, commits);
        Some((site, ended))
    }
}
