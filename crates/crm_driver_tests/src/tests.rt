// What compensators hear, answer and put.
use crate::Listener;
use crm_driver::{RowCompensator, abort, commit, prepare};
use qc_base::{Amount, Heard, LogRecord, Name, NoMemory, Text};
use qc_catalogue::{AmountRows, Resource};
use qc_memsite::{CallKind, MemSite, Trip};
use qc_site::{Failed, Site};
use std::alloc::Global;
use std::test::Fail;

// A record of the drawer.
fn record_of(seq: u32, key: &[u8], old: u64, new: u64) -> Result<LogRecord, Fail> {
    let (Some(key), Some(old), Some(new)) = (Text::read(key), Amount::new(old), Amount::new(new))
    else {
        return Err("no record")?;
    };
    Ok(LogRecord {
        seq,
        flags: 0,
        key,
        old,
        new,
    })
}

// The drawer goes from 100 to 105, to 104, and stays there.
fn three_records() -> Result<[LogRecord; 3], Fail> {
    Ok([
        record_of(1, b"drawer", 100, 105)?,
        record_of(2, b"drawer", 105, 104)?,
        record_of(3, b"drawer", 104, 104)?,
    ])
}

// A site with the drawer, of which the nth put fails.
fn site_with_a_drawer(alloc: Global, nth: u32) -> Result<MemSite, Fail> {
    let mut site = MemSite::make(alloc)?;
    site.row_make(b"till", b"drawer", 104)?;
    let mut plan = Vec::new(alloc);
    plan.push(Trip {
        kind: CallKind::RowPut,
        nth,
        stop: false,
    })?;
    site.set_plan(plan);
    Ok(site)
}

fn till() -> Result<Name, Fail> {
    let Some(name) = Name::read(b"till") else {
        return Err("no name")?;
    };
    Ok(name)
}

// What a listener hears of an abort in a recovery, where the nth put fails, and what the call answers.
fn aborted(
    alloc: Global,
    records: &[LogRecord],
    nth: u32,
) -> Result<(Listener, Result<(), Failed>), Fail> {
    let mut site = site_with_a_drawer(alloc, nth)?;
    let mut listener = Listener::over(alloc, &till()?, records.len() + 2)?;
    let answer = abort(&mut listener, &mut site, records, true);
    Ok((listener, answer))
}

#[test]
fn an_abort_that_fails_at_a_record_ends_there(rt: HostRuntime) -> Result<(), Fail> {
    let alloc = rt.alloc();
    let records = three_records()?;
    let whole = [
        Heard::BeginAbort(true),
        Heard::AbortRecord(3),
        Heard::AbortRecord(2),
        Heard::AbortRecord(1),
        Heard::EndAbort,
    ];
    let (listener, answer) = aborted(alloc, &records, 0)?;
    assert_eq!(rt; listener.heard(), whole.as_slice());
    assert_eq!(rt; answer, Ok(()));
    let (listener, answer) = aborted(alloc, &records, 2)?;
    assert_eq!(rt; listener.heard(), &whole[..3]);
    assert_eq!(rt; answer, Err(Failed));
    Ok(())
}

#[test]
fn a_listener_prepares_and_commits_by_its_own_rules(rt: HostRuntime) -> Result<(), Fail> {
    let alloc = rt.alloc();
    let records = [
        record_of(1, b"drawer", 1, 0)?,
        record_of(2, b"drawer", 0, 0)?,
    ];
    let mut site = site_with_a_drawer(alloc, 1)?;
    let mut listener = Listener::over(alloc, &till()?, 8)?;
    let mut forget = Vec::with_capacity(alloc, 2)?;
    assert!(rt; prepare(&mut listener, &records, &mut forget));
    assert_eq!(rt; forget.as_slice(), [1, 2].as_slice());
    commit(&mut listener, &mut site, &records, false)?;
    let heard = [
        Heard::BeginPrepare,
        Heard::PrepareRecord(1, true),
        Heard::PrepareRecord(2, true),
        Heard::EndPrepare(true),
        Heard::BeginCommit(false),
        Heard::CommitRecord(1),
        Heard::CommitRecord(2),
        Heard::EndCommit,
    ];
    assert_eq!(rt; listener.heard(), heard.as_slice());
    Ok(())
}

// A resource of the till.
fn resource_of(alloc: Global, early: bool, bounds: Option<(u64, u64)>) -> Result<Resource, Fail> {
    let bounds = match bounds {
        Some((low, high)) => match (Amount::new(low), Amount::new(high)) {
            (Some(low), Some(high)) => Some((low, high)),
            _ => return Err("no bounds")?,
        },
        None => None,
    };
    Ok(Resource {
        name: till()?,
        early,
        phases: 7,
        bounds,
        rows: AmountRows::over(Vec::new(alloc)),
    })
}

// Whether the compensator of a resource is ready after these records.
fn is_ready(alloc: Global, resource: &Resource, records: &[LogRecord]) -> Result<bool, NoMemory> {
    let mut comp = RowCompensator::over(alloc, resource, records.len() + 2)?;
    let mut forget = Vec::with_capacity(alloc, records.len()).map_err(|_| NoMemory)?;
    Ok(prepare(&mut comp, records, &mut forget))
}

#[test]
fn the_last_amount_of_each_row_lies_within_the_bounds(rt: HostRuntime) -> Result<(), Fail> {
    let alloc = rt.alloc();
    let records = [
        record_of(1, b"drawer", 100, 113)?,
        record_of(2, b"box", 5, 100)?,
        record_of(3, b"drawer", 113, 112)?,
    ];
    let table = [
        (None, true),
        (Some((100, 112)), true),
        (Some((100, 111)), false),
        (Some((101, 112)), false),
        (Some((113, 113)), false),
    ];
    for (bounds, expected) in table {
        let resource = resource_of(alloc, true, bounds)?;
        assert_eq!(rt; is_ready(alloc, &resource, &records)?, expected);
    }
    Ok(())
}

#[test]
fn a_record_with_equal_amounts_is_forgotten(rt: HostRuntime) -> Result<(), Fail> {
    let alloc = rt.alloc();
    let resource = resource_of(alloc, false, None)?;
    let mut comp = RowCompensator::over(alloc, &resource, 6)?;
    let mut forget = Vec::with_capacity(alloc, 3)?;
    assert!(rt; prepare(&mut comp, &three_records()?, &mut forget));
    assert_eq!(rt; forget.as_slice(), [3].as_slice());
    let heard = [
        Heard::BeginPrepare,
        Heard::PrepareRecord(1, false),
        Heard::PrepareRecord(2, false),
        Heard::PrepareRecord(3, true),
        Heard::EndPrepare(true),
    ];
    assert_eq!(rt; comp.heard(), heard.as_slice());
    assert_eq!(rt; comp.spare(), 1);
    Ok(())
}

// The drawer after both phases of a resource: after the commit phase, and then after the abort phase.
fn drawers(alloc: Global, early: bool, records: &[LogRecord]) -> Result<[u64; 2], Fail> {
    let mut site = site_with_a_drawer(alloc, 0)?;
    let resource = resource_of(alloc, early, None)?;
    let mut comp = RowCompensator::over(alloc, &resource, records.len() + 2)?;
    commit(&mut comp, &mut site, records, false)?;
    let committed = site.row_get(b"till", b"drawer")?;
    let mut comp = RowCompensator::over(alloc, &resource, records.len() + 2)?;
    abort(&mut comp, &mut site, records, false)?;
    Ok([committed, site.row_get(b"till", b"drawer")?])
}

#[test]
fn late_resources_put_in_commit_and_early_ones_in_abort(rt: HostRuntime) -> Result<(), Fail> {
    let alloc = rt.alloc();
    let records = [
        record_of(1, b"drawer", 100, 105)?,
        record_of(2, b"drawer", 105, 107)?,
        // no such row: the put is passed over
        record_of(3, b"box", 1, 2)?,
    ];
    assert_eq!(rt; drawers(alloc, false, &records)?, [107, 107]);
    assert_eq!(rt; drawers(alloc, true, &records)?, [104, 100]);
    Ok(())
}
