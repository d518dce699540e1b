use crate::closing::Ended;
use crate::tests::{amount, bench_that_stops, name, recorded, seen_in, text};
use qc_base::{Arg, Args, Call, Calls, Heard, Name, NoMemory, Notice, Recording};
use qc_catalogue::{Catalogue, sample};
use qc_memsite::{CallKind, Choice, MemSite};
use qc_site::SiteFile;
use qc_underway::{Compensators, room_for_notices};
use std::alloc::Global;
use std::test::Fail;

fn placing(alloc: Global, bolts: u64) -> Result<Call, NoMemory> {
    let mut args = Vec::new(alloc);
    args.push(Arg::Text(text(b"bolt")?)).map_err(|_| NoMemory)?;
    args.push(Arg::Whole(amount(bolts)?)).map_err(|_| NoMemory)?;
    Ok(Call {
        method: name(b"Place")?,
        args: Args::over(args),
    })
}

// A recording of two calls that put the drawer, by so many bolts each.
fn placed_twice(alloc: Global, first: u64, second: u64) -> Result<Recording, NoMemory> {
    let mut calls = Vec::new(alloc);
    calls.push(placing(alloc, first)?).map_err(|_| NoMemory)?;
    calls.push(placing(alloc, second)?).map_err(|_| NoMemory)?;
    Ok(Recording {
        app: name(b"Orders")?,
        component: name(b"Order")?,
        calls: Calls::over(calls),
    })
}

fn resources() -> Result<[Name; 2], NoMemory> {
    Ok([name(b"till")?, name(b"post")?])
}

// The attempt of this recording, ended on a site that stops at the nth call of this kind, if n isn't 0.
fn ended(
    alloc: Global,
    recording: &Recording,
    commits: bool,
    kind: CallKind,
    nth: u32,
) -> Result<(MemSite, Ended), Fail> {
    let catalogue = Catalogue::read(alloc, sample().as_bytes()).map_err(|_| "no catalogue")?;
    let names = resources().map_err(|_| "no names")?;
    let mut bench = bench_that_stops(alloc, &catalogue, recording, kind, nth)?;
    bench.next(&catalogue);
    bench.next(&catalogue);
    match bench.end(alloc, &catalogue, names.as_slice(), commits) {
        Some(both) => Ok(both),
        None => Err("not ended")?,
    }
}

// Whether a resource isn't ready, whether the site failed, and what an image then has.
fn outcome(
    alloc: Global,
    recording: &Recording,
    commits: bool,
    kind: CallKind,
    nth: u32,
) -> Result<(bool, bool, (usize, u64, u64)), Fail> {
    let (site, ended) = ended(alloc, recording, commits, kind, nth)?;
    let image = seen_in(alloc, &site, Choice::Old)?;
    Ok((ended.refuser.is_some(), ended.failed, image))
}

fn heard(alloc: Global, recording: &Recording, commits: bool) -> Result<Vec<Notice>, Fail> {
    let (_, ended) = ended(alloc, recording, commits, CallKind::RowPut, 0)?;
    Ok(ended.notices)
}

// A drawer above 110 isn't ready. A record without a change is forgotten, ready or not.
#[test]
fn an_early_resource_is_put_back_where_it_aborts(rt: HostRuntime) -> Result<(), Fail> {
    let alloc = rt.alloc();
    let table = [
        (4, 3, true, (false, false, (5, 107, 0))),
        (4, 3, false, (false, false, (5, 100, 0))),
        (4, 12, true, (true, false, (5, 100, 0))),
        (0, 3, true, (false, false, (6, 103, 0))),
        (0, 12, true, (true, false, (6, 100, 0))),
    ];
    for (first, second, commits, left) in table {
        let place = placed_twice(alloc, first, second).map_err(|_| "no calls")?;
        assert_eq!(rt; outcome(alloc, &place, commits, CallKind::RowPut, 0)?, left);
    }
    Ok(())
}

#[test]
fn a_late_resource_is_put_where_it_commits(rt: HostRuntime) -> Result<(), Fail> {
    let alloc = rt.alloc();
    let notify = recorded(alloc, b"Order", b"Notify", b"", 2).map_err(|_| "no call")?;
    let table = [
        (true, (false, false, (4, 100, 2))),
        (false, (false, false, (4, 100, 0))),
    ];
    for (commits, left) in table {
        assert_eq!(rt;
            outcome(alloc, &notify, commits, CallKind::RowPut, 0)?,
            left
        );
    }
    Ok(())
}

// The calls put the drawer twice, the abort phase puts it back from the last record on.
#[test]
fn a_site_that_stops_leaves_the_attempt_open(rt: HostRuntime) -> Result<(), Fail> {
    let alloc = rt.alloc();
    let place = placed_twice(alloc, 4, 3).map_err(|_| "no calls")?;
    let table = [
        (3, (false, true, (4, 107, 0))),
        (4, (false, true, (4, 104, 0))),
        (5, (false, false, (5, 100, 0))),
    ];
    for (nth, left) in table {
        assert_eq!(rt; outcome(alloc, &place, false, CallKind::RowPut, nth)?, left);
    }
    Ok(())
}

// The row is put by then, and only Done is missing: three syncs come before its own two.
#[test]
fn a_log_that_stops_has_no_done(rt: HostRuntime) -> Result<(), Fail> {
    let alloc = rt.alloc();
    let notify = recorded(alloc, b"Order", b"Notify", b"", 2).map_err(|_| "no call")?;
    let table = [
        (4, (false, true, (3, 100, 2))),
        (5, (false, true, (3, 100, 2))),
        (6, (false, false, (4, 100, 2))),
    ];
    for (nth, left) in table {
        assert_eq!(rt;
            outcome(alloc, &notify, true, CallKind::Sync(SiteFile::CrmLog), nth)?,
            left
        );
    }
    Ok(())
}

#[test]
fn resources_hear_votes_and_phase_in_order(rt: HostRuntime) -> Result<(), Fail> {
    let alloc = rt.alloc();
    let resource = name(b"till").map_err(|_| "no name")?;
    let place = placed_twice(alloc, 0, 12).map_err(|_| "no calls")?;
    let told = [
        Heard::BeginPrepare,
        Heard::PrepareRecord(1, true),
        Heard::PrepareRecord(2, false),
        Heard::EndPrepare(false),
        Heard::BeginAbort(false),
        Heard::AbortRecord(2),
        Heard::EndAbort,
    ];
    let notices = told.map(|heard| Notice { resource, heard });
    assert_eq!(rt; heard(alloc, &place, true)?.as_slice(), notices.as_slice());
    Ok(())
}

#[test]
fn records_abort_from_the_last(rt: HostRuntime) -> Result<(), Fail> {
    let alloc = rt.alloc();
    let resource = name(b"till").map_err(|_| "no name")?;
    let place = placed_twice(alloc, 4, 3).map_err(|_| "no calls")?;
    let told = [
        Heard::BeginPrepare,
        Heard::PrepareRecord(1, false),
        Heard::PrepareRecord(2, false),
        Heard::EndPrepare(true),
        Heard::BeginAbort(false),
        Heard::AbortRecord(2),
        Heard::AbortRecord(1),
        Heard::EndAbort,
    ];
    let notices = told.map(|heard| Notice { resource, heard });
    assert_eq!(rt; heard(alloc, &place, false)?.as_slice(), notices.as_slice());
    Ok(())
}

#[test]
fn memory_that_is_not_there_is_wanted(rt: HostRuntime) -> Result<(), Fail> {
    let alloc = rt.alloc();
    let catalogue = Catalogue::read(alloc, sample().as_bytes()).map_err(|_| "no catalogue")?;
    let names = resources().map_err(|_| "no names")?;
    let table = [
        (4, true),
        (usize::MAX / 4, false),
        (usize::MAX / 2, false),
        (usize::MAX, false),
    ];
    for (records, made) in table {
        assert_eq!(rt;
            Compensators::make(alloc, &catalogue, names.as_slice(), records).is_ok(),
            made
        );
        assert_eq!(rt; room_for_notices(alloc, 2, records).is_ok(), made);
    }
    Ok(())
}
