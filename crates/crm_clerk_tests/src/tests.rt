use super::*;
use crm_clerk::{Clerk, ClerkError};
use crm_log::CrmLog;
use crm_log_tests::log_at_end;
use qc_base::{Amount, LogLine, LogRecord, Name, Text};
use qc_memsite::{CallKind, MemSite, Trip};
use qc_site::SiteFile;
use std::alloc::Global;
use std::test::Fail;

fn name(bytes: &[u8]) -> Result<Name, Fail> {
    Ok(Name::read(bytes).ok_or("no name")?)
}

fn text(bytes: &[u8]) -> Result<Text, Fail> {
    Ok(Text::read(bytes).ok_or("no text")?)
}

fn amount(n: u64) -> Result<Amount, Fail> {
    Ok(Amount::new(n).ok_or("no amount")?)
}

// A site with a log without lines.
fn made_site(alloc: Global) -> Result<MemSite, Fail> {
    let mut site = MemSite::make(alloc)?;
    CrmLog::make(&mut site)?;
    Ok(site)
}

fn seqs(alloc: Global, records: &[LogRecord]) -> Result<Vec<u32>, Fail> {
    let mut seqs = Vec::new(alloc);
    for entry in records {
        seqs.push(entry.seq)?;
    }
    Ok(seqs)
}

// The lines that the log of a site spells.
fn lines_of(alloc: Global, site: &mut MemSite) -> Result<Vec<LogLine>, Fail> {
    let (_, read) = log_at_end(alloc, site)?;
    let mut lines = Vec::new(alloc);
    for next in read.iter() {
        lines.push(next.1)?;
    }
    Ok(lines)
}

#[test]
fn the_last_record_is_forgotten_once(rt: HostRuntime) -> Result<(), Fail> {
    let alloc = rt.alloc();
    let till = name(b"till")?;
    let post = name(b"post")?;
    let drawer = text(b"drawer")?;
    let one = LogRecord {
        seq: 1,
        flags: 0,
        key: drawer,
        old: amount(100)?,
        new: amount(105)?,
    };
    let two = LogRecord {
        seq: 2,
        flags: 0,
        key: drawer,
        old: amount(105)?,
        new: amount(108)?,
    };
    let mut desk = Desk::open(alloc, made_site(alloc)?)?;
    assert_eq!(rt; desk.register(&till, 6), Ok(()));
    assert_eq!(rt; desk.write(&till, &drawer, one.old, one.new), Ok(1));
    assert_eq!(rt; desk.write(&till, &drawer, two.old, two.new), Ok(2));
    assert_eq!(rt; desk.clerk.records(&till), [one, two].as_slice());
    assert_eq!(rt; desk.forget_last(&till), Ok(()));
    assert_eq!(rt; desk.clerk.records(&till), [one].as_slice());
    assert_eq!(rt; desk.forget_last(&till), Err(ClerkError::NothingToForget));
    assert_eq!(rt;
        desk.write(&post, &drawer, one.old, one.new),
        Err(ClerkError::NotRegistered)
    );
    assert_eq!(rt; desk.clerk.records(&till), [one].as_slice());
    desk.force()?;
    let lines = [
        LogLine::Opened(1, 7),
        LogLine::Registered(1, till, 6),
        LogLine::Written(1, till, one),
        LogLine::Written(1, till, two),
        LogLine::Forgot(1, till, 2),
    ];
    assert_eq!(rt;
        lines_of(alloc, &mut desk.site)?.as_slice(),
        lines.as_slice()
    );
    Ok(())
}

#[test]
fn numbers_go_on_after_a_forget(rt: HostRuntime) -> Result<(), Fail> {
    let alloc = rt.alloc();
    let till = name(b"till")?;
    let drawer = text(b"drawer")?;
    let zero = amount(0)?;
    let mut desk = Desk::open(alloc, made_site(alloc)?)?;
    assert_eq!(rt; desk.register(&till, 7), Ok(()));
    assert_eq!(rt; desk.write(&till, &drawer, zero, zero), Ok(1));
    assert_eq!(rt; desk.write(&till, &drawer, zero, zero), Ok(2));
    assert_eq!(rt; desk.forget_last(&till), Ok(()));
    assert_eq!(rt; desk.write(&till, &drawer, zero, zero), Ok(3));
    assert_eq!(rt;
        seqs(alloc, desk.clerk.records(&till))?.as_slice(),
        [1, 3].as_slice()
    );
    assert!(rt; desk.forget(&till, 1));
    assert!(rt; !desk.forget(&till, 1));
    assert_eq!(rt;
        seqs(alloc, desk.clerk.records(&till))?.as_slice(),
        [3].as_slice()
    );
    assert_eq!(rt; desk.forget_last(&till), Ok(()));
    assert!(rt; desk.clerk.records(&till).is_empty());
    Ok(())
}

#[test]
fn resources_are_told_in_order_of_registration(rt: HostRuntime) -> Result<(), Fail> {
    let alloc = rt.alloc();
    let till = name(b"till")?;
    let post = name(b"post")?;
    let drawer = text(b"drawer")?;
    let zero = amount(0)?;
    let mut desk = Desk::open(alloc, made_site(alloc)?)?;
    assert_eq!(rt; desk.register(&till, 6), Ok(()));
    assert_eq!(rt; desk.register(&post, 2), Ok(()));
    assert_eq!(rt; desk.register(&till, 1), Err(ClerkError::AlreadyRegistered));
    assert_eq!(rt; desk.clerk.registered(), [(till, 6), (post, 2)].as_slice());
    assert_eq!(rt; desk.write(&post, &drawer, zero, zero), Ok(1));
    assert_eq!(rt; desk.write(&till, &drawer, zero, zero), Ok(1));
    assert_eq!(rt; desk.write(&post, &drawer, zero, zero), Ok(2));
    assert_eq!(rt; desk.forget_last(&till), Ok(()));
    assert!(rt; desk.clerk.records(&till).is_empty());
    assert_eq!(rt;
        seqs(alloc, desk.clerk.records(&post))?.as_slice(),
        [1, 2].as_slice()
    );
    assert_eq!(rt; desk.clerk.room(), 5);
    Ok(())
}

#[test]
fn a_refusal_writes_no_line(rt: HostRuntime) -> Result<(), Fail> {
    let alloc = rt.alloc();
    let till = name(b"till")?;
    let drawer = text(b"drawer")?;
    let zero = amount(0)?;
    let mut desk = Desk::open(alloc, made_site(alloc)?)?;
    assert_eq!(rt; desk.forget_last(&till), Err(ClerkError::NotRegistered));
    assert_eq!(rt;
        desk.write(&till, &drawer, zero, zero),
        Err(ClerkError::NotRegistered)
    );
    assert!(rt; desk.clerk.registered().is_empty());
    assert!(rt; desk.clerk.records(&till).is_empty());
    desk.force()?;
    assert!(rt; lines_of(alloc, &mut desk.site)?.is_empty());
    Ok(())
}

#[test]
fn a_site_that_fails_is_told(rt: HostRuntime) -> Result<(), Fail> {
    let alloc = rt.alloc();
    let till = name(b"till")?;
    let mut site = made_site(alloc)?;
    let mut plan = Vec::new(alloc);
    plan.push(Trip {
        kind: CallKind::Write(SiteFile::CrmLog),
        nth: 1,
        stop: false,
    })?;
    site.set_plan(plan);
    let mut desk = Desk::open(alloc, site)?;
    assert_eq!(rt; desk.register(&till, 7), Ok(()));
    assert!(rt; desk.force().is_err());
    assert!(rt; lines_of(alloc, &mut desk.site)?.is_empty());
    Ok(())
}

#[test]
fn room_past_the_numbers_of_records_is_want_of_memory(rt: HostRuntime) -> Result<(), Fail> {
    let alloc = rt.alloc();
    assert!(rt; Clerk::begin(alloc, 1, 7, 4_294_967_296).is_err());
    assert_eq!(rt; Clerk::begin(alloc, 1, 7, 3)?.room(), 3);
    Ok(())
}

#[test]
fn done_ends_an_attempt_that_is_opened(rt: HostRuntime) -> Result<(), Fail> {
    let alloc = rt.alloc();
    let till = name(b"till")?;
    let lines = [
        LogLine::Opened(1, 7),
        LogLine::Registered(1, till, 6),
        LogLine::Done(1),
    ];
    let mut desk = Desk::open(alloc, made_site(alloc)?)?;
    assert_eq!(rt; desk.register(&till, 6), Ok(()));
    let mut site = desk.finish()?;
    assert_eq!(rt; lines_of(alloc, &mut site)?.as_slice(), lines.as_slice());
    let desk = Desk::open(alloc, made_site(alloc)?)?;
    let mut site = desk.finish()?;
    assert!(rt; lines_of(alloc, &mut site)?.is_empty());
    Ok(())
}
