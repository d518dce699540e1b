// Each public call once, plans that fail calls, and the images of a moment.
use crate::*;
use qc_site::{Failed, RowFault, Site, SiteFile};
use std::alloc::Global;
use std::test::Fail;

// A write that is refused where it would leave a hole.
fn write(site: &mut MemSite, at: u64, bytes: &[u8]) -> Result<(), Failed> {
    if site.len(SiteFile::Journal)? < at {
        return Err(Failed);
    }
    site.write_at(SiteFile::Journal, at, bytes)
}

fn cut(site: &mut MemSite, len: u64) -> Result<(), Failed> {
    if site.len(SiteFile::Journal)? < len {
        return Err(Failed);
    }
    site.cut(SiteFile::Journal, len)
}

// The first eight bytes of the journal.
fn journal(alloc: Global, site: &mut MemSite) -> Result<Vec<u8>, Fail> {
    let mut bytes = Vec::from_slice(alloc, &[0; 8])?;
    let count = site.read(SiteFile::Journal, 0, &mut bytes)?;
    bytes.truncate(count);
    Ok(bytes)
}

#[test]
fn a_site_reads_what_was_written(rt: HostRuntime) -> Result<(), Fail> {
    let alloc = rt.alloc();
    let mut site = MemSite::make(alloc)?;
    write(&mut site, 0, b"abcdef")?;
    write(&mut site, 2, b"xy")?;
    write(&mut site, 6, b"")?;
    cut(&mut site, 5)?;
    site.sync(SiteFile::Journal)?;
    let bytes = journal(alloc, &mut site)?;
    assert_eq!(rt; bytes.as_slice(), b"abxye".as_slice());
    assert_eq!(rt; site.len(SiteFile::Snap)?, 0);
    assert_eq!(rt; site.reads(SiteFile::Journal), [(0, 5)].as_slice());
    assert_eq!(rt; site.starved(), 0);
    Ok(())
}

#[test]
fn a_row_is_made_read_and_put(rt: HostRuntime) -> Result<(), Fail> {
    let mut site = MemSite::make(rt.alloc())?;
    site.row_make(b"till", b"drawer", 100)?;
    site.row_put(b"till", b"drawer", 104)?;
    assert_eq!(rt; site.row_get(b"till", b"drawer")?, 104);
    assert_eq!(rt; site.row_get(b"till", b"box"), Err(RowFault::NoRow));
    assert_eq!(rt; site.row_put(b"till", b"box", 1), Err(RowFault::NoRow));
    Ok(())
}

const KINDS: [CallKind; 18] = [
    CallKind::Len(SiteFile::Journal),
    CallKind::Len(SiteFile::CrmLog),
    CallKind::Len(SiteFile::Snap),
    CallKind::Read(SiteFile::Journal),
    CallKind::Read(SiteFile::CrmLog),
    CallKind::Read(SiteFile::Snap),
    CallKind::Write(SiteFile::Journal),
    CallKind::Write(SiteFile::CrmLog),
    CallKind::Write(SiteFile::Snap),
    CallKind::Cut(SiteFile::Journal),
    CallKind::Cut(SiteFile::CrmLog),
    CallKind::Cut(SiteFile::Snap),
    CallKind::Sync(SiteFile::Journal),
    CallKind::Sync(SiteFile::CrmLog),
    CallKind::Sync(SiteFile::Snap),
    CallKind::RowMake,
    CallKind::RowGet,
    CallKind::RowPut,
];

// Makes a call of this kind, and says whether it was Ok.
fn is_ok(site: &mut MemSite, kind: CallKind) -> bool {
    match kind {
        CallKind::Len(file) => site.len(file).is_ok(),
        CallKind::Read(file) => site.read(file, 0, &mut [0; 4]).is_ok(),
        CallKind::Write(file) => site.write_at(file, 0, b"z").is_ok(),
        CallKind::Cut(file) => site.cut(file, 0).is_ok(),
        CallKind::Sync(file) => site.sync(file).is_ok(),
        CallKind::RowMake => site.row_make(b"till", b"drawer", 7).is_ok(),
        CallKind::RowGet => site.row_get(b"till", b"drawer").is_ok(),
        CallKind::RowPut => site.row_put(b"till", b"drawer", 9).is_ok(),
    }
}

// A site with one row, and this plan.
fn planned(alloc: Global, kind: CallKind, stop: bool) -> Result<MemSite, Fail> {
    let mut site = MemSite::make(alloc)?;
    site.row_make(b"till", b"drawer", 5)?;
    let trip = Trip { kind, nth: 2, stop };
    site.set_plan(Vec::from_slice(alloc, &[trip])?);
    Ok(site)
}

#[test]
fn the_named_call_of_its_kind_fails(rt: HostRuntime) -> Result<(), Fail> {
    for kind in KINDS {
        let mut site = planned(rt.alloc(), kind, false)?;
        assert!(rt; is_ok(&mut site, kind));
        for other in KINDS {
            assert!(rt; other == kind || is_ok(&mut site, other));
        }
        assert!(rt; !is_ok(&mut site, kind));
        assert!(rt; is_ok(&mut site, kind));
    }
    Ok(())
}

#[test]
fn all_calls_after_a_stop_fail(rt: HostRuntime) -> Result<(), Fail> {
    for kind in KINDS {
        let mut site = planned(rt.alloc(), kind, true)?;
        assert!(rt; is_ok(&mut site, kind));
        assert!(rt; !is_ok(&mut site, kind));
        for other in KINDS {
            assert!(rt; !is_ok(&mut site, other));
        }
    }
    Ok(())
}

#[test]
fn a_failing_call_changes_nothing(rt: HostRuntime) -> Result<(), Fail> {
    let alloc = rt.alloc();
    for kind in [
        CallKind::Write(SiteFile::Journal),
        CallKind::Cut(SiteFile::Journal),
    ] {
        let mut site = planned(alloc, kind, false)?;
        write(&mut site, 0, b"a")?;
        cut(&mut site, 1)?;
        assert!(rt; !is_ok(&mut site, kind));
        let bytes = journal(alloc, &mut site)?;
        assert_eq!(rt; bytes.as_slice(), b"a".as_slice());
    }
    let mut site = planned(alloc, CallKind::RowPut, false)?;
    site.row_put(b"till", b"drawer", 6)?;
    assert!(rt; !is_ok(&mut site, CallKind::RowPut));
    assert_eq!(rt; site.row_get(b"till", b"drawer")?, 6);
    Ok(())
}

// What was done since the last sync of the journal, which held `abcd`.
#[derive(Clone, Copy)]
enum Done {
    Range,
    Byte,
    Cut,
    Longer,
}

fn unsynced(alloc: Global, done: Done) -> Result<MemSite, Fail> {
    let mut site = MemSite::make(alloc)?;
    write(&mut site, 0, b"abcd")?;
    site.sync(SiteFile::Journal)?;
    match done {
        Done::Range => write(&mut site, 1, b"xy")?,
        Done::Byte => write(&mut site, 1, b"x")?,
        Done::Cut => cut(&mut site, 2)?,
        Done::Longer => write(&mut site, 3, b"xy")?,
    }
    Ok(site)
}

#[test]
fn an_image_has_the_old_bytes_or_the_new_ones_or_these_turned(rt: HostRuntime) -> Result<(), Fail> {
    let alloc = rt.alloc();
    let cases: [(Done, Choice, &[u8]); 12] = [
        (Done::Range, Choice::Old, b"abcd"),
        (Done::Range, Choice::New, b"axyd"),
        (Done::Range, Choice::Flip, &[b'a', 135, 134, b'd']),
        (Done::Byte, Choice::Old, b"abcd"),
        (Done::Byte, Choice::New, b"axcd"),
        (Done::Byte, Choice::Flip, b"abcd"),
        (Done::Cut, Choice::Old, b"abcd"),
        (Done::Cut, Choice::New, b"ab"),
        (Done::Cut, Choice::Flip, b"ab"),
        (Done::Longer, Choice::Old, b"abcd"),
        (Done::Longer, Choice::New, b"abcxy"),
        (Done::Longer, Choice::Flip, &[b'a', b'b', b'c', 135, 134]),
    ];
    for (done, choice, expected) in cases {
        let mut image = unsynced(alloc, done)?.crash_image(alloc, choice)?;
        let bytes = journal(alloc, &mut image)?;
        assert_eq!(rt; bytes.as_slice(), expected);
    }
    Ok(())
}

#[test]
fn a_row_that_was_made_is_in_each_image(rt: HostRuntime) -> Result<(), Fail> {
    let alloc = rt.alloc();
    let mut site = MemSite::make(alloc)?;
    site.row_make(b"till", b"drawer", 100)?;
    site.row_put(b"till", b"drawer", 104)?;
    for choice in [Choice::Old, Choice::New, Choice::Flip] {
        let mut image = site.crash_image(alloc, choice)?;
        assert_eq!(rt; image.row_get(b"till", b"drawer")?, 104);
        assert_eq!(rt; image.row_get(b"till", b"box"), Err(RowFault::NoRow));
    }
    Ok(())
}
