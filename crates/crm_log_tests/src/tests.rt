ghost use Rattle.std.specs.Prelude.{◌≡◌, true, IfOk};
ghost use Rattle.qc_base.specs.Spelling.{is_line};

use super::*;
use crm_log::{read_line, unfinished, write_line};
use qc_memsite::{CallKind, Choice, MemSite, Trip};
use qc_site::SiteFile;
use std::test::Fail;

const FILE: SiteFile = SiteFile::CrmLog;

// Attempt 1 is opened for message 7.
const OPENED: [u8; 17] = *b"\x01\x00\x00\x00\x00\x00\x00\x00\x01\x00\x00\x00\x00\x00\x00\x00\x07";

// Attempt 1 registers till for the commit and the abort phase.
const REGISTERED: [u8; 15] = *b"\x02\x00\x00\x00\x00\x00\x00\x00\x01\x04till\x06";

// Attempt 1 writes record 1 of till: drawer from 100 to 105.
const WRITTEN: [u8; 42] =
    *b"\x03\x00\x00\x00\x00\x00\x00\x00\x01\x04till\x00\x00\x00\x01\x00\x06drawer\
\x00\x00\x00\x00\x00\x00\x00\x64\x00\x00\x00\x00\x00\x00\x00\x69";

// Attempt 1 forgets record 1 of till.
const FORGOT: [u8; 18] = *b"\x04\x00\x00\x00\x00\x00\x00\x00\x01\x04till\x00\x00\x00\x01";

// Attempt 1 is done.
const DONE: [u8; 9] = *b"\x05\x00\x00\x00\x00\x00\x00\x00\x01";

// Attempt 1 is opened and registers till, as one group: its gate, the payload's length, and two entries.
const GROUP: [u8; 45] = *b"\x01\x00\x00\x00\x28\
\x00\x00\x00\x11\x01\x00\x00\x00\x00\x00\x00\x00\x01\x00\x00\x00\x00\x00\x00\x00\x07\
\x00\x00\x00\x0f\x02\x00\x00\x00\x00\x00\x00\x00\x01\x04till\x06";

// The line that these bytes begin with, and the length of its spelling.
fn line_in(alloc: Global, bytes: &[u8]) -> Result<(LogLine, usize), Fail>
    ensures { IfOk result (λ r. is_line r.0 ≡ true) }
{
    let Some(read) = read_line(alloc, bytes)? else {
        return Err("no line")?;
    };
    Ok(read)
}

#[test]
fn a_line_is_written_as_it_is_read(rt: HostRuntime) -> Result<(), Fail> {
    let alloc = rt.alloc();
    let lines = [
        &OPENED[..],
        &REGISTERED[..],
        &WRITTEN[..],
        &FORGOT[..],
        &DONE[..],
    ];
    for bytes in lines {
        let (line, size) = line_in(alloc, bytes)?;
        assert_eq!(rt; size, bytes.len());
        assert_eq!(rt; size_of_line(&line), bytes.len());
        assert_eq!(rt; write_line(alloc, &line)?.as_slice(), bytes);
    }
    assert!(rt; read_line(alloc, &WRITTEN[..41])?.is_none());
    let mut longer = DONE.to_vec(alloc)?;
    longer.push(0xff)?;
    let (_, size) = line_in(alloc, &longer)?;
    assert_eq!(rt; size, 9);
    Ok(())
}

// Whether the bytes with one of them changed begin with no line.
fn refused(alloc: Global, bytes: &[u8], at: usize, byte: u8) -> Result<bool, Fail> {
    let mut changed = bytes.to_vec(alloc)?;
    if at < changed.len() {
        changed[at] = byte;
    }
    Ok(read_line(alloc, &changed)?.is_none())
}

#[test]
fn bytes_past_a_limit_are_no_line(rt: HostRuntime) -> Result<(), Fail> {
    let alloc = rt.alloc();
    let table = [
        // the tag, the attempt
        (&OPENED[..], 0, 0),
        (&OPENED[..], 0, 6),
        (&OPENED[..], 1, 0x80),
        (&OPENED[..], 8, 0),
        // the name, the phases
        (&REGISTERED[..], 9, 0),
        (&REGISTERED[..], 10, b'_'),
        (&REGISTERED[..], 14, 0),
        (&REGISTERED[..], 14, 8),
        // the number, the flags, the key, the amounts
        (&WRITTEN[..], 17, 0),
        (&WRITTEN[..], 18, 1),
        (&WRITTEN[..], 19, 0),
        (&WRITTEN[..], 26, 1),
        (&WRITTEN[..], 34, 1),
    ];
    for (bytes, at, byte) in table {
        assert!(rt; refused(alloc, bytes, at, byte)?, "byte {byte} at {at}");
    }
    assert!(rt; read_line(alloc, b"")?.is_none());
    Ok(())
}

// Adds the lines that these bytes spell to the site's log, as one group.
fn add_group(alloc: Global, site: &mut MemSite, one: &[u8], other: &[u8]) -> Result<(), Fail> {
    let (mut log, _) = log_at_end(alloc, site)?;
    let (first, _) = line_in(alloc, one)?;
    let (second, _) = line_in(alloc, other)?;
    add_two(alloc, &mut log, site, &first, &second)?;
    Ok(())
}

// A site whose log has a group of two lines.
fn site_with_a_group(alloc: Global) -> Result<MemSite, Fail> {
    let mut site = MemSite::make(alloc)?;
    CrmLog::make(&mut site)?;
    add_group(alloc, &mut site, &OPENED, &REGISTERED)?;
    Ok(site)
}

#[test]
fn lines_are_read_as_they_were_added(rt: HostRuntime) -> Result<(), Fail> {
    let alloc = rt.alloc();
    let mut site = site_with_a_group(alloc)?;
    let mut group = [0; 45];
    assert_eq!(rt; site.read(FILE, 16, &mut group)?, 45);
    assert_eq!(rt; group, GROUP);
    add_group(alloc, &mut site, &WRITTEN, &DONE)?;
    let (log, lines) = log_at_end(alloc, &mut site)?;
    // 17 bytes without lines, a group of 45 and one of 64
    assert_eq!(rt; log.length(), 126);
    let mut text = Vec::new(alloc);
    let mut places = Vec::new(alloc);
    for (at, line) in lines.iter() {
        places.push(*at)?;
        text.extend_from_slice(&spelled(alloc, line)?)?;
    }
    assert_eq!(rt; places.as_slice(), [21, 42, 66, 112].as_slice());
    let mut all = OPENED.to_vec(alloc)?;
    all.extend_from_slice(&REGISTERED)?;
    all.extend_from_slice(&WRITTEN)?;
    all.extend_from_slice(&DONE)?;
    assert_eq!(rt; text, all);
    Ok(())
}

// The tag and the attempt of a line that was read.
fn spelled(alloc: Global, line: &LogLine) -> Result<Vec<u8>, Fail> {
    for bytes in [
        &OPENED[..],
        &REGISTERED[..],
        &WRITTEN[..],
        &FORGOT[..],
        &DONE[..],
    ] {
        let (known, _) = line_in(alloc, bytes)?;
        if known == *line {
            return Ok(bytes.to_vec(alloc)?);
        }
    }
    Err("another line")?
}

// What the opening answers where a byte of a log with one group is another.
fn opened_with(alloc: Global, at: u64, byte: u8) -> Result<Option<LogError>, Fail> {
    let mut site = site_with_a_group(alloc)?;
    if at < site.len(FILE)? {
        site.write_at(FILE, at, &[byte])?;
    }
    Ok(log_at_end(alloc, &mut site).err())
}

#[test]
fn damage_is_named_by_its_entry(rt: HostRuntime) -> Result<(), Fail> {
    let alloc = rt.alloc();
    assert_eq!(rt; opened_with(alloc, 0, 0)?, Some(LogError::NotMade));
    // the tag of the first line and of the second
    assert_eq!(rt; opened_with(alloc, 25, 0)?, Some(LogError::Damaged(21)));
    assert_eq!(rt; opened_with(alloc, 46, 0)?, Some(LogError::Damaged(42)));
    // the length of the second entry: bytes are left over, or wanting
    assert_eq!(rt; opened_with(alloc, 45, 0x0e)?, Some(LogError::Damaged(60)));
    assert_eq!(rt; opened_with(alloc, 45, 0x10)?, Some(LogError::Damaged(42)));
    // a gate that is closed ends the log
    assert_eq!(rt; opened_with(alloc, 16, 0)?, None);
    Ok(())
}

// How many lines the three kinds of image have where the force of a second group stops at this call.
fn force_stopped(alloc: Global, kind: CallKind, nth: u32) -> Result<[usize; 3], Fail> {
    let mut site = site_with_a_group(alloc)?;
    let mut plan = Vec::new(alloc);
    plan.push(Trip {
        kind,
        nth,
        stop: true,
    })?;
    site.set_plan(plan);
    let (mut log, _) = log_at_end(alloc, &mut site)?;
    let (first, _) = line_in(alloc, &WRITTEN)?;
    let (second, _) = line_in(alloc, &DONE)?;
    let _ = add_two(alloc, &mut log, &mut site, &first, &second);
    let mut counts = [0; 3];
    let mut place = 0;
    for choice in [Choice::Old, Choice::New, Choice::Flip] {
        let mut image = site.crash_image(alloc, choice)?;
        let (_, lines) = log_at_end(alloc, &mut image)?;
        if place < 3 {
            counts[place] = lines.len();
            place += 1;
        }
    }
    Ok(counts)
}

#[test]
fn a_force_that_is_stopped_leaves_the_group_whole_or_not_at_all(
    rt: HostRuntime,
) -> Result<(), Fail> {
    let alloc = rt.alloc();
    let table = [
        (CallKind::Write(FILE), 1, [2, 2, 2]),
        (CallKind::Sync(FILE), 2, [2, 2, 2]),
        (CallKind::Write(FILE), 2, [2, 2, 2]),
        (CallKind::Sync(FILE), 3, [2, 4, 2]),
        (CallKind::RowPut, 1, [4, 4, 4]),
    ];
    for (kind, nth, counts) in table {
        assert_eq!(rt; force_stopped(alloc, kind, nth)?, counts);
    }
    Ok(())
}

// What the opening answers where the site fails at this call.
fn failed_at(alloc: Global, kind: CallKind) -> Result<Option<LogError>, Fail> {
    let mut site = site_with_a_group(alloc)?;
    let mut plan = Vec::new(alloc);
    plan.push(Trip {
        kind,
        nth: 1,
        stop: false,
    })?;
    site.set_plan(plan);
    Ok(log_at_end(alloc, &mut site).err())
}

#[test]
fn a_site_that_fails_is_told(rt: HostRuntime) -> Result<(), Fail> {
    let alloc = rt.alloc();
    for kind in [
        CallKind::Sync(FILE),
        CallKind::Len(FILE),
        CallKind::Read(FILE),
    ] {
        assert_eq!(rt; failed_at(alloc, kind)?, Some(LogError::SiteFault));
    }
    Ok(())
}

#[test]
fn attempts_that_are_opened_and_not_done_are_unfinished(rt: HostRuntime) -> Result<(), Fail> {
    let alloc = rt.alloc();
    let lines = [
        LogLine::Opened(9, 1),
        LogLine::Opened(2, 7),
        LogLine::Done(9),
        LogLine::Opened(5, 8),
        LogLine::Opened(2, 7),
        LogLine::Done(11),
    ];
    assert_eq!(rt; unfinished(alloc, &lines)?.as_slice(), [2, 5].as_slice());
    assert!(rt; unfinished(alloc, &[])?.is_empty());
    Ok(())
}
