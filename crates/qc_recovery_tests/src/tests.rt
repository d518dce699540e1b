ghost use Rattle.std.specs.Prelude.{◌≡◌, true, IfOk};
ghost use Rattle.qc_base.specs.Spelling.{is_fact, is_line};

use crate::{add_fact, add_line};
use crm_log::{CrmLog, read_line};
use qc_base::{Fact, LogLine};
use qc_catalogue::sample;
use qc_creation::create;
use qc_journal::{Journal, read_fact};
use qc_machine::OpenError;
use qc_memsite::{CallKind, Choice, MemSite, Trip};
use qc_recovery::{Parts, recover};
use qc_site::{Site, SiteFile};
use std::alloc::Global;
use std::test::Fail;

// Sent of Orders, Order, at moment 0: Place("bolt", 4) with id 1, and Notify(2) with id 2.
const SENT_PLACE: &[u8] =
    b"\x02\x00\x00\x00\x00\x00\x00\x00\x01\x00\x00\x00\x00\x00\x00\x00\x00\x00\x24\x06Orders\x05Order\x01\x05Place\x02\x01\x04bolt\x02\x00\x00\x00\x00\x00\x00\x00\x04";

const SENT_NOTIFY: &[u8] =
    b"\x02\x00\x00\x00\x00\x00\x00\x00\x02\x00\x00\x00\x00\x00\x00\x00\x00\x00\x1f\x06Orders\x05Order\x01\x06Notify\x01\x02\x00\x00\x00\x00\x00\x00\x00\x02";

// Played of message 2 in attempt 2, normal, at moment 0.
const PLAYED_2: &[u8] =
    b"\x03\x00\x00\x00\x00\x00\x00\x00\x02\x00\x00\x00\x00\x00\x00\x00\x02\x01\x00\x00\x00\x00\x00\x00\x00\x00";

const SENT: &[&[u8]] = &[SENT_PLACE, SENT_NOTIFY];

const PLAYED: &[&[u8]] = &[SENT_PLACE, SENT_NOTIFY, PLAYED_2];

const PLAYED_TWICE: &[&[u8]] = &[SENT_PLACE, SENT_NOTIFY, PLAYED_2, PLAYED_2];

// Attempt 1 on message 1, with the early row drawer from 100 to 104.
const EARLY: &[&[u8]] = &[
    b"\x01\x00\x00\x00\x00\x00\x00\x00\x01\x00\x00\x00\x00\x00\x00\x00\x01",
    b"\x02\x00\x00\x00\x00\x00\x00\x00\x01\x04till\x07",
    b"\x03\x00\x00\x00\x00\x00\x00\x00\x01\x04till\x00\x00\x00\x01\x00\x06drawer\x00\x00\x00\x00\x00\x00\x00\x64\x00\x00\x00\x00\x00\x00\x00\x68",
];

// Attempt 2 on message 2, with the late row letters from 0 to 2.
const LATE: &[&[u8]] = &[
    b"\x01\x00\x00\x00\x00\x00\x00\x00\x02\x00\x00\x00\x00\x00\x00\x00\x02",
    b"\x02\x00\x00\x00\x00\x00\x00\x00\x02\x04post\x07",
    b"\x03\x00\x00\x00\x00\x00\x00\x00\x02\x04post\x00\x00\x00\x01\x00\x07letters\x00\x00\x00\x00\x00\x00\x00\x00\x00\x00\x00\x00\x00\x00\x00\x02",
];

// Attempt 5 on message 1 is begun, and attempt 7 done that was not.
const BEGUN_5: &[&[u8]] = &[
    b"\x01\x00\x00\x00\x00\x00\x00\x00\x05\x00\x00\x00\x00\x00\x00\x00\x01",
];

const DONE_7: &[&[u8]] = &[b"\x05\x00\x00\x00\x00\x00\x00\x00\x07"];

fn fact_in(alloc: Global, bytes: &[u8]) -> Result<Fact, Fail>
    ensures { IfOk result (λ fact. is_fact fact ≡ true) }
{
    match read_fact(alloc, bytes)? {
        Some((fact, _)) => Ok(fact),
        None => Err(Fail::from("no fact")),
    }
}

fn line_in(alloc: Global, bytes: &[u8]) -> Result<LogLine, Fail>
    ensures { IfOk result (λ line. is_line line ≡ true) }
{
    match read_line(alloc, bytes)? {
        Some((line, _)) => Ok(line),
        None => Err(Fail::from("no line")),
    }
}

fn add_facts(alloc: Global, site: &mut MemSite, facts: &[&'static [u8]]) -> Result<(), Fail> {
    for bytes in facts {
        let fact = fact_in(alloc, bytes)?;
        add_fact(alloc, site, &fact)?;
    }
    Ok(())
}

fn add_lines(alloc: Global, site: &mut MemSite, lines: &[&'static [u8]]) -> Result<(), Fail> {
    for bytes in lines {
        let line = line_in(alloc, bytes)?;
        add_line(alloc, site, &line)?;
    }
    Ok(())
}

// A site of the sample catalogue with these facts behind it.
fn site_of(alloc: Global, facts: &[&'static [u8]]) -> Result<MemSite, Fail> {
    let mut site = MemSite::make(alloc)?;
    create(alloc, &mut site, sample().as_bytes())?;
    add_facts(alloc, &mut site, facts)?;
    Ok(site)
}

// Attempt 1 was cut short when its row was put.
fn early_site(alloc: Global) -> Result<MemSite, Fail> {
    let mut site = site_of(alloc, SENT)?;
    add_lines(alloc, &mut site, EARLY)?;
    if site.row_put(b"till", b"drawer", 104).is_err() {
        return Err(Fail::from("no drawer"));
    }
    Ok(site)
}

// The amounts of the two rows.
fn rows_of(site: &mut MemSite) -> Option<(u64, u64)> {
    let drawer = site.row_get(b"till", b"drawer").ok()?;
    let letters = site.row_get(b"post", b"letters").ok()?;
    Some((drawer, letters))
}

// What a recovery tells of attempts: the number of each, whether it was committed, and how many notices there were.
type Told = (u64, bool, usize);

fn has_told(parts: &Parts, all: &[Told]) -> bool {
    if parts.recovered.len() != all.len() {
        return false;
    }
    for place in 0..parts.recovered.len() {
        if place < all.len() {
            let one = &parts.recovered[place];
            let (attempt, committed, notices) = all[place];
            if one.attempt != attempt || one.committed != committed {
                return false;
            }
            if one.notices.as_slice().len() != notices {
                return false;
            }
        }
    }
    true
}

// The greatest number of an attempt where a recovery tells these.
fn tells(alloc: Global, site: &mut MemSite, all: &[Told]) -> Option<u64> {
    match recover(alloc, site) {
        Ok(parts) => {
            if has_told(&parts, all) {
                Some(parts.attempt)
            } else {
                None
            }
        }
        Err(_) => None,
    }
}

// Why a recovery ended.
fn error_of(alloc: Global, site: &mut MemSite) -> Option<OpenError> {
    match recover(alloc, site) {
        Ok(_) => None,
        Err(error) => Some(error),
    }
}

// Where a recovery finds damage: in the journal (0) or in the log of compensations (1), at this offset.
fn damage_of(alloc: Global, site: &mut MemSite) -> Option<(u8, u64)> {
    match error_of(alloc, site)? {
        OpenError::Damaged(damage) => match damage.file {
            SiteFile::Journal => Some((0, damage.at)),
            SiteFile::CrmLog => Some((1, damage.at)),
            SiteFile::Snap => None,
        },
        _ => None,
    }
}

#[test]
fn a_site_without_lines_has_nothing_to_recover(rt: HostRuntime) -> Result<(), Fail> {
    let alloc = rt.alloc();
    let mut site = site_of(alloc, PLAYED)?;
    assert_eq!(rt; tells(alloc, &mut site, &[]), Some(2));
    assert_eq!(rt; site.len(SiteFile::CrmLog).ok(), Some(17));
    assert_eq!(rt; rows_of(&mut site), Some((100, 0)));
    Ok(())
}

#[test]
fn an_attempt_that_was_not_played_is_aborted(rt: HostRuntime) -> Result<(), Fail> {
    let alloc = rt.alloc();
    let mut site = early_site(alloc)?;
    let before = site.len(SiteFile::CrmLog).ok().unwrap_or(0);
    assert_eq!(rt; tells(alloc, &mut site, &[(1, false, 3)]), Some(1));
    assert_eq!(rt; rows_of(&mut site), Some((100, 0)));
    // its line Done is a group of 18 bytes
    assert_eq!(rt; site.len(SiteFile::CrmLog).ok(), before.checked_add(18));
    // and it isn't told again
    assert_eq!(rt; tells(alloc, &mut site, &[]), Some(1));
    Ok(())
}

#[test]
fn an_attempt_that_was_played_is_committed(rt: HostRuntime) -> Result<(), Fail> {
    let alloc = rt.alloc();
    let mut site = site_of(alloc, PLAYED)?;
    add_lines(alloc, &mut site, LATE)?;
    assert_eq!(rt; tells(alloc, &mut site, &[(2, true, 3)]), Some(2));
    assert_eq!(rt; rows_of(&mut site), Some((100, 2)));
    assert_eq!(rt; tells(alloc, &mut site, &[]), Some(2));
    Ok(())
}

#[test]
fn attempts_are_told_in_rising_number(rt: HostRuntime) -> Result<(), Fail> {
    let alloc = rt.alloc();
    let mut site = site_of(alloc, PLAYED)?;
    add_lines(alloc, &mut site, BEGUN_5)?;
    add_lines(alloc, &mut site, LATE)?;
    add_lines(alloc, &mut site, EARLY)?;
    let all = [(1, false, 3), (2, true, 3), (5, false, 0)];
    assert_eq!(rt; tells(alloc, &mut site, &all), Some(5));
    assert_eq!(rt; rows_of(&mut site), Some((100, 2)));
    Ok(())
}

#[test]
fn a_line_that_may_not_follow_is_damage(rt: HostRuntime) -> Result<(), Fail> {
    let alloc = rt.alloc();
    let mut site = site_of(alloc, SENT)?;
    add_lines(alloc, &mut site, BEGUN_5)?;
    add_lines(alloc, &mut site, DONE_7)?;
    // behind the header and a group of 26 bytes
    assert_eq!(rt; damage_of(alloc, &mut site), Some((1, 47)));
    Ok(())
}

#[test]
fn damage_of_the_journal_comes_first(rt: HostRuntime) -> Result<(), Fail> {
    let alloc = rt.alloc();
    let mut site = site_of(alloc, PLAYED)?;
    let end = site.len(SiteFile::Journal).ok().unwrap_or(0);
    let mut damaged = site_of(alloc, PLAYED_TWICE)?;
    add_lines(alloc, &mut damaged, DONE_7)?;
    // the entry stands behind the gate at the end before, and behind the length of its group
    assert_eq!(rt;
        damage_of(alloc, &mut damaged),
        Some((0, end.saturating_add(4)))
    );
    Ok(())
}

// A site whose file of this kind begins with another byte.
fn spoiled(alloc: Global, file: SiteFile) -> Result<MemSite, Fail> {
    let mut site = early_site(alloc)?;
    if site.write_at(file, 0, b"X").is_err() || site.sync(file).is_err() {
        return Err(Fail::from("no write"));
    }
    Ok(site)
}

#[test]
fn both_headers_are_looked_at(rt: HostRuntime) -> Result<(), Fail> {
    let alloc = rt.alloc();
    let mut journal = spoiled(alloc, SiteFile::Journal)?;
    assert_eq!(rt; error_of(alloc, &mut journal), Some(OpenError::NotMade));
    let mut log = spoiled(alloc, SiteFile::CrmLog)?;
    assert_eq!(rt; error_of(alloc, &mut log), Some(OpenError::NotMade));
    Ok(())
}

#[test]
fn a_site_without_a_catalogue_is_told_before_its_lines(rt: HostRuntime) -> Result<(), Fail> {
    let alloc = rt.alloc();
    let mut site = MemSite::make(alloc)?;
    if Journal::make(&mut site).is_err() || CrmLog::make(&mut site).is_err() {
        return Err(Fail::from("no logs"));
    }
    add_lines(alloc, &mut site, DONE_7)?;
    assert_eq!(rt; error_of(alloc, &mut site), Some(OpenError::NoCatalogue));
    Ok(())
}

// Whether a recovery fails that stops at this call, and what a recovery of this image then leaves in the rows.
fn stopped_at(
    alloc: Global,
    kind: CallKind,
    choice: Choice,
) -> Result<(bool, Option<(u64, u64)>), Fail> {
    let mut site = early_site(alloc)?;
    let mut plan = Vec::new(alloc);
    plan.push(Trip {
        kind,
        nth: 1,
        stop: true,
    })?;
    site.set_plan(plan);
    let failed = error_of(alloc, &mut site) == Some(OpenError::SiteFault);
    let mut image = site.crash_image(alloc, choice)?;
    if tells(alloc, &mut image, &[(1, false, 3)]).is_none() {
        return Ok((failed, None));
    }
    Ok((failed, rows_of(&mut image)))
}

#[test]
fn a_recovery_that_was_stopped_is_made_again(rt: HostRuntime) -> Result<(), Fail> {
    let alloc = rt.alloc();
    let at_put = CallKind::RowPut;
    let all = (true, Some((100, 0)));
    assert_eq!(rt; stopped_at(alloc, at_put, Choice::Old)?, all);
    assert_eq!(rt; stopped_at(alloc, at_put, Choice::New)?, all);
    assert_eq!(rt; stopped_at(alloc, at_put, Choice::Flip)?, all);
    let at_done = CallKind::Write(SiteFile::CrmLog);
    assert_eq!(rt; stopped_at(alloc, at_done, Choice::New)?, all);
    Ok(())
}
