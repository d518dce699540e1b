ghost use Rattle.std.specs.Prelude.{◌≡◌, true, IfSome};
ghost use Rattle.std.specs.List.{list_all};
ghost use Rattle.qc_catalogue.specs.Rows.{has_its_phases};

use crate::bytes::{Told, log_of};
use crate::recover;
use crm_history::Ended;
use crm_recovery::each_catalogue_can_be_finished;
use qc_base::{Heard, Recovered};
use qc_catalogue::{Catalogue, sample};
use qc_frame::LogError;
use qc_memsite::{CallKind, Choice, MemSite, Trip};
use qc_site::{Site, SiteFile};
use std::alloc::Global;
use std::test::Fail;

const FILE: SiteFile = SiteFile::CrmLog;

// Four messages were sent. Attempt 2 was committed.
const SENT: u64 = 4;

const ENDED: [Ended; 1] = [Ended {
    attempt: 2,
    id: 4,
    committed: true,
}];

// Attempt 1 changes the early row twice, and attempt 2 the late one, of which a change was forgotten.
const EARLY: &[Told] = &[
    Told::Opened(1, 1),
    Told::Registered(1, "till", 7),
    Told::Written(1, "till", 1, "drawer", 100, 104),
];

const EARLY_MORE: &[Told] = &[Told::Written(1, "till", 2, "drawer", 104, 107)];

const LATE: &[Told] = &[
    Told::Opened(2, 4),
    Told::Registered(2, "post", 7),
    Told::Written(2, "post", 1, "letters", 0, 9),
    Told::Forgot(2, "post", 1),
    Told::Written(2, "post", 2, "letters", 0, 5),
];

// The sample's catalogue: till is early with the row drawer, post is late with the row letters.
fn sample_read(alloc: Global) -> Option<Catalogue>
    ensures { IfSome result (λ c. list_all has_its_phases c.resources ≡ true) }
{
    each_catalogue_can_be_finished();
    Catalogue::read(alloc, sample().as_bytes()).ok()
}

// A site with this log, and the rows with these amounts.
fn site_of(alloc: Global, groups: &[&[Told]], drawer: u16, letters: u16) -> Option<MemSite> {
    let mut site = MemSite::make(alloc).ok()?;
    let file = log_of(alloc, groups)?;
    site.write_at(FILE, 0, &file).ok()?;
    site.sync(FILE).ok()?;
    site.row_make(b"till", b"drawer", u64::from(drawer)).ok()?;
    site.row_make(b"post", b"letters", u64::from(letters)).ok()?;
    Some(site)
}

// The amounts of the two rows.
fn rows_of(site: &mut MemSite) -> Option<(u64, u64)> {
    let drawer = site.row_get(b"till", b"drawer").ok()?;
    let letters = site.row_get(b"post", b"letters").ok()?;
    Some((drawer, letters))
}

// The length of the log.
fn length_of(site: &mut MemSite) -> Option<u64> {
    site.len(FILE).ok()
}

// What a recovery of the site tells. None is want of memory of the test.
fn recovered(alloc: Global, site: &mut MemSite) -> Option<Result<Vec<Recovered>, LogError>> {
    let catalogue = sample_read(alloc)?;
    Some(recover(alloc, site, &catalogue, SENT, &ENDED))
}

// Whether an attempt was told these, of one resource.
fn was_told(told: &Recovered, attempt: u64, committed: bool, name: &str, heard: &[Heard]) -> bool {
    let notices = told.notices.as_slice();
    if told.attempt != attempt || told.committed != committed || notices.len() != heard.len() {
        return false;
    }
    for place in 0..notices.len() {
        if place < heard.len() {
            if notices[place].resource.as_bytes() != name.as_bytes() {
                return false;
            }
            if notices[place].heard != heard[place] {
                return false;
            }
        }
    }
    true
}

// Whether a recovery tells of these attempts alone, each of one resource.
fn tells(
    alloc: Global,
    site: &mut MemSite,
    all: &[(u64, bool, &'static str, &'static [Heard])],
) -> Option<bool> {
    let Ok(told) = recovered(alloc, site)? else {
        return Some(false);
    };
    if told.len() != all.len() {
        return Some(false);
    }
    for place in 0..told.len() {
        if place < all.len() {
            let (attempt, committed, name, heard) = all[place];
            if !was_told(&told[place], attempt, committed, name, heard) {
                return Some(false);
            }
        }
    }
    Some(true)
}

const ABORTED: &[Heard] = &[
    Heard::BeginAbort(true),
    Heard::AbortRecord(1),
    Heard::EndAbort,
];

const ABORTED_BOTH: &[Heard] = &[
    Heard::BeginAbort(true),
    Heard::AbortRecord(2),
    Heard::AbortRecord(1),
    Heard::EndAbort,
];

const COMMITTED: &[Heard] = &[
    Heard::BeginCommit(true),
    Heard::CommitRecord(2),
    Heard::EndCommit,
];

#[test]
fn an_early_row_has_its_old_amount_back(rt: HostRuntime) -> Result<(), Fail> {
    let alloc = rt.alloc();
    let mut site = site_of(alloc, &[EARLY], 104, 0).ok_or("no site")?;
    let all = [(1, false, "till", ABORTED)];
    assert_eq!(rt; tells(alloc, &mut site, &all), Some(true));
    assert_eq!(rt; rows_of(&mut site), Some((100, 0)));
    // and then nothing is left
    assert_eq!(rt; tells(alloc, &mut site, &[]), Some(true));
    Ok(())
}

#[test]
fn two_records_of_a_row_are_put_back_in_reverse(rt: HostRuntime) -> Result<(), Fail> {
    let alloc = rt.alloc();
    let mut site = site_of(alloc, &[EARLY, EARLY_MORE], 107, 0).ok_or("no site")?;
    let all = [(1, false, "till", ABORTED_BOTH)];
    assert_eq!(rt; tells(alloc, &mut site, &all), Some(true));
    assert_eq!(rt; rows_of(&mut site), Some((100, 0)));
    Ok(())
}

#[test]
fn a_late_row_is_put_by_the_commit_and_a_forgotten_record_is_not(
    rt: HostRuntime,
) -> Result<(), Fail> {
    let alloc = rt.alloc();
    let mut site = site_of(alloc, &[LATE], 100, 0).ok_or("no site")?;
    let all = [(2, true, "post", COMMITTED)];
    assert_eq!(rt; tells(alloc, &mut site, &all), Some(true));
    assert_eq!(rt; rows_of(&mut site), Some((100, 5)));
    Ok(())
}

#[test]
fn attempts_are_finished_in_rising_number(rt: HostRuntime) -> Result<(), Fail> {
    let alloc = rt.alloc();
    let mut site = site_of(alloc, &[LATE, EARLY], 104, 0).ok_or("no site")?;
    let before = length_of(&mut site).ok_or("no length")?;
    let all = [(1, false, "till", ABORTED), (2, true, "post", COMMITTED)];
    assert_eq!(rt; tells(alloc, &mut site, &all), Some(true));
    assert_eq!(rt; rows_of(&mut site), Some((100, 5)));
    // one group of 18 bytes for each Done
    assert_eq!(rt; length_of(&mut site), before.checked_add(36));
    let mut group = [0; 36];
    let _ = site.read(FILE, before.saturating_sub(1), &mut group);
    let done = *b"\x01\x00\x00\x00\x0d\x00\x00\x00\x09\x05\x00\x00\x00\x00\x00\x00\x00\x01\
\x01\x00\x00\x00\x0d\x00\x00\x00\x09\x05\x00\x00\x00\x00\x00\x00\x00\x02";
    assert_eq!(rt; group, done);
    Ok(())
}

// The rows of an image of a site that fails at this call of a recovery, before the image is recovered and after it, and
// whether that tells as it is told without a fault.
fn stopped_at(
    alloc: Global,
    kind: CallKind,
    nth: u32,
) -> Option<(bool, (u64, u64), bool, (u64, u64))> {
    let mut site = site_of(alloc, &[EARLY], 104, 0)?;
    let mut plan = Vec::new(alloc);
    plan.push(Trip {
        kind,
        nth,
        stop: true,
    })
    .ok()?;
    site.set_plan(plan);
    let failed = is_fault(recovered(alloc, &mut site)?);
    let mut image = site.crash_image(alloc, Choice::New).ok()?;
    let before = rows_of(&mut image)?;
    let told = tells(alloc, &mut image, &[(1, false, "till", ABORTED)])?;
    let after = rows_of(&mut image)?;
    Some((failed, before, told, after))
}

fn is_fault(answer: Result<Vec<Recovered>, LogError>) -> bool {
    match answer {
        Err(LogError::SiteFault) => true,
        _ => false,
    }
}

#[test]
fn a_recovery_that_was_stopped_is_done_again(rt: HostRuntime) -> Result<(), Fail> {
    let alloc = rt.alloc();
    // at the first put, and at the first write of Done's group
    let at_put = stopped_at(alloc, CallKind::RowPut, 1);
    assert_eq!(rt; at_put, Some((true, (104, 0), true, (100, 0))));
    let at_done = stopped_at(alloc, CallKind::Write(FILE), 1);
    assert_eq!(rt; at_done, Some((true, (100, 0), true, (100, 0))));
    Ok(())
}

// The offset of the damage of a log with these groups.
fn damage_in(alloc: Global, groups: &[&[Told]]) -> Option<u64> {
    let mut site = site_of(alloc, groups, 100, 0)?;
    match recovered(alloc, &mut site)? {
        Err(LogError::Damaged(at)) => Some(at),
        _ => None,
    }
}

#[test]
fn a_line_that_may_not_follow_is_damage(rt: HostRuntime) -> Result<(), Fail> {
    let alloc = rt.alloc();
    // Opened takes 21 bytes, and stands at 21 behind the header and the group's head
    let no_record = [Told::Opened(1, 1), Told::Forgot(1, "till", 1)];
    assert_eq!(rt; damage_in(alloc, &[&no_record]), Some(42));
    let done_twice = [Told::Opened(1, 1), Told::Done(1), Told::Done(1)];
    assert_eq!(rt; damage_in(alloc, &[&done_twice]), Some(55));
    let wrong_number = [
        Told::Opened(1, 1),
        Told::Registered(1, "till", 7),
        Told::Written(1, "till", 2, "drawer", 100, 104),
    ];
    assert_eq!(rt; damage_in(alloc, &[&wrong_number]), Some(61));
    let next_group = [Told::Done(2)];
    assert_eq!(rt;
        damage_in(alloc, &[&[Told::Opened(1, 1)], &next_group]),
        Some(47)
    );
    Ok(())
}

#[test]
fn a_log_without_lines_has_nothing_to_finish(rt: HostRuntime) -> Result<(), Fail> {
    let alloc = rt.alloc();
    let mut site = site_of(alloc, &[], 100, 0).ok_or("no site")?;
    assert_eq!(rt; tells(alloc, &mut site, &[]), Some(true));
    assert_eq!(rt; rows_of(&mut site), Some((100, 0)));
    assert_eq!(rt; length_of(&mut site), Some(17));
    Ok(())
}
