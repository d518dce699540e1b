ghost use Rattle.std.specs.Prelude.{◌≡◌, true, IfOk};
ghost use Rattle.qc_base.specs.Spelling.{is_fact};

use super::*;
use qc_base::Kind;
use qc_journal::{read_fact, write_fact};
use qc_memsite::{CallKind, Choice, MemSite, Trip};
use std::test::Fail;

const FILE: SiteFile = SiteFile::Journal;

// Sent with id 1 at moment 0 of Orders, Order, Place("bolt", 4).
const SENT: [u8; 55] =
    *b"\x02\x00\x00\x00\x00\x00\x00\x00\x01\x00\x00\x00\x00\x00\x00\x00\x00\x00\x24\x06Orders\x05Order\x01\x05Place\x02\x01\x04bolt\x02\x00\x00\x00\x00\x00\x00\x00\x04";

// Its group: the gate, the payload's length, the entry's length and the fact.
const SENT_GROUP: [u8; 64] =
    *b"\x01\x00\x00\x00\x3b\x00\x00\x00\x37\x02\x00\x00\x00\x00\x00\x00\x00\x01\x00\x00\x00\x00\x00\x00\x00\x00\x00\x24\x06Orders\x05Order\x01\x05Place\x02\x01\x04bolt\x02\x00\x00\x00\x00\x00\x00\x00\x04";

// Played with id 1, attempt 1, normal, moment 0.
const PLAYED: [u8; 26] =
    *b"\x03\x00\x00\x00\x00\x00\x00\x00\x01\x00\x00\x00\x00\x00\x00\x00\x01\x01\x00\x00\x00\x00\x00\x00\x00\x00";

// Moved of message 7 to queue 3 of Orders at moment 0.
const MOVED: [u8; 27] =
    *b"\x05\x06Orders\x03\x00\x00\x00\x00\x00\x00\x00\x00\x00\x01\x00\x00\x00\x00\x00\x00\x00\x07";

// Switched of Orders on at moment 0.
const SWITCHED: [u8; 17] = *b"\x06\x06Orders\x01\x00\x00\x00\x00\x00\x00\x00\x00";

// The bytes of each entry with a `,` behind it, and of each group with a `;`, as a copy of the group has them.
fn add_text(alloc: Global, text: &mut Vec<u8>, groups: &[Group]) -> Result<(), Fail> {
    for group in groups {
        let copied = group.copy(alloc)?;
        for entry in copied.entries.as_slice() {
            text.extend_from_slice(entry.bytes.as_slice())?;
            text.push(b',')?;
        }
        text.push(b';')?;
    }
    Ok(())
}

// The groups of a log, or None where there is no log.
fn groups_of(alloc: Global, image: &mut MemSite) -> Result<Option<Vec<Group>>, Fail> {
    match open_at_end(alloc, image) {
        Ok((_, groups)) => Ok(Some(groups)),
        Err(LogError::NotMade) => Ok(None),
        Err(e) => Err(e)?,
    }
}

// What the three kinds of image have, each with a `|` behind it, and a `-` where there is no log.
fn text_of_images(alloc: Global, site: &MemSite) -> Result<Vec<u8>, Fail> {
    let mut text = Vec::new(alloc);
    for choice in [Choice::Old, Choice::New, Choice::Flip] {
        let mut image = site.crash_image(alloc, choice)?;
        let groups = groups_of(alloc, &mut image)?;
        match &groups {
            Some(groups) => add_text(alloc, &mut text, groups)?,
            None => text.push(b'-')?,
        }
        text.push(b'|')?;
    }
    Ok(text)
}

fn stop_at(alloc: Global, kind: CallKind, nth: u32) -> Result<Vec<Trip>, Fail> {
    let mut plan = Vec::new(alloc);
    plan.push(Trip {
        kind,
        nth,
        stop: true,
    })?;
    Ok(plan)
}

// A site whose log has one group.
fn site_with_a_group(alloc: Global) -> Result<MemSite, Fail> {
    let mut site = MemSite::make(alloc)?;
    Log::make(&mut site, FILE, &HEADER)?;
    let (mut log, _) = open_at_end(alloc, &mut site)?;
    add(alloc, &mut log, &mut site, b"one")?;
    Ok(site)
}

// The images where the force of a second group stops at this call. Opening makes the first sync.
fn force_stopped(alloc: Global, kind: CallKind, nth: u32) -> Result<Vec<u8>, Fail> {
    let mut site = site_with_a_group(alloc)?;
    site.set_plan(stop_at(alloc, kind, nth)?);
    let (mut log, _) = open_at_end(alloc, &mut site)?;
    let _ = add(alloc, &mut log, &mut site, b"two and more");
    text_of_images(alloc, &site)
}

#[test]
fn a_force_that_is_stopped_leaves_the_group_whole_or_not_at_all(
    rt: HostRuntime,
) -> Result<(), Fail> {
    let alloc = rt.alloc();
    let table = [
        (CallKind::Write(FILE), 1, "one,;|one,;|one,;|"),
        (CallKind::Sync(FILE), 2, "one,;|one,;|one,;|"),
        (CallKind::Write(FILE), 2, "one,;|one,;|one,;|"),
        (CallKind::Sync(FILE), 3, "one,;|one,;two and more,;|one,;|"),
        (
            CallKind::RowPut,
            1,
            "one,;two and more,;|one,;two and more,;|one,;two and more,;|",
        ),
    ];
    for (kind, nth, text) in table {
        assert_eq!(rt;
            force_stopped(alloc, kind, nth)?.as_slice(),
            text.as_bytes()
        );
    }
    Ok(())
}

// The images where the opening stops at this call, after the end gate was set to 7 or taken away.
fn opening_stopped(
    alloc: Global,
    missing: bool,
    kind: CallKind,
    nth: u32,
) -> Result<Vec<u8>, Fail> {
    let mut site = site_with_a_group(alloc)?;
    let end = site.len(FILE)?.checked_sub(1).ok_or("an empty file")?;
    if missing {
        site.cut(FILE, end)?;
    } else {
        site.write_at(FILE, end, &[7])?;
    }
    site.sync(FILE)?;
    site.set_plan(stop_at(alloc, kind, nth)?);
    let _ = open_at_end(alloc, &mut site);
    text_of_images(alloc, &site)
}

#[test]
fn closing_the_end_gate_keeps_the_groups(rt: HostRuntime) -> Result<(), Fail> {
    let alloc = rt.alloc();
    let table = [
        (CallKind::Sync(FILE), 1),
        (CallKind::Write(FILE), 1),
        (CallKind::Sync(FILE), 2),
        (CallKind::RowPut, 1),
    ];
    for (kind, nth) in table {
        let text = opening_stopped(alloc, false, kind, nth)?;
        assert_eq!(rt; text.as_slice(), b"one,;|one,;|one,;|".as_slice());
    }
    // without a byte behind it the group doesn't count
    for (kind, nth) in table {
        let text = opening_stopped(alloc, true, kind, nth)?;
        assert_eq!(rt; text.as_slice(), b"|||".as_slice());
    }
    Ok(())
}

// The images where making a log on an empty site stops at this call.
fn making_stopped(alloc: Global, kind: CallKind, nth: u32) -> Result<Vec<u8>, Fail> {
    let mut site = MemSite::make(alloc)?;
    site.set_plan(stop_at(alloc, kind, nth)?);
    let _ = Log::make(&mut site, FILE, &HEADER);
    text_of_images(alloc, &site)
}

#[test]
fn a_log_is_made_or_it_isnt(rt: HostRuntime) -> Result<(), Fail> {
    let alloc = rt.alloc();
    let table = [
        (CallKind::Cut(FILE), 1, "-|-|-|"),
        (CallKind::Sync(FILE), 1, "-|-|-|"),
        (CallKind::Write(FILE), 1, "-|-|-|"),
        (CallKind::Sync(FILE), 2, "-|-|-|"),
        (CallKind::Write(FILE), 2, "-|-|-|"),
        (CallKind::Sync(FILE), 3, "-||-|"),
        (CallKind::RowPut, 1, "|||"),
    ];
    for (kind, nth, text) in table {
        assert_eq!(rt;
            making_stopped(alloc, kind, nth)?.as_slice(),
            text.as_bytes()
        );
    }
    Ok(())
}

// The fact that these bytes begin with, and the length of its spelling.
fn fact_in(alloc: Global, bytes: &[u8]) -> Result<(Fact, usize), Fail>
    ensures { IfOk result (λ r. is_fact r.0 ≡ true) }
{
    let Some(read) = read_fact(alloc, bytes)? else {
        return Err("no fact")?;
    };
    Ok(read)
}

#[test]
fn a_fact_is_written_as_it_is_read(rt: HostRuntime) -> Result<(), Fail> {
    let alloc = rt.alloc();
    for bytes in [&SENT[..], &PLAYED[..], &MOVED[..], &SWITCHED[..]] {
        let (fact, size) = fact_in(alloc, bytes)?;
        assert_eq!(rt; size, bytes.len());
        assert_eq!(rt; size_of_fact(&fact), bytes.len());
        assert_eq!(rt; write_fact(alloc, &fact)?.as_slice(), bytes);
    }
    assert!(rt; read_fact(alloc, &SENT[..54])?.is_none());
    let mut longer = SENT.to_vec(alloc)?;
    longer.push(0xff)?;
    let (fact, size) = fact_in(alloc, &longer)?;
    assert_eq!(rt; size, 55);
    assert_eq!(rt; write_fact(alloc, &fact)?.as_slice(), SENT.as_slice());
    Ok(())
}

// Whether the bytes with one of them changed begin with no fact.
fn refused(alloc: Global, bytes: &[u8], at: usize, byte: u8) -> Result<bool, Fail> {
    let mut changed = bytes.to_vec(alloc)?;
    if at < changed.len() {
        changed[at] = byte;
    }
    Ok(read_fact(alloc, &changed)?.is_none())
}

#[test]
fn bytes_past_a_limit_are_no_fact(rt: HostRuntime) -> Result<(), Fail> {
    let alloc = rt.alloc();
    let table = [
        // the tag, the moment, the length of the recording, a name, the count of calls, the tag of an argument
        (&SENT[..], 0, 0),
        (&SENT[..], 0, 7),
        (&SENT[..], 11, 1),
        (&SENT[..], 18, 0x23),
        (&SENT[..], 18, 0x25),
        (&SENT[..], 20, b'_'),
        (&SENT[..], 32, 0),
        (&SENT[..], 32, 65),
        (&SENT[..], 40, 3),
        // the attempt, the kind, the moment
        (&PLAYED[..], 16, 0),
        (&PLAYED[..], 9, 0x80),
        (&PLAYED[..], 17, 0),
        (&PLAYED[..], 17, 3),
        (&PLAYED[..], 20, 1),
        // the queue, the count
        (&MOVED[..], 8, 7),
        (&MOVED[..], 18, 0),
        (&MOVED[..], 18, 2),
        // the name's length, the flag
        (&SWITCHED[..], 1, 0),
        (&SWITCHED[..], 8, 2),
    ];
    for (bytes, at, byte) in table {
        assert!(rt; refused(alloc, bytes, at, byte)?, "byte {byte} at {at}");
    }
    assert!(rt; read_fact(alloc, b"")?.is_none());
    assert!(rt; read_fact(alloc, b"\x01\x00\x00\x00\x02a")?.is_none());
    assert!(rt; read_fact(alloc, b"\x01\x00\x10\x00\x01")?.is_none());
    Ok(())
}

// Adds the fact that these bytes spell to the site's journal.
fn add_fact(alloc: Global, site: &mut MemSite, bytes: &[u8]) -> Result<(), Fail> {
    let (mut journal, _) = journal_at_end(alloc, site)?;
    let (fact, _) = fact_in(alloc, bytes)?;
    append(alloc, &mut journal, site, &fact)?;
    Ok(())
}

// A site whose journal has the fact Sent.
fn site_with_a_fact(alloc: Global) -> Result<MemSite, Fail> {
    let mut site = MemSite::make(alloc)?;
    Journal::make(&mut site)?;
    add_fact(alloc, &mut site, &SENT)?;
    Ok(site)
}

#[test]
fn facts_are_read_as_they_were_added(rt: HostRuntime) -> Result<(), Fail> {
    let alloc = rt.alloc();
    let mut site = site_with_a_fact(alloc)?;
    add_fact(alloc, &mut site, &PLAYED)?;
    let (journal, facts) = journal_at_end(alloc, &mut site)?;
    // 17 bytes without facts, a group of 64 and one of 35
    assert_eq!(rt; journal.length(), 116);
    let mut places = Vec::new(alloc);
    for (at, _) in facts.iter() {
        places.push(*at)?;
    }
    assert_eq!(rt; places.as_slice(), [21, 85].as_slice());
    assert!(rt; matches!(facts.first(), Some((_, Fact::Sent(_, _, _)))));
    assert!(rt; matches!(facts.last(), Some((_, Fact::Played(_, _, Kind::Normal, _)))));
    Ok(())
}

#[test]
fn a_fact_is_a_group_of_one_entry(rt: HostRuntime) -> Result<(), Fail> {
    let mut site = site_with_a_fact(rt.alloc())?;
    let mut group = [0; 64];
    assert_eq!(rt; site.read(FILE, 16, &mut group)?, 64);
    assert_eq!(rt; group, SENT_GROUP);
    Ok(())
}

// What the opening answers where a byte of a journal with one fact is another.
fn opened_with(alloc: Global, at: u64, byte: u8) -> Result<Option<LogError>, Fail> {
    let mut site = site_with_a_fact(alloc)?;
    if at < site.len(FILE)? {
        site.write_at(FILE, at, &[byte])?;
    }
    Ok(journal_at_end(alloc, &mut site).err())
}

#[test]
fn damage_is_named_by_its_entry(rt: HostRuntime) -> Result<(), Fail> {
    let alloc = rt.alloc();
    assert_eq!(rt; opened_with(alloc, 0, 0)?, Some(LogError::NotMade));
    // the fact's tag, the length of its entry, and bytes behind its spelling
    assert_eq!(rt; opened_with(alloc, 25, 0)?, Some(LogError::Damaged(21)));
    assert_eq!(rt; opened_with(alloc, 24, 0x38)?, Some(LogError::Damaged(21)));
    assert_eq!(rt; opened_with(alloc, 24, 0x30)?, Some(LogError::Damaged(73)));
    // a gate that is closed ends the journal
    assert_eq!(rt; opened_with(alloc, 16, 0)?, None);
    Ok(())
}

// Makes a log over this site, and adds two groups to it.
fn made_and_read<S: Site>(alloc: Global, site: &mut S) -> Result<Vec<u8>, Fail> {
    Log::make(site, FILE, &HEADER)?;
    add_and_read(alloc, site, b"one", b"two and more")?;
    let groups = add_and_read(alloc, site, b"three", b"4")?;
    let mut text = Vec::new(alloc);
    add_text(alloc, &mut text, &groups)?;
    Ok(text)
}

#[test]
fn what_is_read_is_what_was_forced(rt: HostRuntime) -> Result<(), Fail> {
    let alloc = rt.alloc();
    let text = b"one,two and more,;three,4,;";
    let mut site = MemSite::make(alloc)?;
    assert_eq!(rt;
        made_and_read(alloc, &mut site)?.as_slice(),
        text.as_slice()
    );
    // the bytes go through a site that tells nothing of them
    let mut untold = Untold::over(MemSite::make(alloc)?);
    assert_eq!(rt;
        made_and_read(alloc, &mut untold)?.as_slice(),
        text.as_slice()
    );
    assert_eq!(rt; untold.faults(), 0);
    Ok(())
}

// The error where the site below stops at this call, and how often the site above it has failed.
fn untold_stopped(
    alloc: Global,
    kind: CallKind,
    nth: u32,
) -> Result<(Option<LogError>, u64), Fail> {
    let mut inner = site_with_a_group(alloc)?;
    inner.set_plan(stop_at(alloc, kind, nth)?);
    let mut site = Untold::over(inner);
    let error = add_and_read(alloc, &mut site, b"two", b"three").err();
    Ok((error, site.faults()))
}

#[test]
fn an_untold_site_counts_its_faults(rt: HostRuntime) -> Result<(), Fail> {
    let alloc = rt.alloc();
    let table = [
        // as the log is opened, as its group is written, and as it is opened again
        (CallKind::Sync(FILE), 1),
        (CallKind::Len(FILE), 1),
        (CallKind::Read(FILE), 2),
        (CallKind::Write(FILE), 1),
        (CallKind::Sync(FILE), 2),
        (CallKind::Write(FILE), 2),
        (CallKind::Sync(FILE), 3),
        (CallKind::Sync(FILE), 4),
    ];
    for (kind, nth) in table {
        assert_eq!(rt;
            untold_stopped(alloc, kind, nth)?,
            (Some(LogError::SiteFault), 1)
        );
    }
    assert_eq!(rt; untold_stopped(alloc, CallKind::RowPut, 1)?, (None, 0));
    Ok(())
}

#[test]
fn a_gate_that_is_not_given_is_left_alone(rt: HostRuntime) -> Result<(), Fail> {
    let alloc = rt.alloc();
    let mut inner = site_with_a_group(alloc)?;
    inner.set_plan(stop_at(alloc, CallKind::Write(FILE), 1)?);
    let mut site = Untold::short(inner, 0);
    let (_, groups) = open_at_end(alloc, &mut site)?;
    assert_eq!(rt; groups.len(), 0);
    assert_eq!(rt; site.faults(), 0);
    Ok(())
}
