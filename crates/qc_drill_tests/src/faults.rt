// Damage, faults of the outside, and a send that is stopped.
use super::*;
use crate::texts::*;
use qc_memsite::Choice;
use qc_site::Site;
use std::test::Fail;

// A site with one message.
fn site_with_a_message(alloc: Global) -> Result<MemSite, Fail> {
    let mut site = new_site(alloc)?;
    drill(alloc, &mut site, &[SEND])?;
    Ok(site)
}

// The length of a journal that was just made: behind it, less its end gate, the first message stands.
fn made_length(alloc: Global) -> Result<u64, Fail> {
    let mut site = new_site(alloc)?;
    Ok(site.len(FILE)?)
}

// Where the first step of Order's Place stands in the journal: behind the header, the gate, two lengths, the fact's tag
// and the length of the catalogue's text.
fn first_step() -> Result<u64, Fail> {
    let (before, _) = sample().split_once("need stock").ok_or("no step")?;
    Ok((before.len() as u64).saturating_add(30))
}

// How the listing ends on a site whose journal has this byte at this place.
fn with_byte(alloc: Global, at: u64, byte: u8) -> Result<(Status, MemSink), Fail> {
    let mut site = site_with_a_message(alloc)?;
    let length = site.len(FILE)?;
    if at > length {
        return Err("no such byte")?;
    }
    site.write_at(FILE, at, &[byte])?;
    Ok(drill(alloc, &mut site, &[LIST])?)
}

#[test]
fn damage_is_told_where_it_is(rt: HostRuntime) -> Result<(), Fail> {
    let alloc = rt.alloc();
    let gate = made_length(alloc)?.saturating_sub(1);
    let catalogue = damaged_at(alloc, 21)?;
    let message = damaged_at(alloc, gate.saturating_add(5))?;
    let table = [
        (0, b'q', Status::NotMade, &b""[..]),
        (16, 0, Status::NoCatalogue, &b""[..]),
        (25, 0, Status::Damaged, catalogue.as_bytes()),
        // a catalogue with a script that is none
        (first_step()?, b'm', Status::Damaged, catalogue.as_bytes()),
        (gate, 0, Status::Done, LISTED_NONE),
        (
            gate.saturating_add(9),
            0,
            Status::Damaged,
            message.as_bytes(),
        ),
        (
            gate.saturating_add(17),
            2,
            Status::Damaged,
            message.as_bytes(),
        ),
    ];
    for (at, byte, ended, written) in table {
        let (status, sink) = with_byte(alloc, at, byte)?;
        assert_eq!(rt; status, ended, "byte {at}");
        assert_eq!(rt; sink.contents(), written);
    }
    Ok(())
}

#[test]
fn a_group_without_a_gate_behind_it_is_none(rt: HostRuntime) -> Result<(), Fail> {
    let alloc = rt.alloc();
    let mut site = site_with_a_message(alloc)?;
    let length = site.len(FILE)?;
    site.cut(FILE, length.saturating_sub(1))?;
    let (status, sink) = drill(alloc, &mut site, &[LIST])?;
    assert_eq!(rt; status, Status::Done);
    assert_eq!(rt; sink.contents(), LISTED_NONE);
    Ok(())
}

// What was answered and done before the fault stands: the replies, and what the journal has more.
#[test]
fn a_stream_that_fails_has_its_status(rt: HostRuntime) -> Result<(), Fail> {
    let alloc = rt.alloc();
    let mid_line: &[u8] = b"{\"at\":0,";
    let table: [(&[&[u8]], Failing, Status, &[u8], u64); 4] = [
        (
            &[SEND, mid_line],
            Failing { read: 2, write: 0 },
            Status::SourceFault,
            SENT_1,
            64,
        ),
        (
            &[SEND, SEND, SEND],
            Failing { read: 0, write: 2 },
            Status::SinkFault,
            SENT_1,
            128,
        ),
        (
            &[SEND],
            Failing { read: 1, write: 0 },
            Status::SourceFault,
            b"",
            0,
        ),
        (
            &[SEND],
            Failing { read: 3, write: 2 },
            Status::Done,
            SENT_1,
            64,
        ),
    ];
    for (input, failing, ended, written, more) in table {
        let mut site = new_site(alloc)?;
        let made = site.len(FILE)?;
        let input = joined(alloc, input)?;
        let (status, sink) = run_words(alloc, &mut site, &["drill"], input, failing)?;
        assert_eq!(rt; status, ended);
        assert_eq!(rt; sink.contents(), written);
        assert_eq!(rt; site.len(FILE)?.saturating_sub(made), more);
    }
    Ok(())
}

// How a send ends where this call of the site fails.
fn send_failed(alloc: Global, kind: CallKind, nth: u32) -> Result<(Status, usize), Fail> {
    let mut site = new_site(alloc)?;
    site.set_plan(trip(alloc, kind, nth, false)?);
    let (status, sink) = drill(alloc, &mut site, &[SEND])?;
    Ok((status, sink.contents().len()))
}

// The calls of each kind that the opening and a send make. One more is never made.
#[test]
fn each_call_of_the_site_may_fail(rt: HostRuntime) -> Result<(), Fail> {
    let alloc = rt.alloc();
    let table = [
        (CallKind::Sync(FILE), 3),
        (CallKind::Len(FILE), 1),
        (CallKind::Read(FILE), 4),
        (CallKind::Write(FILE), 2),
        (CallKind::Cut(FILE), 0),
        (CallKind::Sync(LOG), 1),
        (CallKind::Len(LOG), 1),
        (CallKind::Read(LOG), 2),
        (CallKind::Write(LOG), 0),
    ];
    for (kind, calls) in table {
        for nth in 1..=calls {
            assert_eq!(rt;
                send_failed(alloc, kind, nth)?,
                (Status::SiteFault, 0),
                "{kind:?} {nth}"
            );
        }
        assert_eq!(rt;
            send_failed(alloc, kind, calls + 1)?,
            (Status::Done, 7),
            "{kind:?}"
        );
    }
    Ok(())
}

// Whether the image has the message: a second drill lists it, and sends with the next id.
fn has_message(alloc: Global, site: &MemSite, choice: Choice) -> Result<bool, Fail> {
    let mut image = site.crash_image(alloc, choice)?;
    let (_, sink) = drill(alloc, &mut image, &[LIST, SEND])?;
    if sink.contents() == joined(alloc, &[LISTED_NONE, SENT_1])?.as_slice() {
        return Ok(false);
    }
    if sink.contents() == joined(alloc, &[LISTED_1, SENT_2])?.as_slice() {
        return Ok(true);
    }
    Err("another listing")?
}

// How a send ends where the site stops at this call, and whether each image has its message.
fn send_stopped(alloc: Global, kind: CallKind, nth: u32) -> Result<(Status, [bool; 3]), Fail> {
    let mut site = new_site(alloc)?;
    site.set_plan(trip(alloc, kind, nth, true)?);
    let (status, _) = drill(alloc, &mut site, &[SEND])?;
    let images = [
        has_message(alloc, &site, Choice::Old)?,
        has_message(alloc, &site, Choice::New)?,
        has_message(alloc, &site, Choice::Flip)?,
    ];
    Ok((status, images))
}

// The opening makes the first sync. The last row stops nothing.
#[test]
fn a_send_that_is_stopped_leaves_its_message_or_none(rt: HostRuntime) -> Result<(), Fail> {
    let alloc = rt.alloc();
    let none = [false; 3];
    let table = [
        (CallKind::Sync(FILE), 1, (Status::SiteFault, none)),
        (CallKind::Sync(LOG), 1, (Status::SiteFault, none)),
        (CallKind::Write(FILE), 1, (Status::SiteFault, none)),
        (CallKind::Sync(FILE), 2, (Status::SiteFault, none)),
        (CallKind::Write(FILE), 2, (Status::SiteFault, none)),
        (
            CallKind::Sync(FILE),
            3,
            (Status::SiteFault, [false, true, false]),
        ),
        (CallKind::RowPut, 1, (Status::Done, [true; 3])),
    ];
    for (kind, nth, ended) in table {
        assert_eq!(rt; send_stopped(alloc, kind, nth)?, ended, "{kind:?} {nth}");
    }
    Ok(())
}
