// Journals in which the fact of an attempt's end was changed by hand.
use crate::rows::*;
use qc_drill_tests::{FILE, damaged_at, drill};
use qc_memsite::{Choice, MemSink, MemSite};
use qc_protocol::Status;
use qc_site::Site;
use std::alloc::Global;
use std::test::Fail;

const TAKE_1_BOLT: &str =
    r#"{"at":5,"do":"send","app":"Orders","component":"Plain","calls":[["Take","bolt",1]]}"#;

const PLAYED_BY_9: &str =
    "queues Orders 2/0/5; Orders_0; Orders_1; Orders_2; Orders_3; Orders_4; Orders_DeadQueue; consumed 1";

const TWO_PLAYED: &str =
    "queues Orders 3/0/5; Orders_0; Orders_1; Orders_2; Orders_3; Orders_4; Orders_DeadQueue; consumed 2";

const TRIED_AT_60: &str =
    "queues Orders 2/0/0; Orders_0 1/1/120; Orders_1; Orders_2; Orders_3; Orders_4; Orders_DeadQueue; consumed 0";

// Where the group of a fact has these, behind its gate.
const TAG: u64 = 9;

const ID: u64 = 10;

const LAST_OF_ID: u64 = 17;

const LAST_OF_ATTEMPT: u64 = 25;

const KIND: u64 = 26;

const LAST_OF_MOMENT: u64 = 34;

// A change of bytes at a place of the group, and what the next drill lists. Where that is nothing, it tells damage at
// the group's entry.
type Change = (u64, &'static [u8], Option<&'static str>);

// Lines, the last of which ends an attempt, and a line behind them.
#[derive(Clone, Copy)]
struct Story {
    before: &'static [&'static str],
    end: &'static str,
    behind: &'static str,
    changes: &'static [Change],
}

// Played of message 1 by attempt 1 at 5, and another message behind it.
const COMMITTED: Story = Story {
    before: &[TAKE_1_BOLT],
    end: PLAY,
    behind: TAKE_1_BOLT,
    changes: &[
        // one that failed: with a byte too many, and as it should be spelled, with a closed gate behind it
        (TAG, &[4], None),
        (
            0,
            b"\x01\0\0\0\x1d\0\0\0\x19\x04\0\0\0\0\0\0\0\x01\0\0\0\0\0\0\0\x01\0\0\0\0\0\0\0\x05\0",
            None,
        ),
        // a message that wasn't sent yet, and none
        (LAST_OF_ID, &[2], None),
        (LAST_OF_ID, &[0], None),
        // a number that no attempt has, and one that it may have
        (LAST_OF_ATTEMPT, &[0], None),
        (LAST_OF_ATTEMPT, &[9], Some(PLAYED_BY_9)),
        // the final kind, and none
        (KIND, &[2], None),
        (KIND, &[0], None),
        (LAST_OF_MOMENT, &[4], None),
    ],
};

// Played of message 2 by attempt 2, behind one of message 1 by attempt 1.
const COMMITTED_TWICE: Story = Story {
    before: &[TAKE_1_BOLT, TAKE_1_BOLT, PLAY],
    end: PLAY,
    behind: TAKE_1_BOLT,
    changes: &[
        (LAST_OF_ID, &[1], None),
        (LAST_OF_ID, &[3], None),
        (LAST_OF_ATTEMPT, &[1], None),
        (LAST_OF_ATTEMPT, &[9], Some(TWO_PLAYED)),
    ],
};

// Failed of message 2 by attempt 4 at 0, while message 1 waits until 60.
const FAILED: Story = Story {
    before: &[TAKE_11_BOLTS, TAKE_11_BOLTS, PLAY, PLAY, PLAY],
    end: PLAY,
    behind: LIST,
    changes: &[
        (LAST_OF_ID, &[1], None),
        // the same at 60, when it is due
        (
            ID,
            b"\0\0\0\0\0\0\0\x01\0\0\0\0\0\0\0\x04\0\0\0\0\0\0\0\x3c",
            Some(TRIED_AT_60),
        ),
        (LAST_OF_ATTEMPT, &[1], None),
        (LAST_OF_ATTEMPT, &[3], None),
        // one that committed
        (
            0,
            b"\x01\0\0\0\x1e\0\0\0\x1a\x03\0\0\0\0\0\0\0\x02\0\0\0\0\0\0\0\x04\x01\0\0\0\0\0\0\0\0\0",
            None,
        ),
    ],
};

// How the listing ends on a copy of the site whose journal has these bytes at this place.
fn listed_with(
    alloc: Global,
    site: &MemSite,
    at: u64,
    bytes: &[u8],
) -> Result<(Status, MemSink), Fail> {
    let mut copy = site.crash_image(alloc, Choice::New)?;
    let length = copy.len(FILE)?;
    if at > length {
        return Err("no such byte")?;
    }
    copy.write_at(FILE, at, bytes)?;
    Ok(drill(alloc, &mut copy, &[LIST.as_bytes()])?)
}

#[test]
fn an_end_that_was_changed_by_hand_is_damage(rt: HostRuntime) -> Result<(), Fail> {
    let alloc = rt.alloc();
    for story in [COMMITTED, COMMITTED_TWICE, FAILED] {
        let mut site = site_after(alloc, story.before)?;
        let gate = site.len(FILE)?.saturating_sub(1);
        carry_out(alloc, &mut site, &[story.end, story.behind])?;
        let damaged = damaged_at(alloc, gate.saturating_add(5))?;
        for (place, bytes, listed) in story.changes {
            let at = gate.saturating_add(*place);
            let (status, sink) = listed_with(alloc, &site, at, bytes)?;
            let mut replies = Vec::new(alloc);
            match listed {
                Some(reply) => put_line(&mut replies, reply)?,
                None => replies.extend_from_slice(damaged.as_bytes())?,
            }
            let ended = if listed.is_some() {
                Status::Done
            } else {
                Status::Damaged
            };
            assert_eq!(rt; sink.contents(), replies.as_slice(), "{place} {bytes:?}");
            assert_eq!(rt; status, ended);
        }
    }
    Ok(())
}

// The group of the end, with the byte behind it cut off, counts as closed.
#[test]
fn an_end_that_is_cut_is_none(rt: HostRuntime) -> Result<(), Fail> {
    let alloc = rt.alloc();
    let mut site = site_after(alloc, &[TAKE_4_BOLTS, PLAY])?;
    let length = site.len(FILE)?;
    site.cut(FILE, length.saturating_sub(1))?;
    let rows = [
        (LIST, LISTED_1),
        (STOCK, OPENED),
        (PLAY, "played 1 attempt 1 normal commit: -"),
        (LIST, CONSUMED_1),
        (STOCK, LESS_4_BOLTS),
    ];
    let (lines, replies) = both(alloc, &rows)?;
    let (status, sink) = drill(alloc, &mut site, &[lines.as_slice()])?;
    assert_eq!(rt; status, Status::Done);
    assert_eq!(rt; sink.contents(), replies.as_slice());
    Ok(())
}
