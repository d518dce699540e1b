// Orders by a hub whose files and messages have limits, line by line.
ghost use Rattle.std.specs.Prelude.{OnOk};
ghost use Rattle.qc_hub.specs.Calls.{IsReady};

use crate::rows::*;
use qc_drill::answer_line;
use qc_drill_tests::FILE;
use qc_hub::{Hub, HubError};
use qc_machine::Limits;
use qc_site::Site;
use std::alloc::Global;
use std::test::Fail;

const TAKE_1_NUT: &str =
    r#"{"at":0,"do":"send","app":"Orders","component":"Plain","calls":[["Take","nut",1]]}"#;

const MOVE_BY_1: &str = r#"{"at":0,"do":"move","from":"Orders","to":"Orders_DeadQueue","batch":1}"#;

const MOVE_BY_3: &str = r#"{"at":0,"do":"move","from":"Orders","to":"Orders_DeadQueue","batch":3}"#;

const FIVE: &[&str] = &[
    TAKE_4_BOLTS,
    TAKE_4_BOLTS,
    TAKE_4_BOLTS,
    TAKE_4_BOLTS,
    TAKE_4_BOLTS,
];

// A reply, or that the journal is full: its length is so many bytes more than before.
#[derive(Clone, Copy)]
enum Told {
    Is(&'static str),
    Full(u64),
}

// Lines that were carried out before, how many bytes more the journal may have then, how many messages may be live, and
// lines with their replies.
#[derive(Clone, Copy)]
struct Case {
    before: &'static [&'static str],
    more: u64,
    live: u32,
    rows: &'static [(&'static str, Told)],
}

const TAKEN_1: Told = Told::Is("taken 1 attempt 1 normal calls 1");

const WORKED: Told = Told::Is("worked call 1 left 0");

const COMMITTED: Told = Told::Is("committed attempt 1: -");

const FINISHED: Told = Told::Is("finished attempt 1 commit: -");

const SWITCHED: Told = Told::Is("switched Orders off");

const SENT_1: Told = Told::Is("sent 1");

// An attempt sets aside the room of its fact until it has ended.
const ATTEMPTS: [Case; 4] = [
    Case {
        before: &[TAKE_4_BOLTS],
        more: 34,
        live: 9,
        rows: &[
            (TAKE_1, Told::Full(0)),
            (PLAY, Told::Full(0)),
            (LIST, Told::Is(LISTED_1)),
        ],
    },
    Case {
        before: &[TAKE_4_BOLTS],
        more: 35,
        live: 9,
        rows: &[
            (TAKE_1, TAKEN_1),
            (TAKE_4_BOLTS, Told::Full(0)),
            (SWITCH_OFF, Told::Full(0)),
            (WORK, WORKED),
            (END, COMMITTED),
            (SWITCH_OFF, Told::Full(35)),
            (PHASE, FINISHED),
            (LIST, Told::Is(CONSUMED_1)),
        ],
    },
    Case {
        before: &[TAKE_4_BOLTS, TAKE_1_NUT],
        more: 69,
        live: 9,
        rows: &[
            (TAKE_1, TAKEN_1),
            (TAKE_2, Told::Full(0)),
            (WORK, WORKED),
            (END, COMMITTED),
            (TAKE_2, Told::Full(35)),
            (PHASE, FINISHED),
            (TAKE_2, Told::Full(35)),
        ],
    },
    Case {
        before: &[TAKE_4_BOLTS, TAKE_1_NUT],
        more: 70,
        live: 9,
        rows: &[
            (TAKE_1, TAKEN_1),
            (TAKE_2, Told::Is("taken 2 attempt 2 normal calls 1")),
            (WORK, WORKED),
            (END, COMMITTED),
            (WORK_2, WORKED),
            (END_2, Told::Is("committed attempt 2: -")),
        ],
    },
];

// A send takes 64 bytes, and a switch 26, beside what is set aside. A consumed message isn't live.
const OTHERS: [Case; 6] = [
    Case {
        before: &[],
        more: 63,
        live: 9,
        rows: &[(PLACE_4, Told::Full(0))],
    },
    Case {
        before: &[],
        more: 64,
        live: 9,
        rows: &[(PLACE_4, SENT_1), (PLACE_4, Told::Full(64))],
    },
    Case {
        before: &[],
        more: 25,
        live: 9,
        rows: &[(SWITCH_OFF, Told::Full(0))],
    },
    Case {
        before: &[TAKE_4_BOLTS],
        more: 60,
        live: 9,
        rows: &[
            (TAKE_1, TAKEN_1),
            (SWITCH_OFF, Told::Full(0)),
            (WORK, WORKED),
            (END, COMMITTED),
            (SWITCH_OFF, Told::Full(35)),
        ],
    },
    Case {
        before: &[TAKE_4_BOLTS],
        more: 61,
        live: 9,
        rows: &[(TAKE_1, TAKEN_1), (SWITCH_OFF, SWITCHED)],
    },
    Case {
        before: &[],
        more: 999,
        live: 1,
        rows: &[
            (PLACE_4, SENT_1),
            (PLACE_4, Told::Is("refused 18 TooManyMessages 1")),
            (PLAY, Told::Is("played 1 attempt 1 normal commit: -")),
            (PLACE_4, Told::Is("sent 2")),
        ],
    },
];

// A move takes 28 bytes for each batch and 8 for each message, of all batches together, beside what is set aside.
const MOVES: [Case; 6] = [
    Case {
        before: FIVE,
        more: 179,
        live: 9,
        rows: &[(MOVE_BY_1, Told::Full(0)), (TAKE_1, TAKEN_1)],
    },
    Case {
        before: FIVE,
        more: 180,
        live: 9,
        rows: &[
            (MOVE_BY_1, Told::Is("moved 5")),
            (MOVE_BY_1, Told::Is("moved 0")),
        ],
    },
    Case {
        before: FIVE,
        more: 95,
        live: 9,
        rows: &[(MOVE_BY_3, Told::Full(0))],
    },
    Case {
        before: FIVE,
        more: 96,
        live: 9,
        rows: &[(MOVE_BY_3, Told::Is("moved 5"))],
    },
    Case {
        before: FIVE,
        more: 122,
        live: 9,
        rows: &[(TAKE_1, TAKEN_1), (MOVE_BY_3, Told::Full(0))],
    },
    Case {
        before: FIVE,
        more: 123,
        live: 9,
        rows: &[
            (TAKE_1, TAKEN_1),
            (MOVE_BY_3, Told::Is("moved 4")),
            (WORK, WORKED),
            (END, COMMITTED),
        ],
    },
];

// The reply to a line. After one the hub takes further lines.
fn reply_to<S: Site>(
    alloc: Global,
    hub: &mut Hub,
    site: &mut S,
    line: &str,
) -> Result<Vec<u8>, HubError>
    requires { IsReady S.Site hub.old site.old }
    ensures { OnOk result (IsReady S.Site hub.new site.new) }
{
    match answer_line(alloc, hub, site, line.as_bytes()) {
        Ok(text) => Ok(text),
        Err(error) => Err(error),
    }
}

// The replies to lines by one hub.
fn replies_to<S: Site>(
    alloc: Global,
    hub: &mut Hub,
    site: &mut S,
    lines: &[&str],
) -> Result<Vec<u8>, HubError>
    requires { IsReady S.Site hub.old site.old }
{
    let mut all = Vec::new(alloc);
    for line in lines {
        let reply = match reply_to(alloc, hub, site, line) {
            Ok(reply) => reply,
            Err(error) => return Err(error),
        };
        if all.extend_from_slice(reply.as_slice()).is_err() {
            return Err(HubError::NoMemory);
        }
    }
    Ok(all)
}

// The lines of a case, and their replies over a journal of this length.
fn expected(
    alloc: Global,
    length: u64,
    rows: &[(&'static str, Told)],
) -> Result<(Vec<&'static str>, Vec<u8>), Fail> {
    let mut lines = Vec::new(alloc);
    let mut replies = Vec::new(alloc);
    for (line, told) in rows {
        lines.push(*line)?;
        match told {
            Told::Is(reply) => put_line(&mut replies, reply)?,
            Told::Full(more) => {
                let length = length.saturating_add(*more);
                let reply = format!(in alloc; "refused 21 Full {length}")?;
                put_line(&mut replies, reply.as_str())?;
            }
        }
    }
    Ok((lines, replies))
}

#[test]
fn what_has_no_room_is_refused(rt: HostRuntime) -> Result<(), Fail> {
    let alloc = rt.alloc();
    for cases in [&ATTEMPTS[..], &OTHERS[..], &MOVES[..]] {
        for case in cases {
            let mut site = site_after(alloc, case.before)?;
            let length = site.len(FILE)?;
            let limits = Limits {
                log_bytes: length.saturating_add(case.more),
                live: case.live,
            };
            let (lines, replies) = expected(alloc, length, case.rows)?;
            let mut hub = Hub::open(alloc, &mut site, limits)?;
            let told = replies_to(alloc, &mut hub, &mut site, lines.as_slice())?;
            assert_eq!(rt; told.as_slice(), replies.as_slice(), "{}", case.more);
        }
    }
    Ok(())
}

// An attempt sets aside 512 bytes of the log of compensations, which has 17, until it is let go. Here the log is full
// before the journal.
#[test]
fn the_log_of_compensations_has_room_for_attempts(rt: HostRuntime) -> Result<(), Fail> {
    let alloc = rt.alloc();
    let full: &[(&str, &str)] = &[
        (TAKE_1, "taken 1 attempt 1 normal calls 1"),
        (TAKE_2, "taken 2 attempt 2 normal calls 1"),
        (TAKE_3, "taken 3 attempt 3 normal calls 1"),
        (TAKE_4, "refused 21 Full 17"),
        (WORK, "worked call 1 left 0"),
        (END, "failed attempt 1 forced: -"),
        (TAKE_4, "refused 21 Full 17"),
        (PHASE, "finished attempt 1 abort: -"),
        (TAKE_4, "taken 1 attempt 4 normal calls 1"),
    ];
    let room: &[(&str, &str)] = &[
        (TAKE_1, "taken 1 attempt 1 normal calls 1"),
        (TAKE_2, "taken 2 attempt 2 normal calls 1"),
        (TAKE_3, "taken 3 attempt 3 normal calls 1"),
        (TAKE_4, "taken 4 attempt 4 normal calls 1"),
    ];
    for (log_bytes, rows) in [(2_064, full), (2_065, room)] {
        let mut site = site_after(alloc, &[DOOM, DOOM, DOOM, DOOM])?;
        let mut lines = Vec::new(alloc);
        let mut replies = Vec::new(alloc);
        for (line, reply) in rows {
            lines.push(*line)?;
            put_line(&mut replies, reply)?;
        }
        let limits = Limits { log_bytes, live: 9 };
        let mut hub = Hub::open(alloc, &mut site, limits)?;
        let told = replies_to(alloc, &mut hub, &mut site, lines.as_slice())?;
        assert_eq!(rt; told.as_slice(), replies.as_slice(), "{log_bytes}");
    }
    Ok(())
}
