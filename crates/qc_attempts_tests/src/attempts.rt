// Players, and the attempts that they hold.
use crate::plain::plain_site;
use crate::rows::*;
use qc_drill_tests::{drill, new_site};
use qc_protocol::Status;
use std::alloc::Global;
use std::test::Fail;

const THREE_CALLS: &str =
    r#"{"at":0,"do":"send","app":"Orders","component":"Plain","calls":[["Take","bolt",4],["Take","bolt",7],["Doom"]]}"#;

const FINALS: &str = r#"{"at":0,"do":"table","table":"finals"}"#;

const LOST: &str = r#"{"at":0,"do":"table","table":"lost"}"#;

const LISTED_3: &str =
    "queues Orders 1/0/0, 2/0/0, 3/0/0; Orders_0; Orders_1; Orders_2; Orders_3; Orders_4; Orders_DeadQueue; consumed 0";

// A message is played in one order, at a moment that doesn't fall.
const PLAYED: Rows = &[
    (
        r#"{"at":5,"do":"send","app":"Orders","component":"Plain","calls":[["Take","bolt",1]]}"#,
        "sent 1",
    ),
    (
        r#"{"at":3,"do":"play","player":1,"app":"Orders"}"#,
        "played 1 attempt 1 normal commit: -",
    ),
    (STOCK, "table stock \"bolt\" 9, \"nut\" 3; total 12"),
    (LIST, CONSUMED_1),
];

// The rows of two tables, each with what it got.
const TWO_TABLES: Rows = &[
    (PLACE_4, "sent 1"),
    (LIST, LISTED_1),
    (PLAY, "played 1 attempt 1 normal commit: -"),
    (STOCK, LESS_4_BOLTS),
    (
        r#"{"at":0,"do":"table","table":"sold"}"#,
        "table sold \"bolt\" 4; total 4",
    ),
    (LIST, CONSUMED_1),
    (PLAY, NOTHING_DUE),
];

// The same step by step: nothing changes before the end.
const STEP_BY_STEP: Rows = &[
    (TAKE_4_BOLTS, "sent 1"),
    (TAKE_1, "taken 1 attempt 1 normal calls 1"),
    (END, "refused 8 WrongStage calls"),
    (WORK, "worked call 1 left 0"),
    (WORK, "refused 8 WrongStage ready"),
    (STOCK, OPENED),
    (PHASE, "refused 8 WrongStage ready"),
    (END, "committed attempt 1: -"),
    (STOCK, LESS_4_BOLTS),
    (END, "refused 8 WrongStage commit"),
    (TAKE_1, "refused 5 SlotBusy 1"),
    (PHASE, "finished attempt 1 commit: -"),
    (PHASE, "refused 6 SlotIdle"),
    (LIST, CONSUMED_1),
];

// A call fails, and the message goes on by the retry rule.
const CALL_FAILS: Rows = &[
    (THREE_CALLS, "sent 1"),
    (TAKE_1, "taken 1 attempt 1 normal calls 3"),
    (WORK, "worked call 1 left 2"),
    (WORK, "failed call 2 step 1"),
    (WORK, "refused 8 WrongStage failing"),
    (END, "failed attempt 1 call 2 step 1: -"),
    (TAKE_2, NOTHING_DUE),
    (PHASE, "finished attempt 1 abort: -"),
    (TAKE_2, "taken 1 attempt 2 normal calls 3"),
    (STOCK, OPENED),
];

// Of three failures the third leads to the next queue, where the message waits.
const THREE_FAILURES: Rows = &[
    (PLACE_11, "sent 1"),
    (PLAY, "played 1 attempt 1 normal failed call 1 step 1: -"),
    (PLAY, "played 1 attempt 2 normal failed call 1 step 1: -"),
    (PLAY, "played 1 attempt 3 normal failed call 1 step 1: -"),
    (
        LIST,
        "queues Orders; Orders_0 1/0/60; Orders_1; Orders_2; Orders_3; Orders_4; Orders_DeadQueue; consumed 0",
    ),
    (PLAY, "refused 20 NothingDue earliest 60 blocked 0"),
];

// Messages with a common row are blocked while an attempt holds it.
const HELD: Rows = &[
    (
        r#"{"at":0,"do":"send","app":"Orders","component":"Order","calls":[["Place","bolt",1]]}"#,
        "sent 1",
    ),
    (
        r#"{"at":0,"do":"send","app":"Orders","component":"Order","calls":[["Place","bolt",2]]}"#,
        "sent 2",
    ),
    (
        r#"{"at":0,"do":"send","app":"Orders","component":"Order","calls":[["Notify",1]]}"#,
        "sent 3",
    ),
    (TAKE_1, "taken 1 attempt 1 normal calls 1"),
    (TAKE_2, "taken 3 attempt 2 normal calls 1"),
    (TAKE_3, "refused 20 NothingDue earliest none blocked 1"),
    (TAKE_1, "refused 5 SlotBusy 1"),
    (LIST, LISTED_3),
];

// Where the rows of the only other message are held, nothing is taken until they are let go. What is taken then sees
// what the attempt before it left.
const MEETING: Rows = &[
    (TAKE_4_BOLTS, "sent 1"),
    (TAKE_4_BOLTS, "sent 2"),
    (TAKE_2, "taken 1 attempt 1 normal calls 1"),
    (TAKE_1, "refused 20 NothingDue earliest none blocked 1"),
    (WORK, "refused 6 SlotIdle"),
    (WORK_2, "worked call 1 left 0"),
    (END_2, "committed attempt 1: -"),
    (PLAY, "refused 20 NothingDue earliest none blocked 1"),
    (PHASE_2, "finished attempt 1 commit: -"),
    (TAKE_1, "taken 2 attempt 2 normal calls 1"),
    (TAKE_2, NOTHING_DUE),
    (WORK, "worked call 1 left 0"),
    (STOCK, LESS_4_BOLTS),
    (END, "committed attempt 2: -"),
    (STOCK, "table stock \"bolt\" 2, \"nut\" 3; total 5"),
    (PHASE, "finished attempt 2 commit: -"),
    (LIST, CONSUMED_2),
];

// A message that is due later is told, and counts as blocked only when it is due.
const BLOCKED: Rows = &[
    (PLACE_11, "sent 1"),
    (PLAY, "played 1 attempt 1 normal failed call 1 step 1: -"),
    (PLAY, "played 1 attempt 2 normal failed call 1 step 1: -"),
    (PLAY, "played 1 attempt 3 normal failed call 1 step 1: -"),
    (TAKE_4_BOLTS, "sent 2"),
    (TAKE_4_BOLTS, "sent 3"),
    (TAKE_1, "taken 2 attempt 4 normal calls 1"),
    (TAKE_2, "refused 20 NothingDue earliest 60 blocked 1"),
    (
        r#"{"at":60,"do":"take","player":2,"app":"Orders"}"#,
        "refused 20 NothingDue earliest none blocked 2",
    ),
];

const REFUSED: Rows = &[
    ("{}", "refused 2 Malformed at"),
    (
        r#"{"at":0,"do":"take","player":17,"app":"Orders"}"#,
        "refused 4 NoSuchSlot 17",
    ),
    (
        r#"{"at":0,"do":"phase","player":0}"#,
        "refused 4 NoSuchSlot 0",
    ),
    (WORK, "refused 6 SlotIdle"),
    (
        r#"{"at":0,"do":"send","app":"Orders","component":"Order","calls":[["Place","",4]]}"#,
        "refused 12 BadArguments 1 1",
    ),
    (
        r#"{"at":0,"do":"send","app":"Orders","component":"Order","calls":[["Place","bolt"]]}"#,
        "refused 12 BadArguments 1 2",
    ),
    (
        r#"{"at":0,"do":"send","app":"Orders","component":"Order","calls":[]}"#,
        "sent nothing",
    ),
    (
        r#"{"at":0,"do":"take","player":1,"app":"Nobody"}"#,
        "refused 9 UnknownApp",
    ),
    (PLAY, NOTHING_DUE),
    (TAKE_4_BOLTS, "sent 1"),
    (TAKE_1, "taken 1 attempt 1 normal calls 1"),
    (END, "refused 8 WrongStage calls"),
];

// `abort` lets the calls run, and fails the attempt.
const FORCED: Rows = &[
    (
        r#"{"at":0,"do":"send","app":"Orders","component":"Plain","calls":[["Doom"],["Take","bolt",1]]}"#,
        "sent 1",
    ),
    (PLAY, "played 1 attempt 1 normal failed forced: -"),
    (STOCK, OPENED),
];

// A script of one step `abort`.
const FORCED_ALONE: Rows = &[
    (DOOM, "sent 1"),
    (PLAY, "played 1 attempt 1 normal failed forced: -"),
];

// Without messages an application that is off is told first.
const OFF_AT_ONCE: Rows = &[
    (SWITCH_OFF, "switched Orders off"),
    (PLAY, "refused 19 SwitchedOff"),
    (
        r#"{"at":0,"do":"table","table":"none"}"#,
        "refused 17 UnknownTable",
    ),
];

const SWITCHED: Rows = &[
    (TAKE_4_BOLTS, "sent 1"),
    (TAKE_1, "taken 1 attempt 1 normal calls 1"),
    (TAKE_4_BOLTS, "sent 2"),
    (SWITCH_OFF, "switched Orders off"),
    (TAKE_2, "refused 19 SwitchedOff"),
    (
        r#"{"at":0,"do":"play","player":2,"app":"Orders"}"#,
        "refused 19 SwitchedOff",
    ),
    (WORK, "worked call 1 left 0"),
    (END, "committed attempt 1: -"),
    (PHASE, "finished attempt 1 commit: -"),
    (
        r#"{"at":0,"do":"switch","app":"Nobody","on":false}"#,
        "refused 9 UnknownApp",
    ),
    (
        r#"{"at":0,"do":"table","table":"none"}"#,
        "refused 17 UnknownTable",
    ),
    (
        r#"{"at":0,"do":"switch","app":"Orders","on":true}"#,
        "switched Orders on",
    ),
    (PLAY, "played 2 attempt 2 normal commit: -"),
];

// A message without calls that can fail is played by scripts that change something outside. That isn't built, and
// leaves the last moment as it was.
const NOT_BUILT: Rows = &[
    (
        r#"{"at":0,"do":"send","app":"Orders","component":"Order","calls":[["Notify",1]]}"#,
        "sent 1",
    ),
    (
        r#"{"at":7,"do":"take","player":1,"app":"Orders"}"#,
        "refused 3 NotBuilt",
    ),
    (TAKE_4_BOLTS, "sent 2"),
    (
        LIST,
        "queues Orders 1/0/0, 2/0/0; Orders_0; Orders_1; Orders_2; Orders_3; Orders_4; Orders_DeadQueue; consumed 0",
    ),
];

const RETRACTING: Rows = &[
    (
        r#"{"at":0,"do":"send","app":"Orders","component":"Plain","calls":[["Twice"]]}"#,
        "sent 1",
    ),
    (PLAY, "refused 3 NotBuilt"),
    (LIST, LISTED_1),
];

#[test]
fn attempts_are_played_on_inside_tables(rt: HostRuntime) -> Result<(), Fail> {
    let alloc = rt.alloc();
    let table = [
        PLAYED,
        TWO_TABLES,
        STEP_BY_STEP,
        CALL_FAILS,
        THREE_FAILURES,
        HELD,
        MEETING,
        BLOCKED,
        REFUSED,
        FORCED,
        FORCED_ALONE,
        OFF_AT_ONCE,
        SWITCHED,
    ];
    for rows in table {
        let (lines, replies) = both(alloc, rows)?;
        let mut site = plain_site(alloc)?;
        let (status, sink) = drill(alloc, &mut site, &[lines.as_slice()])?;
        assert_eq!(rt; status, Status::Done);
        assert_eq!(rt; sink.contents(), replies.as_slice());
    }
    Ok(())
}

#[test]
fn changes_outside_arent_built(rt: HostRuntime) -> Result<(), Fail> {
    let alloc = rt.alloc();
    for rows in [NOT_BUILT, RETRACTING] {
        let (lines, replies) = both(alloc, rows)?;
        let mut site = new_site(alloc)?;
        let (status, sink) = drill(alloc, &mut site, &[lines.as_slice()])?;
        assert_eq!(rt; status, Status::Done);
        assert_eq!(rt; sink.contents(), replies.as_slice());
    }
    Ok(())
}

// What the facts of a drill have settled is read by the next one, and no attempt is held there.
#[test]
fn what_was_played_is_read_again(rt: HostRuntime) -> Result<(), Fail> {
    let alloc = rt.alloc();
    let first: Rows = &[
        (TAKE_4_BOLTS, "sent 1"),
        (TAKE_11_BOLTS, "sent 2"),
        (PLAY, "played 1 attempt 1 normal commit: -"),
        (PLAY, "played 2 attempt 2 normal failed call 1 step 1: -"),
        (TAKE_1, "taken 2 attempt 3 normal calls 1"),
        (WORK, "failed call 1 step 1"),
        (
            r#"{"at":9,"do":"switch","app":"Orders","on":false}"#,
            "switched Orders off",
        ),
    ];
    let second: Rows = &[
        (WORK, "refused 6 SlotIdle"),
        (STOCK, LESS_4_BOLTS),
        (
            LIST,
            "queues Orders 2/1/0; Orders_0; Orders_1; Orders_2; Orders_3; Orders_4; Orders_DeadQueue; consumed 1",
        ),
        (TAKE_1, "refused 19 SwitchedOff"),
        (
            r#"{"at":0,"do":"switch","app":"Orders","on":true}"#,
            "switched Orders on",
        ),
        (PLAY, "played 2 attempt 3 normal failed call 1 step 1: -"),
    ];
    let mut site = plain_site(alloc)?;
    for rows in [first, second] {
        let (lines, replies) = both(alloc, rows)?;
        let (status, sink) = drill(alloc, &mut site, &[lines.as_slice()])?;
        assert_eq!(rt; status, Status::Done);
        assert_eq!(rt; sink.contents(), replies.as_slice());
    }
    Ok(())
}

// When a message that fails each time is played: three times in each queue.
const MOMENTS: [u64; 18] = [
    0, 0, 0, 60, 120, 180, 300, 420, 540, 780, 1020, 1260, 1740, 2220, 2700, 3660, 4620, 5580,
];

// Plays a message at each of these moments from this one on, where it fails, by attempts from this number on.
fn put_failures(
    alloc: Global,
    from: u64,
    id: u64,
    attempt: u64,
    lines: &mut Vec<u8>,
    replies: &mut Vec<u8>,
) -> Result<(), Fail> {
    let mut attempt = attempt;
    for after in MOMENTS {
        let at = from.saturating_add(after);
        let line = format!(in alloc;
            "{{\"at\":{at},\"do\":\"play\",\"player\":1,\"app\":\"Orders\"}}"
        )?;
        let reply = format!(in alloc;
            "played {id} attempt {attempt} normal failed call 1 step 1: -"
        )?;
        put_line(lines, line.as_str())?;
        put_line(replies, reply.as_str())?;
        attempt = attempt.saturating_add(1);
    }
    Ok(())
}

fn put_rows(rows: Rows, lines: &mut Vec<u8>, replies: &mut Vec<u8>) -> Result<(), Fail> {
    for (line, reply) in rows {
        put_line(lines, line)?;
        put_line(replies, reply)?;
    }
    Ok(())
}

// Its component names an exception class, which plays its own script and then the recorded calls.
const LAST: Rows = &[
    (
        LIST,
        "queues Orders; Orders_0; Orders_1; Orders_2; Orders_3; Orders_4 1/3/5580; Orders_DeadQueue; consumed 0",
    ),
    (
        r#"{"at":5580,"do":"play","player":1,"app":"Orders"}"#,
        "played 1 attempt 19 final commit: -",
    ),
    (FINALS, "table finals \"count\" 1; total 1"),
    (LOST, "table lost \"bolt\" 11; total 11"),
    (LIST, CONSUMED_1),
];

// The same step by step: the script of the exception class is call 0.
const LAST_BY_STEPS: Rows = &[
    (TAKE_1, "taken 1 attempt 19 final calls 2"),
    (WORK, "worked call 0 left 1"),
    (WORK, "worked call 1 left 0"),
    (FINALS, "table finals; total 0"),
    (END, "committed attempt 19: -"),
    (PHASE, "finished attempt 19 commit: -"),
    (FINALS, "table finals \"count\" 1; total 1"),
    (STOCK, OPENED),
];

// A component without an exception class.
const DEAD: Rows = &[
    (
        LIST,
        "queues Orders; Orders_0; Orders_1; Orders_2; Orders_3; Orders_4; Orders_DeadQueue 1; consumed 0",
    ),
    (PLAY, NOTHING_DUE),
];

#[test]
fn failures_lead_through_the_queues(rt: HostRuntime) -> Result<(), Fail> {
    let alloc = rt.alloc();
    let table = [
        (PLACE_11, LAST),
        (PLACE_11, LAST_BY_STEPS),
        (TAKE_11_BOLTS, DEAD),
    ];
    for (send, rows) in table {
        let mut lines = Vec::new(alloc);
        let mut replies = Vec::new(alloc);
        put_line(&mut lines, send)?;
        put_line(&mut replies, "sent 1")?;
        put_failures(alloc, 0, 1, 1, &mut lines, &mut replies)?;
        put_rows(rows, &mut lines, &mut replies)?;
        let mut site = plain_site(alloc)?;
        let (status, sink) = drill(alloc, &mut site, &[lines.as_slice()])?;
        assert_eq!(rt; status, Status::Done);
        assert_eq!(rt; sink.contents(), replies.as_slice());
    }
    Ok(())
}

const PLACE_THE_MOST: &str =
    r#"{"at":0,"do":"send","app":"Orders","component":"Order","calls":[["Place","bolt",1000000000000000]]}"#;

// The amount that is lost has no room for a second message, whose last attempt fails: then it is dead, and what its
// call 0 changed is gone.
const NO_LAST: Rows = &[
    (PLAY, "played 2 attempt 38 final failed call 1 step 1: -"),
    (FINALS, "table finals \"count\" 1; total 1"),
    (
        LOST,
        "table lost \"bolt\" 1000000000000000; total 1000000000000000",
    ),
    (
        LIST,
        "queues Orders; Orders_0; Orders_1; Orders_2; Orders_3; Orders_4; Orders_DeadQueue 2; consumed 1",
    ),
];

#[test]
fn a_last_attempt_that_fails_leaves_its_message_dead(rt: HostRuntime) -> Result<(), Fail> {
    let alloc = rt.alloc();
    let mut lines = Vec::new(alloc);
    let mut replies = Vec::new(alloc);
    put_line(&mut lines, PLACE_THE_MOST)?;
    put_line(&mut replies, "sent 1")?;
    put_failures(alloc, 0, 1, 1, &mut lines, &mut replies)?;
    let between: Rows = &[
        (PLAY, "played 1 attempt 19 final commit: -"),
        (PLACE_THE_MOST, "sent 2"),
    ];
    put_rows(between, &mut lines, &mut replies)?;
    put_failures(alloc, 5_580, 2, 20, &mut lines, &mut replies)?;
    put_rows(NO_LAST, &mut lines, &mut replies)?;
    let mut site = plain_site(alloc)?;
    let (status, sink) = drill(alloc, &mut site, &[lines.as_slice()])?;
    assert_eq!(rt; status, Status::Done);
    assert_eq!(rt; sink.contents(), replies.as_slice());
    Ok(())
}
