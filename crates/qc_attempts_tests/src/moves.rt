// Messages that are moved from queue to queue.
use crate::plain::plain_site;
use crate::rows::*;
use qc_drill_tests::drill;
use qc_protocol::Status;
use std::alloc::Global;
use std::test::Fail;

const TO_THE_DEAD_BY_3: &str =
    r#"{"at":0,"do":"move","from":"Orders","to":"Orders_DeadQueue","batch":3}"#;

const TO_THE_DEAD_BY_5: &str =
    r#"{"at":0,"do":"move","from":"Orders","to":"Orders_DeadQueue","batch":5}"#;

const BACK_BY_2: &str = r#"{"at":4,"do":"move","from":"Orders_DeadQueue","to":"Orders","batch":2}"#;

const TO_ITSELF_AT_9: &str = r#"{"at":9,"do":"move","from":"Orders","to":"Orders","batch":1}"#;

// The message that an attempt holds stays until the attempt is let go, also where its fact stands.
const HELD: Rows = &[
    (TAKE_11_BOLTS, "sent 1"),
    (TAKE_11_BOLTS, "sent 2"),
    (TAKE_11_BOLTS, "sent 3"),
    (TAKE_11_BOLTS, "sent 4"),
    (TAKE_11_BOLTS, "sent 5"),
    (TAKE_1, "taken 1 attempt 1 normal calls 1"),
    (TO_THE_DEAD_BY_3, "moved 4"),
    (
        LIST,
        "queues Orders 1/0/0; Orders_0; Orders_1; Orders_2; Orders_3; Orders_4; Orders_DeadQueue 2, 3, 4, 5; consumed 0",
    ),
    (WORK, "failed call 1 step 1"),
    (END, "failed attempt 1 call 1 step 1: -"),
    (TO_THE_DEAD_BY_3, "moved 0"),
    (PHASE, "finished attempt 1 abort: -"),
    (TO_THE_DEAD_BY_3, "moved 1"),
    (
        LIST,
        "queues Orders; Orders_0; Orders_1; Orders_2; Orders_3; Orders_4; Orders_DeadQueue 1, 2, 3, 4, 5; consumed 0",
    ),
];

// Nothing is moved from an empty queue. A message may be moved to its own queue, and is due anew.
const TO_ITSELF: Rows = &[
    (
        r#"{"at":0,"do":"move","from":"Orders","to":"Orders","batch":1}"#,
        "moved 0",
    ),
    (TAKE_4_BOLTS, "sent 1"),
    (TO_ITSELF_AT_9, "moved 1"),
    (
        LIST,
        "queues Orders 1/0/9; Orders_0; Orders_1; Orders_2; Orders_3; Orders_4; Orders_DeadQueue; consumed 0",
    ),
    (TAKE_4_BOLTS, "sent 2"),
    (
        r#"{"at":20,"do":"move","from":"Orders","to":"Orders","batch":1000}"#,
        "moved 2",
    ),
    (
        LIST,
        "queues Orders 1/0/20, 2/0/20; Orders_0; Orders_1; Orders_2; Orders_3; Orders_4; Orders_DeadQueue; consumed 0",
    ),
];

// What was dead is played again. A move counts also where the application is off.
const BACK: Rows = &[
    (TAKE_4_BOLTS, "sent 1"),
    (TAKE_4_BOLTS, "sent 2"),
    (TO_THE_DEAD_BY_5, "moved 2"),
    (PLAY, NOTHING_DUE),
    (SWITCH_OFF, "switched Orders off"),
    (BACK_BY_2, "moved 2"),
    (
        LIST,
        "queues Orders 1/0/4, 2/0/4; Orders_0; Orders_1; Orders_2; Orders_3; Orders_4; Orders_DeadQueue; consumed 0",
    ),
    (
        r#"{"at":0,"do":"switch","app":"Orders","on":true}"#,
        "switched Orders on",
    ),
    (PLAY, "played 1 attempt 1 normal commit: -"),
    (TO_THE_DEAD_BY_5, "moved 1"),
];

// The tries and the due moment that a message had are gone. What is due later goes behind what is due earlier.
const TRIES: Rows = &[
    (TAKE_11_BOLTS, "sent 1"),
    (PLAY, "played 1 attempt 1 normal failed call 1 step 1: -"),
    (PLAY, "played 1 attempt 2 normal failed call 1 step 1: -"),
    (PLAY, "played 1 attempt 3 normal failed call 1 step 1: -"),
    (TAKE_11_BOLTS, "sent 2"),
    (PLAY, "played 2 attempt 4 normal failed call 1 step 1: -"),
    (PLAY, "played 2 attempt 5 normal failed call 1 step 1: -"),
    (PLAY, "played 2 attempt 6 normal failed call 1 step 1: -"),
    (
        r#"{"at":60,"do":"play","player":1,"app":"Orders"}"#,
        "played 1 attempt 7 normal failed call 1 step 1: -",
    ),
    (
        LIST,
        "queues Orders; Orders_0 2/0/60, 1/1/120; Orders_1; Orders_2; Orders_3; Orders_4; Orders_DeadQueue; consumed 0",
    ),
    (
        r#"{"at":61,"do":"move","from":"Orders_0","to":"Orders_3","batch":1}"#,
        "moved 2",
    ),
    (
        LIST,
        "queues Orders; Orders_0; Orders_1; Orders_2; Orders_3 1/0/61, 2/0/61; Orders_4; Orders_DeadQueue; consumed 0",
    ),
    (PLAY, "played 1 attempt 8 normal failed call 1 step 1: -"),
    (
        LIST,
        "queues Orders; Orders_0; Orders_1; Orders_2; Orders_3 2/0/61, 1/1/541; Orders_4; Orders_DeadQueue; consumed 0",
    ),
];

const REFUSED: Rows = &[
    (SWITCH_OFF, "switched Orders off"),
    (PLAY, "refused 19 SwitchedOff"),
    (
        r#"{"at":0,"do":"table","table":"none"}"#,
        "refused 17 UnknownTable",
    ),
    (
        r#"{"at":0,"do":"move","from":"Orders","to":"Orders_9","batch":1}"#,
        "refused 15 UnknownQueue to",
    ),
    (
        r#"{"at":0,"do":"move","from":"Orders","to":"Orders_0","batch":0}"#,
        "refused 16 BadBatch",
    ),
    (
        r#"{"at":0,"do":"move","from":"Orders_5","to":"Orders_9","batch":0}"#,
        "refused 15 UnknownQueue from",
    ),
    (
        r#"{"at":0,"do":"move","from":"Orders_4","to":"Orders_00","batch":1}"#,
        "refused 15 UnknownQueue to",
    ),
    (
        r#"{"at":0,"do":"move","from":"Orders_4","to":"Orders_DeadQueue","batch":1001}"#,
        "refused 16 BadBatch",
    ),
];

#[test]
fn messages_are_moved_from_queue_to_queue(rt: HostRuntime) -> Result<(), Fail> {
    let alloc = rt.alloc();
    for rows in [HELD, TO_ITSELF, BACK, TRIES, REFUSED] {
        let (lines, replies) = both(alloc, rows)?;
        let mut site = plain_site(alloc)?;
        let (status, sink) = drill(alloc, &mut site, &[lines.as_slice()])?;
        assert_eq!(rt; status, Status::Done);
        assert_eq!(rt; sink.contents(), replies.as_slice());
    }
    Ok(())
}

// Where messages were moved is read by the next drill.
#[test]
fn what_was_moved_is_read_again(rt: HostRuntime) -> Result<(), Fail> {
    let alloc = rt.alloc();
    let first: Rows = &[
        (TAKE_4_BOLTS, "sent 1"),
        (TAKE_4_BOLTS, "sent 2"),
        (TAKE_4_BOLTS, "sent 3"),
        (TO_THE_DEAD_BY_3, "moved 3"),
        (BACK_BY_2, "moved 3"),
        (TAKE_4_BOLTS, "sent 4"),
    ];
    let second: Rows = &[
        (
            LIST,
            "queues Orders 1/0/4, 2/0/4, 3/0/4, 4/0/4; Orders_0; Orders_1; Orders_2; Orders_3; Orders_4; Orders_DeadQueue; consumed 0",
        ),
        (PLAY, "played 1 attempt 1 normal commit: -"),
    ];
    let mut site = plain_site(alloc)?;
    for rows in [first, second] {
        let (lines, replies) = both(alloc, rows)?;
        let (status, sink) = drill(alloc, &mut site, &[lines.as_slice()])?;
        assert_eq!(rt; status, Status::Done);
        assert_eq!(rt; sink.contents(), replies.as_slice());
    }
    Ok(())
}

// As many messages are sent, and moved to the dead queue and back in batches of this size: their lines and replies.
fn moved_there_and_back(alloc: Global, count: u64, batch: u64) -> Result<(Vec<u8>, Vec<u8>), Fail> {
    let mut lines = Vec::new(alloc);
    let mut replies = Vec::new(alloc);
    for id in 1..=count {
        let reply = format!(in alloc; "sent {id}")?;
        put_line(&mut lines, TAKE_4_BOLTS)?;
        put_line(&mut replies, reply.as_str())?;
    }
    let reply = format!(in alloc; "moved {count}")?;
    for (from, to) in [
        ("Orders", "Orders_DeadQueue"),
        ("Orders_DeadQueue", "Orders"),
    ] {
        let line = format!(in alloc;
            "{{\"at\":0,\"do\":\"move\",\"from\":\"{from}\",\"to\":\"{to}\",\"batch\":{batch}}}"
        )?;
        put_line(&mut lines, line.as_str())?;
        put_line(&mut replies, reply.as_str())?;
    }
    put_line(&mut lines, PLAY)?;
    put_line(&mut replies, "played 1 attempt 1 normal commit: -")?;
    Ok((lines, replies))
}

#[test]
fn a_thousand_messages_are_moved(rt: HostRuntime) -> Result<(), Fail> {
    let alloc = rt.alloc();
    for batch in [1, 1_000] {
        let (lines, replies) = moved_there_and_back(alloc, 1_000, batch)?;
        let mut site = plain_site(alloc)?;
        let (status, sink) = drill(alloc, &mut site, &[lines.as_slice()])?;
        assert_eq!(rt; status, Status::Done);
        assert_eq!(rt; sink.contents(), replies.as_slice());
    }
    Ok(())
}
