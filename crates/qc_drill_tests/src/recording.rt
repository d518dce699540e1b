// Clients and what they record.
use super::*;
use crate::texts::*;
use qc_site::Site;
use std::test::Fail;

const TAKE_ONE: &[u8] =
    b"{\"at\":0,\"do\":\"send\",\"app\":\"Orders\",\"component\":\"Plain\",\"calls\":[[\"Take\",\"bolt\",1]]}\n";

// Lines and their replies, one of each a row.
const LINES: &[(&str, &str)] = &[
    (
        r#"{"at":0,"do":"open","client":1,"app":"Orders","component":"None"}"#,
        "refused 10 UnknownComponent",
    ),
    (
        r#"{"at":0,"do":"open","client":1,"app":"None","component":"Order"}"#,
        "refused 9 UnknownApp",
    ),
    (
        r#"{"at":0,"do":"open","client":17,"app":"None","component":"Order"}"#,
        "refused 4 NoSuchSlot 17",
    ),
    (
        r#"{"at":0,"do":"open","client":0,"app":"None","component":"Order"}"#,
        "refused 4 NoSuchSlot 0",
    ),
    (
        r#"{"at":0,"do":"open","client":1,"app":"Orders","component":"Order"}"#,
        "opened",
    ),
    (
        r#"{"at":0,"do":"open","client":1,"app":"None","component":"Order"}"#,
        "refused 5 SlotBusy 0",
    ),
    (
        r#"{"at":0,"do":"call","client":1,"method":"Nil","args":[]}"#,
        "refused 11 UnknownMethod 1",
    ),
    (
        r#"{"at":0,"do":"call","client":1,"method":"Place","args":["",4]}"#,
        "refused 12 BadArguments 1 1",
    ),
    (
        r#"{"at":0,"do":"call","client":1,"method":"Place","args":["bolt","nut"]}"#,
        "refused 12 BadArguments 1 2",
    ),
    (r#"{"at":0,"do":"commit","client":1}"#, "sent nothing"),
    (r#"{"at":0,"do":"commit","client":1}"#, "refused 6 SlotIdle"),
    (
        r#"{"at":0,"do":"call","client":1,"method":"Nil","args":[]}"#,
        "refused 6 SlotIdle",
    ),
    (r#"{"at":0,"do":"cancel","client":1}"#, "refused 6 SlotIdle"),
    (
        r#"{"at":0,"do":"cancel","client":17}"#,
        "refused 4 NoSuchSlot 17",
    ),
    (
        r#"{"at":0,"do":"move","from":"Orders","to":"Orders","batch":1}"#,
        "moved 0",
    ),
    (
        r#"{"at":7,"do":"open","client":16,"app":"Orders","component":"Order"}"#,
        "opened",
    ),
    (
        r#"{"at":2,"do":"open","client":2,"app":"Orders","component":"Plain"}"#,
        "opened",
    ),
    (
        r#"{"at":2,"do":"call","client":16,"method":"Place","args":["bolt",4]}"#,
        "recorded 1",
    ),
    (
        r#"{"at":2,"do":"call","client":2,"method":"Doom","args":[]}"#,
        "recorded 1",
    ),
    (
        r#"{"at":2,"do":"call","client":16,"method":"Notify","args":[1]}"#,
        "recorded 2",
    ),
    (
        r#"{"at":2,"do":"call","client":16,"method":"Notify","args":["1"]}"#,
        "refused 12 BadArguments 3 1",
    ),
    (
        r#"{"at":2,"do":"open","client":16,"app":"Orders","component":"Order"}"#,
        "refused 5 SlotBusy 2",
    ),
    (r#"{"at":2,"do":"commit","client":16}"#, "sent 1"),
    (r#"{"at":2,"do":"cancel","client":2}"#, "cancelled 1"),
    (r#"{"at":2,"do":"commit","client":2}"#, "refused 6 SlotIdle"),
    (
        r#"{"at":2,"do":"send","app":"Orders","component":"Order","calls":[]}"#,
        "sent nothing",
    ),
    (
        r#"{"at":2,"do":"send","app":"Orders","component":"None","calls":[]}"#,
        "refused 10 UnknownComponent",
    ),
    (
        r#"{"at":2,"do":"send","app":"Orders","component":"Order","calls":[["Place","",4]]}"#,
        "refused 12 BadArguments 1 1",
    ),
    (
        r#"{"at":2,"do":"send","app":"Orders","component":"Order","calls":[["Place","bolt"]]}"#,
        "refused 12 BadArguments 1 2",
    ),
    (
        r#"{"at":2,"do":"send","app":"Orders","component":"Order","calls":[["Place","bolt",1,2]]}"#,
        "refused 12 BadArguments 1 3",
    ),
    (
        r#"{"at":2,"do":"send","app":"Orders","component":"Order","calls":[["Place","bolt",1],["Nil"]]}"#,
        "refused 11 UnknownMethod 2",
    ),
    (
        r#"{"at":2,"do":"queues","app":"None"}"#,
        "refused 9 UnknownApp",
    ),
    (
        r#"{"at":2,"do":"queues","app":"Orders"}"#,
        "queues Orders 1/0/7; Orders_0; Orders_1; Orders_2; Orders_3; Orders_4; Orders_DeadQueue; consumed 0",
    ),
];

#[test]
fn what_fits_is_recorded_and_sent(rt: HostRuntime) -> Result<(), Fail> {
    let alloc = rt.alloc();
    let mut input = Vec::new(alloc);
    let mut replies = Vec::new(alloc);
    for (line, reply) in LINES {
        input.extend_from_slice(line.as_bytes())?;
        input.push(b'\n')?;
        replies.extend_from_slice(reply.as_bytes())?;
        replies.push(b'\n')?;
    }
    let mut site = new_site(alloc)?;
    let (status, sink) = drill(alloc, &mut site, &[input.as_slice()])?;
    assert_eq!(rt; status, Status::Done);
    assert_eq!(rt; sink.contents(), replies.as_slice());
    Ok(())
}

// A client that makes so many calls, and commits.
fn calls_of_one(alloc: Global, count: usize) -> Result<Vec<u8>, Fail> {
    let mut input = Vec::new(alloc);
    input.extend_from_slice(
        b"{\"at\":0,\"do\":\"open\",\"client\":3,\"app\":\"Orders\",\"component\":\"Order\"}\n",
    )?;
    for _ in 0..count {
        input.extend_from_slice(
            b"{\"at\":0,\"do\":\"call\",\"client\":3,\"method\":\"Notify\",\"args\":[1]}\n",
        )?;
    }
    input.extend_from_slice(b"{\"at\":0,\"do\":\"commit\",\"client\":3}\n")?;
    Ok(input)
}

// What such a client is told, where the 65th call is one too many.
fn replies_to_one(alloc: Global) -> Result<Vec<u8>, Fail> {
    let mut replies = Vec::new(alloc);
    replies.extend_from_slice(b"opened\n")?;
    for number in 1..65u64 {
        let line = format!(in alloc; "recorded {number}\n")?;
        replies.extend_from_slice(line.as_bytes())?;
    }
    replies.extend_from_slice(b"refused 13 TooManyCalls\nsent 1\n")?;
    Ok(replies)
}

#[test]
fn a_client_records_64_calls(rt: HostRuntime) -> Result<(), Fail> {
    let alloc = rt.alloc();
    let mut site = new_site(alloc)?;
    let input = calls_of_one(alloc, 65)?;
    let (status, sink) = drill(alloc, &mut site, &[input.as_slice()])?;
    assert_eq!(rt; status, Status::Done);
    assert_eq!(rt; sink.contents(), replies_to_one(alloc)?.as_slice());
    Ok(())
}

// Where the name of the method that the message calls stands in the journal's first fact.
fn method_name(made: u64) -> Result<u64, Fail> {
    let Some(place) = sample().find("Plain.method.Take") else {
        return Err("no such method")?;
    };
    let behind = sample().len().saturating_sub(place) as u64;
    Ok(
        made.saturating_sub(1)
            .saturating_sub(behind)
            .saturating_add(13),
    )
}

#[test]
fn a_message_that_no_longer_fits_is_damage(rt: HostRuntime) -> Result<(), Fail> {
    let alloc = rt.alloc();
    let mut site = new_site(alloc)?;
    let made = site.len(FILE)?;
    let (_, sent) = drill(alloc, &mut site, &[TAKE_ONE])?;
    assert_eq!(rt; sent.contents(), SENT_1);
    let at = method_name(made)?;
    let length = site.len(FILE)?;
    if at > length {
        return Err("no such byte")?;
    }
    site.write_at(FILE, at, b"M")?;
    let (status, sink) = drill(alloc, &mut site, &[LIST])?;
    assert_eq!(rt; status, Status::Damaged);
    let damaged = format!(in alloc; "damaged journal at {}\n", made.saturating_add(4))?;
    assert_eq!(rt; sink.contents(), damaged.as_bytes());
    Ok(())
}
