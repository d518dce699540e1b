// Replies, and their texts.
use crate::{print_recovered, print_reply};
use qc_base::{
    Amount, Heard, Ids, Kind, Moment, Name, Notice, Notices, Queue, Queues, Recovered, Stage, Text,
    Waiting, Why,
};
use qc_protocol::{Member, Refusal, Reply, ShownRow, ShownRows, Side};
use std::alloc::Global;
use std::test::Fail;

fn name(text: &str) -> Result<Name, Fail> {
    Ok(Name::read(text.as_bytes()).ok_or("no name")?)
}

#[test]
fn replies_of_numbers_and_words(rt: HostRuntime) -> Result<(), Fail> {
    let table = [
        (Reply::Opened, "opened"),
        (Reply::Recorded(2), "recorded 2"),
        (
            Reply::Sent(18446744073709551615),
            "sent 18446744073709551615",
        ),
        (Reply::SentNothing, "sent nothing"),
        (Reply::Cancelled(1), "cancelled 1"),
        (
            Reply::Taken(3, 2, Kind::Normal, 1),
            "taken 3 attempt 2 normal calls 1",
        ),
        (Reply::Worked(0, 2), "worked call 0 left 2"),
        (Reply::StepFailed(1, 32), "failed call 1 step 32"),
        (Reply::Moved(5), "moved 5"),
        (Reply::Switched(name("Orders")?, true), "switched Orders on"),
        (
            Reply::Switched(name("Orders")?, false),
            "switched Orders off",
        ),
    ];
    for (reply, want) in &table {
        assert!(rt;
            print_reply(rt.alloc(), reply)?.as_slice() == want.as_bytes(),
            "{want}"
        );
    }
    Ok(())
}

const REFUSALS: [(Refusal, &str); 23] = [
    (Refusal::LineTooLong, "refused 1 LineTooLong"),
    (Refusal::Malformed(Member::At), "refused 2 Malformed at"),
    (
        Refusal::Malformed(Member::Unknown),
        "refused 2 Malformed unknown",
    ),
    (Refusal::NotBuilt, "refused 3 NotBuilt"),
    (Refusal::NoSuchSlot(17), "refused 4 NoSuchSlot 17"),
    (Refusal::SlotBusy(0), "refused 5 SlotBusy 0"),
    (Refusal::SlotIdle, "refused 6 SlotIdle"),
    (Refusal::Over(1, 2), "refused 7 Over 1 2"),
    (
        Refusal::WrongStage(Stage::Calls),
        "refused 8 WrongStage calls",
    ),
    (Refusal::UnknownApp, "refused 9 UnknownApp"),
    (Refusal::UnknownComponent, "refused 10 UnknownComponent"),
    (Refusal::UnknownMethod(1), "refused 11 UnknownMethod 1"),
    (Refusal::BadArguments(1, 2), "refused 12 BadArguments 1 2"),
    (Refusal::TooManyCalls, "refused 13 TooManyCalls"),
    (Refusal::TooLong(16958), "refused 14 TooLong 16958"),
    (
        Refusal::UnknownQueue(Side::From),
        "refused 15 UnknownQueue from",
    ),
    (
        Refusal::UnknownQueue(Side::To),
        "refused 15 UnknownQueue to",
    ),
    (Refusal::BadBatch, "refused 16 BadBatch"),
    (Refusal::UnknownTable, "refused 17 UnknownTable"),
    (Refusal::TooManyMessages(1), "refused 18 TooManyMessages 1"),
    (Refusal::SwitchedOff, "refused 19 SwitchedOff"),
    (
        Refusal::NothingDue(None, 1),
        "refused 20 NothingDue earliest none blocked 1",
    ),
    (Refusal::Full(81), "refused 21 Full 81"),
];

#[test]
fn refusals_have_numbers_names_and_fields(rt: HostRuntime) -> Result<(), Fail> {
    for (refusal, want) in REFUSALS {
        let text = print_reply(rt.alloc(), &Reply::Refused(refusal))?;
        assert!(rt; text.as_slice() == want.as_bytes(), "{want}");
    }
    Ok(())
}

fn notices(alloc: Global, resource: &str, heard: &[Heard]) -> Result<Notices, Fail> {
    let resource = name(resource)?;
    let mut items = Vec::new(alloc);
    for heard in heard {
        items.push(Notice {
            resource,
            heard: *heard,
        })?;
    }
    Ok(Notices::over(items))
}

#[test]
fn attempts_with_their_notices(rt: HostRuntime) -> Result<(), Fail> {
    let heard = [
        Heard::BeginPrepare,
        Heard::PrepareRecord(1, false),
        Heard::EndPrepare(true),
        Heard::BeginCommit(false),
        Heard::CommitRecord(1),
        Heard::EndCommit,
    ];
    let played = Reply::Played(1, 1, Kind::Normal, notices(rt.alloc(), "till", &heard)?);
    let want =
        "played 1 attempt 1 normal commit: till BeginPrepare, till PrepareRecord 1 keep, till EndPrepare ready, till BeginCommit false, till CommitRecord 1, till EndCommit";
    assert!(rt; print_reply(rt.alloc(), &played)?.as_slice() == want.as_bytes());
    let heard = [
        Heard::PrepareRecord(2, true),
        Heard::EndPrepare(false),
        Heard::BeginAbort(true),
        Heard::AbortRecord(4294967295),
        Heard::EndAbort,
    ];
    let why = Why::NotReady(name("till")?);
    let failed = Reply::PlayFailed(1, 2, Kind::Final, why, notices(rt.alloc(), "till", &heard)?);
    let want =
        "played 1 attempt 2 final failed notready till: till PrepareRecord 2 forget, till EndPrepare notready, till BeginAbort true, till AbortRecord 4294967295, till EndAbort";
    assert!(rt; print_reply(rt.alloc(), &failed)?.as_slice() == want.as_bytes());
    Ok(())
}

#[test]
fn attempts_without_notices(rt: HostRuntime) -> Result<(), Fail> {
    let none = || Notices::over(Vec::new(rt.alloc()));
    let table = [
        (Reply::Committed(1, none()), "committed attempt 1: -"),
        (
            Reply::NotCommitted(1, Why::Step(1, 3), none()),
            "failed attempt 1 call 1 step 3: -",
        ),
        (
            Reply::Finished(1, true, none()),
            "finished attempt 1 commit: -",
        ),
        (
            Reply::Finished(1, false, none()),
            "finished attempt 1 abort: -",
        ),
        (
            Reply::PlayFailed(1, 1, Kind::Normal, Why::Forced, none()),
            "played 1 attempt 1 normal failed forced: -",
        ),
    ];
    for (reply, want) in &table {
        assert!(rt;
            print_reply(rt.alloc(), reply)?.as_slice() == want.as_bytes(),
            "{want}"
        );
    }
    let heard = notices(
        rt.alloc(),
        "post",
        &[Heard::BeginCommit(true), Heard::EndCommit],
    )?;
    let what = Recovered {
        attempt: 7,
        committed: true,
        notices: heard,
    };
    let want = "recovered attempt 7 commit: post BeginCommit true, post EndCommit";
    assert!(rt; print_recovered(rt.alloc(), &what)?.as_slice() == want.as_bytes());
    Ok(())
}

fn queues(alloc: Global, first: &[Waiting]) -> Result<Queues, Fail> {
    let mut items = Vec::new(alloc);
    items.push(Queue::over(Vec::from_slice(alloc, first)?))?;
    for _ in 0..5 {
        items.push(Queue::over(Vec::new(alloc)))?;
    }
    Ok(Queues::over(items))
}

#[test]
fn queues_in_order(rt: HostRuntime) -> Result<(), Fail> {
    let alloc = rt.alloc();
    let first = Waiting {
        id: 1,
        tries: 0,
        due: Moment::clamp(0),
    };
    let second = Waiting {
        id: 2,
        tries: 3,
        due: Moment::clamp(60),
    };
    let one = Reply::Queues(
        name("Orders")?,
        queues(alloc, &[first])?,
        Ids::over(Vec::new(alloc)),
        0,
    );
    let want =
        "queues Orders 1/0/0; Orders_0; Orders_1; Orders_2; Orders_3; Orders_4; Orders_DeadQueue; consumed 0";
    assert!(rt; print_reply(alloc, &one)?.as_slice() == want.as_bytes());
    let dead = Ids::over(Vec::from_slice(alloc, &[3, 4])?);
    let more = Reply::Queues(name("A")?, queues(alloc, &[first, second])?, dead, 5);
    let want = "queues A 1/0/0, 2/3/60; A_0; A_1; A_2; A_3; A_4; A_DeadQueue 3, 4; consumed 5";
    assert!(rt; print_reply(alloc, &more)?.as_slice() == want.as_bytes());
    Ok(())
}

fn row(key: &str, amount: Option<Amount>) -> Result<ShownRow, Fail> {
    let key = Text::read(key.as_bytes()).ok_or("no text")?;
    Ok(ShownRow { key, amount })
}

#[test]
fn rows_and_their_total(rt: HostRuntime) -> Result<(), Fail> {
    let alloc = rt.alloc();
    let rows = [row("a\"\\", Amount::new(6))?, row("nut", None)?];
    let rows = ShownRows::over(Vec::from_slice(alloc, &rows)?);
    let outside = Reply::Outside(name("till")?, rows, 6);
    let want = "outside till \"a\\\"\\\\\" 6, \"nut\" missing; total 6";
    assert!(rt; print_reply(alloc, &outside)?.as_slice() == want.as_bytes());
    let wide = 340282366920938463463374607431768211455;
    let table = Reply::Table(name("lost")?, ShownRows::over(Vec::new(alloc)), wide);
    let want = "table lost; total 340282366920938463463374607431768211455";
    assert!(rt; print_reply(alloc, &table)?.as_slice() == want.as_bytes());
    Ok(())
}
