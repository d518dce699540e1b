// Attempts in whose end a call of the site fails, or the site stops.
use crate::rows::*;
use qc_base::NoMemory;
use qc_drill_tests::{FILE, LOG, drill, trip};
use qc_memsite::{CallKind, Choice, MemSite, Trip};
use qc_protocol::Status;
use std::alloc::Global;
use std::test::Fail;

// A message and the lines of a drill that end an attempt on it, with the replies before that end. What the next drill
// shows where the attempt's fact isn't there, and where it is.
#[derive(Clone, Copy)]
struct Case {
    message: &'static str,
    lines: &'static [&'static str],
    replies: &'static [&'static str],
    without: Rows,
    with: Rows,
}

// The attempt commits: the message waits, or it is consumed and what it took is gone. In the end it was played once.
const WAITS: Rows = &[
    (LIST, LISTED_1),
    (STOCK, OPENED),
    (PLAY, "played 1 attempt 1 normal commit: -"),
    (LIST, CONSUMED_1),
    (STOCK, LESS_4_BOLTS),
];

const CONSUMED: Rows = &[
    (LIST, CONSUMED_1),
    (STOCK, LESS_4_BOLTS),
    (PLAY, NOTHING_DUE),
    (LIST, CONSUMED_1),
    (STOCK, LESS_4_BOLTS),
];

// The attempt fails: it counts as a try, or it doesn't.
const NOT_TRIED: Rows = &[
    (LIST, LISTED_1),
    (STOCK, OPENED),
    (PLAY, "played 1 attempt 1 normal failed call 1 step 1: -"),
];

const TRIED: Rows = &[
    (
        LIST,
        "queues Orders 1/1/0; Orders_0; Orders_1; Orders_2; Orders_3; Orders_4; Orders_DeadQueue; consumed 0",
    ),
    (STOCK, OPENED),
    (PLAY, "played 1 attempt 2 normal failed call 1 step 1: -"),
];

const PLAYED: Case = Case {
    message: TAKE_4_BOLTS,
    lines: &[PLAY],
    replies: &[],
    without: WAITS,
    with: CONSUMED,
};

const STEP_BY_STEP: Case = Case {
    message: TAKE_4_BOLTS,
    lines: &[TAKE_1, WORK, END, PHASE],
    replies: &["taken 1 attempt 1 normal calls 1", "worked call 1 left 0"],
    without: WAITS,
    with: CONSUMED,
};

const FAILED: Case = Case {
    message: TAKE_11_BOLTS,
    lines: &[PLAY],
    replies: &[],
    without: NOT_TRIED,
    with: TRIED,
};

fn lines_of(alloc: Global, lines: &[&str]) -> Result<Vec<u8>, NoMemory> {
    let mut all = Vec::new(alloc);
    for line in lines {
        put_line(&mut all, line)?;
    }
    Ok(all)
}

// Whether the site has the fact, by what the next drill shows: it is one of the two, and nothing else.
fn has_fact(alloc: Global, site: &mut MemSite, case: &Case) -> Result<bool, Fail> {
    let (lines, without) = both(alloc, case.without)?;
    let (_, with) = both(alloc, case.with)?;
    let (_, sink) = drill(alloc, site, &[lines.as_slice()])?;
    if sink.contents() == without.as_slice() {
        return Ok(false);
    }
    if sink.contents() == with.as_slice() {
        return Ok(true);
    }
    Err("another listing")?
}

fn image_has_fact(
    alloc: Global,
    site: &MemSite,
    choice: Choice,
    case: &Case,
) -> Result<bool, Fail> {
    let mut image = site.crash_image(alloc, choice)?;
    has_fact(alloc, &mut image, case)
}

// The drill of a case, in which the calls of this plan fail: the site, how the drill ended, and how much it wrote.
fn planned(
    alloc: Global,
    sent: &MemSite,
    case: &Case,
    plan: Vec<Trip>,
) -> Result<(MemSite, Status, usize), Fail> {
    let lines = lines_of(alloc, case.lines)?;
    let mut site = sent.crash_image(alloc, Choice::New)?;
    site.set_plan(plan);
    let (status, sink) = drill(alloc, &mut site, &[lines.as_slice()])?;
    Ok((site, status, sink.contents().len()))
}

// How it ends where this call of the site fails, and whether what is left has the fact.
fn failed(
    alloc: Global,
    sent: &MemSite,
    case: &Case,
    kind: CallKind,
    nth: u32,
) -> Result<(Status, usize, bool), Fail> {
    let plan = trip(alloc, kind, nth, false)?;
    let (mut site, status, written) = planned(alloc, sent, case, plan)?;
    site.set_plan(Vec::new(alloc));
    Ok((status, written, has_fact(alloc, &mut site, case)?))
}

// How it ends where the site stops at this call, and whether each image has the fact.
fn stopped(
    alloc: Global,
    sent: &MemSite,
    case: &Case,
    kind: CallKind,
    nth: u32,
) -> Result<(Status, usize, [bool; 3]), Fail> {
    let plan = trip(alloc, kind, nth, true)?;
    let (site, status, written) = planned(alloc, sent, case, plan)?;
    let images = [
        image_has_fact(alloc, &site, Choice::Old, case)?,
        image_has_fact(alloc, &site, Choice::New, case)?,
        image_has_fact(alloc, &site, Choice::Flip, case)?,
    ];
    Ok((status, written, images))
}

// The calls of each kind that the opening and a play make. One more is never made. The last sync of the journal fails
// behind the write that opens the gate.
#[test]
fn a_play_that_fails_or_is_stopped_leaves_its_fact_or_none(rt: HostRuntime) -> Result<(), Fail> {
    let alloc = rt.alloc();
    let table = [
        (CallKind::Sync(FILE), 3u32),
        (CallKind::Len(FILE), 1),
        (CallKind::Read(FILE), 6),
        (CallKind::Write(FILE), 2),
        (CallKind::Cut(FILE), 0),
        (CallKind::Sync(LOG), 1),
        (CallKind::Len(LOG), 1),
        (CallKind::Read(LOG), 2),
        (CallKind::Write(LOG), 0),
        (CallKind::RowPut, 0),
    ];
    let sent = site_after(alloc, &[PLAYED.message])?;
    for (kind, calls) in table {
        for nth in 1..=calls {
            let opened = kind == CallKind::Sync(FILE) && nth == 3;
            assert_eq!(rt;
                failed(alloc, &sent, &PLAYED, kind, nth)?,
                (Status::SiteFault, 0, opened),
                "{kind:?} {nth}"
            );
            assert_eq!(rt;
                stopped(alloc, &sent, &PLAYED, kind, nth)?,
                (Status::SiteFault, 0, [false, opened, false]),
                "{kind:?} {nth}"
            );
        }
        let (status, _, there) = failed(alloc, &sent, &PLAYED, kind, calls.saturating_add(1))?;
        assert_eq!(rt; (status, there), (Status::Done, true), "{kind:?}");
    }
    Ok(())
}

// What was replied before the end stands.
#[test]
fn an_end_that_fails_or_is_stopped_leaves_its_fact_or_none(rt: HostRuntime) -> Result<(), Fail> {
    let alloc = rt.alloc();
    let table = [
        (CallKind::Write(FILE), 1, false),
        (CallKind::Sync(FILE), 2, false),
        (CallKind::Write(FILE), 2, false),
        (CallKind::Sync(FILE), 3, true),
    ];
    for case in [STEP_BY_STEP, FAILED] {
        let sent = site_after(alloc, &[case.message])?;
        let before = lines_of(alloc, case.replies)?.len();
        for (kind, nth, opened) in table {
            assert_eq!(rt;
                failed(alloc, &sent, &case, kind, nth)?,
                (Status::SiteFault, before, opened),
                "{kind:?} {nth}"
            );
            assert_eq!(rt;
                stopped(alloc, &sent, &case, kind, nth)?,
                (Status::SiteFault, before, [false, opened, false]),
                "{kind:?} {nth}"
            );
        }
    }
    Ok(())
}
