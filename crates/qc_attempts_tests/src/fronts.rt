// Moves in which a call of the site fails, or the site stops: a front of the batches stands.
use crate::rows::*;
use qc_base::NoMemory;
use qc_drill_tests::{FILE, LOG, drill, trip};
use qc_memsite::{CallKind, Choice, MemSite, Trip};
use qc_protocol::Status;
use std::alloc::Global;
use std::test::Fail;

const MOVE_BY_2: &str = r#"{"at":0,"do":"move","from":"Orders","to":"Orders_DeadQueue","batch":2}"#;

// What is listed where so many batches of five messages stand.
const LISTED: [&str; 4] = [
    "queues Orders 1/0/0, 2/0/0, 3/0/0, 4/0/0, 5/0/0; Orders_0; Orders_1; Orders_2; Orders_3; Orders_4; Orders_DeadQueue; consumed 0",
    "queues Orders 3/0/0, 4/0/0, 5/0/0; Orders_0; Orders_1; Orders_2; Orders_3; Orders_4; Orders_DeadQueue 1, 2; consumed 0",
    "queues Orders 5/0/0; Orders_0; Orders_1; Orders_2; Orders_3; Orders_4; Orders_DeadQueue 1, 2, 3, 4; consumed 0",
    "queues Orders; Orders_0; Orders_1; Orders_2; Orders_3; Orders_4; Orders_DeadQueue 1, 2, 3, 4, 5; consumed 0",
];

fn one_line(alloc: Global, line: &str) -> Result<Vec<u8>, NoMemory> {
    let mut all = Vec::new(alloc);
    put_line(&mut all, line)?;
    Ok(all)
}

// How many batches stand on the site, by what the next drill lists.
fn batches_on(alloc: Global, site: &mut MemSite) -> Result<usize, Fail> {
    let line = one_line(alloc, LIST)?;
    let (_, sink) = drill(alloc, site, &[line.as_slice()])?;
    for (batches, listed) in LISTED.iter().enumerate() {
        if sink.contents() == one_line(alloc, listed)?.as_slice() {
            return Ok(batches);
        }
    }
    Err("another listing")?
}

fn batches_in_image(alloc: Global, site: &MemSite, choice: Choice) -> Result<usize, Fail> {
    let mut image = site.crash_image(alloc, choice)?;
    batches_on(alloc, &mut image)
}

// The move in a drill of its own, in which the calls of this plan fail: the site, how the drill ended, and how much it
// wrote.
fn planned(
    alloc: Global,
    sent: &MemSite,
    plan: Vec<Trip>,
) -> Result<(MemSite, Status, usize), Fail> {
    let line = one_line(alloc, MOVE_BY_2)?;
    let mut site = sent.crash_image(alloc, Choice::New)?;
    site.set_plan(plan);
    let (status, sink) = drill(alloc, &mut site, &[line.as_slice()])?;
    Ok((site, status, sink.contents().len()))
}

// How it ends where this call of the site fails, and how many batches are left.
fn failed(
    alloc: Global,
    sent: &MemSite,
    kind: CallKind,
    nth: u32,
) -> Result<(Status, usize, usize), Fail> {
    let plan = trip(alloc, kind, nth, false)?;
    let (mut site, status, written) = planned(alloc, sent, plan)?;
    site.set_plan(Vec::new(alloc));
    Ok((status, written, batches_on(alloc, &mut site)?))
}

// How it ends where the site stops at this call, and how many batches each image has.
fn stopped(
    alloc: Global,
    sent: &MemSite,
    kind: CallKind,
    nth: u32,
) -> Result<(Status, usize, [usize; 3]), Fail> {
    let plan = trip(alloc, kind, nth, true)?;
    let (site, status, written) = planned(alloc, sent, plan)?;
    let images = [
        batches_in_image(alloc, &site, Choice::Old)?,
        batches_in_image(alloc, &site, Choice::New)?,
        batches_in_image(alloc, &site, Choice::Flip)?,
    ];
    Ok((status, written, images))
}

// How many batches stand before this call of the move, which has two writes and two syncs for each, and how many where
// the call is the sync behind the write that opens a batch's gate. The opening makes the first sync.
fn batches_at(kind: CallKind, nth: u32) -> (usize, usize) {
    let before = match kind {
        CallKind::Write(FILE) => nth.saturating_sub(1),
        CallKind::Sync(FILE) => nth.saturating_sub(2),
        _ => 0,
    };
    let stand = (before / 2) as usize;
    if kind == CallKind::Sync(FILE) && before % 2 == 1 {
        return (stand, stand.saturating_add(1));
    }
    (stand, stand)
}

// The calls of each kind that the opening and the move make. One more is never made.
#[test]
fn a_move_that_fails_or_is_stopped_leaves_a_front(rt: HostRuntime) -> Result<(), Fail> {
    let alloc = rt.alloc();
    let table = [
        (CallKind::Sync(FILE), 7u32),
        (CallKind::Len(FILE), 1),
        (CallKind::Read(FILE), 14),
        (CallKind::Write(FILE), 6),
        (CallKind::Cut(FILE), 0),
        (CallKind::Sync(LOG), 1),
        (CallKind::Len(LOG), 1),
        (CallKind::Read(LOG), 2),
        (CallKind::Write(LOG), 0),
        (CallKind::RowPut, 0),
    ];
    let sent = site_after(
        alloc,
        &[
            TAKE_4_BOLTS,
            TAKE_4_BOLTS,
            TAKE_4_BOLTS,
            TAKE_4_BOLTS,
            TAKE_4_BOLTS,
        ],
    )?;
    for (kind, calls) in table {
        for nth in 1..=calls {
            let (stand, opened) = batches_at(kind, nth);
            assert_eq!(rt;
                failed(alloc, &sent, kind, nth)?,
                (Status::SiteFault, 0, opened),
                "{kind:?} {nth}"
            );
            assert_eq!(rt;
                stopped(alloc, &sent, kind, nth)?,
                (Status::SiteFault, 0, [stand, opened, stand]),
                "{kind:?} {nth}"
            );
        }
        let (status, _, batches) = failed(alloc, &sent, kind, calls.saturating_add(1))?;
        assert_eq!(rt; (status, batches), (Status::Done, 3), "{kind:?}");
    }
    Ok(())
}
