// Room in the journal and for messages, by the hub.
use super::*;
use qc_base::{Moment, Word};
use qc_machine::Limits;
use qc_protocol::{Act, Order, RawArg, RawArgs, RawCall, RawCalls, Refusal, Reply};
use qc_site::Site;
use std::test::Fail;

const TAKE_4_BOLTS: &[u8] =
    b"{\"at\":0,\"do\":\"send\",\"app\":\"Orders\",\"component\":\"Plain\",\"calls\":[[\"Take\",\"bolt\",4]]}\n";

fn word(alloc: Global, text: &str) -> Result<Word, Fail> {
    Ok(Word::over(Vec::from_slice(alloc, text.as_bytes())?))
}

// Place("bolt", 4).
fn place(alloc: Global) -> Result<RawCalls, Fail> {
    let mut args = Vec::new(alloc);
    args.push(RawArg::Text(word(alloc, "bolt")?))?;
    args.push(RawArg::Whole(4))?;
    let mut calls = Vec::new(alloc);
    calls.push(RawCall {
        method: word(alloc, "Place")?,
        args: RawArgs::over(args),
    })?;
    Ok(RawCalls::over(calls))
}

fn order(alloc: Global) -> Result<Order, Fail> {
    let act = Act::Send(word(alloc, "Orders")?, word(alloc, "Order")?, place(alloc)?);
    Ok(Order {
        at: Moment::clamp(0),
        act,
    })
}

// The reply of a hub of its own to an order. None is a fault.
fn applied(alloc: Global, site: &mut MemSite, limits: Limits, order: &Order) -> Option<Reply> {
    let mut hub = Hub::open(alloc, site, limits).ok()?;
    hub.apply(alloc, site, order).ok()
}

// The reply of a hub of its own to these calls of `Order`. None is a fault.
fn sent(
    alloc: Global,
    site: &mut MemSite,
    limits: Limits,
    at: Moment,
    calls: &[RawCall],
) -> Option<Reply> {
    match Hub::open(alloc, site, limits) {
        Ok(mut hub) => hub.send(alloc, site, at, b"Orders", b"Order", calls).ok(),
        Err(_) => None,
    }
}

// The reply of a hub of its own to player 1, who takes a message. None is a fault.
fn taken(alloc: Global, site: &mut MemSite, limits: Limits) -> Option<Reply> {
    let mut hub = Hub::open(alloc, site, limits).ok()?;
    hub.take(alloc, site, Moment::clamp(0), 1, b"Orders").ok()
}

// The id that was sent or the number of the attempt that was taken, or 0 and what the file that has no room has more
// than when it was made, and 1.
fn told(reply: Option<Reply>, made: u64) -> (u64, u64) {
    match reply {
        Some(Reply::Sent(id)) => (id, 0),
        Some(Reply::Taken(_, attempt, _, _)) => (attempt, 0),
        Some(Reply::Refused(Refusal::Full(length))) => {
            (0, length.saturating_sub(made).saturating_add(1))
        }
        _ => (0, 0),
    }
}

// Where the file may have so many bytes more than when it was made.
fn more_than(made: u64, more: u64) -> Limits {
    Limits {
        log_bytes: made.saturating_add(more),
        live: 100,
    }
}

// A send by each of the two calls, each by a hub of its own. The length of a file that has no room is told by what it
// has more.
fn two_sends(alloc: Global, more: u64) -> Result<[(u64, u64); 2], Fail> {
    let mut site = new_site(alloc)?;
    let made = site.len(FILE)?;
    let limits = more_than(made, more);
    let order = order(alloc)?;
    let calls = place(alloc)?;
    let first = applied(alloc, &mut site, limits, &order);
    let second = sent(alloc, &mut site, limits, order.at, calls.as_slice());
    Ok([told(first, made), told(second, made)])
}

#[test]
fn a_send_past_the_room_is_refused(rt: HostRuntime) -> Result<(), Fail> {
    let alloc = rt.alloc();
    let table = [
        (63, [(0, 1), (0, 1)]),
        (64, [(1, 0), (0, 65)]),
        (127, [(1, 0), (0, 65)]),
        (128, [(1, 0), (2, 0)]),
    ];
    for (more, told) in table {
        assert_eq!(rt; two_sends(alloc, more)?, told, "{more}");
    }
    Ok(())
}

#[test]
fn an_attempt_sets_room_aside(rt: HostRuntime) -> Result<(), Fail> {
    let alloc = rt.alloc();
    for (more, number) in [(34, (0, 1)), (35, (1, 0))] {
        let mut site = new_site(alloc)?;
        drill(alloc, &mut site, &[TAKE_4_BOLTS])?;
        let made = site.len(FILE)?;
        let reply = taken(alloc, &mut site, more_than(made, more));
        assert_eq!(rt; told(reply, made), number, "{more}");
    }
    Ok(())
}
