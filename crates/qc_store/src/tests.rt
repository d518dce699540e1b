ghost use Rattle.std.specs.Prelude.{◌≡◌, ◌≤◌, length, All, IfOk, IsTrue};
ghost use Rattle.qc_store.specs.Live.{is_live, is_waiting};

use crate::{Store, next_place};
use qc_base::{
    Amount, Arg, Args, Call, Calls, Moment, Name, NoMemory, Place, Recording, Text, Waiting,
};
use std::alloc::Global;
use std::test::Fail;

fn name(bytes: &str) -> Result<Name, NoMemory> {
    Name::read(bytes.as_bytes()).ok_or(NoMemory)
}

fn recording(alloc: Global, app: &str) -> Result<Recording, NoMemory> {
    Ok(Recording {
        app: name(app)?,
        component: name("Order")?,
        calls: Calls::over(Vec::new(alloc)),
    })
}

/// One message more, under the next id.
fn add(store: &mut Store, alloc: Global, app: &str, at: u64) -> Result<(), Fail>
    requires { All (λ m. m.id ≤ length store.old.messages) store.old.messages }
    ensures { IfOk result (λ _. All (λ m. m.id ≤ length store.new.messages) store.new.messages) }
{
    let recording = recording(alloc, app)?;
    store.reserve(alloc)?;
    store.insert(store.len() + 1, recording, false, Moment::clamp(at));
    Ok(())
}

fn sample(alloc: Global) -> Result<Store, Fail> {
    let mut store = Store::make(alloc)?;
    add(&mut store, alloc, "Orders", 60)?;
    add(&mut store, alloc, "Orders", 0)?;
    add(&mut store, alloc, "Orders", 60)?;
    add(&mut store, alloc, "Orders", 0)?;
    add(&mut store, alloc, "Orders", 0)?;
    add(&mut store, alloc, "Orders", 0)?;
    add(&mut store, alloc, "Billing", 7)?;
    add(&mut store, alloc, "Orders", 0)?;
    let _failed = fails(&mut store, 1, 60) && fails(&mut store, 1, 60) && fails(&mut store, 3, 60);
    let _moved = are_moved(&mut store, [4, 4], 1, 0) && are_moved(&mut store, [8, 5], 6, 0);
    let _played = is_played(&mut store, 6, 1);
    Ok(store)
}

fn shown(id: u64, tries: u8, due: u64) -> Waiting {
    Waiting {
        id,
        tries,
        due: Moment::clamp(due),
    }
}

/// Whether the queue's listing is the expected one.
fn lists(
    store: &Store,
    alloc: Global,
    app: &str,
    queue: u8,
    expected: &[Waiting],
) -> Result<bool, NoMemory> {
    let list = store.queue_list(alloc, app.as_bytes(), queue)?;
    Ok(list.as_slice() == expected)
}

#[test]
fn queues_are_listed_by_due_moment_and_then_by_id(rt: HostRuntime) -> Result<(), Fail> {
    let alloc = rt.alloc();
    let store = sample(alloc)?;
    let input = [shown(2, 0, 0), shown(1, 2, 60), shown(3, 1, 60)];
    assert!(rt; lists(&store, alloc, "Orders", 0, &input)?);
    assert!(rt; lists(&store, alloc, "Orders", 1, &[shown(4, 0, 0)])?);
    assert!(rt; lists(&store, alloc, "Orders", 2, &[])?);
    assert!(rt;
        lists(
            &store,
            alloc,
            "Orders",
            6,
            &[shown(5, 0, 0), shown(8, 0, 0)]
        )?
    );
    assert!(rt; lists(&store, alloc, "Billing", 0, &[shown(7, 0, 7)])?);
    assert!(rt; lists(&store, alloc, "Billing", 6, &[])?);
    assert!(rt; lists(&store, alloc, "", 0, &[])?);
    assert_eq!(rt; store.consumed(b"Orders"), 1);
    assert_eq!(rt; store.consumed(b"Billing"), 0);
    assert_eq!(rt; store.len(), 8);
    let all = store.list(alloc, b"Orders")?;
    assert_eq!(rt; all.queues.as_slice().len(), 6);
    assert!(rt; all.dead.as_slice() == [5, 8].as_slice());
    assert_eq!(rt; all.consumed, 1);
    let none = store.list(alloc, b"Nobody")?;
    assert_eq!(rt; none.queues.as_slice().len(), 6);
    assert!(rt; none.dead.as_slice().is_empty());
    assert_eq!(rt; none.consumed, 0);
    Ok(())
}

#[test]
fn a_send_is_listed_in_its_queue(rt: HostRuntime) -> Result<(), Fail> {
    let alloc = rt.alloc();
    let text = Text::read(b"bolt").ok_or("no text")?;
    let amount = Amount::new(4).ok_or("no amount")?;
    let args = Args::over(vec![in alloc; Arg::Text(text), Arg::Whole(amount)]?);
    let call = Call {
        method: name("Place")?,
        args,
    };
    let recording = Recording {
        app: name("Orders")?,
        component: name("Order")?,
        calls: Calls::over(vec![in alloc; call]?),
    };
    let mut store = Store::make(alloc)?;
    store.reserve(alloc)?;
    store.insert(1, recording, true, Moment::clamp(0));
    assert!(rt; lists(&store, alloc, "Orders", 0, &[shown(1, 0, 0)])?);
    assert_eq!(rt; store.consumed(b"Orders"), 0);
    Ok(())
}

/// The retry rule, row by row: a place, whether there is an exception class, the moment, and where the message goes.
#[test]
fn a_failure_leads_where_the_retry_rule_says(rt: HostRuntime) -> Result<(), Fail> {
    let last = 1_000_000_000_000;
    let rows = [
        (queue(0, 0, 0), true, 7, queue(0, 1, 7)),
        (queue(0, 1, 7), false, 7, queue(0, 2, 7)),
        (queue(0, 2, 7), false, 7, queue(1, 0, 67)),
        (queue(1, 0, 67), false, 100, queue(1, 1, 160)),
        (queue(1, 2, 300), true, 300, queue(2, 0, 420)),
        (queue(2, 2, 0), false, 1, queue(3, 0, 241)),
        (queue(3, 1, 0), false, 1, queue(3, 2, 241)),
        (queue(3, 2, 0), false, 1, queue(4, 0, 481)),
        (queue(4, 2, 0), false, 1, queue(5, 0, 961)),
        (queue(5, 1, 961), true, 1000, queue(5, 2, 1960)),
        (queue(5, 2, 1960), true, 2000, queue(5, 3, 2000)),
        (queue(5, 2, 1960), false, 2000, Place::Dead),
        (queue(5, 3, 2000), true, 2001, Place::Dead),
        (queue(1, 0, last), false, last, queue(1, 1, last)),
        (Place::Dead, true, 5, Place::Dead),
        (Place::Consumed(4), true, 5, Place::Consumed(4)),
    ];
    for (from, final_class, at, to) in rows {
        assert!(rt; next_place(from, final_class, Moment::clamp(at)) == to);
    }
    Ok(())
}

fn queue(queue: u8, tries: u8, due: u64) -> Place {
    Place::Queue(queue, tries, Moment::clamp(due))
}

fn next(store: &Store, after: Option<(u64, u64)>) -> Option<(u64, u8, u8, u64)> {
    let behind = after.map(|(due, id)| (Moment::clamp(due), id));
    let (id, queue, tries, due) = store.next_due(b"Orders", behind)?;
    Some((id, queue, tries, due.get()))
}

#[test]
fn what_is_due_is_told_in_order(rt: HostRuntime) -> Result<(), Fail> {
    let store = sample(rt.alloc())?;
    assert!(rt; next(&store, None) == Some((2, 0, 0, 0)));
    assert!(rt; next(&store, Some((0, 2))) == Some((4, 1, 0, 0)));
    assert!(rt; next(&store, Some((0, 4))) == Some((1, 0, 2, 60)));
    assert!(rt; next(&store, Some((60, 1))) == Some((3, 0, 1, 60)));
    assert!(rt; next(&store, Some((60, 3))).is_none());
    assert!(rt; next(&store, Some((59, 9))) == Some((1, 0, 2, 60)));
    assert!(rt; store.next_due(b"Nobody", None).is_none());
    Ok(())
}

fn stands(store: &Store, id: u64, place: Place) -> bool {
    match store.message(id) {
        Some(found) => found.1 == place && found.0.app.as_bytes() == b"Orders".as_slice(),
        None => false,
    }
}

fn lives(store: &Store, id: u64) -> bool
    ensures { result ≡ is_live id store.now.messages }
{
    store.message(id).is_some()
}

fn waits(store: &Store, id: u64) -> bool
    ensures { IsTrue result → IsTrue (is_waiting id store.now.messages) }
{
    match store.message(id) {
        Some((_, Place::Queue(_, _, _))) => true,
        Some((_, Place::Dead | Place::Consumed(_))) | None => false,
    }
}

/// Whether the message stood in a queue, and has failed now.
fn fails(store: &mut Store, id: u64, at: u64) -> bool {
    let stood = waits(store, id);
    if stood {
        store.fail(id, Moment::clamp(at));
    }
    stood
}

/// Whether the message lived, and is consumed now.
fn is_played(store: &mut Store, id: u64, attempt: u64) -> bool {
    let lived = lives(store, id);
    if lived {
        store.consume(id, attempt);
    }
    lived
}

/// Whether both messages lived, and have been moved now.
fn are_moved(store: &mut Store, ids: [u64; 2], queue: u8, at: u64) -> bool
    requires { queue ≤ 6 }
{
    let lived = lives(store, ids[0]) && lives(store, ids[1]);
    if lived {
        store.move_batch(&ids, queue, Moment::clamp(at));
    }
    lived
}

#[test]
fn a_message_fails_moves_and_is_consumed(rt: HostRuntime) -> Result<(), Fail> {
    let mut store = sample(rt.alloc())?;
    assert_eq!(rt; store.live(), 7);
    assert!(rt; fails(&mut store, 1, 70));
    assert!(rt; stands(&store, 1, queue(1, 0, 130)));
    assert!(rt; stands(&store, 2, queue(0, 0, 0)));
    assert!(rt; are_moved(&mut store, [5, 2], 3, 80));
    assert!(rt; stands(&store, 2, queue(3, 0, 80)));
    assert!(rt; stands(&store, 5, queue(3, 0, 80)));
    assert!(rt; are_moved(&mut store, [3, 3], 6, 80));
    assert!(rt; stands(&store, 3, Place::Dead));
    assert!(rt; !fails(&mut store, 3, 80));
    assert!(rt; is_played(&mut store, 2, 9));
    assert!(rt; !is_played(&mut store, 2, 10));
    assert!(rt; store.message(2).is_none());
    assert!(rt; store.message(9).is_none());
    assert!(rt; stands(&store, 4, queue(1, 0, 0)));
    assert_eq!(rt; store.live(), 6);
    assert_eq!(rt; store.consumed(b"Orders"), 2);
    assert_eq!(rt; store.len(), 8);
    Ok(())
}
