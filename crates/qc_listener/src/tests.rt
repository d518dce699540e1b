use crate::{Chosen, RowIndex, choose, what_is_set_is_told};
use qc_base::{Amount, Arg, Args, Call, Calls, Kind, Moment, Name, NoMemory, Recording, Text};
use qc_catalogue::{Catalogue, sample};
use qc_rows::Held;
use qc_store::Store;
use std::alloc::Global;
use std::test::Fail;

fn name(bytes: &str) -> Result<Name, NoMemory> {
    Name::read(bytes.as_bytes()).ok_or(NoMemory)
}

fn bolt() -> Result<Arg, NoMemory> {
    Ok(Arg::Text(Text::read(b"bolt").ok_or(NoMemory)?))
}

fn one() -> Result<Arg, NoMemory> {
    Ok(Arg::Whole(Amount::new(1).ok_or(NoMemory)?))
}

// One call of a method of a component of Orders.
fn recorded(
    alloc: Global,
    component: &str,
    method: &str,
    args: Vec<Arg>,
) -> Result<Recording, NoMemory> {
    let mut calls = Vec::new(alloc);
    let call = Call {
        method: name(method)?,
        args: Args::over(args),
    };
    calls.push(call).map_err(|_| NoMemory)?;
    Ok(Recording {
        app: name("Orders")?,
        component: name(component)?,
        calls: Calls::over(calls),
    })
}

fn place(alloc: Global) -> Result<Recording, NoMemory> {
    let mut args = Vec::new(alloc);
    args.push(bolt()?).map_err(|_| NoMemory)?;
    args.push(one()?).map_err(|_| NoMemory)?;
    recorded(alloc, "Order", "Place", args)
}

fn notify(alloc: Global) -> Result<Recording, NoMemory> {
    let mut args = Vec::new(alloc);
    args.push(one()?).map_err(|_| NoMemory)?;
    recorded(alloc, "Order", "Notify", args)
}

// Three messages: two that place a bolt, the second of them due at 5, and one that notifies.
fn sent(alloc: Global) -> Result<Store, NoMemory> {
    let mut store = Store::make(alloc)?;
    store.reserve(alloc)?;
    store.insert(1, place(alloc)?, true, Moment::clamp(0));
    store.reserve(alloc)?;
    store.insert(2, place(alloc)?, true, Moment::clamp(5));
    store.reserve(alloc)?;
    store.insert(3, notify(alloc)?, true, Moment::clamp(0));
    Ok(store)
}

fn indexed(alloc: Global, catalogue: &Catalogue) -> Result<RowIndex, NoMemory> {
    let mut rows = RowIndex::make(alloc)?;
    rows.set(alloc, catalogue, 1, &place(alloc)?)?;
    rows.set(alloc, catalogue, 2, &place(alloc)?)?;
    rows.set(alloc, catalogue, 3, &place(alloc)?)?;
    rows.set(alloc, catalogue, 3, &notify(alloc)?)?;
    Ok(rows)
}

// What is chosen, which the attempt then holds.
fn take(
    alloc: Global,
    store: &Store,
    rows: &RowIndex,
    held: &mut Held,
    attempt: u64,
    at: u64,
) -> Result<Chosen, NoMemory> {
    let chosen = choose(store, rows, held, &name("Orders")?, Moment::clamp(at));
    if let Chosen::Take(id) = chosen {
        if let Some(wanted) = rows.rows(id, Kind::Normal) {
            if held.is_free(wanted) {
                held.hold(alloc, attempt, id, wanted)?;
            }
        }
    }
    Ok(chosen)
}

#[test]
fn what_is_due_and_free_is_taken_in_order(rt: HostRuntime) -> Result<(), Fail> {
    let alloc = rt.alloc();
    let catalogue = Catalogue::read(alloc, sample().as_bytes()).map_err(|_| "no catalogue")?;
    let (store, rows) = (sent(alloc)?, indexed(alloc, &catalogue)?);
    let mut held = Held::make(alloc)?;
    let later = Some(Moment::clamp(5));
    assert!(rt; take(alloc, &store, &rows, &mut held, 1, 4)? == Chosen::Take(1));
    assert!(rt; take(alloc, &store, &rows, &mut held, 2, 4)? == Chosen::Take(3));
    assert!(rt; take(alloc, &store, &rows, &mut held, 3, 4)? == Chosen::NothingDue(later, 0));
    assert!(rt; take(alloc, &store, &rows, &mut held, 3, 5)? == Chosen::NothingDue(None, 1));
    held.release(1);
    assert!(rt; take(alloc, &store, &rows, &mut held, 3, 5)? == Chosen::Take(1));
    let nobody = choose(&store, &rows, &held, &name("Nobody")?, Moment::clamp(5));
    assert!(rt; nobody.copy() == Chosen::NothingDue(None, 0));
    Ok(())
}

fn count(rows: &RowIndex, id: u64, kind: Kind) -> Option<usize> {
    let all = rows.rows(id, kind)?;
    Some(all.len())
}

#[test]
fn rows_are_kept_for_both_kinds(rt: HostRuntime) -> Result<(), Fail> {
    what_is_set_is_told();
    let alloc = rt.alloc();
    let catalogue = Catalogue::read(alloc, sample().as_bytes()).map_err(|_| "no catalogue")?;
    let mut rows = indexed(alloc, &catalogue)?;
    assert_eq!(rt; count(&rows, 1, Kind::Normal), Some(3));
    assert_eq!(rt; count(&rows, 1, Kind::Final), Some(2));
    assert_eq!(rt; count(&rows, 3, Kind::Normal), Some(1));
    rows.remove(1);
    assert!(rt; rows.rows(1, Kind::Normal).is_none());
    assert_eq!(rt; count(&rows, 2, Kind::Final), Some(2));
    Ok(())
}
