ghost use Rattle.std.specs.Prelude.{IfOk};
ghost use Rattle.qc_txn.specs.Attempt.{PlaysBy};

use crate::{Attempt, effects_of, is_playable};
use qc_base::{
    Amount, Arg, Args, Call, Calls, Kind, Name, NoMemory, Recording, Row, Space, Stage, Text, Why,
};
use qc_catalogue::{Catalogue, sample};
use qc_play::CallState;
use std::alloc::Global;
use std::test::Fail;

fn name(bytes: &str) -> Result<Name, NoMemory> {
    Name::read(bytes.as_bytes()).ok_or(NoMemory)
}

fn text(bytes: &str) -> Result<Text, NoMemory> {
    Text::read(bytes.as_bytes()).ok_or(NoMemory)
}

fn amount(number: u64) -> Result<Amount, NoMemory> {
    Amount::new(number).ok_or(NoMemory)
}

fn row(space: Space, table: &str, key: &str) -> Result<Row, NoMemory> {
    Ok(Row {
        space,
        name: name(table)?,
        key: text(key)?,
    })
}

// `Place` or `Take` of so many bolts.
fn call_of(alloc: Global, method: &str, bolts: u64) -> Result<Call, NoMemory> {
    let mut args = Vec::new(alloc);
    args.push(Arg::Text(text("bolt")?)).map_err(|_| NoMemory)?;
    args.push(Arg::Whole(amount(bolts)?)).map_err(|_| NoMemory)?;
    Ok(Call {
        method: name(method)?,
        args: Args::over(args),
    })
}

// A recording of such calls on a component of Orders.
fn recorded(
    alloc: Global,
    component: &str,
    method: &str,
    bolts: &[u64],
) -> Result<Recording, NoMemory> {
    let mut calls = Vec::new(alloc);
    for number in bolts {
        calls
            .push(call_of(alloc, method, *number)?)
            .map_err(|_| NoMemory)?;
    }
    Ok(Recording {
        app: name("Orders")?,
        component: name(component)?,
        calls: Calls::over(calls),
    })
}

// Ten bolts in stock, and none of the rows beside.
fn state(alloc: Global) -> Result<CallState, NoMemory> {
    let mut rows = Vec::new(alloc);
    rows.push((row(Space::Inside, "stock", "bolt")?, Some(amount(10)?)))
        .map_err(|_| NoMemory)?;
    rows.push((row(Space::Inside, "lost", "bolt")?, Some(amount(0)?)))
        .map_err(|_| NoMemory)?;
    rows.push((row(Space::Inside, "finals", "count")?, Some(amount(0)?)))
        .map_err(|_| NoMemory)?;
    CallState::make(alloc, rows.as_slice(), 64)
}

// An attempt on a recording, where it can be played.
fn begin(
    alloc: Global,
    catalogue: &Catalogue,
    kind: Kind,
    recording: &Recording,
) -> Result<Attempt, Fail>
    ensures { IfOk result (λ a. PlaysBy catalogue.now a) }
{
    if recording.calls.as_slice().len() > 64 || !is_playable(catalogue, recording, kind) {
        return Err(Fail::from("not playable"));
    }
    let state = state(alloc)?;
    if effects_of(catalogue, recording, kind) as usize > state.room() {
        return Err(Fail::from("no room"));
    }
    match Attempt::begin(alloc, catalogue, 1, 1, kind, recording, state) {
        Ok(attempt) => Ok(attempt),
        Err(_) => Err(Fail::from("no memory")),
    }
}

fn next(catalogue: &Catalogue, attempt: &mut Attempt) -> Result<Result<u8, u8>, Fail>
    requires { PlaysBy catalogue.now attempt.old }
    ensures { PlaysBy catalogue.now attempt.new }
{
    match attempt.stage() {
        Stage::Calls => Ok(attempt.run_next(catalogue)),
        _ => Err(Fail::from("no call is left")),
    }
}

fn end(attempt: &mut Attempt) -> Result<Option<Why>, Fail> {
    match attempt.stage() {
        Stage::Ready => Ok(attempt.decide().err()),
        Stage::Failing => Ok(attempt.decide().err()),
        _ => Err(Fail::from("calls are left")),
    }
}

#[test]
fn calls_are_played_in_order(rt: HostRuntime) -> Result<(), Fail> {
    let alloc = rt.alloc();
    let catalogue = Catalogue::read(alloc, sample().as_bytes()).map_err(|_| "no catalogue")?;
    let recording = recorded(alloc, "Plain", "Take", &[4, 5])?;
    let mut attempt = begin(alloc, &catalogue, Kind::Normal, &recording)?;
    assert_eq!(rt; attempt.left(), 2);
    assert_eq!(rt; next(&catalogue, &mut attempt)?, Ok(1));
    assert_eq!(rt; next(&catalogue, &mut attempt)?, Ok(2));
    assert_eq!(rt; attempt.left(), 0);
    assert_eq!(rt; end(&mut attempt)?, None);
    assert!(rt; matches!(attempt.stage(), Stage::Commit));
    Ok(())
}

#[test]
fn a_call_that_fails_ends_the_attempt(rt: HostRuntime) -> Result<(), Fail> {
    let alloc = rt.alloc();
    let catalogue = Catalogue::read(alloc, sample().as_bytes()).map_err(|_| "no catalogue")?;
    let recording = recorded(alloc, "Plain", "Take", &[4, 7, 1])?;
    let mut attempt = begin(alloc, &catalogue, Kind::Normal, &recording)?;
    assert_eq!(rt; next(&catalogue, &mut attempt)?, Ok(1));
    assert_eq!(rt; next(&catalogue, &mut attempt)?, Err(1));
    assert_eq!(rt; end(&mut attempt)?, Some(Why::Step(2, 1)));
    assert!(rt; matches!(attempt.stage(), Stage::Abort));
    Ok(())
}

#[test]
fn a_final_attempt_plays_its_class(rt: HostRuntime) -> Result<(), Fail> {
    let alloc = rt.alloc();
    let catalogue = Catalogue::read(alloc, sample().as_bytes()).map_err(|_| "no catalogue")?;
    let recording = recorded(alloc, "Order", "Place", &[11])?;
    let mut attempt = begin(alloc, &catalogue, Kind::Final, &recording)?;
    assert_eq!(rt; next(&catalogue, &mut attempt)?, Ok(0));
    assert_eq!(rt; next(&catalogue, &mut attempt)?, Ok(1));
    attempt.vote(&name("till")?, true);
    attempt.vote(&name("post")?, false);
    attempt.vote(&name("till")?, false);
    assert_eq!(rt; end(&mut attempt)?, Some(Why::NotReady(name("post")?)));
    let plain = recorded(alloc, "Plain", "Take", &[1])?;
    assert!(rt; !is_playable(&catalogue, &plain, Kind::Final));
    Ok(())
}
