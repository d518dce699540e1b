ghost use Rattle.std.specs.Prelude.{IfOk};
ghost use Rattle.qc_underway_tests.specs.Bench.{IsReady};

use super::*;
use crm_log::CrmLog;
use crm_log_tests::log_at_end;
use qc_base::{
    Amount, Arg, Args, Call, Calls, LogLine, LogRecord, Name, NoMemory, Recording, Row, Space, Text,
};
use qc_catalogue::{Catalogue, sample};
use qc_memsite::{CallKind, Choice, MemSite, Trip};
use qc_play::CallState;
use qc_site::{Site, SiteFile};
use std::alloc::Global;
use std::test::Fail;

pub(crate) fn name(bytes: &[u8]) -> Result<Name, NoMemory> {
    Name::read(bytes).ok_or(NoMemory)
}

pub(crate) fn text(bytes: &[u8]) -> Result<Text, NoMemory> {
    Text::read(bytes).ok_or(NoMemory)
}

pub(crate) fn amount(number: u64) -> Result<Amount, NoMemory> {
    Amount::new(number).ok_or(NoMemory)
}

// A recording of one call of a component of Orders, of this many bolts or this number alone.
pub(crate) fn recorded(
    alloc: Global,
    component: &[u8],
    method: &[u8],
    item: &[u8],
    number: u64,
) -> Result<Recording, NoMemory> {
    let mut args = Vec::new(alloc);
    if !item.is_empty() {
        args.push(Arg::Text(text(item)?)).map_err(|_| NoMemory)?;
    }
    args.push(Arg::Whole(amount(number)?))
        .map_err(|_| NoMemory)?;
    let mut calls = Vec::new(alloc);
    calls
        .push(Call {
            method: name(method)?,
            args: Args::over(args),
        })
        .map_err(|_| NoMemory)?;
    Ok(Recording {
        app: name(b"Orders")?,
        component: name(component)?,
        calls: Calls::over(calls),
    })
}

fn seen(
    space: Space,
    table: &[u8],
    key: &[u8],
    number: u64,
) -> Result<(Row, Option<Amount>), NoMemory> {
    let row = Row {
        space,
        name: name(table)?,
        key: text(key)?,
    };
    Ok((row, Some(amount(number)?)))
}

// The rows that the calls name, as they were opened.
fn state(alloc: Global) -> Result<CallState, NoMemory> {
    let rows = [
        seen(Space::Inside, b"stock", b"bolt", 30)?,
        seen(Space::Inside, b"sold", b"bolt", 0)?,
        seen(Space::Outside, b"till", b"drawer", 100)?,
        seen(Space::Outside, b"post", b"letters", 0)?,
    ];
    CallState::make(alloc, rows.as_slice(), 64)
}

// A site with a log without lines and the rows as they were opened, that stops at the nth call of this kind, if n isn't 0.
fn site_that_stops(alloc: Global, kind: CallKind, nth: u32) -> Result<MemSite, Fail> {
    let mut site = MemSite::make(alloc)?;
    CrmLog::make(&mut site)?;
    site.row_make(b"till", b"drawer", 100)?;
    site.row_make(b"post", b"letters", 0)?;
    let mut plan = Vec::new(alloc);
    plan.push(Trip {
        kind,
        nth,
        stop: true,
    })?;
    site.set_plan(plan);
    Ok(site)
}

pub(crate) fn bench_that_stops(
    alloc: Global,
    catalogue: &Catalogue,
    recording: &Recording,
    kind: CallKind,
    nth: u32,
) -> Result<Bench<MemSite>, Fail>
    ensures { IfOk result (λ b. IsReady ⟦<MemSite as Site>⟧ catalogue.now b.site b.log b.clerk b.attempt b.stopped) }
{
    let site = site_that_stops(alloc, kind, nth)?;
    let state = state(alloc).map_err(|_| "no state")?;
    match Bench::open(alloc, site, catalogue, recording, state) {
        Some(bench) => Ok(bench),
        None => Err("not playable")?,
    }
}

// How many lines an image of this moment spells, and the amounts of drawer and letters.
pub(crate) fn seen_in(
    alloc: Global,
    site: &MemSite,
    choice: Choice,
) -> Result<(usize, u64, u64), Fail> {
    let mut image = site.crash_image(alloc, choice)?;
    let drawer = image.row_get(b"till", b"drawer")?;
    let letters = image.row_get(b"post", b"letters")?;
    let (_, read) = log_at_end(alloc, &mut image)?;
    Ok((read.len(), drawer, letters))
}

// The lines that an image of this moment spells.
fn lines_of(alloc: Global, site: &MemSite) -> Result<Vec<LogLine>, Fail> {
    let mut image = site.crash_image(alloc, Choice::Old)?;
    let (_, read) = log_at_end(alloc, &mut image)?;
    let mut lines = Vec::new(alloc);
    for next in read.iter() {
        lines.push(next.1)?;
    }
    Ok(lines)
}

// What became of the call, what the old and the new image then have, and what the old one has once all is forced.
fn ran(
    alloc: Global,
    recording: &Recording,
    kind: CallKind,
    nth: u32,
) -> Result<(Answer, [(usize, u64, u64); 3]), Fail> {
    let catalogue = Catalogue::read(alloc, sample().as_bytes()).map_err(|_| "no catalogue")?;
    let mut bench = bench_that_stops(alloc, &catalogue, recording, kind, nth)?;
    let answer = bench.next(&catalogue);
    let old = seen_in(alloc, &bench.site, Choice::Old)?;
    let new = seen_in(alloc, &bench.site, Choice::New)?;
    bench.force(&catalogue);
    let forced = seen_in(alloc, &bench.site, Choice::Old)?;
    Ok((answer, [old, new, forced]))
}

// The lines of the log, once the call ran and all is forced.
fn lines_after(alloc: Global, recording: &Recording) -> Result<Vec<LogLine>, Fail> {
    let catalogue = Catalogue::read(alloc, sample().as_bytes()).map_err(|_| "no catalogue")?;
    let mut bench = bench_that_stops(alloc, &catalogue, recording, CallKind::RowPut, 0)?;
    bench.next(&catalogue);
    bench.force(&catalogue);
    lines_of(alloc, &bench.site)
}

fn written(resource: &[u8], seq: u32, key: &[u8], old: u64, new: u64) -> Result<LogLine, NoMemory> {
    let entry = LogRecord {
        seq,
        flags: 0,
        key: text(key)?,
        old: amount(old)?,
        new: amount(new)?,
    };
    Ok(LogLine::Written(1, name(resource)?, entry))
}

#[test]
fn an_early_row_is_put_at_once(rt: HostRuntime) -> Result<(), Fail> {
    let alloc = rt.alloc();
    let place = recorded(alloc, b"Order", b"Place", b"bolt", 4).map_err(|_| "no call")?;
    let table = [
        (0, Answer::Ran(1), [(3, 104, 0), (3, 104, 0), (3, 104, 0)]),
        (1, Answer::Stopped, [(3, 100, 0), (3, 100, 0), (3, 100, 0)]),
    ];
    for (nth, answer, images) in table {
        assert_eq!(rt;
            ran(alloc, &place, CallKind::RowPut, nth)?,
            (answer, images)
        );
    }
    Ok(())
}

#[test]
fn a_late_change_only_waits(rt: HostRuntime) -> Result<(), Fail> {
    let alloc = rt.alloc();
    let notify = recorded(alloc, b"Order", b"Notify", b"", 2).map_err(|_| "no call")?;
    assert_eq!(rt;
        ran(alloc, &notify, CallKind::RowPut, 1)?,
        (Answer::Ran(1), [(0, 100, 0), (0, 100, 0), (3, 100, 0)])
    );
    Ok(())
}

// It puts the drawer three times; the second group has Forgot and the second record.
#[test]
fn effects_are_carried_out_in_order(rt: HostRuntime) -> Result<(), Fail> {
    let alloc = rt.alloc();
    let undo = recorded(alloc, b"Plain", b"Undo", b"", 5).map_err(|_| "no call")?;
    let table = [
        (0, Answer::Ran(1), [(5, 101, 0), (5, 101, 0), (5, 101, 0)]),
        (1, Answer::Stopped, [(3, 100, 0), (3, 100, 0), (3, 100, 0)]),
        (2, Answer::Stopped, [(3, 105, 0), (3, 105, 0), (3, 105, 0)]),
        (3, Answer::Stopped, [(5, 100, 0), (5, 100, 0), (5, 100, 0)]),
    ];
    for (nth, answer, images) in table {
        assert_eq!(rt; ran(alloc, &undo, CallKind::RowPut, nth)?, (answer, images));
    }
    Ok(())
}

#[test]
fn the_lines_of_a_call_are_those_of_its_effects(rt: HostRuntime) -> Result<(), Fail> {
    let alloc = rt.alloc();
    let undo = recorded(alloc, b"Plain", b"Undo", b"", 5).map_err(|_| "no call")?;
    let till = name(b"till").map_err(|_| "no name")?;
    let one = written(b"till", 1, b"drawer", 100, 105).map_err(|_| "no line")?;
    let two = written(b"till", 2, b"drawer", 100, 101).map_err(|_| "no line")?;
    let lines = [
        LogLine::Opened(1, 7),
        LogLine::Registered(1, till, 7),
        one,
        LogLine::Forgot(1, till, 1),
        two,
    ];
    assert_eq!(rt; lines_after(alloc, &undo)?.as_slice(), lines.as_slice());
    Ok(())
}

#[test]
fn a_call_that_fails_does_nothing(rt: HostRuntime) -> Result<(), Fail> {
    let alloc = rt.alloc();
    let place = recorded(alloc, b"Order", b"Place", b"bolt", 31).map_err(|_| "no call")?;
    assert_eq!(rt;
        ran(alloc, &place, CallKind::RowPut, 1)?,
        (Answer::FailedAt(1), [(0, 100, 0), (0, 100, 0), (0, 100, 0)])
    );
    Ok(())
}
