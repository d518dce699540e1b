ghost use Rattle.std.specs.Prelude.{IfOk};
ghost use Rattle.qc_worker_tests.specs.Bench.{IsReady};

use super::*;
use crm_log::CrmLog;
use crm_log_tests::log_at_end;
use qc_base::{Amount, LogLine, LogRecord, Name, Text};
use qc_catalogue::{AmountRows, Resource};
use qc_memsite::{CallKind, Choice, MemSite, Trip};
use qc_play::Effect;
use qc_site::{Site, SiteFile};
use std::alloc::Global;
use std::test::Fail;

const FILE: SiteFile = SiteFile::CrmLog;

fn name(bytes: &[u8]) -> Result<Name, Fail> {
    Ok(Name::read(bytes).ok_or("no name")?)
}

fn text(bytes: &[u8]) -> Result<Text, Fail> {
    Ok(Text::read(bytes).ok_or("no text")?)
}

fn amount(n: u64) -> Result<Amount, Fail> {
    Ok(Amount::new(n).ok_or("no amount")?)
}

// The till is early.
fn till(alloc: Global, early: bool) -> Result<Resource, Fail> {
    Ok(Resource {
        name: name(b"till")?,
        early,
        phases: 7,
        bounds: None,
        rows: AmountRows::over(Vec::new(alloc)),
    })
}

// A change of a row of the till.
fn change(key: &[u8], old: u64, new: u64) -> Result<Effect, Fail> {
    Ok(Effect::Change {
        resource: name(b"till")?,
        key: text(key)?,
        old: amount(old)?,
        new: amount(new)?,
    })
}

fn retract() -> Result<Effect, Fail> {
    Ok(Effect::Retract {
        resource: name(b"till")?,
    })
}

// The line of a record of the till.
fn written(seq: u32, key: &[u8], old: u64, new: u64) -> Result<LogLine, Fail> {
    let entry = LogRecord {
        seq,
        flags: 0,
        key: text(key)?,
        old: amount(old)?,
        new: amount(new)?,
    };
    Ok(LogLine::Written(1, name(b"till")?, entry))
}

// A site with a log without lines and 100 in the drawer, that stops at the nth call of this kind, if n isn't 0.
fn site_that_stops(alloc: Global, kind: CallKind, nth: u32) -> Result<MemSite, Fail> {
    let mut site = MemSite::make(alloc)?;
    CrmLog::make(&mut site)?;
    site.row_make(b"till", b"drawer", 100)?;
    let mut plan = Vec::new(alloc);
    plan.push(Trip {
        kind,
        nth,
        stop: true,
    })?;
    site.set_plan(plan);
    Ok(site)
}

// How many lines an image of this moment spells, and the amount of its drawer.
fn seen(alloc: Global, site: &MemSite, choice: Choice) -> Result<(usize, u64), Fail> {
    let mut image = site.crash_image(alloc, choice)?;
    let drawer = image.row_get(b"till", b"drawer")?;
    let (_, read) = log_at_end(alloc, &mut image)?;
    Ok((read.len(), drawer))
}

// The lines that an image of this moment spells.
fn lines_of(alloc: Global, site: &MemSite, choice: Choice) -> Result<Vec<LogLine>, Fail> {
    let mut image = site.crash_image(alloc, choice)?;
    let (_, read) = log_at_end(alloc, &mut image)?;
    let mut lines = Vec::new(alloc);
    for next in read.iter() {
        lines.push(next.1)?;
    }
    Ok(lines)
}

// What the old, the new and the inverted image have of a site.
fn seen_in_all(alloc: Global, site: &MemSite) -> Result<[(usize, u64); 3], Fail> {
    let old = seen(alloc, site, Choice::Old)?;
    let new = seen(alloc, site, Choice::New)?;
    let flip = seen(alloc, site, Choice::Flip)?;
    Ok([old, new, flip])
}

// A bench whose site stops at the nth call of this kind, if n isn't 0.
fn bench_that_stops(alloc: Global, kind: CallKind, nth: u32) -> Result<Bench<MemSite>, Fail>
    ensures { IfOk result (λ b. IsReady ⟦<MemSite as Site>⟧ b.site b.log b.clerk b.effects b.stopped) }
{
    Ok(Bench::open(alloc, site_that_stops(alloc, kind, nth)?)?)
}

// What all images have after the drawer was changed to 104, and whether that was done.
fn changed(
    alloc: Global,
    early: bool,
    kind: CallKind,
    nth: u32,
) -> Result<(Carried, [(usize, u64); 3]), Fail> {
    let till = till(alloc, early)?;
    let effect = change(b"drawer", 100, 104)?;
    let mut bench = bench_that_stops(alloc, kind, nth)?;
    let carried = bench.carry(&till, &effect);
    Ok((carried, seen_in_all(alloc, &bench.site)?))
}

// The same, after the change was taken back too.
fn taken_back(alloc: Global, early: bool, nth: u32) -> Result<(Carried, [(usize, u64); 3]), Fail> {
    let till = till(alloc, early)?;
    let effect = change(b"drawer", 100, 104)?;
    let back = retract()?;
    let mut bench = bench_that_stops(alloc, CallKind::RowPut, nth)?;
    bench.carry(&till, &effect);
    let carried = bench.carry(&till, &back);
    Ok((carried, seen_in_all(alloc, &bench.site)?))
}

// The log is opened with one sync.
#[test]
fn an_early_row_is_put_where_its_record_is_read(rt: HostRuntime) -> Result<(), Fail> {
    let alloc = rt.alloc();
    let table = [
        (
            CallKind::Write(FILE),
            1,
            Carried::Failed,
            [(0, 100), (0, 100), (0, 100)],
        ),
        (
            CallKind::Sync(FILE),
            2,
            Carried::Failed,
            [(0, 100), (0, 100), (0, 100)],
        ),
        (
            CallKind::Write(FILE),
            2,
            Carried::Failed,
            [(0, 100), (0, 100), (0, 100)],
        ),
        (
            CallKind::Sync(FILE),
            3,
            Carried::Failed,
            [(0, 100), (3, 100), (0, 100)],
        ),
        (
            CallKind::RowPut,
            1,
            Carried::Failed,
            [(3, 100), (3, 100), (3, 100)],
        ),
        (
            CallKind::RowPut,
            0,
            Carried::Done,
            [(3, 104), (3, 104), (3, 104)],
        ),
    ];
    for (kind, nth, carried, images) in table {
        assert_eq!(rt; changed(alloc, true, kind, nth)?, (carried, images));
    }
    Ok(())
}

#[test]
fn a_late_change_makes_no_call(rt: HostRuntime) -> Result<(), Fail> {
    let alloc = rt.alloc();
    for kind in [CallKind::Write(FILE), CallKind::RowPut] {
        assert_eq!(rt;
            changed(alloc, false, kind, 1)?,
            (Carried::Done, [(0, 100), (0, 100), (0, 100)])
        );
    }
    Ok(())
}

// The first put is the change's.
#[test]
fn an_early_row_is_put_back_before_its_record_is_forgotten(rt: HostRuntime) -> Result<(), Fail> {
    let alloc = rt.alloc();
    let table = [
        (true, 2, Carried::Failed, [(3, 104), (3, 104), (3, 104)]),
        (true, 0, Carried::Done, [(3, 100), (3, 100), (3, 100)]),
        (false, 1, Carried::Done, [(0, 100), (0, 100), (0, 100)]),
    ];
    for (early, nth, carried, images) in table {
        assert_eq!(rt; taken_back(alloc, early, nth)?, (carried, images));
    }
    Ok(())
}

// Carries changes of rows of the early till out, and then a retract, and forces the log.
fn carried_and_forced(alloc: Global) -> Result<Vec<LogLine>, Fail> {
    let till = till(alloc, true)?;
    let first = change(b"drawer", 100, 104)?;
    let no_row = change(b"box", 1, 2)?;
    let back = retract()?;
    let mut bench = bench_that_stops(alloc, CallKind::RowPut, 0)?;
    bench.carry(&till, &back);
    bench.carry(&till, &first);
    bench.carry(&till, &no_row);
    bench.carry(&till, &back);
    bench.carry(&till, &back);
    bench.force();
    lines_of(alloc, &bench.site, Choice::Old)
}

// The put of a row that isn't there is passed over; what was taken back isn't taken back again.
#[test]
fn a_resource_is_registered_once_and_a_record_forgotten_once(rt: HostRuntime) -> Result<(), Fail> {
    let alloc = rt.alloc();
    let till = name(b"till")?;
    let one = written(1, b"drawer", 100, 104)?;
    let two = written(2, b"box", 1, 2)?;
    let lines = [
        LogLine::Opened(1, 7),
        LogLine::Registered(1, till, 7),
        one,
        two,
        LogLine::Forgot(1, till, 2),
    ];
    assert_eq!(rt; carried_and_forced(alloc)?.as_slice(), lines.as_slice());
    Ok(())
}
