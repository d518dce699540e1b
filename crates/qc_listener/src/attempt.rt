// The rows that an attempt names, as the catalogue has its scripts.
ghost use Rattle.std.specs.Prelude.{◌≡◌, [], Some, option_map, IfOk};
ghost use Rattle.qc_base.specs.declared.fact.Kind.TheVariants.{Final};
ghost use Rattle.qc_catalogue.specs.Lookup.{method_of};
ghost use Rattle.qc_txn.specs.Parts.{parts_from, parts_in, rows_of_attempt, rows_of_parts};

use qc_base::{Call, Kind, NoMemory, Recording, Row};
use qc_catalogue::{App, Catalogue, Component, Method};
use qc_script::rows_of;
use std::alloc::Global;

fn method_of<'a>(methods: &'a [Method], name: &[u8]) -> Option<&'a Method>
    ensures { option_map (λ m. m.now) result ≡ method_of name.now methods.now }
{
    for method in methods {
        if method.name.as_bytes() == name {
            return Some(method);
        }
    }
    None
}

// The rows, with those behind them that the recorded calls name by the scripts of these methods.
fn with_calls(
    alloc: Global,
    methods: &[Method],
    calls: &[Call],
    mut rows: Vec<Row>,
) -> Result<Vec<Row>, NoMemory>
    ensures { IfOk result (λ all. all.items ≡ rows_of_parts (parts_from 1 methods.now calls.now) rows.items) }
{
    for call in calls {
        if let Some(method) = method_of(methods, call.method.as_bytes()) {
            rows_of(alloc, &method.script, call.args.as_slice(), &mut rows)?;
        }
    }
    Ok(rows)
}

// The rows of a final attempt, by the exception class that the component names.
fn rows_of_last(
    alloc: Global,
    app: &App,
    component: &Component,
    recording: &Recording,
) -> Result<Vec<Row>, NoMemory>
    ensures { IfOk result (λ rows.
        rows.items ≡ rows_of_parts (parts_in app.now recording.now Final (Some component.now)) []) }
{
    let mut rows = Vec::new(alloc);
    let Some(name) = component.exception else {
        return Ok(rows);
    };
    let Some(class) = app.exception(name.as_bytes()) else {
        return Ok(rows);
    };
    rows_of(alloc, &class.last, &[], &mut rows)?;
    with_calls(
        alloc,
        class.methods.as_slice(),
        recording.calls.as_slice(),
        rows,
    )
}

/// The rows that any step of the scripts names that an attempt of this kind on the recording plays, in the order first
/// met (docs/RULES.md, "What an attempt plays"). The error is want of memory.
pub fn rows_of_attempt(
    alloc: Global,
    catalogue: &Catalogue,
    recording: &Recording,
    kind: Kind,
) -> Result<Vec<Row>, NoMemory>
    ensures { IfOk result (λ rows. rows.items ≡ rows_of_attempt catalogue.now recording.now kind) }
{
    let none = Vec::new(alloc);
    let Some(app) = catalogue.app(recording.app.as_bytes()) else {
        return Ok(none);
    };
    let Some(component) = app.component(recording.component.as_bytes()) else {
        return Ok(none);
    };
    match kind {
        Kind::Normal => with_calls(
            alloc,
            component.methods.as_slice(),
            recording.calls.as_slice(),
            none,
        ),
        Kind::Final => rows_of_last(alloc, app, component, recording),
    }
}
