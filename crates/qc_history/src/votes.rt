// Votes of the resources that an attempt changed outside.
ghost use Rattle.std.specs.Prelude.{◌≡◌, ◌∷◌, [], not, IfOk, OnOk};
ghost use Rattle.std.specs.List.{list_any};
ghost use Rattle.std.specs.Str.{bytes_eq};
ghost use Rattle.qc_base.specs.LogLines.{has_phase};
ghost use Rattle.qc_script.specs.Naming.{names_with};
ghost use Rattle.qc_play.specs.Effects.{records_of};
ghost use Rattle.qc_txn.specs.Outcome.{votes_no};
ghost use Rattle.crm_driver.specs.Ready.{is_ready};
ghost use Rattle.qc_history.specs.Votes.{heard_out, names_changed};

use crm_driver::{RowCompensator, prepare};
use qc_base::{LogRecord, Name, NoMemory};
use qc_catalogue::{Catalogue, Resource};
use qc_play::PlayRecord;
use qc_txn::Attempt;
use std::alloc::Global;

fn has_name(names: &[Name], name: &Name) -> bool
    ensures { result ≡ list_any (bytes_eq name.now) names.now }
{
    for other in names {
        if name.as_bytes() == other.as_bytes() {
            return true;
        }
    }
    false
}

// A name more, where it isn't among them.
fn add_name(names: &mut Vec<Name>, name: Name) -> Result<(), NoMemory>
    ensures { OnOk result (names.new.items ≡ names_with names.old.items (name ∷ [])) }
{
    if has_name(names.as_slice(), &name) {
        return Ok(());
    }
    match names.push(name) {
        Ok(()) => Ok(()),
        Err(_) => Err(NoMemory),
    }
}

// The resources that these records are of, in order of their first ones.
fn names_changed(alloc: Global, records: &[PlayRecord]) -> Result<Vec<Name>, NoMemory>
    ensures { IfOk result (λ names. names.items ≡ names_changed records.now) }
{
    let mut names = Vec::new(alloc);
    for record in records {
        add_name(&mut names, record.resource)?;
    }
    Ok(names)
}

// The unforgotten records of a resource, in written order.
fn records_of(
    alloc: Global,
    resource: &Name,
    records: &[PlayRecord],
) -> Result<Vec<LogRecord>, NoMemory>
    ensures { IfOk result (λ own. own.items ≡ records_of resource.now records.now) }
{
    let mut own = Vec::new(alloc);
    for record in records {
        if record.resource.as_bytes() == resource.as_bytes() && !record.forgotten {
            own.push(record.entry).map_err(|_| NoMemory)?;
        }
    }
    Ok(own)
}

// Whether a resource takes part in the prepare phase.
fn has_prepare(resource: &Resource) -> bool
    ensures { result ≡ has_phase 1 resource.now.phases }
{
    resource.phases % 2 == 1
}

// What its compensator answers in the prepare phase over these records.
fn prepares(alloc: Global, resource: &Resource, records: &[LogRecord]) -> Result<bool, NoMemory>
    ensures { IfOk result (λ ready. ready ≡ is_ready resource.now records.now) }
{
    let mut told = RowCompensator::over(alloc, resource, records.len() + 2)?;
    let mut forget = Vec::with_capacity(alloc, records.len()).map_err(|_| NoMemory)?;
    Ok(prepare(&mut told, records, &mut forget))
}

// Whether the resource with a name doesn't vote against an attempt with these records. One that takes no part in the
// prepare phase isn't asked.
fn is_ready(
    alloc: Global,
    catalogue: &Catalogue,
    name: &Name,
    records: &[PlayRecord],
) -> Result<bool, NoMemory>
    ensures { IfOk result (λ ready. ready ≡ not (votes_no catalogue.now records.now name.now)) }
{
    let Some(resource) = catalogue.resource(name.as_bytes()) else {
        return Ok(true);
    };
    if !has_prepare(resource) {
        return Ok(true);
    }
    let own = records_of(alloc, name, records)?;
    prepares(alloc, resource, own.as_slice())
}

/// Each resource that the attempt changed votes, in order of its first effect. The error is want of memory.
pub(crate) fn vote_all(
    alloc: Global,
    catalogue: &Catalogue,
    attempt: &mut Attempt,
) -> Result<(), NoMemory>
    ensures { OnOk result (attempt.new ≡ heard_out catalogue.now attempt.old) }
{
    let names = names_changed(alloc, attempt.state().records())?;
    for name in names.iter() {
        let ready = is_ready(alloc, catalogue, name, attempt.state().records())?;
        attempt.vote(name, ready);
    }
    Ok(())
}
