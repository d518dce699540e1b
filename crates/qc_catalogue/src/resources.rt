// Resources.
ghost use Rattle.std.specs.Prelude.{◌≡◌, ◌<◌, IfOk, IfErr, OnOk, [], Some, true};
ghost use Rattle.toml.specs.View.{view, table_view};
ghost use Rattle.qc_base.specs.LogLines.{has_phase};
ghost use Rattle.qc_base.specs.Names.{is_name};
ghost use Rattle.qc_catalogue.specs.Fields.{value_at, members_at, table_at, whole_of};
ghost use Rattle.qc_catalogue.specs.Findings.{IsRefusalOf, each, entry, in_names, in_optional, in_table, field_path, rule};
ghost use Rattle.qc_catalogue.specs.Rows.{mode_of, mode_at, phases_at, bounds_found, bounds_in, rows_found, rows_found_at, rows_in, has_its_phases, resource_found, resource_in, members_of};
ghost use Rattle.qc_catalogue.specs.Catalogue.{resources_in, resources_found};
ghost use Rattle.qc_catalogue.specs.declared.error.CatalogueError.TheVariants.{PhaseMissing};
ghost use Rattle.qc_catalogue.specs.declared.field.Field.TheVariants.{Low, High, Rows, Resource as ResourceField};

use crate::catalogue::Resource;
use crate::error::CatalogueError;
use crate::field::Field;
use crate::lists::AmountRows;
use crate::paths::{bad_field, field_path, under};
use crate::rows::read_rows;
use crate::tables::{as_table, check_known, check_names, name_of, table_at};
use crate::values::{amount_of, text_at, value_at, whole_of};
use qc_base::{Amount, Name};
use qc_script::Entries;
use std::alloc::Global;
use toml::{Table, Value};

fn mode_of(word: &str) -> Option<bool>
    ensures { result ≡ mode_of word.now }
{
    match word {
        "early" => Some(true),
        "late" => Some(false),
        _ => None,
    }
}

// Whether the resource is early.
fn mode_at(table: &Table) -> Option<bool>
    ensures { result ≡ mode_at (table_view table.now) }
{
    match text_at(Field::Mode, table) {
        Some(word) => mode_of(word),
        None => None,
    }
}

fn phases_at(table: &Table) -> Option<u8>
    ensures { result ≡ phases_at (table_view table.now) }
{
    match value_at(Field::Phases, table) {
        Some(value) => phases_of(value),
        None => None,
    }
}

fn phases_of(value: &Value) -> Option<u8>
    ensures { result ≡ whole_of 1 7 (view value.now) }
{
    match whole_of(1, 7, value) {
        Some(phases) => Some(phases as u8),
        None => None,
    }
}

// Both bounds, each of which has to be an amount.
fn read_both(
    alloc: Global,
    path: &[u8],
    low: &Value,
    high: &Value,
) -> Result<(Amount, Amount), CatalogueError>
    ensures value { IfOk result (λ bounds. Some bounds ≡ bounds_in (Some (view low.now)) (Some (view high.now))) }
    ensures clean { OnOk result (bounds_found path.now (Some (view low.now)) (Some (view high.now)) ≡ []) }
    ensures refused { IfErr result (IsRefusalOf (bounds_found path.now (Some (view low.now)) (Some (view high.now)))) }
{
    let Some(low) = amount_of(low) else {
        return Err(bad_field(alloc, path, Field::Low));
    };
    let Some(high) = amount_of(high) else {
        return Err(bad_field(alloc, path, Field::High));
    };
    if high.get() < low.get() {
        return Err(bad_field(alloc, path, Field::High));
    }
    Ok((low, high))
}

// A bound that is missing beside the other is at fault.
fn read_bounds(
    alloc: Global,
    path: &[u8],
    table: &Table,
) -> Result<Option<(Amount, Amount)>, CatalogueError>
    ensures value { IfOk result (λ bounds. bounds ≡ bounds_in (value_at Low (table_view table.now)) (value_at High (table_view table.now))) }
    ensures clean { OnOk result (bounds_found path.now (value_at Low (table_view table.now)) (value_at High (table_view table.now)) ≡ []) }
    ensures refused { IfErr result (IsRefusalOf (bounds_found path.now (value_at Low (table_view table.now)) (value_at High (table_view table.now)))) }
{
    match (value_at(Field::Low, table), value_at(Field::High, table)) {
        (None, None) => Ok(None),
        (None, Some(_)) => Err(bad_field(alloc, path, Field::Low)),
        (Some(_), None) => Err(bad_field(alloc, path, Field::High)),
        (Some(low), Some(high)) => Ok(Some(read_both(alloc, path, low, high)?)),
    }
}

fn read_rows_at(alloc: Global, path: &[u8], table: &Table) -> Result<AmountRows, CatalogueError>
    ensures value { IfOk result (λ rows. rows ≡ rows_in (table_at Rows (table_view table.now))) }
    ensures clean { OnOk result (rows_found_at path.now (table_view table.now) ≡ []) }
    ensures refused { IfErr result (IsRefusalOf (rows_found_at path.now (table_view table.now))) }
{
    let path = field_path(alloc, path, Field::Rows)?;
    let rows = table_at(alloc, path.as_slice(), Field::Rows, table)?;
    read_rows(alloc, path.as_slice(), rows)
}

fn has_phase(phase: u8, phases: u8) -> bool
    requires { 0 < phase }
    ensures { result ≡ has_phase phase phases }
{
    phases / phase % 2 == 1
}

// An early resource takes back what it did, a late one does it at the commit, and one with bounds is asked before.
fn has_its_phases(resource: &Resource) -> bool
    ensures { result ≡ has_its_phases resource.now }
{
    has_phase(if resource.early { 4 } else { 2 }, resource.phases)
        && (resource.bounds.is_none() || has_phase(1, resource.phases))
}

fn check_phases(resource: &Resource) -> Result<(), CatalogueError>
    ensures clean { OnOk result (rule (has_its_phases resource.now) (PhaseMissing resource.now.name) ≡ []) }
    ensures refused { IfErr result (IsRefusalOf (rule (has_its_phases resource.now) (PhaseMissing resource.now.name))) }
{
    if has_its_phases(resource) {
        return Ok(());
    }
    Err(CatalogueError::PhaseMissing(resource.name))
}

#[tactic(auto, using(crate::proofs::Findings::first_append))]
fn read_resource(
    alloc: Global,
    path: &[u8],
    name: Name,
    table: &Table,
) -> Result<Resource, CatalogueError>
    ensures value { IfOk result (λ resource. resource ≡ resource_in name (table_view table.now)) }
    ensures clean { OnOk result (resource_found name path.now (table_view table.now) ≡ []) }
    ensures refused { IfErr result (IsRefusalOf (resource_found name path.now (table_view table.now))) }
{
    let Some(early) = mode_at(table) else {
        return Err(bad_field(alloc, path, Field::Mode));
    };
    let Some(phases) = phases_at(table) else {
        return Err(bad_field(alloc, path, Field::Phases));
    };
    let bounds = read_bounds(alloc, path, table)?;
    let rows = read_rows_at(alloc, path, table)?;
    let fields = [
        Field::Mode,
        Field::Phases,
        Field::Low,
        Field::High,
        Field::Rows,
    ];
    check_known(alloc, path, &fields, table)?;
    let resource = Resource {
        name,
        early,
        phases,
        bounds,
        rows,
    };
    check_phases(&resource)?;
    Ok(resource)
}

fn read_entry(
    alloc: Global,
    path: &[u8],
    key: &str,
    value: &Value,
) -> Result<Resource, CatalogueError>
    requires { is_name key.now ≡ true }
    ensures value { IfOk result (λ resource. resource ≡ resource_in key.now (members_of (view value.now))) }
    ensures clean { OnOk result (entry resource_found path.now key.now (view value.now) ≡ []) }
    ensures refused { IfErr result (IsRefusalOf (entry resource_found path.now key.now (view value.now))) }
{
    let path = under(alloc, path, key.as_bytes())?;
    let table = as_table(alloc, path.as_slice(), value)?;
    read_resource(alloc, path.as_slice(), name_of(key), table)
}

#[tactic(auto, using(crate::proofs::Findings::first_append))]
fn read_entries(
    alloc: Global,
    path: &[u8],
    table: &Table,
) -> Result<Entries<Resource>, CatalogueError>
    ensures value { IfOk result (λ resources. resources ≡ each (λ name d. resource_in name (members_of d)) (table_view table.now)) }
    ensures clean { OnOk result (in_names is_name 0 64 resource_found path.now (table_view table.now) ≡ []) }
    ensures refused { IfErr result (IsRefusalOf (in_names is_name 0 64 resource_found path.now (table_view table.now))) }
{
    check_names(alloc, path, 0, 64, table)?;
    let mut resources = Vec::new(alloc);
    for (key, value) in table.iter() {
        let resource = read_entry(alloc, path, key.as_str(), value)?;
        let Ok(()) = resources.push(resource) else {
            return Err(CatalogueError::NoMemory);
        };
    }
    Ok(Entries::over(resources))
}

/// The resources of a catalogue.
pub fn read_resources(alloc: Global, top: &Table) -> Result<Entries<Resource>, CatalogueError>
    ensures value { IfOk result (λ resources. resources ≡ resources_in (table_view top.now)) }
    ensures clean { OnOk result (resources_found (table_view top.now) ≡ []) }
    ensures refused { IfErr result (IsRefusalOf (resources_found (table_view top.now))) }
{
    let Some(value) = value_at(Field::Resource, top) else {
        return Ok(Entries::over(Vec::new(alloc)));
    };
    let path = field_path(alloc, &[], Field::Resource)?;
    let table = as_table(alloc, path.as_slice(), value)?;
    read_entries(alloc, path.as_slice(), table)
}
