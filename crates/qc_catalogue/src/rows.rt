// Tables with their rows.
ghost use Rattle.std.specs.Prelude.{◌≡◌, IfOk, IfErr, OnOk, [], unwrap_or, true};
ghost use Rattle.toml.specs.View.{view, table_view};
ghost use Rattle.qc_base.specs.Names.{is_name};
ghost use Rattle.qc_catalogue.specs.Fields.{value_at, amount_of};
ghost use Rattle.qc_catalogue.specs.Findings.{IsRefusalOf, each, entry, found_in_each, in_names, in_optional, field_path};
ghost use Rattle.qc_catalogue.specs.Rows.{row_found, rows_found, rows_in, opening_found, opening_in};
ghost use Rattle.qc_catalogue.specs.Catalogue.{openings_in, tables_found};
ghost use Rattle.qc_catalogue.specs.declared.field.Field.TheVariants.{Table as TableField};

use crate::catalogue::Opening;
use crate::error::CatalogueError;
use crate::field::Field;
use crate::lists::AmountRows;
use crate::paths::{bad_key, bad_path, field_path, under};
use crate::tables::{as_table, check_names, has_count, name_of};
use crate::values::{amount_of, value_at};
use qc_base::{Amount, Text};
use qc_script::Entries;
use std::alloc::Global;
use toml::{Table, Value};

fn read_row(
    alloc: Global,
    path: &[u8],
    key: &str,
    value: &Value,
) -> Result<(Text, Amount), CatalogueError>
    ensures value { IfOk result (λ row. row ≡ (key.now, unwrap_or (amount_of (view value.now)) 0)) }
    ensures clean { OnOk result (row_found path.now key.now (view value.now) ≡ []) }
    ensures refused { IfErr result (IsRefusalOf (row_found path.now key.now (view value.now))) }
{
    let Some(text) = Text::read(key.as_bytes()) else {
        return Err(bad_key(alloc, path, key.as_bytes()));
    };
    let Some(amount) = amount_of(value) else {
        return Err(bad_key(alloc, path, key.as_bytes()));
    };
    Ok((text, amount))
}

/// The rows of the table at a path.
#[tactic(auto, using(crate::proofs::Findings::first_append))]
pub fn read_rows(alloc: Global, path: &[u8], table: &Table) -> Result<AmountRows, CatalogueError>
    ensures value { IfOk result (λ rows. rows ≡ rows_in (table_view table.now)) }
    ensures clean { OnOk result (rows_found path.now (table_view table.now) ≡ []) }
    ensures refused { IfErr result (IsRefusalOf (rows_found path.now (table_view table.now))) }
{
    if !has_count(0, 10_000, table) {
        return Err(bad_path(alloc, path));
    }
    let mut rows = Vec::new(alloc);
    for (key, value) in table.iter() {
        let row = read_row(alloc, path, key.as_str(), value)?;
        let Ok(()) = rows.push(row) else {
            return Err(CatalogueError::NoMemory);
        };
    }
    Ok(AmountRows::over(rows))
}

fn read_opening(
    alloc: Global,
    path: &[u8],
    key: &str,
    value: &Value,
) -> Result<Opening, CatalogueError>
    requires { is_name key.now ≡ true }
    ensures value { IfOk result (λ opening. opening ≡ opening_in key.now (view value.now)) }
    ensures clean { OnOk result (entry opening_found path.now key.now (view value.now) ≡ []) }
    ensures refused { IfErr result (IsRefusalOf (entry opening_found path.now key.now (view value.now))) }
{
    let path = under(alloc, path, key.as_bytes())?;
    let table = as_table(alloc, path.as_slice(), value)?;
    let rows = read_rows(alloc, path.as_slice(), table)?;
    Ok(Opening {
        name: name_of(key),
        rows,
    })
}

#[tactic(auto, using(crate::proofs::Findings::first_append))]
fn read_openings(
    alloc: Global,
    path: &[u8],
    table: &Table,
) -> Result<Entries<Opening>, CatalogueError>
    ensures value { IfOk result (λ openings. openings ≡ each opening_in (table_view table.now)) }
    ensures clean { OnOk result (in_names is_name 0 256 opening_found path.now (table_view table.now) ≡ []) }
    ensures refused { IfErr result (IsRefusalOf (in_names is_name 0 256 opening_found path.now (table_view table.now))) }
{
    check_names(alloc, path, 0, 256, table)?;
    let mut openings = Vec::new(alloc);
    for (key, value) in table.iter() {
        let opening = read_opening(alloc, path, key.as_str(), value)?;
        let Ok(()) = openings.push(opening) else {
            return Err(CatalogueError::NoMemory);
        };
    }
    Ok(Entries::over(openings))
}

/// The tables of a catalogue.
pub fn read_tables(alloc: Global, top: &Table) -> Result<Entries<Opening>, CatalogueError>
    ensures value { IfOk result (λ openings. openings ≡ openings_in (table_view top.now)) }
    ensures clean { OnOk result (tables_found (table_view top.now) ≡ []) }
    ensures refused { IfErr result (IsRefusalOf (tables_found (table_view top.now))) }
{
    let Some(value) = value_at(Field::Table, top) else {
        return Ok(Entries::over(Vec::new(alloc)));
    };
    let path = field_path(alloc, &[], Field::Table)?;
    let table = as_table(alloc, path.as_slice(), value)?;
    read_openings(alloc, path.as_slice(), table)
}
