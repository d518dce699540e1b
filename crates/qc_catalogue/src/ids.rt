// UUIDs, which differ from one another.
ghost use Rattle.std.specs.Prelude.{◌≡◌, Ok, IfOk, IfErr, OnOk, not};
ghost use Rattle.std.specs.List.{list_any};
ghost use Rattle.std.specs.Str.{bytes_eq};
ghost use Rattle.toml.specs.View.{table_view};
ghost use Rattle.uuid.specs.Text.{parsed};
ghost use Rattle.qc_catalogue.specs.Fields.{value_at};
ghost use Rattle.qc_catalogue.specs.Findings.{IsRefusalAfter, field_path, walked, with_id};
ghost use Rattle.qc_catalogue.specs.Applications.{id_of, id_found};

use crate::error::CatalogueError;
use crate::field::Field;
use crate::paths::bad_field;
use crate::values::text_at;
use qc_base::NoMemory;
use std::alloc::Global;
use std::collections::BTreeSet;
use toml::Table;
use uuid::Uuid;

fn parse_id(text: &str) -> Option<Uuid>
    ensures { result ≡ parsed text.now }
{
    match Uuid::parse_str(text) {
        Ok(id) => Some(id),
        Err(_) => None,
    }
}

fn id_at(field: Field, table: &Table) -> Option<Uuid>
    ensures { result ≡ id_of (value_at field (table_view table.now)) }
{
    match text_at(field, table) {
        Some(text) => parse_id(text),
        None => None,
    }
}

// Puts a UUID to those met before it, unless it is one of them.
fn meet(met: &mut BTreeSet<Uuid>, id: Uuid) -> Result<bool, NoMemory>
    ensures seen { IfOk result (λ new. new ≡ not (list_any (bytes_eq id) met.old.keys)) }
    ensures met { OnOk result (met.new.keys ≡ with_id id met.old.keys) }
{
    match met.insert(id) {
        Ok(new) => Ok(new),
        Err(_) => Err(NoMemory),
    }
}

/// Reads the UUID at a field and puts it to those that were met before it, none of which it may be.
pub fn read_id(
    alloc: Global,
    met: &mut BTreeSet<Uuid>,
    path: &[u8],
    field: Field,
    table: &Table,
) -> Result<(), CatalogueError>
    ensures walked { OnOk result (walked met.old.keys (id_found (field_path path.now field) (value_at field (table_view table.now))) ≡ Ok met.new.keys) }
    ensures refused { IfErr result (IsRefusalAfter met.old.keys (id_found (field_path path.now field) (value_at field (table_view table.now)))) }
{
    let Some(id) = id_at(field, table) else {
        return Err(bad_field(alloc, path, field));
    };
    match meet(met, id) {
        Ok(true) => Ok(()),
        Ok(false) => Err(bad_field(alloc, path, field)),
        Err(_) => Err(CatalogueError::NoMemory),
    }
}
