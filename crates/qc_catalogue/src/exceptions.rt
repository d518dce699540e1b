// Exception classes.
ghost use Rattle.std.specs.Prelude.{◌≡◌, Ok, IfOk, IfErr, OnOk, [], true};
ghost use Rattle.toml.specs.View.{view, table_view};
ghost use Rattle.qc_base.specs.Names.{is_name};
ghost use Rattle.qc_catalogue.specs.Fields.{value_at};
ghost use Rattle.qc_catalogue.specs.Findings.{IsRefusalAfter, each, entry, in_names, in_optional, field_path, walked};
ghost use Rattle.qc_catalogue.specs.Applications.{exception_found, exception_from, exception_in, exceptions_found, exceptions_in};
ghost use Rattle.qc_catalogue.specs.declared.field.Field.TheVariants.{Exception as ExceptionField};

use crate::catalogue::Exception;
use crate::error::CatalogueError;
use crate::field::Field;
use crate::ids::read_id;
use crate::methods::{read_methods, read_script};
use crate::paths::{field_path, under};
use crate::tables::{as_table, check_known, check_names, name_of};
use crate::values::value_at;
use qc_base::Name;
use qc_script::{Entries, Names};
use std::alloc::Global;
use std::collections::BTreeSet;
use toml::{Table, Value};
use uuid::Uuid;

fn read_exception(
    alloc: Global,
    names: &Names,
    met: &mut BTreeSet<Uuid>,
    path: &[u8],
    name: Name,
    table: &Table,
) -> Result<Exception, CatalogueError>
    ensures value { IfOk result (λ exception. exception ≡ exception_from names.now name (table_view table.now)) }
    ensures walked { OnOk result (walked met.old.keys (exception_found names.now name path.now (table_view table.now)) ≡ Ok met.new.keys) }
    ensures refused { IfErr result (IsRefusalAfter met.old.keys (exception_found names.now name path.now (table_view table.now))) }
{
    read_id(alloc, met, path, Field::Class, table)?;
    let last = read_script(alloc, names, &[], path, Field::Final, table)?;
    let methods = read_methods(alloc, names, path, 0, table)?;
    check_known(
        alloc,
        path,
        &[Field::Class, Field::Final, Field::Method],
        table,
    )?;
    Ok(Exception {
        name,
        last,
        methods,
    })
}

fn read_entry(
    alloc: Global,
    names: &Names,
    met: &mut BTreeSet<Uuid>,
    path: &[u8],
    key: &str,
    value: &Value,
) -> Result<Exception, CatalogueError>
    requires { is_name key.now ≡ true }
    ensures value { IfOk result (λ exception. exception ≡ exception_in names.now key.now (view value.now)) }
    ensures walked { OnOk result (walked met.old.keys (entry (exception_found names.now) path.now key.now (view value.now)) ≡ Ok met.new.keys) }
    ensures refused { IfErr result (IsRefusalAfter met.old.keys (entry (exception_found names.now) path.now key.now (view value.now))) }
{
    let path = under(alloc, path, key.as_bytes())?;
    let table = as_table(alloc, path.as_slice(), value)?;
    read_exception(alloc, names, met, path.as_slice(), name_of(key), table)
}

fn read_entries(
    alloc: Global,
    names: &Names,
    met: &mut BTreeSet<Uuid>,
    path: &[u8],
    table: &Table,
) -> Result<Entries<Exception>, CatalogueError>
    ensures value { IfOk result (λ exceptions. exceptions ≡ each (exception_in names.now) (table_view table.now)) }
    ensures walked { OnOk result (walked met.old.keys (in_names is_name 0 64 (exception_found names.now) path.now (table_view table.now)) ≡ Ok met.new.keys) }
    ensures refused { IfErr result (IsRefusalAfter met.old.keys (in_names is_name 0 64 (exception_found names.now) path.now (table_view table.now))) }
{
    check_names(alloc, path, 0, 64, table)?;
    let mut exceptions = Vec::new(alloc);
    for (key, value) in table.iter() {
        let exception = read_entry(alloc, names, met, path, key.as_str(), value)?;
        let Ok(()) = exceptions.push(exception) else {
            return Err(CatalogueError::NoMemory);
        };
    }
    Ok(Entries::over(exceptions))
}

/// The exception classes of an application's table.
pub fn read_exceptions(
    alloc: Global,
    names: &Names,
    met: &mut BTreeSet<Uuid>,
    path: &[u8],
    table: &Table,
) -> Result<Entries<Exception>, CatalogueError>
    ensures value { IfOk result (λ exceptions. exceptions ≡ exceptions_in names.now (table_view table.now)) }
    ensures walked { OnOk result (walked met.old.keys (exceptions_found names.now path.now (table_view table.now)) ≡ Ok met.new.keys) }
    ensures refused { IfErr result (IsRefusalAfter met.old.keys (exceptions_found names.now path.now (table_view table.now))) }
{
    let Some(value) = value_at(Field::Exception, table) else {
        return Ok(Entries::over(Vec::new(alloc)));
    };
    let path = field_path(alloc, path, Field::Exception)?;
    let exceptions = as_table(alloc, path.as_slice(), value)?;
    read_entries(alloc, names, met, path.as_slice(), exceptions)
}
