// Methods and their scripts.
ghost use Rattle.std.specs.Prelude.{◌≡◌, IfOk, IfErr, OnOk, [], true};
ghost use Rattle.toml.specs.View.{view, table_view};
ghost use Rattle.qc_base.specs.Names.{is_name};
ghost use Rattle.qc_catalogue.specs.Fields.{value_at, members_at};
ghost use Rattle.qc_catalogue.specs.Findings.{IsRefusalOf, each, entry, in_names, in_table, field_path};
ghost use Rattle.qc_catalogue.specs.Methods.{script_found, script_in, method_found, method_from, method_in};
ghost use Rattle.qc_catalogue.specs.Applications.{methods_found, methods_in};
ghost use Rattle.qc_catalogue.specs.declared.field.Field.TheVariants.{Method as MethodField};

use crate::catalogue::Method;
use crate::error::CatalogueError;
use crate::field::Field;
use crate::params::{inputs, is_queueable, params_at};
use crate::paths::{bad_field, bad_script, field_path, not_queueable, under};
use crate::tables::{as_table, check_known, check_names, name_of, table_at};
use crate::values::text_at;
use qc_base::Name;
use qc_script::{Entries, Names, Param, Script, ScriptError, parse_script};
use std::alloc::Global;
use toml::{Table, Value};

/// The script at a field, which may use these names and parameters.
pub fn read_script(
    alloc: Global,
    names: &Names,
    params: &[Param],
    path: &[u8],
    field: Field,
    table: &Table,
) -> Result<Script, CatalogueError>
    ensures value { IfOk result (λ script. script ≡ script_in names.now params.now (value_at field (table_view table.now))) }
    ensures clean { OnOk result (script_found names.now params.now (field_path path.now field) (value_at field (table_view table.now)) ≡ []) }
    ensures refused { IfErr result (IsRefusalOf (script_found names.now params.now (field_path path.now field) (value_at field (table_view table.now)))) }
{
    let Some(text) = text_at(field, table) else {
        return Err(bad_field(alloc, path, field));
    };
    match parse_script(alloc, text.as_bytes(), params, names) {
        Ok(script) => Ok(script),
        Err(ScriptError::BadLine(line)) => Err(bad_script(alloc, path, field, line)),
        Err(ScriptError::NoMemory) => Err(CatalogueError::NoMemory),
    }
}

#[tactic(auto, using(crate::proofs::Findings::first_append))]
fn read_method(
    alloc: Global,
    names: &Names,
    path: &[u8],
    name: Name,
    table: &Table,
) -> Result<Method, CatalogueError>
    ensures value { IfOk result (λ method. method ≡ method_from names.now name (table_view table.now)) }
    ensures clean { OnOk result (method_found names.now name path.now (table_view table.now) ≡ []) }
    ensures refused { IfErr result (IsRefusalOf (method_found names.now name path.now (table_view table.now))) }
{
    let Some(declared) = params_at(alloc, table)? else {
        return Err(bad_field(alloc, path, Field::Params));
    };
    if !is_queueable(declared.as_slice()) {
        return Err(not_queueable(alloc, path));
    }
    let params = inputs(alloc, declared.as_slice())?;
    let script = read_script(alloc, names, params.as_slice(), path, Field::Script, table)?;
    check_known(alloc, path, &[Field::Params, Field::Script], table)?;
    Ok(Method {
        name,
        params,
        script,
    })
}

fn read_entry(
    alloc: Global,
    names: &Names,
    path: &[u8],
    key: &str,
    value: &Value,
) -> Result<Method, CatalogueError>
    requires { is_name key.now ≡ true }
    ensures value { IfOk result (λ method. method ≡ method_in names.now key.now (view value.now)) }
    ensures clean { OnOk result (entry (method_found names.now) path.now key.now (view value.now) ≡ []) }
    ensures refused { IfErr result (IsRefusalOf (entry (method_found names.now) path.now key.now (view value.now))) }
{
    let path = under(alloc, path, key.as_bytes())?;
    let table = as_table(alloc, path.as_slice(), value)?;
    read_method(alloc, names, path.as_slice(), name_of(key), table)
}

#[tactic(auto, using(crate::proofs::Findings::first_append))]
fn read_entries(
    alloc: Global,
    names: &Names,
    path: &[u8],
    least: usize,
    table: &Table,
) -> Result<Entries<Method>, CatalogueError>
    ensures value { IfOk result (λ methods. methods ≡ each (method_in names.now) (table_view table.now)) }
    ensures clean { OnOk result (in_names is_name least 64 (method_found names.now) path.now (table_view table.now) ≡ []) }
    ensures refused { IfErr result (IsRefusalOf (in_names is_name least 64 (method_found names.now) path.now (table_view table.now))) }
{
    check_names(alloc, path, least, 64, table)?;
    let mut methods = Vec::new(alloc);
    for (key, value) in table.iter() {
        let method = read_entry(alloc, names, path, key.as_str(), value)?;
        let Ok(()) = methods.push(method) else {
            return Err(CatalogueError::NoMemory);
        };
    }
    Ok(Entries::over(methods))
}

/// The methods of a class's table, of which there are at least so many. The path is that of the class's table.
pub fn read_methods(
    alloc: Global,
    names: &Names,
    path: &[u8],
    least: usize,
    table: &Table,
) -> Result<Entries<Method>, CatalogueError>
    ensures value { IfOk result (λ methods. methods ≡ methods_in names.now (table_view table.now)) }
    ensures clean { OnOk result (methods_found names.now least path.now (table_view table.now) ≡ []) }
    ensures refused { IfErr result (IsRefusalOf (methods_found names.now least path.now (table_view table.now))) }
{
    let path = field_path(alloc, path, Field::Method)?;
    let methods = table_at(alloc, path.as_slice(), Field::Method, table)?;
    read_entries(alloc, names, path.as_slice(), least, methods)
}
