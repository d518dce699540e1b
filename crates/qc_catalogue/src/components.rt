// Components, and the exception classes that they name.
ghost use Rattle.std.specs.Prelude.{◌≡◌, Ok, IfOk, IfErr, OnOk, [], true, option_map};
ghost use Rattle.toml.specs.View.{view, table_view};
ghost use Rattle.qc_base.specs.Names.{is_name};
ghost use Rattle.qc_catalogue.specs.Fields.{value_at, text_at, members_at, table_at};
ghost use Rattle.qc_catalogue.specs.Findings.{IsRefusalOf, IsRefusalAfter, each, entry, in_names, in_table, field_path, walked};
ghost use Rattle.qc_catalogue.specs.Applications.{names_class, class_of, component_found, component_from, component_in, components_found, components_in};
ghost use Rattle.qc_catalogue.specs.declared.field.Field.TheVariants.{Exception as ExceptionField, Component as ComponentField};

use crate::catalogue::{Component, Exception};
use crate::error::CatalogueError;
use crate::field::Field;
use crate::ids::read_id;
use crate::kinds::check_class;
use crate::lookup::find_named;
use crate::methods::read_methods;
use crate::paths::{bad_field, field_path, under, unknown_name};
use crate::tables::{as_table, check_known, check_names, name_of, table_at};
use crate::values::{text_at, value_at};
use qc_base::Name;
use qc_script::{Entries, Names};
use std::alloc::Global;
use std::collections::BTreeSet;
use toml::{Table, Value};
use uuid::Uuid;

// The exception class that a component's table names.
fn class_of<'a>(exceptions: &'a [Exception], table: &Table) -> Option<&'a Exception>
    ensures { option_map (λ x. x.now) result ≡ class_of exceptions.now (table_view table.now) }
{
    match text_at(Field::Exception, table) {
        Some(name) => find_named(exceptions, name.as_bytes()),
        None => None,
    }
}

// The name of that class, which has to be there.
fn read_class_name(
    alloc: Global,
    exceptions: &[Exception],
    path: &[u8],
    table: &Table,
) -> Result<Option<Name>, CatalogueError>
    ensures value { IfOk result (λ name. name ≡ text_at ExceptionField (table_view table.now)) }
    ensures clean { OnOk result (names_class exceptions.now (field_path path.now ExceptionField) (value_at ExceptionField (table_view table.now)) ≡ []) }
    ensures refused { IfErr result (IsRefusalOf (names_class exceptions.now (field_path path.now ExceptionField) (value_at ExceptionField (table_view table.now)))) }
{
    let Some(value) = value_at(Field::Exception, table) else {
        return Ok(None);
    };
    let Some(text) = value.as_str() else {
        return Err(bad_field(alloc, path, Field::Exception));
    };
    match find_named(exceptions, text.as_bytes()) {
        Some(class) => Ok(Some(class.name)),
        None => Err(unknown_name(alloc, path, Field::Exception)),
    }
}

fn read_component(
    alloc: Global,
    names: &Names,
    exceptions: &[Exception],
    app: &[u8],
    met: &mut BTreeSet<Uuid>,
    path: &[u8],
    name: Name,
    table: &Table,
) -> Result<Component, CatalogueError>
    ensures value { IfOk result (λ component. component ≡ component_from names.now name (table_view table.now)) }
    ensures walked { OnOk result (walked met.old.keys (component_found names.now exceptions.now app.now name path.now (table_view table.now)) ≡ Ok met.new.keys) }
    ensures refused { IfErr result (IsRefusalAfter met.old.keys (component_found names.now exceptions.now app.now name path.now (table_view table.now))) }
{
    read_id(alloc, met, path, Field::Class, table)?;
    let exception = read_class_name(alloc, exceptions, path, table)?;
    let methods = read_methods(alloc, names, path, 1, table)?;
    check_class(alloc, app, methods.as_slice(), class_of(exceptions, table))?;
    check_known(
        alloc,
        path,
        &[Field::Class, Field::Exception, Field::Method],
        table,
    )?;
    Ok(Component {
        name,
        exception,
        methods,
    })
}

fn read_entry(
    alloc: Global,
    names: &Names,
    exceptions: &[Exception],
    app: &[u8],
    met: &mut BTreeSet<Uuid>,
    path: &[u8],
    key: &str,
    value: &Value,
) -> Result<Component, CatalogueError>
    requires { is_name key.now ≡ true }
    ensures value { IfOk result (λ component. component ≡ component_in names.now key.now (view value.now)) }
    ensures walked { OnOk result (walked met.old.keys (entry (component_found names.now exceptions.now app.now) path.now key.now (view value.now)) ≡ Ok met.new.keys) }
    ensures refused { IfErr result (IsRefusalAfter met.old.keys (entry (component_found names.now exceptions.now app.now) path.now key.now (view value.now))) }
{
    let path = under(alloc, path, key.as_bytes())?;
    let table = as_table(alloc, path.as_slice(), value)?;
    read_component(
        alloc,
        names,
        exceptions,
        app,
        met,
        path.as_slice(),
        name_of(key),
        table,
    )
}

fn read_entries(
    alloc: Global,
    names: &Names,
    exceptions: &[Exception],
    app: &[u8],
    met: &mut BTreeSet<Uuid>,
    path: &[u8],
    table: &Table,
) -> Result<Entries<Component>, CatalogueError>
    ensures value { IfOk result (λ components. components ≡ each (component_in names.now) (table_view table.now)) }
    ensures walked { OnOk result (walked met.old.keys (in_names is_name 1 64 (component_found names.now exceptions.now app.now) path.now (table_view table.now)) ≡ Ok met.new.keys) }
    ensures refused { IfErr result (IsRefusalAfter met.old.keys (in_names is_name 1 64 (component_found names.now exceptions.now app.now) path.now (table_view table.now))) }
{
    check_names(alloc, path, 1, 64, table)?;
    let mut components = Vec::new(alloc);
    for (key, value) in table.iter() {
        let component = read_entry(
            alloc,
            names,
            exceptions,
            app,
            met,
            path,
            key.as_str(),
            value,
        )?;
        let Ok(()) = components.push(component) else {
            return Err(CatalogueError::NoMemory);
        };
    }
    Ok(Entries::over(components))
}

/// The components of an application's table, at its path.
pub fn read_components(
    alloc: Global,
    names: &Names,
    exceptions: &[Exception],
    met: &mut BTreeSet<Uuid>,
    app: &[u8],
    table: &Table,
) -> Result<Entries<Component>, CatalogueError>
    ensures value { IfOk result (λ components. components ≡ components_in names.now (table_view table.now)) }
    ensures walked { OnOk result (walked met.old.keys (components_found names.now exceptions.now app.now (table_view table.now)) ≡ Ok met.new.keys) }
    ensures refused { IfErr result (IsRefusalAfter met.old.keys (components_found names.now exceptions.now app.now (table_view table.now))) }
{
    let path = field_path(alloc, app, Field::Component)?;
    let components = table_at(alloc, path.as_slice(), Field::Component, table)?;
    read_entries(
        alloc,
        names,
        exceptions,
        app,
        met,
        path.as_slice(),
        components,
    )
}
