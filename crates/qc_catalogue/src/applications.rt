// Applications.
ghost use Rattle.std.specs.Prelude.{◌≡◌, Ok, IfOk, IfErr, OnOk, [], true};
ghost use Rattle.toml.specs.View.{view, table_view};
ghost use Rattle.qc_base.specs.Names.{is_name, is_app_name};
ghost use Rattle.qc_catalogue.specs.Fields.{table_at};
ghost use Rattle.qc_catalogue.specs.Findings.{IsRefusalAfter, each, entry, in_names, walked};
ghost use Rattle.qc_catalogue.specs.Applications.{app_found, app_from, app_in};
ghost use Rattle.qc_catalogue.specs.Catalogue.{apps_found};
ghost use Rattle.qc_catalogue.specs.declared.field.Field.TheVariants.{Application};

use crate::catalogue::App;
use crate::components::read_components;
use crate::error::CatalogueError;
use crate::exceptions::read_exceptions;
use crate::field::Field;
use crate::ids::read_id;
use crate::paths::{field_path, under};
use crate::tables::{as_table, check_app_names, check_known, name_of, table_at};
use qc_base::Name;
use qc_script::{Entries, Names};
use std::alloc::Global;
use std::collections::BTreeSet;
use toml::{Table, Value};
use uuid::Uuid;

fn read_app(
    alloc: Global,
    names: &Names,
    met: &mut BTreeSet<Uuid>,
    path: &[u8],
    name: Name,
    table: &Table,
) -> Result<App, CatalogueError>
    ensures value { IfOk result (λ app. app ≡ app_from names.now name (table_view table.now)) }
    ensures walked { OnOk result (walked met.old.keys (app_found names.now name path.now (table_view table.now)) ≡ Ok met.new.keys) }
    ensures refused { IfErr result (IsRefusalAfter met.old.keys (app_found names.now name path.now (table_view table.now))) }
{
    read_id(alloc, met, path, Field::Id, table)?;
    let exceptions = read_exceptions(alloc, names, met, path, table)?;
    let components = read_components(alloc, names, exceptions.as_slice(), met, path, table)?;
    check_known(
        alloc,
        path,
        &[Field::Id, Field::Exception, Field::Component],
        table,
    )?;
    Ok(App {
        name,
        exceptions,
        components,
    })
}

fn read_entry(
    alloc: Global,
    names: &Names,
    met: &mut BTreeSet<Uuid>,
    path: &[u8],
    key: &str,
    value: &Value,
) -> Result<App, CatalogueError>
    requires { is_name key.now ≡ true }
    ensures value { IfOk result (λ app. app ≡ app_in names.now key.now (view value.now)) }
    ensures walked { OnOk result (walked met.old.keys (entry (app_found names.now) path.now key.now (view value.now)) ≡ Ok met.new.keys) }
    ensures refused { IfErr result (IsRefusalAfter met.old.keys (entry (app_found names.now) path.now key.now (view value.now))) }
{
    let path = under(alloc, path, key.as_bytes())?;
    let table = as_table(alloc, path.as_slice(), value)?;
    read_app(alloc, names, met, path.as_slice(), name_of(key), table)
}

fn read_entries(
    alloc: Global,
    names: &Names,
    met: &mut BTreeSet<Uuid>,
    path: &[u8],
    table: &Table,
) -> Result<Entries<App>, CatalogueError>
    ensures value { IfOk result (λ apps. apps ≡ each (app_in names.now) (table_view table.now)) }
    ensures walked { OnOk result (walked met.old.keys (in_names is_app_name 1 64 (app_found names.now) path.now (table_view table.now)) ≡ Ok met.new.keys) }
    ensures refused { IfErr result (IsRefusalAfter met.old.keys (in_names is_app_name 1 64 (app_found names.now) path.now (table_view table.now))) }
{
    check_app_names(alloc, path, table)?;
    let mut apps = Vec::new(alloc);
    for (key, value) in table.iter() {
        let app = read_entry(alloc, names, met, path, key.as_str(), value)?;
        let Ok(()) = apps.push(app) else {
            return Err(CatalogueError::NoMemory);
        };
    }
    Ok(Entries::over(apps))
}

/// The applications of a catalogue.
pub fn read_apps(
    alloc: Global,
    names: &Names,
    met: &mut BTreeSet<Uuid>,
    top: &Table,
) -> Result<Entries<App>, CatalogueError>
    ensures value { IfOk result (λ apps. apps ≡ each (app_in names.now) (table_at Application (table_view top.now))) }
    ensures walked { OnOk result (walked met.old.keys (apps_found names.now (table_view top.now)) ≡ Ok met.new.keys) }
    ensures refused { IfErr result (IsRefusalAfter met.old.keys (apps_found names.now (table_view top.now))) }
{
    let path = field_path(alloc, &[], Field::Application)?;
    let table = table_at(alloc, path.as_slice(), Field::Application, top)?;
    read_entries(alloc, names, met, path.as_slice(), table)
}
