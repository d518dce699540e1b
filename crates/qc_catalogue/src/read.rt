// Reading a catalogue.
ghost use Rattle.std.specs.Prelude.{◌≡◌, Ok, Err, Some, None, List, ℕ, IfOk, IfErr, OnOk, [], map};
ghost use Rattle.toml.specs.View.{table_view};
ghost use Rattle.qc_catalogue.specs.Fields.{table_at};
ghost use Rattle.qc_catalogue.specs.Findings.{walked, each, IsRefusalAfter};
ghost use Rattle.qc_catalogue.specs.Applications.{app_in};
ghost use Rattle.qc_catalogue.specs.Catalogue.{catalogue_of, document_of, names_of, apps_found, found_in, catalogue_in};
ghost use Rattle.qc_catalogue.specs.declared.catalogue.Opening.{Opening};
ghost use Rattle.qc_catalogue.specs.declared.catalogue.Resource.{Resource};
ghost use Rattle.qc_catalogue.specs.declared.error.CatalogueError.TheVariants.{NotToml, NoMemory};
ghost use Rattle.qc_catalogue.specs.declared.field.Field.TheVariants.{Application};

use crate::applications::read_apps;
use crate::catalogue::{App, Catalogue, Opening, Resource};
use crate::error::CatalogueError;
use crate::field::Field;
use crate::resources::read_resources;
use crate::rows::read_tables;
use crate::tables::check_known;
use qc_base::Name;
use qc_script::{Entries, Names};
use std::alloc::Global;
use std::collections::BTreeSet;
use toml::Table;

fn read_document(alloc: Global, text: &[u8]) -> Result<Table, CatalogueError>
    ensures document { IfOk result (λ t. document_of text.now ≡ Some (table_view t)) }
    ensures none { IfErr result (λ e. ¬ (e ≡ NoMemory) → document_of text.now ≡ None) }
    ensures refused { IfErr result (λ e. ¬ (e ≡ NoMemory) → e ≡ NotToml) }
{
    match toml::table_from_slice(alloc, text) {
        Ok(table) => Ok(table),
        Err(e) if e.is_memory() => Err(CatalogueError::NoMemory),
        Err(_) => Err(CatalogueError::NotToml),
    }
}

fn table_names(alloc: Global, tables: &[Opening]) -> Result<Entries<Name>, CatalogueError>
    ensures value { IfOk result (λ names. names ≡ map (λ (t : Opening). t.name) tables.now) }
    ensures memory { IfErr result (λ e. e ≡ NoMemory) }
{
    let mut names = Vec::new(alloc);
    for table in tables {
        let Ok(()) = names.push(table.name) else {
            return Err(CatalogueError::NoMemory);
        };
    }
    Ok(Entries::over(names))
}

fn resource_names(alloc: Global, resources: &[Resource]) -> Result<Entries<Name>, CatalogueError>
    ensures value { IfOk result (λ names. names ≡ map (λ (r : Resource). r.name) resources.now) }
    ensures memory { IfErr result (λ e. e ≡ NoMemory) }
{
    let mut names = Vec::new(alloc);
    for resource in resources {
        let Ok(()) = names.push(resource.name) else {
            return Err(CatalogueError::NoMemory);
        };
    }
    Ok(Entries::over(names))
}

fn script_names(
    alloc: Global,
    tables: &[Opening],
    resources: &[Resource],
) -> Result<Names, CatalogueError>
    ensures value { IfOk result (λ names. names ≡ names_of tables.now resources.now) }
    ensures memory { IfErr result (λ e. e ≡ NoMemory) }
{
    let tables = table_names(alloc, tables)?;
    let resources = resource_names(alloc, resources)?;
    Ok(Names { tables, resources })
}

// The applications, over the UUIDs that are met on the way.
fn read_all_apps(alloc: Global, names: &Names, top: &Table) -> Result<Entries<App>, CatalogueError>
    ensures value { IfOk result (λ apps. apps ≡ each (app_in names.now) (table_at Application (table_view top.now))) }
    ensures walked { OnOk result ((met : List (List ℕ)) × (walked [] (apps_found names.now (table_view top.now)) ≡ Ok met)) }
    ensures refused { IfErr result (IsRefusalAfter [] (apps_found names.now (table_view top.now))) }
{
    let mut met = BTreeSet::new(alloc);
    read_apps(alloc, names, &mut met, top)
}

fn read_top(alloc: Global, top: &Table) -> Result<Catalogue, CatalogueError>
    ensures value { IfOk result (λ c. c ≡ catalogue_in (table_view top.now)) }
    ensures walked { OnOk result ((met : List (List ℕ)) × (walked [] (found_in (table_view top.now)) ≡ Ok met)) }
    ensures refused { IfErr result (IsRefusalAfter [] (found_in (table_view top.now))) }
{
    let tables = read_tables(alloc, top)?;
    let resources = read_resources(alloc, top)?;
    let names = script_names(alloc, tables.as_slice(), resources.as_slice())?;
    let apps = read_all_apps(alloc, &names, top)?;
    check_known(
        alloc,
        &[],
        &[Field::Table, Field::Resource, Field::Application],
        top,
    )?;
    Ok(Catalogue {
        tables,
        resources,
        apps,
    })
}

impl Catalogue {
    /// Reads a catalogue's text: the catalogue, or the first of its rules that the text breaks (docs/FORMATS.md,
    /// "Catalogue"). Of a text that is too long it is enough to hand in the first 1,048,577 bytes.
    pub fn read(alloc: Global, text: &[u8]) -> Result<Catalogue, CatalogueError>
        ensures catalogue { IfOk result (λ c. catalogue_of text.now ≡ Ok c) }
        ensures refused { IfErr result (λ e. ¬ (e ≡ NoMemory) → catalogue_of text.now ≡ Err e) }
    {
        if text.len() > 1_048_576 {
            return Err(CatalogueError::TextTooLong);
        }
        let top = read_document(alloc, text)?;
        read_top(alloc, &top)
    }
}
