// The amounts that are settled for outside rows.
ghost use Rattle.std.specs.Prelude.{◌≡◌, [], IfOk};
ghost use Rattle.qc_rows.specs.Outside.{amount_there, named_rows, opened_resources, outside_amount, outside_by, outside_one};

use crate::table::{Table, has_key};
use crate::tables::{is_inside, rows_of, write_row};
use qc_base::{Amount, Name, NoMemory, Row, Text};
use qc_catalogue::{Catalogue, Resource};
use std::alloc::Global;
use std::marker::Model;

/// The amounts that a history settles for the outside rows of a site (docs/RULES.md, "Rows"). Contracts see the
/// resources in the order in which the catalogue names them, each with all rows that it names and their amounts.
#[derive(Debug, Drop)]
pub struct OutsideAmounts {
    resources: Vec<Table>,
}

impl Model for OutsideAmounts {
    ghost use Rattle.std.specs.Prelude.{List};
    ghost use Rattle.qc_rows.specs.Tables.{TableRows};

    ghost Value = { List TableRows };

    ghost view = { λ o. o.resources.items };
}

impl OutsideAmounts {
    /// No resources.
    pub fn none(alloc: Global) -> OutsideAmounts
        ensures { result ≡ [] }
    {
        OutsideAmounts {
            resources: Vec::new(alloc),
        }
    }

    /// The resources of a catalogue, with the amounts that it opens their rows with. The error is want of memory.
    pub fn make(alloc: Global, catalogue: &Catalogue) -> Result<OutsideAmounts, NoMemory>
        ensures { IfOk result (λ amounts. amounts ≡ opened_resources catalogue.now) }
    {
        let named = catalogue.resources();
        let mut resources = Vec::new(alloc);
        for resource in named {
            let rows = named_rows(alloc, resource)?;
            resources.push(rows).map_err(|_| NoMemory)?;
        }
        Ok(OutsideAmounts { resources })
    }

    /// The amount of a row. None exactly where no resource of this name has a row of this key.
    pub fn amount(&self, resource: &Name, key: &Text) -> Option<Amount>
        ensures { result ≡ outside_amount self.now resource.now key.now }
    {
        amount_there(rows_of(self.resources.as_slice(), resource), key)
    }

    /// The outside rows of a view get their amounts. Inside rows, rows without an amount, and rows that aren't there,
    /// are passed over. This takes no memory.
    pub fn apply_view(&mut self, view: &[(Row, Option<Amount>)])
        ensures { self.new ≡ outside_by view.now self.old }
    {
        write_outside(self.resources.as_mut_slice(), view);
    }
}

// A resource with the rows that the catalogue names.
fn named_rows(alloc: Global, resource: &Resource) -> Result<Table, NoMemory>
    ensures { IfOk result (λ table. table ≡ named_rows resource.now) }
{
    let Ok(rows) = Vec::from_slice(alloc, resource.rows.as_slice()) else {
        return Err(NoMemory);
    };
    Ok(Table {
        name: resource.name,
        rows,
    })
}

// The amount at a key, none where no row has it.
fn amount_there(rows: &[(Text, Amount)], key: &Text) -> Option<Amount>
    ensures { result ≡ amount_there key.now rows.now }
{
    for row in rows {
        if has_key(row, key) {
            return Some(row.1);
        }
    }
    None
}

fn write_one(resources: &mut [Table], seen: &(Row, Option<Amount>))
    ensures { resources.new ≡ outside_one seen.now resources.old }
{
    if is_inside(&seen.0) {
        return;
    }
    if let Some(amount) = seen.1 {
        write_row(resources, &seen.0, amount);
    }
}

fn write_outside(resources: &mut [Table], view: &[(Row, Option<Amount>)])
    ensures { resources.new ≡ outside_by view.now resources.old }
{
    for seen in view {
        write_one(resources, seen);
    }
}
