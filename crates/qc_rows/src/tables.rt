// The tables of a site.
ghost use Rattle.std.specs.Prelude.{◌≡◌, List, [], map, filter, IfOk, OnOk, true};
ghost use Rattle.qc_base.specs.declared.recording.Row.{Row as RowValue};
ghost use Rattle.qc_catalogue.specs.Laws.{StandInOrder, keys_ascend};
ghost use Rattle.qc_rows.specs.Tables.{amount_in, is_set, opened_tables, row_amount, rows_shown, total_in};
ghost use Rattle.qc_rows.specs.Settling.{is_inside, settled_by};
ghost use Rattle.qc_rows.specs.Places.{written_by, written_one, written_row};
ghost use Rattle.qc_rows.specs.Places.{are_reserved, has_place, is_ready, places_of, rows_seen, Widens, WidensTable};

use crate::table::{Table, amount_at, set_rows, total_of};
use qc_base::{Amount, Name, NoMemory, Row, Space, Text};
use qc_catalogue::Catalogue;
use std::alloc::Global;
use std::marker::Model;

/// The tables of a site with the amounts of their rows (docs/RULES.md, "Rows"). Contracts see what they mean: the list
/// of tables, in the order in which the catalogue opens them, each with its rows whose amount isn't 0, in byte order of
/// their keys. Beside it they see which rows have a place, so that they can be settled without memory.
#[derive(Debug, Drop)]
pub struct Tables {
    tables: Vec<Table>,
}

impl Model for Tables {
    ghost use Rattle.std.specs.Prelude.{◌≡◌, map, true};
    ghost use Rattle.qc_rows.specs.Places.{TablesView, keys_stand, meant, places_of};

    ghost Value = { TablesView };

    ghost view = { λ t. meant t.tables.items };

    ghost invariant = { λ t. keys_stand (map places_of t.tables.items) ≡ true };
}

impl Tables {
    /// No tables.
    pub fn none(alloc: Global) -> Tables
        ensures { result.tables ≡ [] }
    {
        Tables {
            tables: Vec::new(alloc),
        }
    }

    /// The tables of a catalogue, with the rows that it opens them with. Its tables and rows stand in order, as those of
    /// each catalogue that was read do (`lists_stand_in_order` of `qc_catalogue`). The error is want of memory.
    pub fn make(alloc: Global, catalogue: &Catalogue) -> Result<Tables, NoMemory>
        requires { StandInOrder catalogue.now }
        ensures { IfOk result (λ tables. tables.tables ≡ opened_tables catalogue.now) }
    {
        let openings = catalogue.tables();
        let mut tables = Vec::new(alloc);
        for opening in openings {
            let table = Table::open(alloc, opening)?;
            tables.push(table).map_err(|_| NoMemory)?;
        }
        Ok(Tables { tables })
    }

    // The rows that are kept of a table.
    fn rows(&self, table: &Name) -> &[(Text, Amount)]
        ensures rows { filter is_set result.now ≡ rows_shown table.now self.now.tables }
        ensures ascend { keys_ascend result.now ≡ true }
    {
        rows_of(self.tables.as_slice(), table)
    }

    fn amount_of(&self, table: &Name, key: &Text) -> Amount
        ensures { result ≡ amount_in table.now key.now self.now.tables }
    {
        amount_at(self.rows(table), key)
    }

    /// The amount of a row, which is 0 where it isn't there.
    pub fn amount(&self, table: &Name, key: &Text) -> u64
        ensures { result ≡ amount_in table.now key.now self.now.tables }
    {
        self.amount_of(table, key).get()
    }

    /// The amounts of inside rows, in order. The error is want of memory.
    pub fn copy_rows(&self, alloc: Global, rows: &[Row]) -> Result<Vec<Amount>, NoMemory>
        ensures { IfOk result (λ amounts. amounts.items ≡ map (row_amount self.now.tables) rows.now) }
    {
        let mut amounts = Vec::new(alloc);
        for row in rows {
            amounts
                .push(self.amount_of(&row.name, &row.key))
                .map_err(|_| NoMemory)?;
        }
        Ok(amounts)
    }

    /// The sum of the amounts of a table's rows.
    pub fn total(&self, table: &Name) -> u128
        ensures { result ≡ total_in table.now self.now.tables }
    {
        total_of(self.rows(table))
    }

    /// The rows of a table whose amount isn't 0, in byte order of their keys. The error is want of memory.
    pub fn list(&self, alloc: Global, table: &Name) -> Result<Vec<(Text, Amount)>, NoMemory>
        ensures { IfOk result (λ rows. rows.items ≡ rows_shown table.now self.now.tables) }
    {
        set_rows(alloc, self.rows(table))
    }

    /// The inside rows among these have a place from now on; outside rows are passed over. No amount changes, and rows
    /// that had a place keep it, also where there is no memory.
    pub fn reserve(&mut self, _alloc: Global, rows: &[Row]) -> Result<(), NoMemory>
        ensures tables { self.new.tables ≡ self.old.tables }
        ensures kept { (held : List RowValue) → are_reserved held self.old.places ≡ true
            → are_reserved held self.new.places ≡ true }
        ensures reserved { OnOk result (are_reserved rows.now self.new.places ≡ true) }
    {
        reserve_rows(self.tables.as_mut_slice(), rows)
    }

    /// The inside rows of a view, which have a place, get their amounts. Outside rows, and rows without an amount, are
    /// passed over. This takes no memory. What it does to amounts and totals is said by `views_settle_their_rows`.
    pub fn apply_view(&mut self, view: &[(Row, Option<Amount>)])
        requires { are_reserved (rows_seen view.now) self.old.places ≡ true }
        ensures { self.new ≡ record self.old { tables = settled_by view.now self.old.tables } }
    {
        write_view(self.tables.as_mut_slice(), view);
    }
}

// The rows of a table, none where there is no such table.
pub(crate) fn rows_of<'a>(tables: &'a [Table], name: &Name) -> &'a [(Text, Amount)]
    ensures { result.now ≡ rows_shown name.now tables.now }
{
    for table in tables {
        if table.is_named(name) {
            return table.rows.as_slice();
        }
    }
    &[]
}

pub(crate) fn is_inside(row: &Row) -> bool
    ensures { result ≡ is_inside row.now }
{
    match row.space {
        Space::Inside => true,
        Space::Outside => false,
    }
}

// A row has a place in the table, where that is its own.
fn reserve_in(table: &mut Table, row: &Row) -> Result<(), NoMemory>
    ensures widened { WidensTable table.old table.new }
    ensures reserved { OnOk result (has_place row.now (places_of table.new) ≡ true) }
{
    if !table.is_named(&row.name) {
        return Ok(());
    }
    table.reserve(&row.key)
}

// A row has a place in each table of its name, where it is an inside row.
fn reserve_row(tables: &mut [Table], row: &Row) -> Result<(), NoMemory>
    ensures widened { Widens tables.old tables.new }
    ensures reserved { OnOk result (is_ready (map places_of tables.new) row.now ≡ true) }
{
    if !is_inside(row) {
        return Ok(());
    }
    for i in 0..tables.len() {
        reserve_in(&mut tables[i], row)?;
    }
    Ok(())
}

fn reserve_rows(tables: &mut [Table], rows: &[Row]) -> Result<(), NoMemory>
    ensures widened { Widens tables.old tables.new }
    ensures reserved { OnOk result (are_reserved rows.now (map places_of tables.new) ≡ true) }
{
    for row in rows {
        reserve_row(tables, row)?;
    }
    Ok(())
}

// The row gets the amount in each table of its name, where it has a place.
pub(crate) fn write_row(tables: &mut [Table], row: &Row, amount: Amount)
    ensures { tables.new ≡ written_row row.now amount tables.old }
{
    for table in tables.iter_mut() {
        if table.is_named(&row.name) {
            table.write(&row.key, amount);
        }
    }
}

fn write_one(tables: &mut [Table], seen: &(Row, Option<Amount>))
    ensures { tables.new ≡ written_one seen.now tables.old }
{
    if !is_inside(&seen.0) {
        return;
    }
    if let Some(amount) = seen.1 {
        write_row(tables, &seen.0, amount);
    }
}

fn write_view(tables: &mut [Table], view: &[(Row, Option<Amount>)])
    ensures { tables.new ≡ written_by view.now tables.old }
{
    for seen in view {
        write_one(tables, seen);
    }
}
