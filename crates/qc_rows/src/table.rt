// A table, as a plain list of rows that is looked through.
ghost use Rattle.std.specs.Prelude.{◌≡◌, ◌≤◌, insert, length, filter, IfOk, OnOk, OnErr, MatchOption};
ghost use Rattle.std.specs.Str.{bytes_eq};
ghost use Rattle.qc_rows.specs.Tables.{amount_at, is_set, opening_rows, sum_of};
ghost use Rattle.qc_rows.specs.Places.{with_place, written};

use qc_base::{Amount, Name, NoMemory, Text};
use qc_catalogue::Opening;
use std::alloc::Global;
use std::cmp::Ordering;
use std::marker::Model;

/// A table with its rows in byte order of their keys. A row with 0 is one that isn't there, and has a place: so an
/// amount is written without memory. Contracts see all that is kept.
#[derive(Debug, Drop)]
pub struct Table {
    pub name: Name,
    pub rows: Vec<(Text, Amount)>,
}

impl Model for Table {
    ghost use Rattle.qc_rows.specs.Tables.{TableRows};

    ghost Value = { TableRows };

    ghost view = { λ t. record { name = t.name; rows = t.rows.items } };
}

impl Table {
    pub fn open(alloc: Global, opening: &Opening) -> Result<Table, NoMemory>
        ensures { IfOk result (λ table. table ≡ opening_rows opening.now) }
    {
        let Ok(rows) = Vec::from_slice(alloc, opening.rows.as_slice()) else {
            return Err(NoMemory);
        };
        Ok(Table {
            name: opening.name,
            rows,
        })
    }

    pub fn is_named(&self, name: &Name) -> bool
        ensures { result ≡ bytes_eq self.now.name name.now }
    {
        self.name.as_bytes() == name.as_bytes()
    }

    /// The row of a key has a place from now on. The error is want of memory, and nothing has changed then.
    pub fn reserve(&mut self, key: &Text) -> Result<(), NoMemory>
        ensures reserved { OnOk result (self.new ≡ record self.old { rows = with_place key.now self.old.rows }) }
        ensures same { OnErr result (self.new ≡ self.old) }
    {
        let Some(place) = place_for(self.rows.as_slice(), key) else {
            return Ok(());
        };
        self.rows
            .insert(place, (*key, zero()))
            .map_err(|_| NoMemory)
    }

    /// The row of a key gets an amount, where it has a place.
    pub fn write(&mut self, key: &Text, amount: Amount)
        ensures { self.new ≡ record self.old { rows = written key.now amount self.old.rows } }
    {
        write_amount(self.rows.as_mut_slice(), key, amount);
    }
}

fn zero() -> Amount
    ensures { result ≡ 0 }
{
    Amount::new(0).unwrap()
}

pub(crate) fn has_key(row: &(Text, Amount), key: &Text) -> bool
    ensures { result ≡ bytes_eq row.now.0 key.now }
{
    row.0.as_bytes() == key.as_bytes()
}

// Where a row with 0 is to be put in for a key, so that it has a place; None where it has one.
fn place_for(rows: &[(Text, Amount)], key: &Text) -> Option<usize>
    ensures { MatchOption result
        (with_place key.now rows.now ≡ rows.now)
        (λ place. (place ≤ length rows.now) × (with_place key.now rows.now ≡ insert rows.now place (key.now, 0))) }
{
    let mut place = 0;
    for row in rows {
        match key.as_bytes().cmp(row.0.as_bytes()) {
            Ordering::Less => return Some(place),
            Ordering::Equal => return None,
            Ordering::Greater => place += 1,
        }
    }
    Some(place)
}

fn write_amount(rows: &mut [(Text, Amount)], key: &Text, amount: Amount)
    ensures { rows.new ≡ written key.now amount rows.old }
{
    for row in rows.iter_mut() {
        if has_key(row, key) {
            row.1 = amount;
        }
    }
}

/// The amount at a key, 0 where no row has it.
pub fn amount_at(rows: &[(Text, Amount)], key: &Text) -> Amount
    ensures { result ≡ amount_at key.now rows.now }
{
    for row in rows {
        if has_key(row, key) {
            return row.1;
        }
    }
    zero()
}

pub fn total_of(rows: &[(Text, Amount)]) -> u128
    ensures { result ≡ sum_of rows.now }
{
    let mut total = 0;
    for row in rows {
        total += row.1.get() as u128;
    }
    total
}

/// The rows that are there.
pub fn set_rows(alloc: Global, rows: &[(Text, Amount)]) -> Result<Vec<(Text, Amount)>, NoMemory>
    ensures { IfOk result (λ there. there.items ≡ filter is_set rows.now) }
{
    let mut there = Vec::new(alloc);
    for row in rows {
        if row.1.get() != 0 {
            there.push(*row).map_err(|_| NoMemory)?;
        }
    }
    Ok(there)
}
