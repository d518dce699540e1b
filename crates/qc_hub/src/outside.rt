// What a resource shows.
ghost use Rattle.std.specs.Prelude.{◌≡◌, ◌≤◌, ◌+◌, [], length, vec_len, vec_capacity};
ghost use Rattle.qc_machine.specs.Listing.{shown_total};
ghost use Rattle.qc_hub.specs.Calls.{IsReady, CarriesOut, outside_of};
ghost use Rattle.qc_hub.specs.Outside.{ReadsRow, ReadsRows};

use crate::error::HubError;
use crate::hub::{Hub, later};
use qc_base::{Amount, Moment, Text};
use qc_protocol::{Refusal, Reply, ShownRow, ShownRows};
use qc_site::{Failed, RowFault, Site};
use std::alloc::Global;

impl Hub {
    /// Lists the rows of a resource as the site holds them, and the sum of their amounts. All memory is taken before the
    /// first of them is read.
    ///
    /// It is the step of the order `outside` with this own moment, and its errors are those of `apply`.
    pub fn outside<S: Site>(
        &mut self,
        alloc: Global,
        site: &mut S,
        at: Moment,
        resource: &[u8],
    ) -> Result<Reply, HubError>
        requires { IsReady S.Site self.old site.old }
        ensures { CarriesOut S.Site (outside_of at resource.now) result self.old site.old self.new site.new }
    {
        self.last = later(at, self.last);
        let Some(named) = self.history.catalogue().resource(resource) else {
            return Ok(Reply::Refused(Refusal::UnknownTable));
        };
        let name = named.name.copy();
        let rows = named.rows.as_slice();
        let Ok(room) = Vec::with_capacity(alloc, rows.len()) else {
            return Err(HubError::NoMemory);
        };
        let Ok(shown) = held_rows(site, resource, rows, room) else {
            self.in_fault = true;
            return Err(HubError::SiteFault);
        };
        let total = total_of(shown.as_slice());
        Ok(Reply::Outside(name, shown, total))
    }
}

// The rows as the site holds them. There is room for them, so this takes no memory.
fn held_rows<S: Site>(
    site: &mut S,
    resource: &[u8],
    rows: &[(Text, Amount)],
    mut shown: Vec<ShownRow>,
) -> Result<ShownRows, Failed>
    requires none { shown.items ≡ [] }
    requires room { vec_len shown + length rows.now ≤ vec_capacity shown }
    ensures { ReadsRows S.Site resource.now rows.now result site.old site.new }
{
    for row in rows {
        let amount = held_amount(site, resource, row.0.as_bytes())?;
        let row = ShownRow { key: row.0, amount };
        shown.push_reserved(row);
    }
    Ok(ShownRows::over(shown))
}

// The amount of a row, where the row is there.
fn held_amount<S: Site>(site: &mut S, resource: &[u8], key: &[u8]) -> Result<Option<Amount>, Failed>
    ensures { ReadsRow S.Site resource.now key.now result site.old site.new }
{
    match site.row_get(resource, key) {
        Ok(amount) => Ok(Amount::new(amount)),
        Err(RowFault::NoRow) => Ok(None),
        Err(RowFault::Failed) => Err(Failed),
    }
}

// The sum of the amounts that are there.
fn total_of(rows: &[ShownRow]) -> u128
    ensures { result ≡ shown_total rows.now }
{
    let mut total = 0;
    for row in rows {
        total += match row.amount {
            Some(amount) => amount.get() as u128,
            None => 0,
        };
    }
    total
}
