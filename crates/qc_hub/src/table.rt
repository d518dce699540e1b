// What a table shows.
ghost use Rattle.std.specs.Prelude.{◌≡◌, map, IfOk};
ghost use Rattle.qc_machine.specs.Listing.{shown_row};
ghost use Rattle.qc_machine.specs.Step.{step};
ghost use Rattle.qc_hub.specs.Calls.{StepsInMemory, showing};

use crate::error::HubError;
use crate::hub::{Hub, later};
use qc_base::{Amount, Moment, NoMemory, Text};
use qc_protocol::{Refusal, Reply, ShownRow, ShownRows};
use std::alloc::Global;

impl Hub {
    // The rows of a table, and the sum of their amounts.
    pub(crate) fn table(
        &mut self,
        alloc: Global,
        at: Moment,
        table: &[u8],
    ) -> Result<Reply, HubError>
        ensures { StepsInMemory at (λ s. step s (showing at table.now)) result self.old self.new }
    {
        let last = later(at, self.last);
        let Some(opening) = self.history.catalogue().table(table) else {
            self.last = last;
            return Ok(Reply::Refused(Refusal::UnknownTable));
        };
        let name = opening.name.copy();
        let Ok(rows) = self.history.tables().list(alloc, &name) else {
            return Err(HubError::NoMemory);
        };
        let Ok(shown) = shown_rows(alloc, rows.as_slice()) else {
            return Err(HubError::NoMemory);
        };
        let total = self.history.tables().total(&name);
        self.last = last;
        Ok(Reply::Table(name, shown, total))
    }
}

fn shown_rows(alloc: Global, rows: &[(Text, Amount)]) -> Result<ShownRows, NoMemory>
    ensures { IfOk result (λ shown. shown ≡ map shown_row rows.now) }
{
    let mut shown = Vec::new(alloc);
    for row in rows {
        let row = ShownRow {
            key: row.0,
            amount: Some(row.1),
        };
        shown.push(row).map_err(|_| NoMemory)?;
    }
    Ok(ShownRows::over(shown))
}
