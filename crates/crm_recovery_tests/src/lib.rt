//! The log's part of a recovery over a site in memory: what is told and put, which lines are added, what is damaged, and
//! what is recovered of an image where the site stopped in the midst of a recovery.
//!
//! The function here is what the tests do. It is proved over each site.
#![tactic(auto)]

ghost use Rattle.std.specs.Prelude.{◌≡◌, true, IfOk};
ghost use Rattle.std.specs.List.{list_all};
ghost use Rattle.qc_catalogue.specs.Rows.{has_its_phases};
ghost use Rattle.crm_recovery.specs.Settling.{recoveries};
ghost use Rattle.crm_recovery.specs.Reading.{SpellsLines};

use crm_history::Ended;
use crm_log::CrmLog;
use crm_recovery::{FinishError, finish_all, read_lines};
use qc_base::Recovered;
use qc_catalogue::Catalogue;
use qc_frame::LogError;
use qc_site::Site;
use std::alloc::Global;

/// Opens the log, reads its lines, and finishes the attempts that they leave unfinished.
pub fn recover<S: Site>(
    alloc: Global,
    site: &mut S,
    catalogue: &Catalogue,
    sent: u64,
    ended: &[Ended],
) -> Result<Vec<Recovered>, LogError>
    requires { list_all has_its_phases catalogue.now.resources ≡ true }
{
    let mut log = CrmLog::open(alloc, site)?;
    let lines = read_lines(alloc, &mut log, site, catalogue, sent, ended)?;
    match finish_all(alloc, &mut log, site, catalogue, ended, lines.as_slice()) {
        Ok(recovered) => Ok(recovered),
        Err(FinishError::SiteFault) => Err(LogError::SiteFault),
        Err(FinishError::NoMemory) => Err(LogError::NoMemory),
    }
}

#[cfg(test)]
mod bytes;
#[cfg(test)]
mod tests;
