//! The log of compensations over a site in memory: what is read of it, and what each image has where the site stops.
//!
//! The functions here are what the tests do: a log read to its end, and a group of lines more. They are proved over
//! each site.
#![tactic(auto)]

ghost use Rattle.std.specs.Prelude.{◌≡◌, List, [], map, true, IfOk, OnOk};
ghost use Rattle.qc_base.specs.Spelling.{is_line};
ghost use Rattle.qc_base.specs.declared.log_line.LogLine.{LogLine};
ghost use Rattle.qc_frame.specs.Calls.{LogStands};
ghost use Rattle.crm_log.specs.Log.{SpellsLog, all_lines};

use crm_log::{CrmLog, size_of_line};
use qc_base::LogLine;
use qc_frame::LogError;
use qc_site::Site;
use std::alloc::Global;

/// Opens the log and reads it to its end: the lines with the offsets of their entries. They are all lines that the file
/// spells.
pub fn log_at_end<S: Site>(
    alloc: Global,
    site: &mut S,
) -> Result<(CrmLog, Vec<(u64, LogLine)>), LogError>
    ensures stands { IfOk result (λ r. LogStands S.Site r.0.log site.new) }
    ensures ended { IfOk result (λ r. (r.0.log.ended ≡ true) × (r.0.log.payload ≡ [])) }
    ensures read { S.told → (log : List (List LogLine)) → SpellsLog (S.shown site.old).crm_log log
        → IfOk result (λ r. map (λ p. p.1) r.1.items ≡ all_lines log) }
{
    let mut log = CrmLog::open(alloc, site)?;
    let mut lines = Vec::new(alloc);
    while let Some(next) = log.next_line(alloc, site)? {
        let Ok(()) = lines.push(next) else {
            return Err(LogError::NoMemory);
        };
    }
    Ok((log, lines))
}

/// Two lines as one group more.
pub fn add_two<S: Site>(
    alloc: Global,
    log: &mut CrmLog,
    site: &mut S,
    first: &LogLine,
    second: &LogLine,
) -> Result<(), LogError>
    requires stands { LogStands S.Site log.old.log site.old }
    requires ended { log.old.log.ended ≡ true }
    requires waits { log.old.log.payload ≡ [] }
    requires limits { (is_line first.now ≡ true) × (is_line second.now ≡ true) }
    ensures stands { OnOk result (LogStands S.Site log.new.log site.new) }
    ensures ended { OnOk result ((log.new.log.ended ≡ true) × (log.new.log.payload ≡ [])) }
{
    log.reserve(alloc, size_of_line(first) + size_of_line(second) + 8)?;
    log.stage_line(first);
    log.stage_line(second);
    log.force(site)?;
    Ok(())
}

#[cfg(test)]
mod tests;
