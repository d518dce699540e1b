// A log's lines, each of which may follow those before it.
ghost use Rattle.std.specs.Prelude.{◌≡◌, List, true, IfOk, OnOk};
ghost use Rattle.std.specs.List.{list_all};
ghost use Rattle.qc_base.specs.Spelling.{is_line};
ghost use Rattle.qc_base.specs.declared.log_line.LogLine.{LogLine};
ghost use Rattle.qc_frame.specs.Calls.{LogStands, ReadsOn};
ghost use Rattle.crm_log.specs.Log.{SpellsLog, all_lines};
ghost use Rattle.crm_history.specs.Legal.{is_log_legal};
ghost use Rattle.crm_recovery.specs.Reading.{JustOpened, DamagedLines, SpellsLines};

use crm_history::{Ended, a_log_is_legal_line_by_line, may_follow};
use crm_log::CrmLog;
use qc_base::LogLine;
use qc_catalogue::Catalogue;
use qc_frame::LogError;
use qc_site::Site;
use std::alloc::Global;

/// Reads a log that was just opened to its end: all its lines, each of which may follow those before it (docs/FORMATS.md,
/// "Log lines"). The history of its site has this catalogue in force, so many messages that were sent, and these attempts
/// that ended.
///
/// On `Ok` the log has reached its end and stands on the site, and lines may be added. `Damaged` comes exactly where an
/// entry isn't one line's spelling or is a line that may not follow those before it, with the offset of the first such
/// entry; a group that is no list of entries is damaged at the first that doesn't fit, before any of its lines is looked
/// at. `SiteFault` comes only where the site's count of faults rose, and `NotMade` never. After an error the log is
/// opened again.
pub fn read_lines<S: Site>(
    alloc: Global,
    log: &mut CrmLog,
    site: &mut S,
    catalogue: &Catalogue,
    sent: u64,
    ended: &[Ended],
) -> Result<Vec<LogLine>, LogError>
    requires stands { LogStands S.Site log.old.log site.old }
    requires opened { JustOpened log.old }
    ensures legal { IfOk result (λ lines. is_log_legal catalogue.now sent ended.now lines.items ≡ true) }
    ensures limits { IfOk result (λ lines. list_all is_line lines.items ≡ true) }
    ensures read { S.told → (log : List (List LogLine)) → SpellsLog (S.shown site.old).crm_log log
        → IfOk result (λ lines. lines.items ≡ all_lines log) }
    ensures spelled { S.told → IfOk result (λ lines. SpellsLines (S.shown site.old).crm_log lines.items) }
    ensures ended { OnOk result (log.new.log ≡ record log.old.log {
      place = log.new.log.place;
      length = log.new.log.length;
      ended = true;
    }) }
    ensures reads { ReadsOn S.Site (DamagedLines catalogue.now sent ended.now (S.shown site.old).crm_log log.old)
        result log.old.log site.old log.new.log site.new }
{
    a_log_is_legal_line_by_line();
    let mut lines = Vec::new(alloc);
    while let Some(next) = log.next_line(alloc, site)? {
        if !may_follow(lines.as_slice(), &next.1, catalogue, sent, ended) {
            return Err(LogError::Damaged(next.0));
        }
        let Ok(()) = lines.push(next.1) else {
            return Err(LogError::NoMemory);
        };
    }
    Ok(lines)
}
