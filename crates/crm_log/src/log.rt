// A log in which each group is one line or more.
ghost use Rattle.std.specs.Prelude.{◌≡◌, ◌≤◌, ℕ, [], ◌∷◌, ◌++◌, List, length, max, OnOk, OnErr, IfOk, IfSome, IfNone, IsErrOf, true};
ghost use Rattle.qc_base.specs.declared.log_line.LogLine.{LogLine};
ghost use Rattle.qc_base.specs.Spelling.{is_line};
ghost use Rattle.qc_site.specs.Image.{bytes_of};
ghost use Rattle.qc_site.specs.declared.site.SiteFile.TheVariants.{CrmLog as the_file};
ghost use Rattle.qc_frame.specs.Calls.{LogStands, MakesLog, OpensLog, ReadsOn, Forces, IfFound};
ghost use Rattle.qc_entries.specs.Entries.{log_of};
ghost use Rattle.crm_log.specs.Log.{log_header, IsLogOf, LinesWait};
ghost use Rattle.crm_log.specs.Lines.{DamagedLine, CanStageLine, staged_line, FirstSpells, NoneSpelled};
ghost use Rattle.crm_log.specs.Calls.{FindsLine};

use crate::line_reader::whole_line;
use crate::line_writer::Staged;
use qc_base::{LogLine, NoMemory};
use qc_entries::EntryLog;
use qc_frame::{Entry, Log, LogError};
use qc_site::{Failed, Site, SiteFile};
use std::alloc::Global;
use std::marker::Model;

const HEADER: [u8; 16] = *b"QC-CRMLOG--0001\n";

/// The log of compensations, which is read line by line up to its end, and to which groups of lines are then added.
///
/// Contracts see the log and the entries that are left of the group that was read last. It stands on a site as that log
/// does. What a call leaves of log and site is in `specs/Calls.antt`, and what of it any log has in common in that file
/// of `qc_entries` and of `qc_frame`.
#[derive(Drop)]
pub struct CrmLog {
    entries: EntryLog,
}

impl Model for CrmLog {
    ghost use Rattle.std.specs.Prelude.{◌≡◌};
    ghost use Rattle.qc_site.specs.declared.site.SiteFile.TheVariants.{CrmLog as the_file};
    ghost use Rattle.qc_entries.specs.Entries.{EntriesView};

    ghost Value = { EntriesView };

    ghost view = { λ a. a.entries };

    ghost invariant = { λ a. (a.entries.log.file ≡ the_file) × (a.entries.log.start ≡ 16) };
}

// The line that the first of these entries is, or None where it isn't exactly one spelling.
fn first_line(entries: &[Entry]) -> Option<LogLine>
    ensures some { IfSome result (λ line. FirstSpells entries.now line) }
    ensures none { IfNone result (NoneSpelled entries.now) }
{
    let entry = entries.first()?;
    whole_line(entry.bytes.as_slice())
}

impl CrmLog {
    /// Leaves a log without lines: the header and a closed gate, 17 bytes (docs/FORMATS.md, "Frame").
    ///
    /// What the file held before is lost. `Failed` comes only where the site's count of faults rose.
    pub fn make<S: Site>(site: &mut S) -> Result<(), Failed>
        ensures makes { MakesLog S.Site the_file log_header result site.old site.new }
        ensures spells { S.told → OnOk result (IsLogOf (S.shown site.new) []) }
    {
        Log::make(site, SiteFile::CrmLog, &HEADER)
    }

    /// Syncs the file and stands before the first line.
    ///
    /// `NotMade` comes exactly where the first 16 bytes of the file aren't the log's header, `SiteFault` only where the
    /// site's count of faults rose, and `Damaged` never. Nothing is written.
    pub fn open<S: Site>(alloc: Global, site: &mut S) -> Result<CrmLog, LogError>
        ensures opens { OpensLog S.Site the_file log_header 16 log_of result site.old site.new }
        ensures none_left { IfOk result (λ log. log.left ≡ []) }
        ensures not_damaged { (at : ℕ) → ¬ IsErrOf result (LogError.Damaged at) }
    {
        let entries = EntryLog::open(alloc, site, SiteFile::CrmLog, &HEADER)?;
        Ok(CrmLog { entries })
    }

    /// The next line and the offset in the file of its entry, or None at the end, where a gate that is missing or isn't
    /// 0 is closed.
    ///
    /// None comes exactly where no line of the last group is left and the next gate counts as closed. `Damaged` comes
    /// exactly where the payload of the next group is no list of entries, with the offset of the first that doesn't
    /// fit, or where the next entry isn't exactly one spelling, with its offset. `SiteFault` comes only where the
    /// site's count of faults rose, and `NotMade` never. After an error the log is opened again.
    pub fn next_line<S: Site>(
        &mut self,
        alloc: Global,
        site: &mut S,
    ) -> Result<Option<(u64, LogLine)>, LogError>
        requires stands { LogStands S.Site self.old.log site.old }
        ensures finds { FindsLine S.Site result self.old site.old self.new site.new }
        ensures limits { IfFound result (λ next. is_line next.1 ≡ true) }
        ensures reads { ReadsOn S.Site (DamagedLine (bytes_of self.old.log.file (S.shown site.old)) self.old)
            result self.old.log site.old self.new.log site.new }
    {
        let Some(at) = self.entries.fill(alloc, site)? else {
            return Ok(None);
        };
        let Some(line) = first_line(self.entries.left()) else {
            return Err(LogError::Damaged(at));
        };
        self.entries.pass(1);
        Ok(Some((at, line)))
    }

    /// The length of the file in bytes. The file is the site's CrmLog, and its groups are read from 16 on.
    pub fn length(&self) -> u64
        ensures length { result ≡ self.now.log.length }
        ensures whole { (self.now.log.file ≡ the_file) × (self.now.log.start ≡ 16) }
    {
        self.entries.length()
    }

    /// Makes the room for lines at least this many bytes, each line with four bytes more than its spelling.
    ///
    /// After want of memory the log is as before.
    pub fn reserve(&mut self, alloc: Global, bytes: usize) -> Result<(), NoMemory>
        ensures ok { OnOk result (self.new ≡
            record self.old { log = record self.old.log { spare = max self.old.log.spare bytes } }) }
        ensures err { OnErr result (self.new ≡ self.old) }
    {
        self.entries.reserve(alloc, bytes)
    }

    /// Adds a line to those that wait for `force`. Takes no memory.
    ///
    /// The line is within its limits, the end of the log was reached, there is room for its spelling and four bytes
    /// more, and what waits stays within 33,554,432 bytes, each line with four bytes more than its spelling.
    pub fn stage_line(&mut self, line: &LogLine)
        requires { CanStageLine self.old line.now }
        ensures stages { self.new ≡ staged_line self.old line.now }
        ensures waits { (lines : List LogLine) → LinesWait self.old lines
            → LinesWait self.new (lines ++ line.now ∷ []) }
    {
        self.entries.stage(&Staged(line));
    }

    /// Makes the lines that wait one group; without any it makes no call of the site. Takes no memory.
    ///
    /// At each moment an image has the group whole or not at all, and all else as before. On `Ok` each later crash
    /// leaves a file that has it, and the room that it took is free again: the file spells the lines that it spelled,
    /// and the new ones behind them as one group. `Failed` comes only where the site's count of faults rose; the lines
    /// that waited are then gone, and the log is opened again.
    pub fn force<S: Site>(&mut self, site: &mut S) -> Result<(), Failed>
        requires stands { LogStands S.Site self.old.log site.old }
        ensures forces { Forces S.Site result self.old.log site.old self.new.log site.new }
        ensures left { self.new.left ≡ self.old.left }
        ensures spells { S.told → (log : List (List LogLine)) → (lines : List LogLine)
            → LinesWait self.old lines → 1 ≤ length lines → IsLogOf (S.shown site.old) log
            → OnOk result (IsLogOf (S.shown site.new) (log ++ lines ∷ [])) }
    {
        self.entries.force(site)
    }
}
