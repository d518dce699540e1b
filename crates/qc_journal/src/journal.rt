// A log in which each group is one fact.
ghost use Rattle.std.specs.Prelude.{◌≡◌, ◌≢◌, ℕ, [], ◌∷◌, true, map, max, OnOk, OnErr, IfOk, IfSome, IfNone, IsErrOf};
ghost use Rattle.qc_base.specs.Spelling.{spelled_fact, is_fact};
ghost use Rattle.qc_site.specs.declared.site.SiteFile.TheVariants.{Journal as the_file};
ghost use Rattle.qc_frame.specs.Calls.{LogStands, LooksAt, MakesLog, OpensLog, ReadsOn};
ghost use Rattle.qc_journal.specs.History.{journal_header};
ghost use Rattle.qc_journal.specs.Journal.{log_of, CanAppend, DamagedFact};
ghost use Rattle.qc_journal.specs.Calls.{FindsFact, AppendsFact};

use crate::fact_reader::read_fact;
use crate::fact_writer::Staged;
use qc_base::{Fact, NoMemory};
use qc_entries::EntryLog;
use qc_frame::{Entry, Log, LogError};
use qc_site::{Failed, Site, SiteFile};
use std::alloc::Global;
use std::marker::Model;

const HEADER: [u8; 16] = *b"QC-JOURNAL-0001\n";

/// The journal, which is read fact by fact up to its end, and to which facts are then added.
///
/// Contracts see the place at which it was opened, the place of the gate before which it stands, the length of its file,
/// whether the end was reached, and the bytes of room for further facts. It stands on a site as a log of the file Journal
/// in which nothing waits, `log_of`. What a call leaves of journal and site is in `specs/Calls.antt`, and what of it any
/// log has in common in that file of `qc_frame`.
#[derive(Drop)]
pub struct Journal {
    // Between two calls no entry is left of the group that was read last, and none waits to be forced.
    entries: EntryLog,
}

impl Model for Journal {
    ghost use Rattle.std.specs.Prelude.{◌≡◌, []};
    ghost use Rattle.qc_site.specs.declared.site.SiteFile.TheVariants.{Journal as the_file};
    ghost use Rattle.qc_journal.specs.Journal.{JournalView, journal_of};

    ghost Value = { JournalView };

    ghost view = { λ a. journal_of a.entries.log };

    ghost invariant = { λ a. (a.entries.log.file ≡ the_file) × (a.entries.log.payload ≡ []) × (a.entries.left ≡ []) };
}

// The fact that these entries are, or None where they aren't one that is exactly a fact's spelling.
fn fact_of(alloc: Global, entries: &[Entry]) -> Result<Option<Fact>, NoMemory>
    ensures some { IfOk result (λ r. IfSome r (λ fact. (is_fact fact ≡ true) × (map (λ e. e.bytes) entries.now ≡ spelled_fact fact ∷ []))) }
    ensures none { IfOk result (λ r. IfNone r ((fact : Fact) → is_fact fact ≡ true → map (λ e. e.bytes) entries.now ≢ spelled_fact fact ∷ [])) }
{
    let [entry] = entries else {
        return Ok(None);
    };
    let bytes = entry.bytes.as_slice();
    match read_fact(alloc, bytes)? {
        Some((fact, size)) => {
            if size == bytes.len() {
                Ok(Some(fact))
            } else {
                Ok(None)
            }
        }
        None => Ok(None),
    }
}

impl Journal {
    /// Leaves a journal without facts: the header and a closed gate, 17 bytes (docs/FORMATS.md, "Frame").
    ///
    /// What the file held before is lost. `Failed` comes only where the site's count of faults rose.
    pub fn make<S: Site>(site: &mut S) -> Result<(), Failed>
        ensures { MakesLog S.Site the_file journal_header result site.old site.new }
    {
        Log::make(site, SiteFile::Journal, &HEADER)
    }

    /// Syncs the file and tells whether it has the journal's header and an open group behind it.
    ///
    /// `Failed` comes only where the site's count of faults rose. Nothing is written.
    pub fn is_made<S: Site>(site: &mut S) -> Result<bool, Failed>
        ensures { LooksAt S.Site the_file journal_header result site.old site.new }
    {
        Log::is_begun(site, SiteFile::Journal, &HEADER)
    }

    /// Syncs the file and stands before the first fact.
    ///
    /// `NotMade` comes exactly where the first 16 bytes of the file aren't the journal's header, `SiteFault` only where
    /// the site's count of faults rose, and `Damaged` never. Nothing is written.
    pub fn open<S: Site>(alloc: Global, site: &mut S) -> Result<Journal, LogError>
        ensures opens { OpensLog S.Site the_file journal_header 16 log_of result site.old site.new }
        ensures not_damaged { (at : ℕ) → ¬ IsErrOf result (LogError.Damaged at) }
    {
        let entries = EntryLog::open(alloc, site, SiteFile::Journal, &HEADER)?;
        Ok(Journal { entries })
    }

    /// The next fact and the offset in the file of its entry, or None at the end, where a gate that is missing or isn't
    /// 0 is closed.
    ///
    /// None comes exactly where the next gate counts as closed. `Damaged` comes exactly where the next group isn't one
    /// entry that is exactly one spelling, with the offset of the first entry that doesn't fit, or of the group's first
    /// entry where all of them fit. `SiteFault` comes only where the site's count of faults rose, and `NotMade` never.
    /// After an error the journal is opened again.
    pub fn next_fact<S: Site>(
        &mut self,
        alloc: Global,
        site: &mut S,
    ) -> Result<Option<(u64, Fact)>, LogError>
        requires stands { LogStands S.Site (log_of self.old) site.old }
        ensures finds { FindsFact S.Site result self.old site.old self.new site.new }
        ensures reads { ReadsOn S.Site (DamagedFact (S.shown site.old).journal self.old.place)
            result (log_of self.old) site.old (log_of self.new) site.new }
    {
        let Some(at) = self.entries.fill(alloc, site)? else {
            return Ok(None);
        };
        let fact = fact_of(alloc, self.entries.left());
        let all = self.entries.left().len();
        self.entries.pass(all);
        let Some(fact) = fact? else {
            return Err(LogError::Damaged(at));
        };
        Ok(Some((at, fact)))
    }

    /// The length of the file in bytes.
    pub fn length(&self) -> u64
        ensures { result ≡ self.now.length }
    {
        self.entries.length()
    }

    /// Makes the room for facts at least this many bytes, each fact with four bytes more than its spelling.
    ///
    /// After want of memory the journal is as before.
    pub fn reserve(&mut self, alloc: Global, bytes: usize) -> Result<(), NoMemory>
        ensures ok { OnOk result (self.new ≡ record self.old { spare = max self.old.spare bytes }) }
        ensures err { OnErr result (self.new ≡ self.old) }
    {
        self.entries.reserve(alloc, bytes)
    }

    /// Adds a fact, in four calls of the site. Takes no memory.
    ///
    /// The fact is within its limits, the end of the journal was reached, and there is room for its spelling and four
    /// bytes more. At each moment an image has the fact's group whole or not at all, and all else as before. On `Ok`
    /// each later crash leaves a file that has it, and the room that it took is free again. `Failed` comes only where
    /// the site's count of faults rose; the journal is then opened again.
    pub fn append_forced<S: Site>(&mut self, site: &mut S, fact: &Fact) -> Result<(), Failed>
        requires stands { LogStands S.Site (log_of self.old) site.old }
        requires can { CanAppend self.old fact.now }
        ensures { AppendsFact S.Site fact.now result self.old site.old self.new site.new }
    {
        self.entries.stage(&Staged(fact));
        self.entries.force(site)?;
        Ok(())
    }
}
