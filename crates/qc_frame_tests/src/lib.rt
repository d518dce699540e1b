//! Logs and journals over a site in memory: what is read of them, and what each image has where the site stops.
//!
//! The functions here are what the tests do: a log or a journal read to its end, and a group or a fact more. They are
//! proved over each site, so over [`Untold`] too, which tells nothing of what it holds.
#![tactic(auto)]

ghost use Rattle.std.specs.Prelude.{◌≡◌, ◌≤◌, ◌+◌, ◌++◌, ℕ, List, [], ◌∷◌, true, length, take, map, IfOk, OnOk, IsErrOf, max};
ghost use Rattle.qc_base.specs.Spelling.{spelled_fact, is_fact};
ghost use Rattle.qc_site.specs.Causes.{HasCause};
ghost use Rattle.qc_site.specs.declared.site.SiteFile.TheVariants.{Journal as the_file};
ghost use Rattle.qc_frame.specs.Frame.{groups, HasHeader};
ghost use Rattle.qc_frame.specs.Log.{Spelled, SameLog};
ghost use Rattle.qc_frame.specs.Calls.{LogStands, entries_read};
ghost use Rattle.qc_journal.specs.History.{journal_header};
ghost use Rattle.qc_journal.specs.Journal.{log_of};

mod adapter;

pub use adapter::Untold;
use qc_base::{Fact, Word};
use qc_frame::{Group, Log, LogError, force_and_read, read_to_end};
use qc_journal::{Journal, size_of_fact};
use qc_site::{Site, SiteFile};
use std::alloc::Global;

const HEADER: [u8; 16] = *b"QC-JOURNAL-0001\n";

/// Opens the log in the journal's file and reads it to its end.
pub fn open_at_end<S: Site>(alloc: Global, site: &mut S) -> Result<(Log, Vec<Group>), LogError>
    ensures stands { IfOk result (λ r. LogStands S.Site r.0 site.new) }
    ensures whole { IfOk result (λ r. (r.0.file ≡ the_file) × (r.0.start ≡ 16)) }
    ensures ended { IfOk result (λ r. (r.0.ended ≡ true) × (r.0.payload ≡ [])) }
    ensures header { S.told → OnOk result (HasHeader journal_header (S.shown site.old).journal) }
    ensures same { S.told → OnOk result (SameLog (S.shown site.old).journal (S.shown site.new).journal) }
    ensures cause { HasCause (S.faults site.old) (S.faults site.new) (IsErrOf result LogError.SiteFault) }
{
    let mut log = Log::open(alloc, site, SiteFile::Journal, &HEADER)?;
    let groups = read_to_end(alloc, &mut log, site)?;
    Ok((log, groups))
}

/// One entry as a group of its own.
pub fn add<S: Site>(
    alloc: Global,
    log: &mut Log,
    site: &mut S,
    bytes: &[u8],
) -> Result<(), LogError>
    requires stands { LogStands S.Site log.old site.old }
    requires ended { log.old.ended ≡ true }
    requires waits { log.old.payload ≡ [] }
    requires sized { (1 ≤ length bytes.now) × (length bytes.now ≤ 1000) }
    ensures stands { OnOk result (LogStands S.Site log.new site.new) }
    ensures ended { OnOk result ((log.new.ended ≡ true) × (log.new.payload ≡ [])) }
{
    log.reserve(alloc, bytes.len() + 4)?;
    log.stage(bytes);
    log.force(site)?;
    Ok(())
}

/// Two entries as one group more in the journal's file, and then all of its groups.
pub fn add_and_read<S: Site>(
    alloc: Global,
    site: &mut S,
    first: &[u8],
    second: &[u8],
) -> Result<Vec<Group>, LogError>
    requires some { (1 ≤ length first.now) × (1 ≤ length second.now) }
    requires fit { (length first.now ≤ 1000) × (length second.now ≤ 1000) }
    ensures read { S.told → (before : List (List (List ℕ))) → Spelled (groups (S.shown site.old).journal) before
        → IfOk result (λ v. entries_read v.items ≡ before ++ (first.now ∷ second.now ∷ []) ∷ []) }
    ensures cause { HasCause (S.faults site.old) (S.faults site.new) (IsErrOf result LogError.SiteFault) }
{
    let (mut log, _) = open_at_end(alloc, site)?;
    let mut entries = Vec::with_capacity(alloc, 2)?;
    entries.push_reserved(Word::over(first.to_vec(alloc)?));
    entries.push_reserved(Word::over(second.to_vec(alloc)?));
    log.reserve(alloc, first.len() + second.len() + 8)?;
    force_and_read(alloc, &mut log, site, &HEADER, &entries)
}

/// Opens the journal and reads it to its end: the facts with the offsets of their entries.
pub fn journal_at_end<S: Site>(
    alloc: Global,
    site: &mut S,
) -> Result<(Journal, Vec<(u64, Fact)>), LogError>
    ensures stands { IfOk result (λ r. LogStands S.Site (log_of r.0) site.new) }
    ensures ended { IfOk result (λ r. r.0.ended ≡ true) }
{
    let mut journal = Journal::open(alloc, site)?;
    let mut facts = Vec::new(alloc);
    while let Some(next) = journal.next_fact(alloc, site)? {
        let Ok(()) = facts.push(next) else {
            return Err(LogError::NoMemory);
        };
    }
    Ok((journal, facts))
}

/// One fact more.
pub fn append<S: Site>(
    alloc: Global,
    journal: &mut Journal,
    site: &mut S,
    fact: &Fact,
) -> Result<(), LogError>
    requires stands { LogStands S.Site (log_of journal.old) site.old }
    requires ended { journal.old.ended ≡ true }
    requires limits { is_fact fact.now ≡ true }
    ensures stands { OnOk result (LogStands S.Site (log_of journal.new) site.new) }
    ensures ended { OnOk result (journal.new.ended ≡ true) }
{
    journal.reserve(alloc, size_of_fact(fact) + 4)?;
    journal.append_forced(site, fact)?;
    Ok(())
}

#[cfg(test)]
mod tests;
