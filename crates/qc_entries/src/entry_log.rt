// A log that is read entry by entry, and to which values are added.
ghost use Rattle.std.specs.Prelude.{◌≡◌, ◌≤◌, ℕ, [], true, length, drop, max, OnOk, OnErr, IfOk, IsErrOf};
ghost use Rattle.qc_site.specs.Image.{bytes_of};
ghost use Rattle.qc_frame.specs.Log.{CanStage, staged};
ghost use Rattle.qc_frame.specs.Calls.{LogStands, OpensLog, ReadsOn, Forces};
ghost use Rattle.qc_entries.specs.Entries.{EntriesView, DamagedNext, log_of};
ghost use Rattle.qc_entries.specs.Calls.{Fills};

use crate::spelled::Spelled;
use qc_base::NoMemory;
use qc_frame::{Entries, Entry, Log, LogError};
use qc_site::{Failed, Site, SiteFile};
use std::alloc::Global;
use std::marker::Model;

/// A log whose groups are handed on entry by entry, and whose entries are values.
///
/// Contracts see the log and the entries that are left of the group that was read last. It stands on a site as that log
/// does. What a call leaves of log and site is in `specs/Calls.antt` of `qc_frame`.
#[derive(Drop)]
pub struct EntryLog {
    log: Log,
    // The group that was read last, and how many of its entries were passed.
    group: Entries,
    passed: usize,
    // How many bytes of a payload wait to be forced.
    waits: usize,
    // Where a value is spelled before it is staged: empty, with room for as much as the log has or will have again.
    spelling: Vec<u8>,
}

impl Model for EntryLog {
    ghost use Rattle.std.specs.Prelude.{◌≡◌, ◌+◌, ◌^◌, ◌<◌, ◌≤◌, [], length, drop, vec_len, vec_capacity};
    ghost use Rattle.qc_entries.specs.Entries.{EntriesView};

    ghost Value = { EntriesView };

    ghost view = { λ a. record { log = a.log; left = drop a.passed a.group } };

    ghost invariant = { λ a. (a.passed ≤ length a.group) × (length a.group < 2 ^ 63)
        × (a.waits ≡ length a.log.payload) × (a.spelling.items ≡ []) × (vec_len a.spelling ≡ 0)
        × (a.log.spare + a.waits ≤ vec_capacity a.spelling + 4) };
}

impl EntryLog {
    /// Syncs the file and stands before its first entry.
    ///
    /// `NotMade` comes exactly where the first 16 bytes of the file aren't the header, `SiteFault` only where the
    /// site's count of faults rose, and `Damaged` never. Nothing is written.
    pub fn open<S: Site>(
        alloc: Global,
        site: &mut S,
        file: SiteFile,
        header: &[u8; 16],
    ) -> Result<EntryLog, LogError>
        ensures opens { OpensLog S.Site file header.now 16 log_of result site.old site.new }
        ensures none_left { IfOk result (λ entries. entries.left ≡ []) }
        ensures not_damaged { (at : ℕ) → ¬ IsErrOf result (LogError.Damaged at) }
    {
        let log = Log::open(alloc, site, file, header)?;
        Ok(EntryLog {
            log,
            group: Entries::over(Vec::new(alloc)),
            passed: 0,
            waits: 0,
            spelling: Vec::new(alloc),
        })
    }

    /// Reads the next group, unless an entry is left of the last one. Tells the offset in the file of the first entry
    /// that is then left, or None at the end of the log, where a gate that is missing or isn't 0 is closed.
    ///
    /// None comes exactly where no entry is left and the next gate counts as closed. `Damaged` comes exactly where no
    /// entry is left and the payload of the next group isn't a list of entries, with the offset of the first entry that
    /// doesn't fit. `SiteFault` comes only where the site's count of faults rose, and `NotMade` never. After an error
    /// the log is opened again.
    pub fn fill<S: Site>(&mut self, alloc: Global, site: &mut S) -> Result<Option<u64>, LogError>
        requires stands { LogStands S.Site self.old.log site.old }
        ensures fills { Fills S.Site result self.old site.old self.new site.new }
        ensures reads { ReadsOn S.Site (DamagedNext (bytes_of self.old.log.file (S.shown site.old)) self.old)
            result self.old.log site.old self.new.log site.new }
    {
        if let Some(entry) = self.left().first() {
            return Ok(Some(entry.at));
        }
        let Some(group) = self.log.next_group(alloc, site)? else {
            return Ok(None);
        };
        let Some(first) = group.entries.as_slice().first() else {
            return Err(LogError::Damaged(group.at + 5));
        };
        let at = first.at;
        self.group = group.entries;
        self.passed = 0;
        Ok(Some(at))
    }

    /// The entries that are left of the group that was read last.
    pub fn left(&self) -> &[Entry]
        ensures { result.now ≡ self.now.left }
    {
        &self.group.as_slice()[self.passed..]
    }

    /// Goes on behind so many of the entries that are left; there are as many.
    pub fn pass(&mut self, count: usize)
        requires { count ≤ length self.old.left }
        ensures { self.new ≡ record self.old { left = drop count self.old.left } }
    {
        self.passed += count;
    }

    /// The length of the file in bytes.
    pub fn length(&self) -> u64
        ensures { result ≡ self.now.log.length }
    {
        self.log.length()
    }

    /// Makes the room for values at least this many bytes, each value with four bytes more than its spelling.
    ///
    /// After want of memory the log is as before.
    pub fn reserve(&mut self, alloc: Global, bytes: usize) -> Result<(), NoMemory>
        ensures ok { OnOk result (self.new ≡
            record self.old { log = record self.old.log { spare = max self.old.log.spare bytes } }) }
        ensures err { OnErr result (self.new ≡ self.old) }
    {
        let Some(room) = bytes.checked_add(self.waits) else {
            return Err(NoMemory);
        };
        if self.spelling.reserve(room).is_err() {
            return Err(NoMemory);
        }
        self.log.reserve(alloc, bytes)
    }

    /// Adds a value to those that wait for `force`. Takes no memory.
    ///
    /// The value is within its limits and has at least one byte, the end of the log was reached, there is room for its
    /// spelling and four bytes more, and the payload stays within 33,554,432 bytes.
    pub fn stage<T: Spelled>(&mut self, value: &T)
        requires limits { T.within value.now ≡ true }
        requires can { CanStage self.old.log (T.spelled value.now) }
        ensures { self.new ≡ record self.old { log = staged self.old.log (T.spelled value.now) } }
    {
        value.put(&mut self.spelling);
        self.log.stage(&self.spelling);
        self.waits += self.spelling.len() + 4;
        self.spelling.clear();
    }

    /// Makes the values that wait one group; without any it makes no call of the site. Takes no memory.
    ///
    /// At each moment an image has the group whole or not at all, and all else as before. On `Ok` each later crash
    /// leaves a file that has it, and the room that it took is free again. `Failed` comes only where the site's count
    /// of faults rose; the values that waited are then gone, and the log is opened again.
    pub fn force<S: Site>(&mut self, site: &mut S) -> Result<(), Failed>
        requires stands { LogStands S.Site self.old.log site.old }
        ensures forces { Forces S.Site result self.old.log site.old self.new.log site.new }
        ensures left { self.new.left ≡ self.old.left }
    {
        self.waits = 0;
        self.log.force(site)
    }
}
