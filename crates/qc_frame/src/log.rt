// A log: its gate, and the entries that wait to be one group.
ghost use Rattle.std.specs.Prelude.{◌≡◌, ◌≢◌, ◌+◌, ◌^◌, ◌<◌, ◌≤◌, ◌++◌, ℕ, [], ◌∷◌, true, length, take, drop, max, vec_len, vec_capacity, OnOk, OnErr, IfOk, IfSome, IfNone, IsOk, IsErr, IsErrOf};
ghost use Rattle.qc_site.specs.Image.{bytes_of, with_bytes};
ghost use Rattle.qc_site.specs.Disk.{Certain, LeavesOnly, NoMore};
ghost use Rattle.qc_site.specs.Causes.{HasCause};
ghost use Rattle.qc_frame.specs.Frame.{entry, size_bytes};
ghost use Rattle.qc_frame.specs.Log.{CanStage, staged, DamagedGroup};
ghost use Rattle.qc_frame.specs.Calls.{LogStands, FindsHeader, LooksAt, MakesLog, OpensLog, FindsGroup, ReadsOn, Forces};

use crate::entries::{Entries, read_payload};
use crate::error::LogError;
use crate::gate::{close_gate, write_group};
use crate::reading::{Gate, read_gate};
use qc_base::NoMemory;
use qc_site::{Failed, Site, SiteFile};
use std::alloc::Global;
use std::marker::Model;

/// An open group of a log (docs/FORMATS.md, "Frame").
#[derive(Debug, Drop)]
pub struct Group {
    /// The offset in the file of its gate.
    pub at: u64,
    /// Its entries, which fill its payload.
    pub entries: Entries,
}

impl Group {
    /// The group once more, its entries in memory of their own.
    pub fn copy(&self, alloc: Global) -> Result<Group, NoMemory>
        ensures { IfOk result (λ group. group ≡ self.now) }
    {
        Ok(Group {
            at: self.at,
            entries: self.entries.copy(alloc)?,
        })
    }
}

/// A log that is read group by group up to its end, and to which groups are then added.
///
/// Contracts see the file, the place at which the log was opened, the place of the gate before which it stands, the
/// file's length, whether the end was reached, the staged entries as they stand in a payload, and the bytes of room for
/// further ones. `LogStands` says that the log stands on a site: its length is the file's, each image of the file is
/// what the file reads as, the place is reached over open groups alone from where the log was opened, and a log that has
/// reached its end has a byte 0 there. What a call leaves of log and site is in `specs/Calls.antt`.
#[derive(Drop)]
pub struct Log {
    file: SiteFile,
    // Where it was opened.
    start: u64,
    place: u64,
    length: u64,
    ended: bool,
    // The staged entries behind four bytes for their length, with room for the gate behind them.
    staged: Vec<u8>,
    spare: usize,
}

impl Model for Log {
    ghost use Rattle.std.specs.Prelude.{◌≡◌, ◌+◌, ◌≤◌, ◌<◌, true, drop, vec_len, vec_capacity};
    ghost use Rattle.qc_frame.specs.Log.{LogView};

    ghost Value = { LogView };

    ghost view = { λ a. record { file = a.file; start = a.start; place = a.place; length = a.length; ended = a.ended; payload = drop 4 a.staged.items; spare = a.spare } };

    ghost invariant = { λ a. (a.place ≤ 4611686018427387904) × (a.length ≤ 4611686018427387904) × (4 ≤ vec_len a.staged) × (vec_len a.staged + a.spare < vec_capacity a.staged) × (vec_len a.staged ≤ 33554436) × (4 < vec_len a.staged → a.ended ≡ true) };
}

// An entry at the end, for which there is room.
fn append_entry(staged: &mut Vec<u8>, bytes: &[u8])
    requires room { vec_len staged.old + length bytes.now + 4 ≤ vec_capacity staged.old }
    requires fits { length bytes.now < 2 ^ 32 }
    ensures items { staged.new.items ≡ staged.old.items ++ entry bytes.now }
    ensures len { vec_len staged.new ≡ vec_len staged.old + length bytes.now + 4 }
    ensures capacity { vec_capacity staged.old ≤ vec_capacity staged.new }
{
    let _ = staged.extend_from_slice(&(bytes.len() as u32).to_be_bytes());
    let _ = staged.extend_from_slice(bytes);
}

// The length in front of the payload, and a closed gate behind it.
fn seal(staged: &mut Vec<u8>)
    requires some { 4 ≤ vec_len staged.old }
    requires room { vec_len staged.old < vec_capacity staged.old }
    requires fits { vec_len staged.old < 2 ^ 32 }
    ensures items { staged.new.items ≡ size_bytes (length (drop 4 staged.old.items)) ++ drop 4 staged.old.items ++ 0 ∷ [] }
    ensures len { vec_len staged.new ≡ vec_len staged.old + 1 }
    ensures capacity { vec_capacity staged.new ≡ vec_capacity staged.old }
{
    let size = (staged.len() - 4) as u32;
    put_length(staged, size);
    staged.push_reserved(0);
}

// The length in the first four bytes.
fn put_length(bytes: &mut [u8], size: u32)
    requires { 4 ≤ length bytes.old }
    ensures { bytes.new ≡ size_bytes size ++ drop 4 bytes.old }
{
    bytes[..4].copy_from_slice(&size.to_be_bytes());
}

// Syncs the file and tells its length, where its first 16 bytes are the header.
fn length_under<S: Site>(
    site: &mut S,
    file: SiteFile,
    header: &[u8; 16],
) -> Result<Option<u64>, Failed>
    ensures { FindsHeader S.Site file header.now result site.old site.new }
{
    site.sync(file)?;
    let length = site.len(file)?;
    let mut first = [0u8; 16];
    let count = site.read(file, 0, &mut first)?;
    if count < 16 || length < 16 || first.as_slice() != header.as_slice() {
        return Ok(None);
    }
    Ok(Some(length))
}

impl Log {
    /// Leaves an empty log in the file: the header and a closed gate, 17 bytes (docs/FORMATS.md, "Frame").
    ///
    /// What the file held before is lost. `Failed` comes only where the site's count of faults rose. At each moment an
    /// image has a front of the old file, or at most 17 bytes.
    pub fn make<S: Site>(site: &mut S, file: SiteFile, header: &[u8; 16]) -> Result<(), Failed>
        ensures { MakesLog S.Site file header.now result site.old site.new }
    {
        site.cut(file, 0)?;
        site.sync(file)?;
        site.write_at(file, 0, &[0; 17])?;
        site.sync(file)?;
        site.write_at(file, 0, header)?;
        site.sync(file)?;
        Ok(())
    }

    /// Syncs the file and stands before its first group.
    ///
    /// `NotMade` comes exactly where the first 16 bytes of the file aren't the header, `SiteFault` only where the
    /// site's count of faults rose, and `Damaged` never. Nothing is written.
    pub fn open<S: Site>(
        alloc: Global,
        site: &mut S,
        file: SiteFile,
        header: &[u8; 16],
    ) -> Result<Log, LogError>
        ensures opens { OpensLog S.Site file header.now 16 (λ log. log) result site.old site.new }
        ensures not_damaged { (at : ℕ) → ¬ IsErrOf result (LogError.Damaged at) }
    {
        let Some(length) = length_under(site, file, header)? else {
            return Err(LogError::NotMade);
        };
        let mut staged = Vec::with_capacity(alloc, 5)?;
        staged.extend_from_slice(&[0; 4])?;
        Ok(Log {
            file,
            start: 16,
            place: 16,
            length,
            ended: false,
            staged,
            spare: 0,
        })
    }

    /// Syncs the file and tells whether its first 16 bytes are the header and the gate behind them is open.
    ///
    /// `Failed` comes only where the site's count of faults rose. Nothing is written.
    pub fn is_begun<S: Site>(
        site: &mut S,
        file: SiteFile,
        header: &[u8; 16],
    ) -> Result<bool, Failed>
        ensures { LooksAt S.Site file header.now result site.old site.new }
    {
        let Some(length) = length_under(site, file, header)? else {
            return Ok(false);
        };
        match read_gate(site, file, 16, length)? {
            Gate::Open(_) => Ok(true),
            _ => Ok(false),
        }
    }

    /// The next open group, or None at the end, where a gate that is missing or isn't 0 is closed.
    ///
    /// None comes exactly where the next gate counts as closed. `Damaged` comes exactly where the payload of the next
    /// group isn't a list of entries, with the offset in the file of the first entry that doesn't fit. `SiteFault`
    /// comes only where the site's count of faults rose, and `NotMade` never. After an error the log is opened again.
    pub fn next_group<S: Site>(
        &mut self,
        alloc: Global,
        site: &mut S,
    ) -> Result<Option<Group>, LogError>
        requires stands { LogStands S.Site self.old site.old }
        ensures finds { FindsGroup S.Site result self.old site.old self.new site.new }
        ensures reads { ReadsOn S.Site (DamagedGroup (bytes_of self.old.file (S.shown site.old)) self.old.place)
            result self.old site.old self.new site.new }
    {
        match read_gate(site, self.file, self.place, self.length)? {
            Gate::Open(size) => {
                let at = self.place;
                let entries = read_payload(alloc, site, self.file, at, size)?;
                self.place = at + 5 + u64::from(size);
                Ok(Some(Group { at, entries }))
            }
            Gate::Zero => {
                self.ended = true;
                Ok(None)
            }
            Gate::NotZero => {
                close_gate(site, self.file, self.place)?;
                self.length = self.length.max(self.place + 1);
                self.ended = true;
                Ok(None)
            }
        }
    }

    // The file that it is a log of.
    pub(crate) fn file(&self) -> SiteFile
        ensures { result ≡ self.now.file }
    {
        self.file
    }

    /// The length of the file in bytes.
    pub fn length(&self) -> u64
        ensures { result ≡ self.now.length }
    {
        self.length
    }

    /// Makes the room for entries at least this many bytes, each entry with the four of its length.
    ///
    /// After want of memory the log is as before.
    pub fn reserve(&mut self, alloc: Global, bytes: usize) -> Result<(), NoMemory>
        ensures ok { OnOk result (self.new ≡ record self.old { spare = max self.old.spare bytes }) }
        ensures err { OnErr result (self.new ≡ self.old) }
    {
        let _ = alloc;
        match self.staged.reserve(bytes.saturating_add(1)) {
            Ok(()) => {
                self.spare = self.spare.max(bytes);
                Ok(())
            }
            Err(_) => Err(NoMemory),
        }
    }

    /// Adds an entry to those that wait for `force`. Takes no memory.
    ///
    /// The entry has at least one byte, the end of the log was reached, there is room for the bytes and four more, and
    /// the payload stays within 33,554,432 bytes.
    pub fn stage(&mut self, bytes: &[u8])
        requires { CanStage self.old bytes.now }
        ensures { self.new ≡ staged self.old bytes.now }
    {
        append_entry(&mut self.staged, bytes);
        self.spare -= bytes.len() + 4;
    }

    /// Makes the staged entries one group, in four calls of the site; without any it makes no call. Takes no memory.
    ///
    /// At each moment an image has the group whole or not at all, and all else as before. On `Ok` each later crash
    /// leaves a file that has it, and the room that the entries took is free again. `Failed` comes only where the
    /// site's count of faults rose; the staged entries are then gone, and the log is opened again.
    pub fn force<S: Site>(&mut self, site: &mut S) -> Result<(), Failed>
        requires stands { LogStands S.Site self.old site.old }
        ensures { Forces S.Site result self.old site.old self.new site.new }
    {
        let size = self.staged.len() - 4;
        if size == 0 {
            return Ok(());
        }
        seal(&mut self.staged);
        let written = write_group(site, self.file, self.place, &self.staged);
        self.staged.truncate(4);
        written?;
        self.spare += size;
        self.place += 5 + size as u64;
        self.length = self.length.max(self.place + 1);
        Ok(())
    }
}
