// The entries of a group's payload.
ghost use Rattle.std.specs.Prelude.{◌≡◌, ◌+◌, ◌^◌, ◌<◌, ◌≤◌, ℕ, length, take, drop, IfOk, IfSome, IfNone, IsErr, IsErrOf};
ghost use Rattle.qc_site.specs.Image.{bytes_of};
ghost use Rattle.qc_site.specs.Disk.{NoMore, Elapses};
ghost use Rattle.qc_site.specs.Causes.{HasCause};
ghost use Rattle.qc_frame.specs.Frame.{size_at, IsEntries, NoEntry, StopsBefore, EntriesOf};

use crate::error::LogError;
use qc_base::{NoMemory, Word};
use qc_site::{Site, SiteFile};
use std::alloc::Global;
use std::marker::Model;

/// One entry of a group (docs/FORMATS.md, "Frame").
#[derive(Debug, Drop)]
pub struct Entry {
    /// The offset in the file of the four bytes of its length.
    pub at: u64,
    /// Its bytes without that length, at least one.
    pub bytes: Word,
}

impl Entry {
    /// The entry once more, its bytes in memory of their own.
    pub fn copy(&self, alloc: Global) -> Result<Entry, NoMemory>
        ensures { IfOk result (λ entry. entry ≡ self.now) }
    {
        Ok(Entry {
            at: self.at,
            bytes: self.bytes.copy(alloc)?,
        })
    }
}

/// The entries of a group in the order of the file, seen as their list.
#[derive(Debug, Drop)]
pub struct Entries(Vec<Entry>);

impl Model for Entries {
    ghost use Rattle.std.specs.Prelude.{List};
    ghost use Rattle.qc_frame.specs.declared.entries.Entry.{Entry};

    ghost Value = { List Entry };

    ghost view = { λ a. a.0.items };
}

impl Entries {
    /// These entries. Takes no memory.
    pub fn over(items: Vec<Entry>) -> Entries
        ensures { result ≡ items.items }
    {
        Entries(items)
    }

    /// The entries, the first of the group first.
    pub fn as_slice(&self) -> &[Entry]
        ensures { result.now ≡ self.now }
    {
        self.0.as_slice()
    }

    /// The entries once more, in memory of their own.
    pub fn copy(&self, alloc: Global) -> Result<Entries, NoMemory>
        ensures { IfOk result (λ entries. entries ≡ self.now) }
    {
        let mut items = Vec::new(alloc);
        for entry in self.0.iter() {
            let copied = entry.copy(alloc)?;
            items.push(copied).map_err(|_| NoMemory)?;
        }
        Ok(Entries(items))
    }
}

// The first four bytes as a number.
pub(crate) fn number(bytes: &[u8]) -> u32
    requires { 4 ≤ length bytes.now }
    ensures { result ≡ size_at bytes.now }
{
    u32::from_be_bytes([bytes[0], bytes[1], bytes[2], bytes[3]])
}

// The length of the entry that begins these bytes, or None where none does.
fn entry_size(bytes: &[u8]) -> Option<usize>
    ensures some { IfSome result (λ size. (size ≡ size_at bytes.now) × (1 ≤ size) × (size + 4 ≤ length bytes.now)) }
    ensures none { IfNone result (NoEntry bytes.now) }
{
    if bytes.len() < 4 {
        return None;
    }
    let size = number(bytes) as usize;
    if size == 0 {
        return None;
    }
    if size > bytes.len() - 4 {
        return None;
    }
    Some(size)
}

// The entries of a payload that stands at this offset of the file.
fn read_entries(alloc: Global, at: u64, payload: &[u8]) -> Result<Entries, LogError>
    requires room { at + length payload.now < 2 ^ 63 }
    requires fits { length payload.now < 2 ^ 32 }
    ensures entries { IfOk result (λ entries. EntriesOf at entries payload.now) }
    ensures damaged { (n : ℕ) → IsErrOf result (LogError.Damaged n) → StopsBefore at n payload.now }
    ensures not_made { ¬ IsErrOf result LogError.NotMade }
    ensures no_fault { ¬ IsErrOf result LogError.SiteFault }
{
    let mut entries = Vec::new(alloc);
    let mut place = 0usize;
    while place < payload.len() {
        let rest = &payload[place..];
        let Some(size) = entry_size(rest) else {
            return Err(LogError::Damaged(at + place as u64));
        };
        let bytes = rest[4..4 + size].to_vec(alloc)?;
        let word = Word::over(bytes);
        let at = at + place as u64;
        let Ok(()) = entries.push(Entry { at, bytes: word }) else {
            return Err(LogError::NoMemory);
        };
        place += 4 + size;
    }
    Ok(Entries::over(entries))
}

/// The entries of the open group whose gate stands at this place. A byte that the read doesn't give counts as 0.
pub(crate) fn read_payload<S: Site>(
    alloc: Global,
    site: &mut S,
    file: SiteFile,
    place: u64,
    size: u32,
) -> Result<Entries, LogError>
    requires room { place ≤ 4611686018427387904 }
    ensures entries { S.told → place + 5 + size ≤ length (bytes_of file (S.shown site.old)) → IfOk result (λ entries. EntriesOf (place + 5) entries (take size (drop (place + 5) (bytes_of file (S.shown site.old))))) }
    ensures damaged { S.told → place + 5 + size ≤ length (bytes_of file (S.shown site.old)) → (n : ℕ) → IsErrOf result (LogError.Damaged n) → StopsBefore (place + 5) n (take size (drop (place + 5) (bytes_of file (S.shown site.old)))) }
    ensures not_made { ¬ IsErrOf result LogError.NotMade }
    ensures same { S.told → ¬ IsErrOf result LogError.SiteFault → S.shown site.new ≡ S.shown site.old }
    ensures crash { S.told → NoMore (S.may_leave site.old) (S.may_leave site.new) }
    ensures time { S.told → Elapses (S.moment site.old) (S.moment site.new) (S.left_since site.old) (S.left_since site.new) (S.may_leave site.new) }
    ensures cause { HasCause (S.faults site.old) (S.faults site.new) (IsErrOf result LogError.SiteFault) }
{
    let mut payload = vec![in alloc; 0u8; size as usize]?;
    let count = site.read(file, place + 5, &mut payload)?;
    payload[count..].fill(0);
    read_entries(alloc, place + 5, &payload)
}
