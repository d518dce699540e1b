// The rows that attempts on messages would have, as a plain list that is looked through.
ghost use Rattle.std.specs.Prelude.{◌≡◌, [], ◌+◌, ◌≤◌, ◌==◌, IfOk, OnOk, OnErr, option_map};
ghost use Rattle.std.specs.Vec.{vec_len, vec_capacity};
ghost use Rattle.qc_listener.specs.Index.{rows_by, rows_for, rows_kept, with_entry, without};

use crate::attempt::rows_of_attempt;
use qc_base::{Kind, NoMemory, Recording, Row};
use qc_catalogue::Catalogue;
use std::alloc::Global;
use std::marker::Model;

// A message with the rows of its attempts.
#[derive(Debug, Drop)]
struct Entry {
    id: u64,
    normal: Vec<Row>,
    last: Vec<Row>,
}

impl Model for Entry {
    ghost use Rattle.qc_listener.specs.Index.{MessageRows};

    ghost Value = { MessageRows };

    ghost view = { λ e. record { id = e.id; normal = e.normal.items; last = e.last.items } };
}

impl Entry {
    fn is_of(&self, id: u64) -> bool
        ensures { result ≡ (self.now.id == id) }
    {
        self.id == id
    }

    fn rows(&self, kind: Kind) -> &[Row]
        ensures { result.now ≡ rows_by kind self.now }
    {
        match kind {
            Kind::Normal => self.normal.as_slice(),
            Kind::Final => self.last.as_slice(),
        }
    }
}

// A message's entry.
fn entry_for(
    alloc: Global,
    catalogue: &Catalogue,
    id: u64,
    recording: &Recording,
) -> Result<Entry, NoMemory>
    ensures { IfOk result (λ entry. entry ≡ rows_for catalogue.now id recording.now) }
{
    let normal = rows_of_attempt(alloc, catalogue, recording, Kind::Normal)?;
    let last = rows_of_attempt(alloc, catalogue, recording, Kind::Final)?;
    Ok(Entry { id, normal, last })
}

// The message's entry goes, and its place is free.
fn take_out(entries: &mut Vec<Entry>, id: u64)
    ensures items { entries.new.items ≡ without id entries.old.items }
    ensures len { vec_len entries.new ≤ vec_len entries.old }
    ensures capacity { vec_capacity entries.new ≡ vec_capacity entries.old }
{
    entries.retain(|entry| !entry.is_of(id));
}

/// The rows that a normal attempt and a final one on each message would have (docs/RULES.md, "Take"). Contracts see a
/// list with an entry for each message.
#[derive(Debug, Drop)]
pub struct RowIndex {
    entries: Vec<Entry>,
}

impl Model for RowIndex {
    ghost use Rattle.std.specs.Prelude.{List};
    ghost use Rattle.qc_listener.specs.Index.{MessageRows};

    ghost Value = { List MessageRows };

    ghost view = { λ i. i.entries.items };
}

impl RowIndex {
    /// No message is kept. The error is want of memory.
    pub fn make(alloc: Global) -> Result<RowIndex, NoMemory>
        ensures { IfOk result (λ index. index ≡ []) }
    {
        Ok(RowIndex {
            entries: Vec::new(alloc),
        })
    }

    /// Keeps the rows of a message by its recording and the catalogue, in place of what was kept of the message. The
    /// error is want of memory, and nothing has changed then.
    pub fn set(
        &mut self,
        alloc: Global,
        catalogue: &Catalogue,
        id: u64,
        recording: &Recording,
    ) -> Result<(), NoMemory>
        ensures kept { OnOk result (self.new ≡ with_entry (rows_for catalogue.now id recording.now) self.old) }
        ensures same { OnErr result (self.new ≡ self.old) }
    {
        let entry = entry_for(alloc, catalogue, id, recording)?;
        self.entries.reserve(1).map_err(|_| NoMemory)?;
        take_out(&mut self.entries, id);
        self.entries.push_reserved(entry);
        Ok(())
    }

    /// The rows that an attempt of this kind on the message would have. None exactly where the message isn't kept.
    pub fn rows(&self, id: u64, kind: Kind) -> Option<&[Row]>
        ensures { option_map (λ rows. rows.now) result ≡ rows_kept id kind self.now }
    {
        for entry in self.entries.iter() {
            if entry.is_of(id) {
                return Some(entry.rows(kind));
            }
        }
        None
    }

    /// The message isn't kept any more. This takes no memory.
    pub fn remove(&mut self, id: u64)
        ensures { self.new ≡ without id self.old }
    {
        take_out(&mut self.entries, id);
    }
}
