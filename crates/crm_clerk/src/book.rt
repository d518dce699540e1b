// The resources that an attempt has registered, with the records of each that aren't forgotten.
ghost use Rattle.std.specs.Prelude.{◌≡◌, ◌+◌, ◌-◌, ◌≤◌, ◌<◌, ◌^◌, ◌++◌, ◌∷◌, [], map, take, drop, length, sum_by};
ghost use Rattle.std.specs.Prelude.{option_map, vec_len, vec_capacity, IfOk, IfNone, OnSome};
ghost use Rattle.std.specs.Option.{option_map_or};
ghost use Rattle.crm_clerk.specs.Accounts.{account_of, new_account, next_entry, with_account, written_to, without};
ghost use Rattle.crm_clerk.specs.Places.{kept_of, place_from, seq_from};

use qc_base::{Amount, LogRecord, Name, NoMemory, Text};
use std::alloc::Global;
use std::marker::Model;

// How many records of a resource were written, and how many of them are kept.
#[derive(Clone, Copy)]
pub(crate) struct Counts {
    pub(crate) written: u32,
    pub(crate) kept: usize,
}

// Where the records of a resource begin, and which counts are its own.
#[derive(Clone, Copy)]
pub(crate) struct Place {
    pub(crate) index: usize,
    pub(crate) start: usize,
    pub(crate) counts: Counts,
}

// Contracts see an account for each resource, in order of registration, and how many more resources and records there
// is room for. Nothing but `make` takes memory.
#[derive(Drop)]
pub(crate) struct Book {
    registered: Vec<(Name, u8)>,
    // Beside each resource.
    counts: Vec<Counts>,
    // The records that are kept: those of the first resource, then those of the second, and so on.
    records: Vec<LogRecord>,
    room: usize,
}

impl Model for Book {
    ghost use Rattle.std.specs.Prelude.{◌≡◌, ◌+◌, ◌≤◌, sum_by, length, All, vec_len, vec_capacity};
    ghost use Rattle.crm_clerk.specs.Accounts.{BookView};

    ghost Value = { BookView };

    ghost use Rattle.crm_clerk.specs.Books.{accounts_in, IsWithin};
    ghost use Rattle.crm_clerk.specs.Places.{kept_of};

    ghost view = { λ b. record {
      accounts = accounts_in b.registered.items b.counts.items b.records.items;
      room = b.room;
    } };

    ghost invariant = { λ b. (length b.counts.items ≡ length b.registered.items)
        × (length b.records.items ≡ sum_by kept_of b.counts.items)
        × All (IsWithin b.room) b.counts.items × (vec_len b.registered + b.room ≤ vec_capacity b.registered)
        × (vec_len b.counts + b.room ≤ vec_capacity b.counts) × (vec_len b.records + b.room ≤ vec_capacity b.records)
        × (b.room ≤ 4294967295) };
}

// The first of these resources that has the name, and where its records begin.
fn place_of(registered: &[(Name, u8)], counts: &[Counts], resource: &Name) -> Option<Place>
    requires beside { length counts.now ≡ length registered.now }
    requires fits { sum_by kept_of counts.now < 2 ^ 64 }
    ensures { result ≡ place_from 0 0 resource.now registered.now counts.now }
{
    let mut start = 0;
    for (index, own) in counts.iter().enumerate() {
        if registered[index].0.as_bytes() == resource.as_bytes() {
            return Some(Place {
                index,
                start,
                counts: *own,
            });
        }
        start += own.kept;
    }
    None
}

// The records of the resource at this place.
fn own_records<'a>(records: &'a [LogRecord], place: &Place) -> &'a [LogRecord]
    requires { place.now.start + place.now.counts.kept ≤ length records.now }
    ensures { result.now ≡ take place.now.counts.kept (drop place.now.start records.now) }
{
    &records[place.start..place.start + place.counts.kept]
}

// The first of these records that has the number.
fn seq_at(records: &[LogRecord], seq: u32) -> Option<usize>
    ensures { result ≡ seq_from 0 seq records.now }
{
    for (at, entry) in records.iter().enumerate() {
        if seq == entry.seq {
            return Some(at);
        }
    }
    None
}

// A record more at this place, for which there is room.
fn put_in(records: &mut Vec<LogRecord>, at: usize, entry: &LogRecord)
    requires inside { at ≤ vec_len records.old }
    requires room { vec_len records.old < vec_capacity records.old }
    ensures items { records.new.items ≡ take at records.old.items ++ entry.now ∷ drop at records.old.items }
    ensures len { vec_len records.new ≡ vec_len records.old + 1 }
    ensures capacity { vec_capacity records.new ≡ vec_capacity records.old }
{
    let _ = records.insert(at, *entry);
}

impl Book {
    // A book without accounts, with room for so many resources and records. Room for more than 4,294,967,295 is want of
    // memory.
    pub(crate) fn make(alloc: Global, room: usize) -> Result<Book, NoMemory>
        ensures { IfOk result (λ book. book ≡ record { accounts = []; room = room }) }
    {
        if room > 4_294_967_295 {
            return Err(NoMemory);
        }
        let registered = Vec::with_capacity(alloc, room).map_err(|_| NoMemory)?;
        let counts = Vec::with_capacity(alloc, room).map_err(|_| NoMemory)?;
        let records = Vec::with_capacity(alloc, room).map_err(|_| NoMemory)?;
        Ok(Book {
            registered,
            counts,
            records,
            room,
        })
    }

    pub(crate) fn room(&self) -> usize
        ensures { result ≡ self.now.room }
    {
        self.room
    }

    // The resources with their phases, in order of registration.
    pub(crate) fn registered(&self) -> &[(Name, u8)]
        ensures { result.now ≡ map (λ a. (a.resource, a.phases)) self.now.accounts }
    {
        self.registered.as_slice()
    }

    // How many records of a resource were written. None where it isn't there.
    pub(crate) fn written(&self, resource: &Name) -> Option<u32>
        ensures { result ≡ option_map (λ a. a.written) (account_of resource.now self.now.accounts) }
    {
        let Some(place) = place_of(&self.registered, &self.counts, resource) else {
            return None;
        };
        Some(place.counts.written)
    }

    // The records of a resource that are kept, in written order.
    pub(crate) fn records(&self, resource: &Name) -> &[LogRecord]
        ensures { result.now ≡ option_map_or (λ a. a.records) (account_of resource.now self.now.accounts) [] }
    {
        let Some(place) = place_of(&self.registered, &self.counts, resource) else {
            return &self.records[..0];
        };
        own_records(&self.records, &place)
    }

    // A resource more, without records.
    pub(crate) fn add(&mut self, resource: &Name, phases: u8)
        requires { 1 ≤ self.old.room }
        ensures { self.new ≡ record {
          accounts = self.old.accounts ++ new_account resource.now phases ∷ [];
          room = self.old.room - 1;
        } }
    {
        self.registered.push_reserved((*resource, phases));
        self.counts.push_reserved(Counts {
            written: 0,
            kept: 0,
        });
        self.room -= 1;
    }

    // A record more of a resource. None, and nothing changes, where it isn't there.
    pub(crate) fn write(
        &mut self,
        resource: &Name,
        key: &Text,
        old: Amount,
        new: Amount,
    ) -> Option<LogRecord>
        requires { 1 ≤ self.old.room }
        ensures entry { result ≡ option_map (next_entry key.now old new) (account_of resource.now self.old.accounts) }
        ensures some { OnSome result (self.new ≡ record {
          accounts = with_account resource.now (written_to key.now old new) self.old.accounts;
          room = self.old.room - 1;
        }) }
        ensures none { IfNone result (self.new ≡ self.old) }
    {
        let Some(place) = place_of(&self.registered, &self.counts, resource) else {
            return None;
        };
        let entry = LogRecord {
            seq: place.counts.written + 1,
            flags: 0,
            key: *key,
            old,
            new,
        };
        put_in(&mut self.records, place.start + place.counts.kept, &entry);
        self.counts[place.index] = Counts {
            written: place.counts.written + 1,
            kept: place.counts.kept + 1,
        };
        self.room -= 1;
        Some(entry)
    }

    // The first record of a resource with this number goes, where it is there.
    pub(crate) fn forget(&mut self, resource: &Name, seq: u32)
        ensures { self.new ≡ record self.old {
          accounts = with_account resource.now (without seq) self.old.accounts;
        } }
    {
        let Some(place) = place_of(&self.registered, &self.counts, resource) else {
            return;
        };
        let Some(at) = seq_at(own_records(&self.records, &place), seq) else {
            return;
        };
        self.records.remove(place.start + at);
        self.counts[place.index].kept -= 1;
    }
}
