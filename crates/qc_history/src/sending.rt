// Messages that are sent.
ghost use Rattle.std.specs.Prelude.{◌≡◌, ◌≤◌, ◌+◌, length, OnOk};
ghost use Rattle.qc_base.specs.declared.fact.Fact.TheVariants.{Sent};
ghost use Rattle.qc_history.specs.Adding.{AddsFact, Always, HasRoomFor, SetsAside};

use crate::classes::names_exception;
use crate::history::History;
use qc_base::{Moment, NoMemory, Recording};
use std::alloc::Global;

impl History {
    /// Takes memory for the message that is sent next with this recording. The error is want of memory.
    pub fn reserve_sent(&mut self, alloc: Global, recording: &Recording) -> Result<(), NoMemory>
        ensures aside { SetsAside self.old self.new }
        ensures room { OnOk result (HasRoomFor recording.now self.new) }
    {
        self.store.reserve(alloc)?;
        let id = self.store.len() + 1;
        self.rows.set(alloc, &self.catalogue, id, recording)
    }

    /// Settles that a message was sent at a moment, and tells its id. There is room for it (`reserve_sent`), and it has
    /// at most 64 calls. This takes no memory.
    pub fn sent(&mut self, recording: Recording, at: Moment) -> u64
        requires room { HasRoomFor recording self.old }
        requires short { length recording.calls ≤ 64 }
        ensures id { result ≡ length self.old.store.messages + 1 }
        ensures adds { AddsFact (Sent (length self.old.store.messages + 1) at recording) Always self.old self.new }
    {
        let id = self.store.len() + 1;
        let final_class = names_exception(&self.catalogue, &recording);
        self.store.insert(id, recording, final_class, at);
        self.facts = self.facts.saturating_add(1);
        self.last = at;
        id
    }
}
