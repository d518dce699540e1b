// Messages that are moved, a batch at a time.
ghost use Rattle.std.specs.Prelude.{◌≡◌, ◌≤◌, ◌<◌, List, ℕ, true, Ok};
ghost use Rattle.std.specs.List.{list_all};
ghost use Rattle.qc_base.specs.declared.fact.Fact.TheVariants.{Moved};
ghost use Rattle.qc_base.specs.Spelling.{is_fact};
ghost use Rattle.qc_machine.specs.History.{are_distinct, is_movable};
ghost use Rattle.qc_store.specs.Live.{are_live};
ghost use Rattle.qc_history.specs.Adding.{AddsFact, Always};
ghost use Rattle.qc_history.specs.Taking.{TakesFact};

use crate::history::History;
use qc_base::{Moment, Name};

// Whether no id is there twice.
fn are_distinct(ids: &[u64]) -> bool
    ensures { result ≡ are_distinct ids.now }
{
    for (index, id) in ids.iter().enumerate() {
        if ids[index + 1..].contains(id) {
            return false;
        }
    }
    true
}

impl History {
    /// Settles that these messages were moved at a moment: none of them is consumed, and they stand in the queue of
    /// this number from now on, where 6 is the dead queue (docs/RULES.md, "Places"). The application that the fact
    /// names isn't needed here. This takes no memory.
    pub fn move_batch(&mut self, ids: &[u64], queue: u8, at: Moment)
        requires live { are_live ids.now self.old.store.messages ≡ true }
        requires queue { queue ≤ 6 }
        ensures { (app : List ℕ) → AddsFact (Moved app queue at ids.now) Always self.old self.new }
    {
        self.store.move_batch(ids, queue, at);
        self.facts = self.facts.saturating_add(1);
        self.last = at;
    }

    // A batch of a move: each message is there once, is one of the application, and isn't consumed.
    pub(crate) fn take_moved(&mut self, app: Name, queue: u8, at: Moment, ids: &[u64]) -> bool
        requires limits { is_fact (Moved app queue at ids.now) ≡ true }
        requires few { self.old.facts < 4611686018427387904 }
        ensures { (numbers : List ℕ) → TakesFact (Moved app queue at ids.now) (Ok result) self.old numbers self.new
            numbers }
    {
        if !self.is_later(at) {
            return false;
        }
        if !are_distinct(ids) {
            return false;
        }
        if !self.are_movable(&app, ids) {
            return false;
        }
        self.move_batch(ids, queue, at);
        true
    }

    fn are_movable(&self, app: &Name, ids: &[u64]) -> bool
        ensures { result ≡ list_all (is_movable app.now self.now.store.messages) ids.now }
    {
        for id in ids {
            if !self.is_movable(app, *id) {
                return false;
            }
        }
        true
    }

    // Whether the message of an id is one of the application, and isn't consumed.
    fn is_movable(&self, app: &Name, id: u64) -> bool
        ensures { result ≡ is_movable app.now self.now.store.messages id }
    {
        match self.store.message(id) {
            Some((recording, _)) => recording.app.as_bytes() == app.as_bytes(),
            None => false,
        }
    }
}
