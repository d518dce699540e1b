// The messages in order of their ids.
ghost use Rattle.std.specs.Prelude.{◌≡◌, ℕ, ◌+◌, ◌^◌, ◌<◌, ◌≤◌, [], length, All};
ghost use Rattle.std.specs.Prelude.{IfOk, OnOk, OnErr, IsTrue, option_map};
ghost use Rattle.qc_base.specs.Messages.{after_sent, after_failed, after_consumed, after_moved, consumed_ids, live};
ghost use Rattle.qc_store.specs.Live.{is_live, are_live, is_waiting, live_message, unless_consumed, told_of, as_told};
ghost use Rattle.qc_store.specs.Own.{AreOwn};
ghost use Rattle.qc_store.specs.Stored.{IdsRise};

use crate::place::{is_consumed, is_own};
use crate::tally::Tally;
use crate::{change, count};
use qc_base::{Message, Moment, NoMemory, Place, Recording};
use std::alloc::Global;
use std::marker::Model;

/// The messages that were sent, in order of their ids, each with its place (docs/RULES.md, "Places").
/// Contracts see the list of messages, and beside it the room: how many more messages it takes without
/// memory.
#[derive(Debug, Drop)]
pub struct Store {
    messages: Vec<Message>,
    // What was sent and what is consumed is counted, so that neither count needs the messages that are consumed.
    sent: u64,
    tallies: Vec<Tally>,
}

impl Model for Store {
    ghost use Rattle.std.specs.Prelude.{◌-◌, min};
    ghost use Rattle.std.specs.Vec.{vec_len, vec_capacity};
    ghost use Rattle.qc_store.specs.Stored.{Stored};
    ghost use Rattle.qc_store.specs.Tallies.{AreCounted};

    ghost Value = { Stored };

    ghost view = { λ s. record {
      messages = s.messages.items;
      room = min (vec_capacity s.messages - vec_len s.messages) (vec_capacity s.tallies - vec_len s.tallies);
    } };

    ghost invariant = { λ s. AreCounted s.messages.items s.sent s.tallies.items };
}

impl Store {
    /// A store without messages.
    pub fn make(alloc: Global) -> Result<Store, NoMemory>
        ensures { IfOk result (λ store. store.messages ≡ []) }
    {
        Ok(Store {
            messages: Vec::new(alloc),
            sent: 0,
            tallies: Vec::new(alloc),
        })
    }

    /// Makes room for one message more. The messages and the room stay, whatever the answer, which is Ok
    /// where there is room already.
    pub fn reserve(&mut self, _alloc: Global) -> Result<(), NoMemory>
        ensures messages { self.new.messages ≡ self.old.messages }
        ensures room { OnOk result (1 ≤ self.new.room) }
        ensures kept { self.old.room ≤ self.new.room }
        ensures full { OnErr result (self.old.room ≡ 0) }
    {
        self.messages.reserve(1).map_err(|_| NoMemory)?;
        self.tallies.reserve(1).map_err(|_| NoMemory)
    }

    /// A message more, which stands in queue 0 with no tries and is due at the moment (docs/RULES.md,
    /// "Recording"). This takes no memory, and at most the room of one message.
    pub fn insert(&mut self, id: u64, recording: Recording, final_class: bool, at: Moment)
        requires room { 1 ≤ self.old.room }
        requires rises { All (λ m. m.id < id) self.old.messages }
        ensures messages { self.new.messages ≡ after_sent id recording final_class at self.old.messages }
        ensures room { self.old.room ≤ self.new.room + 1 }
    {
        count::begin(&mut self.tallies, recording.app);
        let message = Message {
            id,
            recording,
            final_class,
            place: Place::Queue(0, 0, at),
        };
        let inserted = self.messages.push(message).is_ok();
        prove!(inserted);
        self.sent += 1;
    }

    /// A failure of a message that stands in one of the queues 0 to 5: it goes on by the retry rule (docs/RULES.md,
    /// "Retry rule"). All else stays, and this takes no memory.
    pub fn fail(&mut self, id: u64, at: Moment)
        requires { IsTrue (is_waiting id self.old.messages) }
        ensures messages { self.new.messages ≡ after_failed id at self.old.messages }
        ensures room { self.new.room ≡ self.old.room }
    {
        change::fail(self.messages.as_mut_slice(), id, at);
    }

    /// A message that isn't consumed yet was played by a committed attempt of this number. All else stays, and this
    /// takes no memory.
    pub fn consume(&mut self, id: u64, attempt: u64)
        requires { IsTrue (is_live id self.old.messages) }
        ensures messages { self.new.messages ≡ after_consumed id attempt self.old.messages }
        ensures room { self.new.room ≡ self.old.room }
    {
        count::add_played(self.tallies.as_mut_slice(), self.messages.as_slice(), id);
        change::consume(self.messages.as_mut_slice(), id, attempt);
    }

    /// One batch of a move: these messages, none of them consumed, stand in the queue with no tries, due at the
    /// moment, or in the dead queue, which is queue 6 (docs/RULES.md, "Places"). All else stays, and this takes no
    /// memory.
    pub fn move_batch(&mut self, ids: &[u64], queue: u8, at: Moment)
        requires ids { IsTrue (are_live ids.now self.old.messages) }
        requires queue { queue ≤ 6 }
        ensures messages { self.new.messages ≡ after_moved ids.now queue at self.old.messages }
        ensures room { self.new.room ≡ self.old.room }
    {
        change::move_to(self.messages.as_mut_slice(), ids, queue, at);
    }

    /// How many messages there are.
    pub fn len(&self) -> u64
        ensures value { result ≡ length self.now.messages }
        ensures bound { result < 2 ^ 63 }
        ensures rises { IdsRise self.now.messages }
    {
        self.sent
    }

    /// How many messages aren't consumed.
    pub fn live(&self) -> u64
        ensures { result ≡ live self.now.messages }
    {
        self.messages
            .iter()
            .filter(|message| !is_consumed(message.place))
            .count() as u64
    }

    /// What the message of an id carries and where it stands. None exactly where no message that isn't consumed has
    /// the id.
    pub fn message(&self, id: u64) -> Option<(&Recording, Place)>
        ensures { option_map as_told result ≡ option_map told_of (live_message id self.now.messages) }
    {
        for message in self.messages.iter() {
            if message.id == id {
                return shown(message);
            }
        }
        None
    }

    /// How many messages of an application are consumed.
    pub fn consumed(&self, app: &[u8]) -> u64
        ensures { result ≡ length (consumed_ids app.now self.now.messages) }
    {
        count::tally_of(self.tallies.as_slice(), app)
    }

    /// All messages, in order of their ids.
    pub(crate) fn all(&self) -> &[Message]
        ensures messages { result.now ≡ self.now.messages }
        ensures rises { IdsRise self.now.messages }
    {
        self.messages.as_slice()
    }

    /// The messages of an application, in order of their ids.
    pub(crate) fn own(&self, alloc: Global, app: &[u8]) -> Result<Vec<&Message>, NoMemory>
        ensures { IfOk result (λ own. AreOwn app.now self.now.messages own.items) }
    {
        let mut own = Vec::new(alloc);
        for message in self.messages.iter() {
            if is_own(message, app) {
                own.push(message).map_err(|_| NoMemory)?;
            }
        }
        Ok(own)
    }
}

/// What a message carries and where it stands, unless it is consumed.
fn shown(message: &Message) -> Option<(&Recording, Place)>
    ensures { option_map as_told result ≡ option_map told_of (unless_consumed message.now) }
{
    if is_consumed(message.place) {
        None
    } else {
        Some((&message.recording, message.place))
    }
}
