// What the journal keeps, and where a message stands.
ghost use Rattle.std.specs.Prelude.{◌≡◌, IfOk};

use crate::lists::{Ids, Word};
use crate::name::Name;
use crate::number::{Moment, NoMemory};
use crate::recording::Recording;
use std::alloc::Global;

/// The kind of an attempt: a final one plays the exception class (docs/RULES.md, "What an attempt
/// plays").
#[derive(Clone, Copy, Debug, PartialEq, Eq)]
pub enum Kind {
    Normal,
    Final,
}

impl Kind {
    /// The same value again.
    pub fn copy(&self) -> Kind
        ensures { result ≡ self.now }
    {
        *self
    }
}

/// Where a message stands (docs/RULES.md, "Places").
#[derive(Clone, Copy, Debug, PartialEq, Eq)]
pub enum Place {
    /// The queue, 0 to 5; the failures there, 0 to 3; and the moment from which it may be taken.
    Queue(u8, u8, Moment),
    Dead,
    /// The number of the attempt that was committed.
    Consumed(u64),
}

impl Place {
    /// The same value again.
    pub fn copy(&self) -> Place
        ensures { result ≡ self.now }
    {
        *self
    }
}

/// One fact of a history. The journal keeps nothing else (docs/FORMATS.md, "Facts").
#[derive(Debug, Drop)]
pub enum Fact {
    /// The catalogue's text.
    Catalogue(Word),
    /// The message's id, the moment, and what was recorded.
    Sent(u64, Moment, Recording),
    /// A committed attempt: the message's id, the attempt's number and kind, and the moment.
    Played(u64, u64, Kind, Moment),
    /// A failed attempt: the message's id, the attempt's number, and the moment.
    Failed(u64, u64, Moment),
    /// One batch of a move: the application, the queue that they were moved to (6 is the dead
    /// queue), the moment, and the ids of the messages.
    Moved(Name, u8, Moment, Ids),
    /// The application, whether it is on from now, and the moment.
    Switched(Name, bool, Moment),
}

impl Fact {
    /// A copy, with memory of its own. The error is want of memory.
    pub fn copy(&self, alloc: Global) -> Result<Fact, NoMemory>
        ensures { IfOk result (λ f. f ≡ self.now) }
    {
        Ok(match self {
            Fact::Catalogue(text) => Fact::Catalogue(text.copy(alloc)?),
            Fact::Sent(id, at, recording) => Fact::Sent(*id, *at, recording.copy(alloc)?),
            Fact::Played(id, attempt, kind, at) => Fact::Played(*id, *attempt, *kind, *at),
            Fact::Failed(id, attempt, at) => Fact::Failed(*id, *attempt, *at),
            Fact::Moved(app, queue, at, ids) => Fact::Moved(*app, *queue, *at, ids.copy(alloc)?),
            Fact::Switched(app, on, at) => Fact::Switched(*app, *on, *at),
        })
    }
}
