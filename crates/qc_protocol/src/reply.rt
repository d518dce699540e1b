// The answer to an order.
ghost use Rattle.std.specs.Prelude.{◌≡◌, List, IfOk};

use crate::order::Member;
use qc_base::{Amount, Ids, Kind, Moment, Name, NoMemory, Notices, Queues, Stage, Text, Why};
use std::alloc::Global;
use std::marker::Model;

/// Which queue of a move is none: the source or the destination.
#[derive(Clone, Copy, Debug, PartialEq, Eq)]
pub enum Side {
    From,
    To,
}

impl Side {
    /// The same value again.
    pub fn copy(&self) -> Side
        ensures { result ≡ self.now }
    {
        *self
    }
}

/// Why an order is refused. The variants stand in the order of their numbers, from 1, and the first
/// that applies is the answer (docs/RULES.md, "Refusals").
#[derive(Clone, Copy, Debug, PartialEq, Eq)]
pub enum Refusal {
    /// The line has over 65,536 bytes.
    LineTooLong,
    /// The line is no order, by this member.
    Malformed(Member),
    /// The order isn't built yet.
    NotBuilt,
    /// The slot isn't 1 to 16.
    NoSuchSlot(u64),
    /// The slot holds an attempt on the message of this id, or a recorder with so many calls.
    SlotBusy(u64),
    SlotIdle,
    /// What the slot holds began in the first epoch, and now is the second.
    Over(u64, u64),
    WrongStage(Stage),
    UnknownApp,
    UnknownComponent,
    /// The number of the call, from 1.
    UnknownMethod(u64),
    /// The number of the call and the place of the argument, both from 1.
    BadArguments(u64, u64),
    /// 64 calls are held.
    TooManyCalls,
    /// The spelling with this call would have so many bytes, over 16,384.
    TooLong(u64),
    UnknownQueue(Side),
    /// The batch isn't 1 to 1,000.
    BadBatch,
    /// There is no such table or resource.
    UnknownTable,
    /// The limit of messages that aren't consumed.
    TooManyMessages(u64),
    SwitchedOff,
    /// The least due moment after the moment used, if there is one, and how many messages are due and
    /// blocked.
    NothingDue(Option<Moment>, u64),
    /// The length of the file that has no room, in bytes.
    Full(u64),
}

impl Refusal {
    /// The same value again.
    pub fn copy(&self) -> Refusal
        ensures { result ≡ self.now }
    {
        *self
    }
}

/// A row as it is shown, without an amount where the site doesn't find it.
#[derive(Clone, Copy, Debug, PartialEq, Eq)]
pub struct ShownRow {
    pub key: Text,
    pub amount: Option<Amount>,
}

impl ShownRow {
    /// The same value again.
    pub fn copy(&self) -> ShownRow
        ensures { result ≡ self.now }
    {
        *self
    }
}

/// Rows in byte order of their keys.
#[derive(Debug, Drop)]
pub struct ShownRows(Vec<ShownRow>);

impl Model for ShownRows {
    ghost use Rattle.std.specs.Prelude.{List};
    ghost use Rattle.qc_protocol.specs.declared.reply.ShownRow.{ShownRow};

    ghost Value = { List ShownRow };

    ghost view = { λ a. a.0.items };
}

impl ShownRows {
    /// The rows of a vector. This takes no memory.
    pub fn over(items: Vec<ShownRow>) -> ShownRows
        ensures { result ≡ items.items }
    {
        ShownRows(items)
    }

    /// The items, in order.
    pub fn as_slice(&self) -> &[ShownRow]
        ensures { result.now ≡ self.now }
    {
        self.0.as_slice()
    }

    /// A copy, with memory of its own. The error is want of memory.
    pub fn copy(&self, alloc: Global) -> Result<ShownRows, NoMemory>
        ensures { IfOk result (λ a. a ≡ self.now) }
    {
        let items = Vec::from_slice(alloc, self.0.as_slice()).map_err(|_| NoMemory)?;
        Ok(ShownRows(items))
    }
}

/// The answer to an order, with a variant for each reply line (docs/FORMATS.md, "Reply lines").
#[derive(Debug, Drop)]
pub enum Reply {
    Opened,
    /// The number of calls held.
    Recorded(u64),
    /// The message's id.
    Sent(u64),
    SentNothing,
    /// The number of calls dropped.
    Cancelled(u64),
    /// The message's id, the attempt's number and kind, and the number of calls to play.
    Taken(u64, u64, Kind, u64),
    /// The number of the call, and the number of calls left.
    Worked(u8, u64),
    /// The number of the call and of its step.
    StepFailed(u8, u8),
    /// The attempt's number, and what was heard.
    Committed(u64, Notices),
    /// The attempt's number, why it failed, and what was heard.
    NotCommitted(u64, Why, Notices),
    /// The attempt's number, whether it was committed, and what was heard.
    Finished(u64, bool, Notices),
    /// A committed attempt: the message's id, the attempt's number and kind, and what was heard.
    Played(u64, u64, Kind, Notices),
    /// A failed attempt: the message's id, the attempt's number and kind, why, and what was heard.
    PlayFailed(u64, u64, Kind, Why, Notices),
    /// The number of messages moved.
    Moved(u64),
    /// The application, and whether it is on.
    Switched(Name, bool),
    /// The application, its queues 0 to 5, the ids of its dead messages, and how many are consumed.
    Queues(Name, Queues, Ids, u64),
    /// The table, its rows, and the sum of their amounts.
    Table(Name, ShownRows, u128),
    /// The resource, its rows, and the sum of their amounts.
    Outside(Name, ShownRows, u128),
    Refused(Refusal),
}

impl Reply {
    /// A copy, with memory of its own. The error is want of memory.
    pub fn copy(&self, alloc: Global) -> Result<Reply, NoMemory>
        ensures { IfOk result (λ r. r ≡ self.now) }
    {
        Ok(match self {
            Reply::Opened => Reply::Opened,
            Reply::Recorded(n) => Reply::Recorded(*n),
            Reply::Sent(id) => Reply::Sent(*id),
            Reply::SentNothing => Reply::SentNothing,
            Reply::Cancelled(n) => Reply::Cancelled(*n),
            Reply::Taken(id, attempt, kind, calls) => Reply::Taken(*id, *attempt, *kind, *calls),
            Reply::Worked(call, left) => Reply::Worked(*call, *left),
            Reply::StepFailed(call, step) => Reply::StepFailed(*call, *step),
            Reply::Committed(attempt, notices) => Reply::Committed(*attempt, notices.copy(alloc)?),
            Reply::NotCommitted(attempt, why, notices) => Reply::NotCommitted(
                *attempt,
                *why,
                notices.copy(alloc)?,
            ),
            Reply::Finished(attempt, committed, notices) => Reply::Finished(
                *attempt,
                *committed,
                notices.copy(alloc)?,
            ),
            Reply::Played(id, attempt, kind, notices) => Reply::Played(
                *id,
                *attempt,
                *kind,
                notices.copy(alloc)?,
            ),
            Reply::PlayFailed(id, attempt, kind, why, notices) => {
                Reply::PlayFailed(*id, *attempt, *kind, *why, notices.copy(alloc)?)
            }
            Reply::Moved(n) => Reply::Moved(*n),
            Reply::Switched(app, on) => Reply::Switched(*app, *on),
            Reply::Queues(app, queues, dead, consumed) => {
                Reply::Queues(*app, queues.copy(alloc)?, dead.copy(alloc)?, *consumed)
            }
            Reply::Table(name, rows, total) => Reply::Table(*name, rows.copy(alloc)?, *total),
            Reply::Outside(name, rows, total) => Reply::Outside(*name, rows.copy(alloc)?, *total),
            Reply::Refused(refusal) => Reply::Refused(*refusal),
        })
    }
}
