// What the log of compensations keeps, and what compensators are told.
ghost use Rattle.std.specs.Prelude.{◌≡◌, List, IfOk};

use crate::name::{Name, Text};
use crate::number::{Amount, NoMemory};
use std::alloc::Global;
use std::marker::Model;

/// An outside change of one row, as it is written before the change (docs/FORMATS.md, "Log lines").
#[derive(Clone, Copy, Debug, PartialEq, Eq)]
pub struct LogRecord {
    /// From 1, for each attempt and resource by itself.
    pub seq: u32,
    /// Always 0.
    pub flags: u8,
    pub key: Text,
    /// The row's amount before the change.
    pub old: Amount,
    /// The row's amount after it.
    pub new: Amount,
}

impl LogRecord {
    /// The same value again.
    pub fn copy(&self) -> LogRecord
        ensures { result ≡ self.now }
    {
        *self
    }
}

/// One line of the log (docs/FORMATS.md, "Log lines"). Each begins with the attempt's number.
#[derive(Clone, Copy, Debug, PartialEq, Eq)]
pub enum LogLine {
    /// The id of the message.
    Opened(u64, u64),
    /// The resource, and its phases: prepare is 1, commit is 2, abort is 4, added up.
    Registered(u64, Name, u8),
    /// The resource, and the record of one of its rows.
    Written(u64, Name, LogRecord),
    /// The resource, and the number of the record that is forgotten.
    Forgot(u64, Name, u32),
    Done(u64),
}

impl LogLine {
    /// The same value again.
    pub fn copy(&self) -> LogLine
        ensures { result ≡ self.now }
    {
        *self
    }
}

/// What a compensator is told (docs/RULES.md, "Phase"). A number is that of the record. The flag of a
/// begin is true in a recovery.
#[derive(Clone, Copy, Debug, PartialEq, Eq)]
pub enum Heard {
    BeginPrepare,
    /// The flag is its answer: whether the record is to be forgotten.
    PrepareRecord(u32, bool),
    /// The flag is its answer: whether it is ready.
    EndPrepare(bool),
    BeginCommit(bool),
    CommitRecord(u32),
    EndCommit,
    BeginAbort(bool),
    AbortRecord(u32),
    EndAbort,
}

impl Heard {
    /// The same value again.
    pub fn copy(&self) -> Heard
        ensures { result ≡ self.now }
    {
        *self
    }
}

/// What the compensator of a resource was told (docs/FORMATS.md, "Reply lines").
#[derive(Clone, Copy, Debug, PartialEq, Eq)]
pub struct Notice {
    pub resource: Name,
    pub heard: Heard,
}

impl Notice {
    /// The same value again.
    pub fn copy(&self) -> Notice
        ensures { result ≡ self.now }
    {
        *self
    }
}

/// Notices in the order in which they were given.
#[derive(Debug, Drop)]
pub struct Notices(Vec<Notice>);

impl Model for Notices {
    ghost use Rattle.std.specs.Prelude.{List};
    ghost use Rattle.qc_base.specs.declared.log_line.Notice.{Notice};

    ghost Value = { List Notice };

    ghost view = { λ a. a.0.items };
}

impl Notices {
    /// The notices of a vector. This takes no memory.
    pub fn over(items: Vec<Notice>) -> Notices
        ensures { result ≡ items.items }
    {
        Notices(items)
    }

    /// The items, in order.
    pub fn as_slice(&self) -> &[Notice]
        ensures { result.now ≡ self.now }
    {
        self.0.as_slice()
    }

    /// A copy, with memory of its own. The error is want of memory.
    pub fn copy(&self, alloc: Global) -> Result<Notices, NoMemory>
        ensures { IfOk result (λ a. a ≡ self.now) }
    {
        let items = Vec::from_slice(alloc, self.0.as_slice()).map_err(|_| NoMemory)?;
        Ok(Notices(items))
    }
}

/// Why an attempt fails (docs/RULES.md, "Outcome").
#[derive(Clone, Copy, Debug, PartialEq, Eq)]
pub enum Why {
    /// The call, from 1 (0 is the exception class's own), and its step, from 1.
    Step(u8, u8),
    /// A step `abort` was run.
    Forced,
    /// The first resource that isn't ready.
    NotReady(Name),
}

impl Why {
    /// The same value again.
    pub fn copy(&self) -> Why
        ensures { result ≡ self.now }
    {
        *self
    }
}

/// How far an attempt has come (docs/RULES.md, "Refusals").
#[derive(Clone, Copy, Debug, PartialEq, Eq)]
pub enum Stage {
    /// Calls are left to run.
    Calls,
    /// All calls were run.
    Ready,
    /// A call failed.
    Failing,
    /// It was committed, and its commit phase is to come.
    Commit,
    /// It failed, and its abort phase is to come.
    Abort,
}

impl Stage {
    /// The same value again.
    pub fn copy(&self) -> Stage
        ensures { result ≡ self.now }
    {
        *self
    }
}

/// An attempt that a recovery finished (docs/RULES.md, "Recovery").
#[derive(Debug, Drop)]
pub struct Recovered {
    pub attempt: u64,
    pub committed: bool,
    pub notices: Notices,
}

impl Recovered {
    /// A copy, with memory of its own. The error is want of memory.
    pub fn copy(&self, alloc: Global) -> Result<Recovered, NoMemory>
        ensures { IfOk result (λ r. r ≡ self.now) }
    {
        let notices = self.notices.copy(alloc)?;
        Ok(Recovered {
            attempt: self.attempt,
            committed: self.committed,
            notices,
        })
    }
}
