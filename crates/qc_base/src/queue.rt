// Queues as they are listed.
ghost use Rattle.std.specs.Prelude.{◌≡◌, List, IfOk};

use crate::number::{Moment, NoMemory};
use std::alloc::Global;
use std::marker::Model;

/// A message in a queue (docs/FORMATS.md, "Reply lines").
#[derive(Clone, Copy, Debug, PartialEq, Eq)]
pub struct Waiting {
    pub id: u64,
    pub tries: u8,
    pub due: Moment,
}

impl Waiting {
    /// The same value again.
    pub fn copy(&self) -> Waiting
        ensures { result ≡ self.now }
    {
        *self
    }
}

/// The messages of a queue, by due moment and then by id.
#[derive(Debug, Drop)]
pub struct Queue(Vec<Waiting>);

impl Model for Queue {
    ghost use Rattle.std.specs.Prelude.{List};
    ghost use Rattle.qc_base.specs.declared.queue.Waiting.{Waiting};

    ghost Value = { List Waiting };

    ghost view = { λ a. a.0.items };
}

impl Queue {
    /// The messages of a vector. This takes no memory.
    pub fn over(items: Vec<Waiting>) -> Queue
        ensures { result ≡ items.items }
    {
        Queue(items)
    }

    /// The items, in order.
    pub fn as_slice(&self) -> &[Waiting]
        ensures { result.now ≡ self.now }
    {
        self.0.as_slice()
    }

    /// A copy, with memory of its own. The error is want of memory.
    pub fn copy(&self, alloc: Global) -> Result<Queue, NoMemory>
        ensures { IfOk result (λ a. a ≡ self.now) }
    {
        let items = Vec::from_slice(alloc, self.0.as_slice()).map_err(|_| NoMemory)?;
        Ok(Queue(items))
    }
}

/// The queues 0 to 5, in order.
#[derive(Debug, Drop)]
pub struct Queues(Vec<Queue>);

impl Model for Queues {
    ghost use Rattle.std.specs.Prelude.{List};
    ghost use Rattle.qc_base.specs.declared.queue.Queue.{Queue};

    ghost Value = { List Queue };

    ghost view = { λ a. a.0.items };
}

impl Queues {
    /// The queues of a vector. This takes no memory.
    pub fn over(items: Vec<Queue>) -> Queues
        ensures { result ≡ items.items }
    {
        Queues(items)
    }

    /// The items, in order.
    pub fn as_slice(&self) -> &[Queue]
        ensures { result.now ≡ self.now }
    {
        self.0.as_slice()
    }

    /// A copy, with memory of its own. The error is want of memory.
    pub fn copy(&self, alloc: Global) -> Result<Queues, NoMemory>
        ensures { IfOk result (λ a. a ≡ self.now) }
    {
        let mut items = Vec::new(alloc);
        for queue in self.0.iter() {
            let copied = queue.copy(alloc)?;
            items.push(copied).map_err(|_| NoMemory)?;
        }
        Ok(Queues(items))
    }
}
