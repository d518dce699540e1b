// What the queues of an application hold, told from its own messages alone.
ghost use Rattle.std.specs.Prelude.{◌≡◌, ℕ, List, length, IfOk};
ghost use Rattle.qc_base.specs.Messages.{listing, waiting_queues, dead_ids, consumed_ids};
ghost use Rattle.qc_base.specs.declared.message.Message.{Message};
ghost use Rattle.qc_store.specs.Own.{AreOwn};

use crate::place::{DEAD_QUEUE, is_in_queue, waiting};
use crate::store::Store;
use qc_base::{Ids, Message, NoMemory, Queue, Queues};
use std::alloc::Global;

const QUEUES: [u8; 6] = [0, 1, 2, 3, 4, 5];

/// What the queues of an application hold.
#[derive(Debug, Drop)]
pub struct Listing {
    /// The queues 0 to 5, in order, each by due moment and then by id.
    pub queues: Queues,
    /// The ids in the dead queue, rising.
    pub dead: Ids,
    /// How many messages are consumed.
    pub consumed: u64,
}

impl Store {
    /// All that the queues of an application hold (docs/RULES.md, "Places"). Each message of the store is
    /// looked at once, and then the application's own.
    pub fn list(&self, alloc: Global, app: &[u8]) -> Result<Listing, NoMemory>
        ensures queues { IfOk result (λ list. list.queues ≡ waiting_queues app.now self.now.messages) }
        ensures dead { IfOk result (λ list. list.dead ≡ dead_ids app.now self.now.messages) }
        ensures consumed { IfOk result (λ list. list.consumed ≡ length (consumed_ids app.now self.now.messages)) }
    {
        let own = self.own(alloc, app)?;
        let queues = queues_of(alloc, own.as_slice())?;
        let dead = dead_of(alloc, own.as_slice())?;
        Ok(Listing {
            queues,
            dead,
            consumed: self.consumed(app),
        })
    }

    /// The messages of an application in one of the queues 0 to 5, by due moment and then by id, or
    /// in the dead queue, which is queue 6, by id (docs/RULES.md, "Places").
    pub fn queue_list(&self, alloc: Global, app: &[u8], queue: u8) -> Result<Queue, NoMemory>
        ensures { IfOk result (λ list. list ≡ listing app.now queue self.now.messages) }
    {
        let own = self.own(alloc, app)?;
        queue_of(alloc, own.as_slice(), queue)
    }
}

/// The queues 0 to 5.
fn queues_of(alloc: Global, own: &[&Message]) -> Result<Queues, NoMemory>
    ensures { (app : List ℕ) → (messages : List Message) → AreOwn app messages own.now
        → IfOk result (λ queues. queues ≡ waiting_queues app messages) }
{
    let mut queues: Vec<Queue> = Vec::new(alloc);
    for queue in QUEUES {
        let list = queue_of(alloc, own, queue)?;
        queues.push(list).map_err(|_| NoMemory)?;
    }
    Ok(Queues::over(queues))
}

/// The ids in the dead queue.
fn dead_of(alloc: Global, own: &[&Message]) -> Result<Ids, NoMemory>
    ensures { (app : List ℕ) → (messages : List Message) → AreOwn app messages own.now
        → IfOk result (λ ids. ids ≡ dead_ids app messages) }
{
    let list = queue_of(alloc, own, DEAD_QUEUE)?;
    let mut ids = Vec::new(alloc);
    for waiting in list.as_slice() {
        ids.push(waiting.id).map_err(|_| NoMemory)?;
    }
    Ok(Ids::over(ids))
}

/// One queue.
fn queue_of(alloc: Global, own: &[&Message], queue: u8) -> Result<Queue, NoMemory>
    ensures { (app : List ℕ) → (messages : List Message) → AreOwn app messages own.now
        → IfOk result (λ list. list ≡ listing app queue messages) }
{
    let mut list = Vec::new(alloc);
    for message in own {
        if is_in_queue(message.place, queue) {
            list.push(waiting(message)).map_err(|_| NoMemory)?;
        }
    }
    list.sort_unstable_by_key(|entry| (entry.due.get(), entry.id));
    Ok(Queue::over(list))
}
