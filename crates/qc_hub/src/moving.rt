// Orders that move messages from queue to queue.
ghost use Rattle.std.specs.Prelude.{◌≡◌, ◌≤◌, ◌+◌, ◌*◌, IfOk};
ghost use Rattle.qc_machine.specs.Moving.{batches, facts_of_batches, ids_moved};
ghost use Rattle.qc_machine.specs.Rooms.{journal_full};
ghost use Rattle.qc_machine.specs.State.{State};
ghost use Rattle.qc_hub.specs.Calls.{CarriesOut, IsReady, moving};
ghost use Rattle.qc_hub.specs.Moving.{is_same_unless, source_of};
ghost use Rattle.qc_hub.specs.Stands.{IsHubOf};

use crate::error::HubError;
use crate::hub::{Hub, later};
use crate::rooms::BESIDE_FACT;
use crate::route::{Route, find_route};
use qc_base::{Fact, Ids, Moment, NoMemory};
use qc_protocol::{Refusal, Reply};
use qc_site::Site;
use std::alloc::Global;

// The greatest number of messages in a batch.
const MOST_IN_BATCH: u64 = 1000;

// What the spelling of a batch's fact has beside the application's name and the ids, in bytes: a byte each for the
// kind, the name's length and the queue, a moment, and how many ids there are.
const BESIDE_IDS: usize = 13;

// What the spelling has for each id, in bytes.
const FOR_ID: usize = 8;

impl Hub {
    /// Moves all messages of a queue that no attempt holds to another queue of the same application, in batches: each
    /// is one fact (docs/RULES.md, "Mover").
    ///
    /// It is the step of the order `move` with this own moment, and its errors are those of `apply`. After `SiteFault`,
    /// and after a crash, the first of the batches stand, as many as there are.
    pub fn move_messages<S: Site>(
        &mut self,
        alloc: Global,
        site: &mut S,
        at: Moment,
        from: &[u8],
        to: &[u8],
        batch: u64,
    ) -> Result<Reply, HubError>
        requires { IsReady S.Site self.old site.old }
        ensures { CarriesOut S.Site (moving at from.now to.now batch) result self.old site.old self.new site.new }
    {
        self.last = later(at, self.last);
        let route = match find_route(self.history.catalogue(), from, to) {
            Ok(route) => route,
            Err(refusal) => return Ok(Reply::Refused(refusal)),
        };
        if batch < 1 || batch > MOST_IN_BATCH {
            return Ok(Reply::Refused(Refusal::BadBatch));
        }
        let Ok(ids) = self.ids_moved(alloc, &route) else {
            return Err(HubError::NoMemory);
        };
        let ids = ids.as_slice();
        let Ok(facts) = facts_moved(alloc, &route, self.last, batch as usize, ids) else {
            return Err(HubError::NoMemory);
        };
        let named = route.app.as_bytes().len();
        if let Some(full) = self.full_for(named, facts.len(), ids.len()) {
            return Ok(Reply::Refused(full));
        }
        let Ok(()) = self
            .journal
            .reserve(alloc, BESIDE_IDS + named + FOR_ID * batch as usize + 4)
        else {
            return Err(HubError::NoMemory);
        };
        self.add_batches(site, facts.as_slice(), ids.len() as u64)
    }

    // The messages that a move takes: those of its source that no attempt holds, by due moment and then by id.
    fn ids_moved(&self, alloc: Global, route: &Route) -> Result<Vec<u64>, NoMemory>
        ensures { (s : State) → IsHubOf self.now s
            → IfOk result (λ ids. ids.items ≡ ids_moved s (source_of route.now)) }
    {
        let source = self
            .history
            .store()
            .queue_list(alloc, route.app.as_bytes(), route.queue)?;
        let held = self.players.held();
        let mut ids = Vec::new(alloc);
        for waiting in source.as_slice() {
            if !held.has(waiting.id) {
                ids.push(waiting.id).map_err(|_| NoMemory)?;
            }
        }
        Ok(ids)
    }

    // Why the journal can't grow by so many facts of batches with so many ids together, of an application with a name
    // of this length.
    fn full_for(&self, named: usize, facts: usize, ids: usize) -> Option<Refusal>
        requires { named ≤ 64 }
        ensures { (s : State) → IsHubOf self.now s → result ≡ journal_full s (facts * (22 + named) + 8 * ids) }
    {
        match room_for(named, facts, ids) {
            Some(room) => self.journal_full(room),
            None => {
                prove!(self.limits.log_bytes <= u64::MAX);
                Some(Refusal::Full(self.journal.length()))
            }
        }
    }
}

// What so many facts of batches with so many ids together take of the journal, in bytes. None where it is more than a
// number holds.
fn room_for(named: usize, facts: usize, ids: usize) -> Option<u64>
    requires { named ≤ 64 }
    ensures { is_same_unless result (facts * (22 + named) + 8 * ids) }
{
    let each = (BESIDE_FACT + BESIDE_IDS + named) as u64;
    let beside = (facts as u64).checked_mul(each)?;
    let spelled = (ids as u64).checked_mul(FOR_ID as u64)?;
    beside.checked_add(spelled)
}

// The ids in batches of a size, each as its fact.
fn facts_moved(
    alloc: Global,
    route: &Route,
    at: Moment,
    size: usize,
    ids: &[u64],
) -> Result<Vec<Fact>, NoMemory>
    requires { 1 ≤ size }
    ensures { IfOk result (λ facts. facts.items ≡ facts_of_batches route.now.app route.now.to at
        (batches size ids.now)) }
{
    let mut facts = Vec::new(alloc);
    let mut left = ids;
    while !left.is_empty() {
        let (batch, rest) = left.split_at(size.min(left.len()));
        let batch = Vec::from_slice(alloc, batch).map_err(|_| NoMemory)?;
        let fact = Fact::Moved(route.app, route.to, at, Ids::over(batch));
        facts.push(fact).map_err(|_| NoMemory)?;
        left = rest;
    }
    Ok(facts)
}
