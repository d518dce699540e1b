// Where a log has no room for what an order adds.
ghost use Rattle.std.specs.Prelude.{◌≡◌, ◌+◌, nat_le};
ghost use Rattle.qc_machine.specs.Rooms.{journal_full, log_full};
ghost use Rattle.qc_machine.specs.State.{State};
ghost use Rattle.qc_hub.specs.Rooms.{attempt_number};
ghost use Rattle.qc_hub.specs.Stands.{IsHubOf};

use crate::hub::Hub;
use qc_protocol::Refusal;

/// What an attempt without a fact sets aside of the journal, and adds to it when it is taken, in bytes.
pub(crate) const FACT_ROOM: u64 = 35;

/// What an attempt that changes nothing outside sets aside of the log of compensations, in bytes.
pub(crate) const LOG_ROOM: u64 = 512;

/// What a fact takes of the journal beside its spelling, in bytes: a gate and two lengths.
pub(crate) const BESIDE_FACT: usize = 9;

// The greatest number that an attempt can have.
const LAST_ATTEMPT: u64 = 9_223_372_036_854_775_807;

// Whether a file of this length, of which so much is set aside, has room for so many bytes more.
fn has_room(length: u64, aside: u64, more: u64, most: u64) -> bool
    ensures { result ≡ nat_le (length + aside + more) most }
{
    let Some(taken) = length.checked_add(aside) else {
        return false;
    };
    match taken.checked_add(more) {
        Some(total) => total <= most,
        None => false,
    }
}

impl Hub {
    /// Why the journal can't grow by so many bytes: it has no room for them beside what attempts set aside of it.
    pub(crate) fn journal_full(&self, more: u64) -> Option<Refusal>
        ensures { (s : State) → IsHubOf self.now s → result ≡ journal_full s more }
    {
        let length = self.journal.length();
        let aside = FACT_ROOM * self.players.without_fact();
        if has_room(length, aside, more, self.limits.log_bytes) {
            None
        } else {
            Some(Refusal::Full(length))
        }
    }

    /// The same of the log of compensations.
    pub(crate) fn log_full(&self, more: u64) -> Option<Refusal>
        ensures { (s : State) → IsHubOf self.now s → result ≡ log_full s more }
    {
        let length = self.log.length();
        let aside = LOG_ROOM * self.players.count();
        if has_room(length, aside, more, self.limits.log_bytes) {
            None
        } else {
            Some(Refusal::Full(length))
        }
    }

    /// The number of the next attempt. None where all are taken.
    pub(crate) fn next_attempt(&self) -> Option<u64>
        ensures { (s : State) → IsHubOf self.now s → result ≡ attempt_number s }
    {
        let settled = self.history.attempt();
        let held = self.players.greatest();
        let greatest = if settled < held { held } else { settled };
        if greatest < LAST_ATTEMPT {
            Some(greatest + 1)
        } else {
            None
        }
    }
}
