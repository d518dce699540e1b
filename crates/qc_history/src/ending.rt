// Ends of attempts that were read: each is played again.
ghost use Rattle.std.specs.Prelude.{◌≡◌, ◌<◌, true, false, IfOk, is_some, Some, None};
ghost use Rattle.std.specs.Option.{option_map_or};
ghost use Rattle.qc_base.specs.declared.message.Message.{Message};
ghost use Rattle.qc_base.specs.Messages.{message_of};
ghost use Rattle.qc_listener.specs.Choice.{is_due};
ghost use Rattle.qc_history.specs.Playing.{fact_read, fits_kind, kind_of_attempt, IsPlayedAgain};
ghost use Rattle.qc_history.specs.Taking.{TakesFact};

use crate::history::History;
use crate::places::{is_due, is_same};
use crate::votes::vote_all;
use qc_base::{Kind, Moment, NoMemory};
use qc_txn::Attempt;
use std::alloc::Global;

// Whether a committed attempt is said to have been of this kind. A failed one is said to have been of none.
fn fits_kind(committed: Option<Kind>, kind: Kind) -> bool
    ensures { result ≡ fits_kind committed kind }
{
    match committed {
        Some(told) => is_same(told, kind),
        None => true,
    }
}

impl History {
    // The end of an attempt: with its kind where it was committed, and without where it failed.
    pub(crate) fn take_end(
        &mut self,
        alloc: Global,
        id: u64,
        number: u64,
        at: Moment,
        committed: Option<Kind>,
        numbers: &mut Vec<u64>,
    ) -> Result<bool, NoMemory>
        requires { self.old.facts < 4611686018427387904 }
        ensures { TakesFact (fact_read id number at committed) result self.old numbers.old.items self.new
            numbers.new.items }
    {
        if !self.is_later(at) {
            return Ok(false);
        }
        if !self.is_due(id, at) {
            return Ok(false);
        }
        if numbers.contains(&number) {
            return Ok(false);
        }
        let Some(kind) = self.kind_of_attempt(id) else {
            return Ok(false);
        };
        if !fits_kind(committed, kind) {
            return Ok(false);
        }
        let attempt = self.play_again(alloc, id, number)?;
        if attempt.why().is_none() != committed.is_some() {
            return Ok(false);
        }
        self.reserve(alloc, &attempt)?;
        let Ok(()) = numbers.push(number) else {
            return Err(NoMemory);
        };
        self.end(&attempt, at);
        Ok(true)
    }

    // Whether the message of an id is due at the moment.
    fn is_due(&self, id: u64, at: Moment) -> bool
        ensures { result
            ≡ option_map_or (λ (m : Message). is_due at m.place) (message_of id self.now.store.messages) false }
    {
        match self.store().message(id) {
            Some((_, place)) => is_due(at, place),
            None => false,
        }
    }

    // The attempt with this number on the message of an id, as it ends over the settled amounts, after the votes of the
    // resources that it changed.
    fn play_again(&self, alloc: Global, id: u64, number: u64) -> Result<Attempt, NoMemory>
        requires { is_some (kind_of_attempt self.now.catalogue id self.now.store.messages) ≡ true }
        ensures { IfOk result (λ a. IsPlayedAgain self.now id number a) }
    {
        let mut attempt = self.begin(alloc, id, number)?;
        attempt.run_left(self.catalogue());
        vote_all(alloc, self.catalogue(), &mut attempt)?;
        let _ = attempt.decide();
        Ok(attempt)
    }
}
