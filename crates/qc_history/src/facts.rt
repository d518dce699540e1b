// Facts that were read, taken one after another.
ghost use Rattle.std.specs.Prelude.{◌≡◌, ◌<◌, [], List, ℕ, true, nat_le, ◌&&◌};
ghost use Rattle.qc_base.specs.declared.fact.Fact.TheVariants.{Catalogue as InForce, Sent, Switched};
ghost use Rattle.qc_base.specs.Spelling.{is_fact};
ghost use Rattle.qc_history.specs.Taking.{TakesFact};

use crate::history::History;
use qc_base::{Fact, Kind, Moment, Name, NoMemory, Recording};
use qc_catalogue::{Catalogue, CatalogueError, lists_stand_in_order};
use qc_recorder::fits;
use qc_rows::{OutsideAmounts, Tables};
use std::alloc::Global;

impl History {
    /// Settles a fact that was read, and tells true, where it may follow those before it; tells false where it may not
    /// (docs/RULES.md, "Histories"). To find that out, a message whose attempt ended is played again. The caller keeps
    /// the numbers of the attempts in the facts, in order. Where it isn't true that is told, nothing is settled. The
    /// error is want of memory.
    pub fn take(
        &mut self,
        alloc: Global,
        fact: Fact,
        numbers: &mut Vec<u64>,
    ) -> Result<bool, NoMemory>
        requires limits { is_fact fact ≡ true }
        requires few { self.old.facts < 4611686018427387904 }
        ensures { TakesFact fact result self.old numbers.old.items self.new numbers.new.items }
    {
        match fact {
            Fact::Catalogue(text) => self.take_catalogue(alloc, text.as_slice()),
            Fact::Sent(id, at, recording) => self.take_sent(alloc, id, at, recording),
            Fact::Played(id, number, kind, at) => {
                self.take_end(alloc, id, number, at, Some(kind), numbers)
            }
            Fact::Failed(id, number, at) => self.take_end(alloc, id, number, at, None, numbers),
            Fact::Moved(app, queue, at, ids) => {
                Ok(self.take_moved(app, queue, at, ids.as_slice()))
            }
            Fact::Switched(app, on, at) => self.take_switched(alloc, app, on, at),
        }
    }

    // Whether a fact of this moment may stand behind those that are there.
    pub(crate) fn is_later(&self, at: Moment) -> bool
        ensures { result ≡ (nat_le 1 self.now.facts && nat_le self.now.last at) }
    {
        self.facts() >= 1 && self.last().get() <= at.get()
    }

    fn take_catalogue(&mut self, alloc: Global, text: &[u8]) -> Result<bool, NoMemory>
        ensures { (numbers : List ℕ) → TakesFact (InForce text.now) result self.old numbers self.new numbers }
    {
        if self.facts() != 0 {
            return Ok(false);
        }
        let catalogue = match Catalogue::read(alloc, text) {
            Ok(catalogue) => catalogue,
            Err(CatalogueError::NoMemory) => return Err(NoMemory),
            Err(_) => return Ok(false),
        };
        lists_stand_in_order();
        let tables = Tables::make(alloc, &catalogue)?;
        let outside = OutsideAmounts::make(alloc, &catalogue)?;
        self.begin_with(catalogue, tables, outside);
        Ok(true)
    }

    // The first fact is settled: the catalogue that opens these tables and resources.
    fn begin_with(&mut self, catalogue: Catalogue, tables: Tables, outside: OutsideAmounts)
        requires { self.old.facts ≡ 0 }
        ensures none { self.old.store.messages ≡ [] }
        ensures is { self.new ≡ record self.old { catalogue = catalogue; tables = tables; outside = outside; facts = 1 } }
    {
        self.catalogue = catalogue;
        self.tables = tables;
        self.outside = outside;
        self.facts = 1;
    }

    fn take_sent(
        &mut self,
        alloc: Global,
        id: u64,
        at: Moment,
        recording: Recording,
    ) -> Result<bool, NoMemory>
        requires limits { is_fact (Sent id at recording) ≡ true }
        requires few { self.old.facts < 4611686018427387904 }
        ensures { (numbers : List ℕ) → TakesFact (Sent id at recording) result self.old numbers self.new numbers }
    {
        if !self.is_later(at) {
            return Ok(false);
        }
        if id != self.store().len() + 1 {
            return Ok(false);
        }
        if !fits(self.catalogue(), &recording) {
            return Ok(false);
        }
        self.reserve_sent(alloc, &recording)?;
        self.sent(recording, at);
        Ok(true)
    }

    fn take_switched(
        &mut self,
        alloc: Global,
        app: Name,
        on: bool,
        at: Moment,
    ) -> Result<bool, NoMemory>
        requires { self.old.facts < 4611686018427387904 }
        ensures { (numbers : List ℕ) → TakesFact (Switched app on at) result self.old numbers self.new numbers }
    {
        if !self.is_later(at) {
            return Ok(false);
        }
        if self.catalogue().app(app.as_bytes()).is_none() {
            return Ok(false);
        }
        self.reserve_switch(alloc)?;
        self.switch(app, on, at);
        Ok(true)
    }
}
