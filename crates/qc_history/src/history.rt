// What is kept of a history, and looking at it.
ghost use Rattle.std.specs.Prelude.{◌≡◌, List, ℕ, not, IfOk};
ghost use Rattle.qc_listener.specs.Choice.{AreKept};
ghost use Rattle.qc_machine.specs.History.{History as MachineHistory, is_on, no_facts};
ghost use Rattle.qc_history.specs.Stands.{IsHistoryOf};

use crate::switches::Switches;
use qc_base::{Moment, Name, NoMemory};
use qc_catalogue::{Catalogue, Entries};
use qc_listener::RowIndex;
use qc_rows::{OutsideAmounts, Tables};
use qc_store::Store;
use std::alloc::Global;
use std::marker::Model;

/// What the facts so far have settled (docs/RULES.md, "Histories"). Contracts see the catalogue in force, the messages,
/// the tables, the amounts that are settled for outside rows, the rows that attempts on messages would have, which
/// applications are off, how many facts there are, the moment of the last one, and the greatest number of an attempt.
#[derive(Debug, Drop)]
pub struct History {
    pub(crate) catalogue: Catalogue,
    pub(crate) store: Store,
    pub(crate) tables: Tables,
    pub(crate) outside: OutsideAmounts,
    pub(crate) rows: RowIndex,
    pub(crate) off: Switches,
    pub(crate) facts: u64,
    pub(crate) last: Moment,
    pub(crate) attempt: u64,
}

impl Model for History {
    ghost use Rattle.qc_history.specs.View.{HistoryView, IsSound};

    ghost Value = { HistoryView };

    ghost view = { λ h. record {
      catalogue = h.catalogue;
      store = h.store;
      tables = h.tables;
      outside = h.outside;
      rows = h.rows;
      off = h.off;
      facts = h.facts;
      last = h.last;
      attempt = h.attempt;
    } };

    ghost invariant = { λ h. IsSound h.catalogue h.store.messages h.rows h.facts };
}

fn empty_catalogue(alloc: Global) -> Catalogue
    ensures { result ≡ no_facts.catalogue }
{
    Catalogue {
        tables: Entries::over(Vec::new(alloc)),
        resources: Entries::over(Vec::new(alloc)),
        apps: Entries::over(Vec::new(alloc)),
    }
}

impl History {
    /// There are no facts. The error is want of memory.
    pub fn make(alloc: Global) -> Result<History, NoMemory>
        ensures { IfOk result (λ view. IsHistoryOf view no_facts) }
    {
        let store = Store::make(alloc)?;
        let rows = RowIndex::make(alloc)?;
        Ok(History {
            catalogue: empty_catalogue(alloc),
            store,
            tables: Tables::none(alloc),
            outside: OutsideAmounts::none(alloc),
            rows,
            off: Switches::make(alloc),
            facts: 0,
            last: Moment::clamp(0),
            attempt: 0,
        })
    }

    /// The catalogue in force.
    pub fn catalogue(&self) -> &Catalogue
        ensures { result.now ≡ self.now.catalogue }
    {
        &self.catalogue
    }

    /// The messages.
    pub fn store(&self) -> &Store
        ensures { result.now ≡ self.now.store }
    {
        &self.store
    }

    /// The tables.
    pub fn tables(&self) -> &Tables
        ensures { result.now ≡ self.now.tables }
    {
        &self.tables
    }

    /// The amounts that are settled for outside rows.
    pub fn outside(&self) -> &OutsideAmounts
        ensures { result.now ≡ self.now.outside }
    {
        &self.outside
    }

    /// The rows that attempts on messages would have. Those of each message in the queues 0 to 5 are kept.
    pub fn rows(&self) -> &RowIndex
        ensures rows { result.now ≡ self.now.rows }
        ensures kept { (app : List ℕ) → AreKept self.now.catalogue result.now app self.now.store.messages }
    {
        &self.rows
    }

    /// How many facts there are.
    pub fn facts(&self) -> u64
        ensures { result ≡ self.now.facts }
    {
        self.facts
    }

    /// The moment of the last fact that has one, or 0.
    pub fn last(&self) -> Moment
        ensures { result ≡ self.now.last }
    {
        self.last
    }

    /// The greatest number of an attempt in the facts, or 0.
    pub fn attempt(&self) -> u64
        ensures { result ≡ self.now.attempt }
    {
        self.attempt
    }

    /// Whether an application is switched off.
    pub fn is_off(&self, app: &Name) -> bool
        ensures { (h : MachineHistory) → IsHistoryOf self.now h → result ≡ not (is_on app.now h) }
    {
        self.off.is_off(app)
    }
}
