// Applications that are switched.
ghost use Rattle.std.specs.Prelude.{◌≤◌, OnOk};
ghost use Rattle.qc_history.specs.Adding.{AddsFact, Always, SetsAside};
ghost use Rattle.qc_base.specs.declared.fact.Fact.TheVariants.{Switched};

use crate::history::History;
use qc_base::{Moment, Name, NoMemory};
use std::alloc::Global;

impl History {
    /// Takes memory for a switch. The error is want of memory.
    pub fn reserve_switch(&mut self, alloc: Global) -> Result<(), NoMemory>
        ensures aside { SetsAside self.old self.new }
        ensures room { OnOk result (1 ≤ self.new.off.room) }
    {
        self.off.reserve(alloc)
    }

    /// Settles that an application was switched on or off at a moment. There is room for it (`reserve_switch`). This
    /// takes no memory.
    pub fn switch(&mut self, app: Name, on: bool, at: Moment)
        requires { 1 ≤ self.old.off.room }
        ensures { AddsFact (Switched app on at) Always self.old self.new }
    {
        self.off.set(app, on);
        self.facts = self.facts.saturating_add(1);
        self.last = at;
    }
}
