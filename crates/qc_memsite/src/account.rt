// How often an object in memory has failed.
ghost use Rattle.std.specs.Prelude.{◌≡◌, ◌≤◌};
ghost use Rattle.qc_site.specs.Causes.{Rose};

use qc_site::Failed;

// How often it has failed, and how often for want of memory of its own.
#[derive(Drop)]
pub(crate) struct Account {
    pub(crate) faults: u64,
    pub(crate) starved: u64,
}

impl Account {
    pub(crate) fn empty() -> Account
        ensures faults { result.faults ≡ 0 }
        ensures starved { result.starved ≡ 0 }
    {
        Account {
            faults: 0,
            starved: 0,
        }
    }

    pub(crate) fn fault(&mut self) -> Failed
        ensures no_fewer { self.old.faults ≤ self.new.faults }
        ensures rose { Rose self.old.faults self.new.faults }
        ensures starved { self.new.starved ≡ self.old.starved }
    {
        self.faults = self.faults.saturating_add(1);
        Failed
    }

    pub(crate) fn starve(&mut self) -> Failed
        ensures no_fewer { self.old.faults ≤ self.new.faults }
        ensures rose { Rose self.old.faults self.new.faults }
        ensures starved { Rose self.old.starved self.new.starved }
    {
        self.faults = self.faults.saturating_add(1);
        self.starved = self.starved.saturating_add(1);
        Failed
    }
}
