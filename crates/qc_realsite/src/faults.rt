// How often an object has failed.
ghost use Rattle.std.specs.Prelude.{◌≡◌, ◌≤◌};
ghost use Rattle.qc_site.specs.Causes.{Rose};

use qc_site::Failed;

/// How often an object has failed. The count stops at the end of its type.
#[derive(Drop)]
pub(crate) struct Faults {
    pub(crate) count: u64,
}

impl Faults {
    pub(crate) fn none() -> Faults
        ensures { result.count ≡ 0 }
    {
        Faults { count: 0 }
    }

    pub(crate) fn one_more(&mut self) -> Failed
        ensures no_fewer { self.old.count ≤ self.new.count }
        ensures rose { Rose self.old.count self.new.count }
    {
        self.count = self.count.saturating_add(1);
        Failed
    }
}
