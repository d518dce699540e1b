// A clock that stands still, and a spawner without threads.
ghost use Rattle.std.specs.Prelude.{◌≡◌, is_err, IsErr};
ghost use Rattle.qc_site.specs.Causes.{HasCause};
ghost use Rattle.qc_memsite.specs.Numbers.{is_named, Counted};

use crate::account::Account;
use crate::numbers::Numbers;
use qc_site::{Clock, Failed, Job, Spawner};

/// A clock that always answers this number of seconds.
#[derive(Clone, Copy, Debug)]
pub struct FixedClock {
    pub seconds: u64,
}

impl FixedClock {
    /// The same again.
    pub fn copy(&self) -> FixedClock
        ensures { result ≡ self.now }
    {
        *self
    }
}

impl Clock for FixedClock {
    fn now(&self) -> u64
        ensures { result ≡ self.now.seconds }
    {
        self.seconds
    }
}

/// A spawner that runs each job at once, in the caller's thread, with a plan of the calls that fail.
#[derive(Drop)]
pub struct MemSpawner {
    numbers: Numbers,
    account: Account,
}

impl MemSpawner {
    /// The plan has the numbers of the calls that fail, from 1.
    pub fn over(plan: Vec<u32>) -> MemSpawner
        ensures plan { result.numbers.plan ≡ plan }
        ensures made { result.numbers.made ≡ 0 }
        ensures faults { result.account.faults ≡ 0 }
    {
        MemSpawner {
            numbers: Numbers::over(plan),
            account: Account::empty(),
        }
    }
}

impl<J: Job + Send + Drop + 'static> Spawner<J> for MemSpawner {
    ghost faults = { λ s. s.account.faults };

    fn start(&mut self, job: J) -> Result<(), Failed>
        ensures cause { HasCause self.old.account.faults self.new.account.faults (IsErr result) }
        // It fails exactly by the plan.
        ensures by_plan { is_err result ≡ is_named self.old.numbers }
        ensures counted { Counted self.old.numbers self.new.numbers }
    {
        if self.numbers.names_next() {
            return Err(self.account.fault());
        }
        job.go();
        Ok(())
    }
}
