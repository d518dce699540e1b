// The system's clock.
ghost use Rattle.std.specs.Prelude.{◌≡◌};

use qc_site::Clock;
use std::time;

/// The seconds since the start of 1970, by the system's clock, or 0 where it can't be read.
#[derive(Drop)]
pub struct RealClock<T> {
    clock: T,
}

impl<T> RealClock<T> {
    /// Over this clock, as the runtime is one.
    pub fn over(clock: T) -> RealClock<T>
        ensures { result.clock ≡ clock }
    {
        RealClock { clock }
    }
}

impl<T: time::Clock> Clock for RealClock<T> {
    fn now(&self) -> u64 {
        match self.clock.since_1970() {
            Ok(time) => time.as_secs(),
            Err(_) => 0,
        }
    }
}
