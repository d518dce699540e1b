// Objects whose calls only return.
ghost use Rattle.std.specs.Prelude.{◌≡◌};

/// A clock of seconds. An answer above 10^12 is used as 10^12.
pub trait Clock {
    fn now(&self) -> u64;
}

/// Where a player stands as it passes a gate.
#[derive(Clone, Copy, Debug, PartialEq, Eq)]
pub enum GateStage {
    /// It has taken a message.
    Taken,
    /// It has run its last call.
    Worked,
    /// Its attempt has ended.
    Ended,
}

impl GateStage {
    /// The same again.
    pub fn copy(&self) -> GateStage
        ensures { result ≡ self.now }
    {
        *self
    }
}

/// A gate that each player passes outside the lock, so that a test can make one wait for another.
pub trait Gate {
    fn pass(&self, player: u32, stage: GateStage);
}
