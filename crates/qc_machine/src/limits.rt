// How far a site may grow.
ghost use Rattle.std.specs.Prelude.{◌≡◌};

/// What an order may not pass: it is refused as `Full` or `TooManyMessages` (docs/RULES.md, "Room").
#[derive(Clone, Copy, Debug, PartialEq, Eq)]
pub struct Limits {
    /// Bytes of a log file, with what an order would add to it.
    pub log_bytes: u64,
    /// Messages that aren't consumed.
    pub live: u32,
}

impl Limits {
    /// The same value again.
    pub fn copy(&self) -> Limits
        ensures { result ≡ self.now }
    {
        *self
    }
}
