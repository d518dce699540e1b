// What is chosen.
ghost use Rattle.std.specs.Prelude.{◌≡◌};

use qc_base::Moment;

/// The message that is taken, or why there is none (docs/RULES.md, "Take").
#[derive(Clone, Copy, Debug, PartialEq, Eq)]
pub enum Chosen {
    /// The id of the message.
    Take(u64),
    /// The least due moment that is still to come, held messages included, and how many messages are due that no
    /// attempt holds. Each of these has a row that an attempt holds.
    NothingDue(Option<Moment>, u64),
}

impl Chosen {
    /// The same value again.
    pub fn copy(&self) -> Chosen
        ensures { result ≡ self.now }
    {
        *self
    }
}
