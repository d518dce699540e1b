// Why a clerk doesn't do what it is asked.
ghost use Rattle.std.specs.Prelude.{◌≡◌};

use thiserror::Error;

/// Why a clerk refused (docs/RULES.md, "Work"). Nothing changed then.
#[derive(Clone, Copy, Debug, PartialEq, Eq, Error)]
pub enum ClerkError {
    /// The attempt has registered the resource before.
    #[error("the resource is registered already")]
    AlreadyRegistered,
    /// The attempt hasn't registered the resource.
    #[error("the resource isn't registered")]
    NotRegistered,
    /// The resource has no record in this attempt, or the last one was forgotten.
    #[error("there is no last record to forget")]
    NothingToForget,
}

impl ClerkError {
    /// The same answer once more.
    pub fn copy(&self) -> ClerkError
        ensures { result ≡ self.now }
    {
        *self
    }
}
