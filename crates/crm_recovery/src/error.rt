// Why attempts weren't finished.
ghost use Rattle.std.specs.Prelude.{◌≡◌};

use qc_base::NoMemory;
use qc_site::Failed;
use thiserror::Error;

/// Why a recovery stopped (docs/RULES.md, "Recovery"). The log is opened again, and recovered again.
#[derive(Clone, Copy, Debug, PartialEq, Eq, Error)]
pub enum FinishError {
    /// A call of the site failed, at a put or at a force.
    #[error("the site failed")]
    SiteFault,
    /// Memory was wanting.
    #[error("memory was wanting")]
    NoMemory,
}

impl FinishError {
    /// The same answer once more.
    pub fn copy(&self) -> FinishError
        ensures { result ≡ self.now }
    {
        *self
    }
}

impl From<Failed> for FinishError {
    ghost use Rattle.std.specs.Prelude.{◌≡◌};
    ghost use Rattle.crm_recovery.specs.declared.error.FinishError.TheVariants.{SiteFault};

    ghost from_gives = { λ _ e. e ≡ SiteFault };

    fn from(_: Failed) -> Self {
        FinishError::SiteFault
    }
}

impl From<NoMemory> for FinishError {
    ghost use Rattle.std.specs.Prelude.{◌≡◌};
    ghost use Rattle.crm_recovery.specs.declared.error.FinishError.TheVariants.{NoMemory as out_of_memory};

    ghost from_gives = { λ _ e. e ≡ out_of_memory };

    fn from(_: NoMemory) -> Self {
        FinishError::NoMemory
    }
}
