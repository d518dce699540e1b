// What a hub answers where it can't go on.
ghost use Rattle.std.specs.Prelude.{◌≡◌};

use qc_base::NoMemory;
use qc_site::Failed;

/// Why an order has no reply.
#[derive(Clone, Copy, Debug, PartialEq, Eq)]
pub enum HubError {
    /// A call of the site failed, and its count of faults rose. The hub is in fault from then on.
    SiteFault,
    /// Nothing changed but the last moment seen.
    NoMemory,
}

impl HubError {
    /// The same value again.
    pub fn copy(&self) -> HubError
        ensures { result ≡ self.now }
    {
        *self
    }
}

impl From<Failed> for HubError {
    ghost use Rattle.std.specs.Prelude.{◌≡◌};
    ghost use Rattle.qc_hub.specs.declared.error.HubError.TheVariants.{SiteFault};

    ghost from_gives = { λ _ e. e ≡ SiteFault };

    fn from(_: Failed) -> Self {
        HubError::SiteFault
    }
}

impl From<NoMemory> for HubError {
    ghost use Rattle.std.specs.Prelude.{◌≡◌};
    ghost use Rattle.qc_hub.specs.declared.error.HubError.TheVariants.{NoMemory as out_of_memory};

    ghost from_gives = { λ _ e. e ≡ out_of_memory };

    fn from(_: NoMemory) -> Self {
        HubError::NoMemory
    }
}
