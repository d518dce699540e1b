// What a log answers where it can't go on, and where a file is damaged.
ghost use Rattle.std.specs.Prelude.{◌≡◌};

use qc_base::NoMemory;
use qc_site::{Failed, SiteFile};
use std::alloc::AllocError;
use thiserror::Error;

/// The first entry of a file that spells nothing, or doesn't follow from those before, by the offset of its length.
#[derive(Clone, Copy, Debug, PartialEq, Eq)]
pub struct Damage {
    pub file: SiteFile,
    /// In bytes from the start of the file.
    pub at: u64,
}

impl Damage {
    /// The same place once more.
    pub fn copy(&self) -> Damage
        ensures { result ≡ self.now }
    {
        *self
    }
}

/// Why a log couldn't be opened or read on (docs/FORMATS.md, "Frame").
#[derive(Clone, Copy, Debug, PartialEq, Eq, Error)]
pub enum LogError {
    /// A call of the site failed.
    #[error("the site failed")]
    SiteFault,
    /// The first 16 bytes of the file aren't the header.
    #[error("the file is no log of this kind")]
    NotMade,
    /// The payload of an open group isn't a list of entries; the offset in the file of the first entry that doesn't fit.
    #[error("the log is damaged at {0}")]
    Damaged(u64),
    /// Memory was wanting.
    #[error("memory was wanting")]
    NoMemory,
}

impl LogError {
    /// The same answer once more.
    pub fn copy(&self) -> LogError
        ensures { result ≡ self.now }
    {
        *self
    }
}

impl From<Failed> for LogError {
    ghost use Rattle.std.specs.Prelude.{◌≡◌};
    ghost use Rattle.qc_frame.specs.declared.error.LogError.TheVariants.{SiteFault};

    ghost from_gives = { λ _ e. e ≡ SiteFault };

    fn from(_: Failed) -> Self {
        LogError::SiteFault
    }
}

impl From<AllocError> for LogError {
    ghost use Rattle.std.specs.Prelude.{◌≡◌};
    ghost use Rattle.qc_frame.specs.declared.error.LogError.TheVariants.{NoMemory as out_of_memory};

    ghost from_gives = { λ _ e. e ≡ out_of_memory };

    fn from(_: AllocError) -> Self {
        LogError::NoMemory
    }
}

impl From<NoMemory> for LogError {
    ghost use Rattle.std.specs.Prelude.{◌≡◌};
    ghost use Rattle.qc_frame.specs.declared.error.LogError.TheVariants.{NoMemory as out_of_memory};

    ghost from_gives = { λ _ e. e ≡ out_of_memory };

    fn from(_: NoMemory) -> Self {
        LogError::NoMemory
    }
}
