// Why a site isn't made.
ghost use Rattle.std.specs.Prelude.{◌≡◌, IfOk};

use qc_base::NoMemory;
use qc_catalogue::CatalogueError;
use qc_site::Failed;
use std::alloc::Global;

/// Why a site isn't made from a text (docs/RULES.md, "Creation").
#[derive(Debug, Drop)]
pub enum CreateError {
    /// A call of the site failed, and its count of faults rose. The site may be made anew.
    SiteFault,
    /// The journal has its header and an open group. Nothing was changed.
    AlreadyMade,
    /// The text is no catalogue. Nothing was changed.
    BadCatalogue(CatalogueError),
    /// The site isn't made.
    NoMemory,
}

impl CreateError {
    /// A copy, with memory of its own. The error is want of memory.
    pub fn copy(&self, alloc: Global) -> Result<CreateError, NoMemory>
        ensures { IfOk result (λ e. e ≡ self.now) }
    {
        Ok(match self {
            CreateError::SiteFault => CreateError::SiteFault,
            CreateError::AlreadyMade => CreateError::AlreadyMade,
            CreateError::BadCatalogue(e) => CreateError::BadCatalogue(e.copy(alloc)?),
            CreateError::NoMemory => CreateError::NoMemory,
        })
    }
}

impl From<Failed> for CreateError {
    ghost use Rattle.std.specs.Prelude.{◌≡◌};
    ghost use Rattle.qc_creation.specs.declared.error.CreateError.TheVariants.{SiteFault};

    ghost from_gives = { λ _ e. e ≡ SiteFault };

    fn from(_: Failed) -> Self {
        CreateError::SiteFault
    }
}
