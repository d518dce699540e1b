// Why a site can't be recovered, by what a call below told.
ghost use Rattle.std.specs.Prelude.{◌≡◌};
ghost use Rattle.qc_site.specs.declared.site.SiteFile.TheVariants.{Journal as the_journal, CrmLog as the_log};
ghost use Rattle.qc_recovery.specs.Opening.{as_open_error, damage_in, unfinished_error};

use crm_recovery::FinishError;
use qc_frame::{Damage, LogError};
use qc_machine::OpenError;
use qc_site::SiteFile;

// Damage of the journal at this offset.
pub(crate) fn damaged_fact(at: u64) -> OpenError
    ensures { result ≡ OpenError.Damaged (damage_in the_journal at) }
{
    let file = SiteFile::Journal;
    OpenError::Damaged(Damage { file, at })
}

// Damage of the log of compensations at this offset.
fn damaged_line(at: u64) -> OpenError
    ensures { result ≡ OpenError.Damaged (damage_in the_log at) }
{
    let file = SiteFile::CrmLog;
    OpenError::Damaged(Damage { file, at })
}

// The journal can't be read on.
pub(crate) fn journal_error(error: LogError) -> OpenError
    ensures { result ≡ as_open_error the_journal error }
{
    match error {
        LogError::SiteFault => OpenError::SiteFault,
        LogError::NotMade => OpenError::NotMade,
        LogError::Damaged(at) => damaged_fact(at),
        LogError::NoMemory => OpenError::NoMemory,
    }
}

// The log of compensations can't be read on.
pub(crate) fn log_error(error: LogError) -> OpenError
    ensures { result ≡ as_open_error the_log error }
{
    match error {
        LogError::SiteFault => OpenError::SiteFault,
        LogError::NotMade => OpenError::NotMade,
        LogError::Damaged(at) => damaged_line(at),
        LogError::NoMemory => OpenError::NoMemory,
    }
}

// An attempt can't be finished.
pub(crate) fn finish_error(error: FinishError) -> OpenError
    ensures { result ≡ unfinished_error error }
{
    match error {
        FinishError::SiteFault => OpenError::SiteFault,
        FinishError::NoMemory => OpenError::NoMemory,
    }
}
