// Making a site.
ghost use Rattle.qc_site.specs.declared.site.SiteFile.TheVariants.{Journal as the_file};
ghost use Rattle.qc_frame.specs.Calls.{LooksAt};
ghost use Rattle.qc_journal.specs.History.{journal_header};
ghost use Rattle.qc_creation.specs.Calls.{CreatesSite};
ghost use Rattle.qc_creation.specs.Parts.{Prepares};

use crate::error::CreateError;
use crate::journal::begin_journal;
use crate::rows::make_all_rows;
use qc_base::{Fact, Word};
use qc_catalogue::{Catalogue, CatalogueError};
use qc_frame::Log;
use qc_journal::Journal;
use qc_site::{Failed, Site, SiteFile};
use std::alloc::Global;

const LOG_HEADER: [u8; 16] = *b"QC-CRMLOG--0001\n";

/// Syncs the journal and tells whether the site is made: whether the journal has its header and an open group.
///
/// `Failed` comes only where the site's count of faults rose. Nothing is written.
pub fn is_made<S: Site>(site: &mut S) -> Result<bool, Failed>
    ensures { LooksAt S.Site the_file journal_header result site.old site.new }
{
    Journal::is_made(site)
}

// What the text says, and its fact. All memory is taken here but for the journal's own.
fn prepare<S: Site>(
    alloc: Global,
    site: &mut S,
    text: &[u8],
) -> Result<(Catalogue, Fact), CreateError>
    ensures { Prepares S.Site text.now result site.old site.new }
{
    if is_made(site)? {
        return Err(CreateError::AlreadyMade);
    }
    let catalogue = match Catalogue::read(alloc, text) {
        Ok(catalogue) => catalogue,
        Err(CatalogueError::NoMemory) => return Err(CreateError::NoMemory),
        Err(e) => return Err(CreateError::BadCatalogue(e)),
    };
    let Ok(bytes) = Vec::from_slice(alloc, text) else {
        return Err(CreateError::NoMemory);
    };
    Ok((catalogue, Fact::Catalogue(Word::over(bytes))))
}

/// Makes a site from the text of a catalogue (docs/RULES.md, "Creation").
///
/// `AlreadyMade` comes exactly where the site was made, `BadCatalogue` exactly where it wasn't and the text is no
/// catalogue, and `SiteFault` only where the site's count of faults rose. At each moment an image is one of those
/// before, or isn't made, or is the whole site that was to be made; so after a crash, a fault or want of memory the site
/// may be made anew.
pub fn create<S: Site>(alloc: Global, site: &mut S, text: &[u8]) -> Result<(), CreateError>
    ensures { CreatesSite S.Site text.now result site.old site.new }
{
    let (catalogue, fact) = prepare(alloc, site, text)?;
    Log::make(site, SiteFile::CrmLog, &LOG_HEADER)?;
    make_all_rows(site, catalogue.resources())?;
    begin_journal(alloc, site, &fact)
}
