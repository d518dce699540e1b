// A site is read, and then its unfinished attempts are finished.
ghost use Rattle.std.specs.Prelude.{◌≡◌};
ghost use Rattle.qc_recovery.specs.Calls.{ReadsSite, Recovers};

use crate::errors::finish_error;
use crate::laws::a_recovery_keeps_the_history;
use crate::numbers::greatest_in;
use crate::parts::Parts;
use crate::reading::Reading;
use crm_recovery::{each_catalogue_can_be_finished, finish_all, nothing_is_left_to_finish};
use qc_machine::OpenError;
use qc_site::Site;
use std::alloc::Global;

// Reads both logs to their ends, the journal first.
fn read<S: Site>(alloc: Global, site: &mut S) -> Result<Reading, OpenError>
    ensures { ReadsSite S.Site result site.old site.new }
{
    let mut reading = Reading::begin(alloc, site)?;
    reading.read_facts(alloc, site)?;
    if reading.history.facts() == 0 {
        return Err(OpenError::NoCatalogue);
    }
    reading.read_log(alloc, site)?;
    Ok(reading)
}

/// Opens a site whole (docs/RULES.md, "Opening" and "Recovery"): reads its logs, the journal first, closes their end
/// gates where those aren't 0, and finishes each attempt that the log of compensations leaves unfinished.
///
/// Beside `SiteFault` and `NoMemory`, `NotMade` comes exactly where one of the logs hasn't its header, which is looked
/// at before any group, and `NoCatalogue` exactly where both have and the journal has no open group. `Damaged` comes
/// exactly where the journal's groups go on as no history does, or else where the log's entries go on as no log beside
/// that history does, and tells the first entry that doesn't fit. Until the reading has ended nothing is written but
/// the end gates.
///
/// Where each image of the site stands for a history, a crash at any moment leaves an image that stands for that of one
/// of them. So a recovery may be stopped, and made again, any number of times. After `Ok` each image is recovered.
///
/// `SiteFault` comes only where the site's count of faults rose. After it, and after want of memory, the site is
/// recovered anew: no attempt whose line Done stands is told again.
pub fn recover<S: Site>(alloc: Global, site: &mut S) -> Result<Parts, OpenError>
    ensures { Recovers S.Site result site.old site.new }
{
    each_catalogue_can_be_finished();
    nothing_is_left_to_finish();
    a_recovery_keeps_the_history();
    let mut reading = read(alloc, site)?;
    let recovered = match finish_all(
        alloc,
        &mut reading.log,
        site,
        reading.history.catalogue(),
        reading.ended.as_slice(),
        reading.lines.as_slice(),
    ) {
        Ok(recovered) => recovered,
        Err(error) => return Err(finish_error(error)),
    };
    let attempt = greatest_in(reading.lines.as_slice(), reading.history.attempt());
    Ok(Parts {
        journal: reading.journal,
        log: reading.log,
        history: reading.history,
        attempt,
        recovered,
    })
}
