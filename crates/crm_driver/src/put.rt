// One put of an outside row.
ghost use Rattle.std.specs.Prelude.{[], ◌∷◌};
ghost use Rattle.crm_driver.specs.Puts.{MakesPuts};
ghost use Rattle.crm_driver.specs.RowRules.{put_of};

use qc_base::{Amount, Name, Text};
use qc_site::{Failed, RowFault, Site};

/// Gives a row of a resource this amount. A row that isn't there, which no honest site of a catalogue lacks, is passed
/// over. `Failed` comes only where the site's count of faults rose.
pub fn put_amount<S: Site>(
    site: &mut S,
    resource: &Name,
    key: &Text,
    amount: Amount,
) -> Result<(), Failed>
    ensures { MakesPuts S.Site (put_of resource.now key.now amount ∷ []) result site.old site.new }
{
    match site.row_put(resource.as_bytes(), key.as_bytes(), amount.get()) {
        Ok(()) => Ok(()),
        Err(RowFault::NoRow) => Ok(()),
        Err(RowFault::Failed) => Err(Failed),
    }
}
