// The outside rows with their opening amounts.
ghost use Rattle.std.specs.Prelude.{◌≤◌, [], ◌∷◌};
ghost use Rattle.std.specs.List.{flat_map};
ghost use Rattle.qc_creation.specs.Rows.{opening_row, rows_of};
ghost use Rattle.qc_creation.specs.Parts.{MakesRows};

use qc_base::Amount;
use qc_catalogue::Resource;
use qc_site::{Failed, Site};

fn make_row<S: Site>(
    site: &mut S,
    resource: &[u8],
    key: &[u8],
    amount: Amount,
) -> Result<(), Failed>
    ensures { MakesRows S.Site (opening_row resource.now (key.now, amount) ∷ []) result site.old site.new }
{
    site.row_make(resource, key, amount.get())
}

// The rows of one resource.
fn make_rows<S: Site>(site: &mut S, resource: &Resource) -> Result<(), Failed>
    ensures { MakesRows S.Site (rows_of resource.now) result site.old site.new }
{
    for (key, amount) in resource.rows.as_slice() {
        make_row(site, resource.name.as_bytes(), key.as_bytes(), *amount)?;
    }
    Ok(())
}

/// The rows of all resources.
pub(crate) fn make_all_rows<S: Site>(site: &mut S, resources: &[Resource]) -> Result<(), Failed>
    ensures { MakesRows S.Site (flat_map rows_of resources.now) result site.old site.new }
{
    for resource in resources {
        make_rows(site, resource)?;
    }
    Ok(())
}
