// Making a site, which needs nothing of a hub.
ghost use Rattle.qc_creation.specs.Calls.{CreatesSite};

use crate::hub::Hub;
use qc_creation::{CreateError, create};
use qc_site::Site;
use std::alloc::Global;

impl Hub {
    /// Makes a site from the text of a catalogue (docs/RULES.md, "Creation"). A hub can then be opened there.
    ///
    /// `AlreadyMade` comes exactly where the site is made, and `BadCatalogue` exactly where it isn't and the text is no
    /// catalogue, with the first rule that the text breaks; nothing is changed then. `SiteFault` comes only where the
    /// site's count of faults rose. A crash at any moment of the call leaves a site that isn't made, or the whole site.
    pub fn create<S: Site>(alloc: Global, site: &mut S, text: &[u8]) -> Result<(), CreateError>
        ensures { CreatesSite S.Site text.now result site.old site.new }
    {
        create(alloc, site, text)
    }
}
