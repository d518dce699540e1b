// Orders that switch an application on or off.
ghost use Rattle.std.specs.Prelude.{◌≡◌};
ghost use Rattle.qc_hub.specs.Calls.{CarriesOut, IsReady, switching};

use crate::error::HubError;
use crate::hub::{Hub, later};
use crate::rooms::BESIDE_FACT;
use qc_base::Moment;
use qc_protocol::{Refusal, Reply};
use qc_site::Site;
use std::alloc::Global;

// What the spelling of a switch has beside the application's name: a byte each for the kind, the name's length and on
// or off, and a moment, in bytes.
const BESIDE_NAME: usize = 11;

impl Hub {
    /// Switches an application on or off. While it is off no message of it is taken (docs/RULES.md, "Switch").
    ///
    /// It is the step of the order `switch` with this own moment, and its errors are those of `apply`.
    pub fn switch_app<S: Site>(
        &mut self,
        alloc: Global,
        site: &mut S,
        at: Moment,
        app: &[u8],
        on: bool,
    ) -> Result<Reply, HubError>
        requires { IsReady S.Site self.old site.old }
        ensures { CarriesOut S.Site (switching at app.now on) result self.old site.old self.new site.new }
    {
        self.last = later(at, self.last);
        let Some(app) = self.history.catalogue().app(app) else {
            return Ok(Reply::Refused(Refusal::UnknownApp));
        };
        let name = app.name;
        let size = BESIDE_NAME + name.as_bytes().len();
        if let Some(full) = self.journal_full((BESIDE_FACT + size) as u64) {
            return Ok(Reply::Refused(full));
        }
        let Ok(()) = self.history.reserve_switch(alloc) else {
            return Err(HubError::NoMemory);
        };
        let Ok(()) = self.journal.reserve(alloc, size + 4) else {
            return Err(HubError::NoMemory);
        };
        self.add_switch(site, name, on)
    }
}
