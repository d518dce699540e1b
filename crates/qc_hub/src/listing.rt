// What the queues of an application show.
ghost use Rattle.qc_machine.specs.Step.{step};
ghost use Rattle.qc_hub.specs.Calls.{StepsInMemory, listing};

use crate::error::HubError;
use crate::hub::{Hub, later};
use qc_base::Moment;
use qc_protocol::{Refusal, Reply};
use std::alloc::Global;

impl Hub {
    // The listing of an application's queues.
    pub(crate) fn queues(
        &mut self,
        alloc: Global,
        at: Moment,
        app: &[u8],
    ) -> Result<Reply, HubError>
        ensures { StepsInMemory at (λ s. step s (listing at app.now)) result self.old self.new }
    {
        let last = later(at, self.last);
        let Some(app) = self.history.catalogue().app(app) else {
            self.last = last;
            return Ok(Reply::Refused(Refusal::UnknownApp));
        };
        let name = app.name.copy();
        let Ok(list) = self.history.store().list(alloc, name.as_bytes()) else {
            return Err(HubError::NoMemory);
        };
        self.last = last;
        Ok(Reply::Queues(name, list.queues, list.dead, list.consumed))
    }
}
