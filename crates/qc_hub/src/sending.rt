// Orders that send a message.
ghost use Rattle.qc_hub.specs.Calls.{IsReady, CarriesOut, sending};
ghost use Rattle.qc_hub.specs.Rooms.{MakesRoom};

use crate::error::HubError;
use crate::hub::{Hub, later};
use crate::recording::unrecorded;
use crate::rooms::BESIDE_FACT;
use qc_base::Moment;
use qc_protocol::{RawCall, Refusal, Reply};
use qc_recorder::{Recorder, record_calls};
use qc_site::Site;
use std::alloc::Global;

// What the spelling of a message's fact has beside its recording, in bytes: a kind, an id, a moment, and a length.
const BESIDE_RECORDING: usize = 19;

impl Hub {
    /// Adds one message of these calls, in their order, to the input queue of the application, due at the moment used.
    ///
    /// It is the step of the order `send` with this own moment, and its errors are those of `apply`.
    pub fn send<S: Site>(
        &mut self,
        alloc: Global,
        site: &mut S,
        at: Moment,
        app: &[u8],
        component: &[u8],
        calls: &[RawCall],
    ) -> Result<Reply, HubError>
        requires { IsReady S.Site self.old site.old }
        ensures { CarriesOut S.Site (sending at app.now component.now calls.now) result self.old site.old self.new
            site.new }
    {
        self.last = later(at, self.last);
        let catalogue = self.history.catalogue();
        let recorder = match record_calls(alloc, catalogue, app, component, calls) {
            Ok(recorder) => recorder,
            Err(error) => return unrecorded(error),
        };
        if recorder.count() == 0 {
            return Ok(Reply::SentNothing);
        }
        if let Some(refusal) = self.make_room(alloc, &recorder)? {
            return Ok(Reply::Refused(refusal));
        }
        self.add_sent(site, recorder.into_recording())
    }

    // Takes all memory for a message with this recording, or tells that there are too many messages, or that the
    // journal is full.
    pub(crate) fn make_room(
        &mut self,
        alloc: Global,
        recorder: &Recorder,
    ) -> Result<Option<Refusal>, HubError>
        ensures { MakesRoom recorder.now result self.old self.new }
    {
        let most = u64::from(self.limits.live);
        if self.history.store().live() >= most {
            return Ok(Some(Refusal::TooManyMessages(most)));
        }
        let size = BESIDE_RECORDING + recorder.size();
        if let Some(full) = self.journal_full((BESIDE_FACT + size) as u64) {
            return Ok(Some(full));
        }
        let Ok(()) = self.history.reserve_sent(alloc, recorder.recording()) else {
            return Err(HubError::NoMemory);
        };
        let Ok(()) = self.journal.reserve(alloc, size + 4) else {
            return Err(HubError::NoMemory);
        };
        Ok(None)
    }
}
