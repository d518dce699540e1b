// Orders on the recorders of clients.
ghost use Rattle.std.specs.Prelude.{◌≡◌};
ghost use Rattle.qc_hub.specs.Calls.{unrecorded, IsReady, CarriesOut, StepsInMemory};
ghost use Rattle.qc_hub.specs.Calls.{opening, calling, committing, cancelling};
ghost use Rattle.qc_machine.specs.Step.{step};

use crate::error::HubError;
use crate::hub::{Hub, later};
use qc_base::Moment;
use qc_protocol::{RawCall, Refusal, Reply};
use qc_recorder::{RecordError, Recorder};
use qc_site::Site;
use std::alloc::Global;

// What is answered where nothing is recorded.
pub(crate) fn unrecorded(error: RecordError) -> Result<Reply, HubError>
    ensures { result ≡ unrecorded error }
{
    match error {
        RecordError::Refused(refusal) => Ok(Reply::Refused(refusal)),
        RecordError::NoMemory => Err(HubError::NoMemory),
    }
}

impl Hub {
    // A client opens a recorder for a component of an application.
    pub(crate) fn open_client(
        &mut self,
        alloc: Global,
        at: Moment,
        client: u64,
        app: &[u8],
        component: &[u8],
    ) -> Result<Reply, HubError>
        ensures { StepsInMemory at (λ s. step s (opening at client app.now component.now)) result self.old self.new }
    {
        self.last = later(at, self.last);
        if let Some(refusal) = self.clients.busy(client) {
            return Ok(Reply::Refused(refusal));
        }
        match Recorder::begin(alloc, self.history.catalogue(), app, component) {
            Ok(recorder) => {
                self.clients.put(client, recorder);
                Ok(Reply::Opened)
            }
            Err(RecordError::Refused(refusal)) => Ok(Reply::Refused(refusal)),
            Err(RecordError::NoMemory) => Err(HubError::NoMemory),
        }
    }

    // A client records one call more.
    pub(crate) fn call_client(
        &mut self,
        alloc: Global,
        at: Moment,
        client: u64,
        call: &RawCall,
    ) -> Result<Reply, HubError>
        ensures { StepsInMemory at (λ s. step s (calling at client call.now)) result self.old self.new }
    {
        self.last = later(at, self.last);
        if let Some(refusal) = self.clients.idle(client) {
            return Ok(Reply::Refused(refusal));
        }
        let Some(mut recorder) = self.clients.take(client) else {
            return Ok(Reply::Refused(Refusal::SlotIdle));
        };
        let added = recorder.add(alloc, self.history.catalogue(), call);
        self.clients.put(client, recorder);
        match added {
            Ok(count) => Ok(Reply::Recorded(count as u64)),
            Err(RecordError::Refused(refusal)) => Ok(Reply::Refused(refusal)),
            Err(RecordError::NoMemory) => Err(HubError::NoMemory),
        }
    }

    // A client drops its recorder with all calls.
    pub(crate) fn cancel_client(&mut self, at: Moment, client: u64) -> Result<Reply, HubError>
        ensures { StepsInMemory at (λ s. step s (cancelling at client)) result self.old self.new }
    {
        self.last = later(at, self.last);
        if let Some(refusal) = self.clients.idle(client) {
            return Ok(Reply::Refused(refusal));
        }
        match self.clients.take(client) {
            Some(recorder) => Ok(Reply::Cancelled(recorder.count() as u64)),
            None => Ok(Reply::Refused(Refusal::SlotIdle)),
        }
    }

    // A client sends what its recorder holds as one message, and the recorder is gone.
    pub(crate) fn commit_client<S: Site>(
        &mut self,
        alloc: Global,
        site: &mut S,
        at: Moment,
        client: u64,
    ) -> Result<Reply, HubError>
        requires { IsReady S.Site self.old site.old }
        ensures { CarriesOut S.Site (committing at client) result self.old site.old self.new site.new }
    {
        self.last = later(at, self.last);
        if let Some(refusal) = self.clients.idle(client) {
            return Ok(Reply::Refused(refusal));
        }
        let Some(recorder) = self.clients.take(client) else {
            return Ok(Reply::Refused(Refusal::SlotIdle));
        };
        if recorder.count() == 0 {
            return Ok(Reply::SentNothing);
        }
        match self.make_room(alloc, &recorder) {
            Ok(None) => self.add_sent(site, recorder.into_recording()),
            Ok(Some(refusal)) => {
                self.clients.put(client, recorder);
                Ok(Reply::Refused(refusal))
            }
            Err(error) => {
                self.clients.put(client, recorder);
                Err(error)
            }
        }
    }
}
