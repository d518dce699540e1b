// The recorder of one activation.
ghost use Rattle.std.specs.Prelude.{◌≡◌, ◌≢◌, ◌≤◌, length, true, IfOk, IfErr, OnOk, OnErr, MatchOption};
ghost use Rattle.qc_base.specs.Spelling.{SpellsRecording, is_recording, spelled_recording};
ghost use Rattle.qc_base.specs.declared.recording.Recording.{Recording};
ghost use Rattle.qc_recorder.specs.Answers.{Tells, IsRefusalOf};
ghost use Rattle.qc_recorder.specs.Recording.{no_calls, begun, called, recorded};

use crate::calls::{call_size, take_call, with_call};
use crate::error::RecordError;
use crate::fitting::method_for;
use qc_base::{Calls, Name, NoMemory, Recording, put_recording, read_recording};
use qc_catalogue::Catalogue;
use qc_protocol::{RawCall, Refusal};
use std::alloc::Global;
use std::marker::Model;

const MOST_CALLS: usize = 64;

const MOST_BYTES: usize = 16_384;

/// The calls of one activation so far, in the order in which they were made (docs/RULES.md, "Recording"). Contracts
/// see the recording of these calls. The length of its spelling is kept beside it.
#[derive(Debug, Drop)]
pub struct Recorder {
    recording: Recording,
    size: usize,
}

impl Model for Recorder {
    ghost use Rattle.std.specs.Prelude.{◌≡◌, length};
    ghost use Rattle.qc_base.specs.Spelling.{spelled_recording};
    ghost use Rattle.qc_base.specs.declared.recording.Recording.{Recording};
    ghost use Rattle.qc_recorder.specs.Recording.{IsWithin};

    ghost Value = { Recording };

    ghost view = { λ r. r.recording };

    ghost invariant = { λ r. IsWithin r.recording × (r.size ≡ length (spelled_recording r.recording)) };
}

impl Recorder {
    /// A recorder without calls, for a component of an application.
    ///
    /// It is refused with `UnknownApp` where the catalogue has no such application, and with `UnknownComponent` where
    /// that one has no such component (docs/RULES.md, "Refusals"). The other error is want of memory.
    pub fn begin(
        alloc: Global,
        catalogue: &Catalogue,
        app: &[u8],
        component: &[u8],
    ) -> Result<Recorder, RecordError>
        ensures { Tells result (begun catalogue.now app.now component.now) }
    {
        let Some(app) = catalogue.app(app) else {
            return Err(RecordError::Refused(Refusal::UnknownApp));
        };
        let Some(component) = app.component(component) else {
            return Err(RecordError::Refused(Refusal::UnknownComponent));
        };
        Ok(empty(alloc, &app.name, &component.name))
    }

    /// Records one call more, and answers how many are held now.
    ///
    /// The first of these that applies refuses it (docs/RULES.md, "Refusals"): `UnknownMethod`, `BadArguments` with the
    /// place of the first argument at fault, `TooManyCalls` where 64 are held, and `TooLong` with the length in bytes
    /// that the spelling would have, where that is over 16,384. Calls and places count from 1. The other error is want
    /// of memory. After an error the recorder is as it was.
    pub fn add(
        &mut self,
        alloc: Global,
        catalogue: &Catalogue,
        call: &RawCall,
    ) -> Result<u8, RecordError>
        ensures recorded { OnOk result (called catalogue.now self.old call.now ≡ Ok self.new) }
        ensures count { IfOk result (λ count. count ≡ length self.new.calls) }
        ensures refused { IfErr result (IsRefusalOf (called catalogue.now self.old call.now)) }
        ensures unchanged { OnErr result (self.new ≡ self.old) }
    {
        let held = self.recording.calls.as_slice().len();
        let method = method_for(catalogue, &self.recording, call.method.as_slice());
        let call = match take_call(alloc, method, held as u64 + 1, call.args.as_slice()) {
            Ok(call) => call,
            Err(error) => return Err(error),
        };
        if held >= MOST_CALLS {
            return Err(RecordError::Refused(Refusal::TooManyCalls));
        }
        let size = self.size + call_size(&call);
        if size > MOST_BYTES {
            return Err(RecordError::Refused(Refusal::TooLong(size as u64)));
        }
        let Ok(calls) = with_call(alloc, self.recording.calls.as_slice(), call) else {
            return Err(RecordError::NoMemory);
        };
        self.recording.calls = calls;
        self.size = size;
        Ok(held as u8 + 1)
    }

    /// How many calls are held, 0 to 64.
    pub fn count(&self) -> u8
        ensures { result ≡ length self.now.calls }
    {
        self.recording.calls.as_slice().len() as u8
    }

    /// The length of the recording's spelling in bytes, at most 16,384 (docs/FORMATS.md, "Recording"). It is kept with
    /// the calls, so this looks at none of them.
    pub fn size(&self) -> usize
        ensures value { result ≡ length (spelled_recording self.now) }
        ensures bound { result ≤ 16384 }
    {
        self.size
    }

    /// The recording with the calls that are held so far.
    pub fn recording(&self) -> &Recording
        ensures value { result.now ≡ self.now }
        ensures limits { 1 ≤ length self.now.calls → is_recording self.now ≡ true }
    {
        &self.recording
    }

    /// The recording itself. This takes no memory.
    pub fn into_recording(self) -> Recording
        ensures value { result ≡ self }
        ensures limits { 1 ≤ length self.calls → is_recording self ≡ true }
    {
        self.recording
    }

    /// The recording and its spelling (docs/FORMATS.md, "Recording"), where a call is held. Where memory is wanting, the
    /// recorder comes back as it was.
    pub fn pack(self, alloc: Global) -> Result<(Recording, Vec<u8>), Recorder>
        requires { 1 ≤ length self.calls }
        ensures packed { IfOk result (λ p. (p.0 ≡ self) × SpellsRecording p.1.items self) }
        ensures handed_back { IfErr result (λ r. r ≡ self) }
    {
        let Ok(mut bytes) = Vec::with_capacity(alloc, self.size) else {
            return Err(self);
        };
        put_recording(&mut bytes, &self.recording);
        Ok((self.recording, bytes))
    }
}

fn empty(alloc: Global, app: &Name, component: &Name) -> Recorder
    ensures { result ≡ no_calls app.now component.now }
{
    Recorder {
        recording: Recording {
            app: *app,
            component: *component,
            calls: Calls::over(Vec::new(alloc)),
        },
        size: 3 + app.as_bytes().len() + component.as_bytes().len(),
    }
}

/// Records a whole list of calls on a component of an application, as `Recorder::begin` and then `Recorder::add` for
/// each call would: the first call that is refused refuses the list. The other error is want of memory.
pub fn record_calls(
    alloc: Global,
    catalogue: &Catalogue,
    app: &[u8],
    component: &[u8],
    calls: &[RawCall],
) -> Result<Recorder, RecordError>
    ensures { Tells result (recorded catalogue.now app.now component.now calls.now) }
{
    let mut recorder = match Recorder::begin(alloc, catalogue, app, component) {
        Ok(recorder) => recorder,
        Err(error) => return Err(error),
    };
    for call in calls {
        match recorder.add(alloc, catalogue, call) {
            Ok(_) => {}
            Err(error) => return Err(error),
        }
    }
    Ok(recorder)
}

/// The recording that these bytes spell (docs/FORMATS.md, "Recording"). None exactly where they are no recording's
/// spelling, or have more bytes behind it. The error is want of memory.
pub fn unpack(alloc: Global, bytes: &[u8]) -> Result<Option<Recording>, NoMemory>
    ensures { IfOk result (λ found. MatchOption found ((r : Recording) → SpellsRecording bytes.now r → ⊥) (λ r. SpellsRecording bytes.now r)) }
{
    let Some((recording, size)) = read_recording(alloc, bytes)? else {
        return Ok(None);
    };
    if size < bytes.len() {
        return Ok(None);
    }
    Ok(Some(recording))
}
