// The lines that end in the input, one after the other.
ghost use Rattle.std.specs.Prelude.{◌≡◌, ◌≤◌, [], ◌∷◌, ℕ, List, length, IsOk, OnOk, IsErrOf};
ghost use Rattle.qc_protocol.specs.Texts.{pieces_of};
ghost use Rattle.qc_machine.specs.Sites.{IsSiteOf};
ghost use Rattle.qc_machine.specs.State.{State};
ghost use Rattle.qc_hub.specs.Stands.{IsHubOf};
ghost use Rattle.qc_hub.specs.Calls.{IsReady, LeavesStanding};
ghost use Rattle.qc_drill.specs.Calls.{AnswersFrom, AnswersLines, LeavesDrill};
ghost use Rattle.qc_drill.specs.Holds.{Holds, behind};

use crate::answer::{answer_line, reply_line};
use crate::piece::Piece;
use crate::stop::Stop;
use memchr::memchr;
use qc_hub::{Hub, HubError};
use qc_protocol::{Refusal, Reply};
use qc_site::{Sink, Site};
use std::alloc::Global;

/// A drill under way: the hub that answers, and the line that is being read.
#[derive(Drop)]
pub struct Drill {
    pub(crate) hub: Hub,
    pub(crate) piece: Piece,
}

impl Drill {
    // What is written for the line that the piece holds.
    fn text_of_line<S: Site>(&mut self, alloc: Global, site: &mut S) -> Result<Vec<u8>, HubError>
        requires { IsReady S.Site self.old.hub site.old }
        ensures answers { S.told → (s : State) (line : List ℕ) → IsHubOf self.old.hub s
            → IsSiteOf (S.shown site.old) s → Holds self.old.piece line
            → AnswersFrom S.Site s line result site.old self.new.hub site.new }
        ensures leaves { LeavesStanding S.Site (IsErrOf result HubError.SiteFault) self.old.hub site.old self.new.hub
            site.new }
    {
        if self.piece.blank {
            return Ok(Vec::new(alloc));
        }
        if self.piece.long {
            return match reply_line(alloc, &Reply::Refused(Refusal::LineTooLong)) {
                Ok(text) => Ok(text),
                Err(_) => Err(HubError::NoMemory),
            };
        }
        answer_line(alloc, &mut self.hub, site, &self.piece.bytes)
    }

    /// Answers the line that the piece holds, and begins the next.
    pub(crate) fn end_line<S: Site, O: Sink>(
        &mut self,
        alloc: Global,
        site: &mut S,
        sink: &mut O,
    ) -> Result<(), Stop>
        requires { IsReady S.Site self.old.hub site.old }
        ensures answers { (line : List ℕ) → Holds self.old.piece line
            → AnswersLines S.Site (line ∷ []) (IsOk result) self.old.hub site.old (O.contents sink.old) self.new.hub
            site.new (O.contents sink.new) }
        ensures next { OnOk result (Holds self.new.piece []) }
        ensures few_kinds { (¬ IsErrOf result Stop.SourceFault) × (¬ IsErrOf result Stop.InputLong) }
        ensures leaves { LeavesDrill S.Site result self.old.hub site.old (O.faults sink.old) self.new.hub site.new
            (O.faults sink.new) }
    {
        let text = match self.text_of_line(alloc, site) {
            Ok(text) => text,
            Err(HubError::SiteFault) => return Err(Stop::SiteFault),
            Err(HubError::NoMemory) => return Err(Stop::NoMemory),
        };
        self.piece.clear();
        if text.is_empty() {
            return Ok(());
        }
        match sink.write_all(&text) {
            Ok(()) => Ok(()),
            Err(_) => Err(Stop::SinkFault),
        }
    }

    /// More bytes of the input, as many as one read gives: answers the lines that end in them, and keeps what stands
    /// behind the last.
    pub(crate) fn take_bytes<S: Site, O: Sink>(
        &mut self,
        alloc: Global,
        site: &mut S,
        sink: &mut O,
        bytes: &[u8],
    ) -> Result<(), Stop>
        requires ready { IsReady S.Site self.old.hub site.old }
        requires few { length bytes.now ≤ 4096 }
        ensures answers { (line : List ℕ) → Holds self.old.piece line
            → AnswersLines S.Site (behind line (pieces_of bytes.now)).ended (IsOk result) self.old.hub site.old
            (O.contents sink.old) self.new.hub site.new (O.contents sink.new) }
        ensures holds { (line : List ℕ) → Holds self.old.piece line
            → OnOk result (Holds self.new.piece (behind line (pieces_of bytes.now)).rest) }
        ensures few_kinds { (¬ IsErrOf result Stop.SourceFault) × (¬ IsErrOf result Stop.InputLong) }
        ensures leaves { LeavesDrill S.Site result self.old.hub site.old (O.faults sink.old) self.new.hub site.new
            (O.faults sink.new) }
    {
        let mut rest = bytes;
        while let Some(end) = memchr(b'\n', rest) {
            match self.piece.append(&rest[..end]) {
                Ok(()) => {}
                Err(_) => return Err(Stop::NoMemory),
            }
            match self.end_line(alloc, site, sink) {
                Ok(()) => {}
                Err(stop) => return Err(stop),
            }
            rest = &rest[end + 1..];
        }
        match self.piece.append(rest) {
            Ok(()) => Ok(()),
            Err(_) => Err(Stop::NoMemory),
        }
    }
}
