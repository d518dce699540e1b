// A source read to its end, and the replies to its lines.
ghost use Rattle.std.specs.Prelude.{◌≡◌, ◌≤◌, [], ◌∷◌, ℕ, List, IfOk, IsOk, IsErrOf};
ghost use Rattle.qc_protocol.specs.Texts.{unended_line};
ghost use Rattle.qc_site.specs.Causes.{HasCause};
ghost use Rattle.qc_hub.specs.Calls.{IsReady};
ghost use Rattle.qc_drill.specs.Calls.{AnswersLines, LeavesDrill, ReadsSome, ReadsAll};
ghost use Rattle.qc_drill.specs.Holds.{Holds};

use crate::piece::Piece;
use crate::stop::Stop;
use crate::turn::Drill;
use qc_hub::Hub;
use qc_site::{Sink, Site, Source};
use std::alloc::Global;

/// At the most so many bytes of the source are read as lines (docs/FORMATS.md, "Lines").
const MOST_INPUT: u64 = 4_294_967_296;

const CHUNK: usize = 4096;

impl Drill {
    // One read of the source, and the lines that end in what it gave: how many bytes it gave, 0 at the end.
    fn take_some<S: Site, I: Source, O: Sink>(
        &mut self,
        alloc: Global,
        site: &mut S,
        source: &mut I,
        sink: &mut O,
        more: u64,
    ) -> Result<u64, Stop>
        requires { IsReady S.Site self.old.hub site.old }
        ensures reads { (line : List ℕ) → Holds self.old.piece line
            → ReadsSome S.Site line more result self.old.hub site.old (I.left source.old) (O.contents sink.old)
            self.new.hub self.new.piece site.new (I.left source.new) (O.contents sink.new) }
        ensures count { IfOk result (λ n. n ≤ more) }
        ensures leaves { LeavesDrill S.Site result self.old.hub site.old (O.faults sink.old) self.new.hub site.new
            (O.faults sink.new) }
        ensures source_cause { HasCause (I.faults source.old) (I.faults source.new) (IsErrOf result Stop.SourceFault) }
    {
        let mut chunk = [0u8; CHUNK];
        let Ok(count) = source.read(&mut chunk) else {
            return Err(Stop::SourceFault);
        };
        if count as u64 > more {
            return match self.take_bytes(alloc, site, sink, &chunk[..more as usize]) {
                Ok(()) => Err(Stop::InputLong),
                Err(stop) => Err(stop),
            };
        }
        match self.take_bytes(alloc, site, sink, &chunk[..count]) {
            Ok(()) => Ok(count as u64),
            Err(stop) => Err(stop),
        }
    }

    // The last line, where no newline ends it.
    fn finish<S: Site, O: Sink>(
        &mut self,
        alloc: Global,
        site: &mut S,
        sink: &mut O,
    ) -> Result<(), Stop>
        requires { IsReady S.Site self.old.hub site.old }
        ensures answers { (line : List ℕ) → Holds self.old.piece line
            → AnswersLines S.Site (unended_line line) (IsOk result) self.old.hub site.old (O.contents sink.old)
            self.new.hub site.new (O.contents sink.new) }
        ensures few_kinds { (¬ IsErrOf result Stop.SourceFault) × (¬ IsErrOf result Stop.InputLong) }
        ensures leaves { LeavesDrill S.Site result self.old.hub site.old (O.faults sink.old) self.new.hub site.new
            (O.faults sink.new) }
    {
        if self.piece.is_empty() {
            return Ok(());
        }
        self.end_line(alloc, site, sink)
    }

    // Reads order lines to the source's end, and writes a reply line for each.
    fn answer_all<S: Site, I: Source, O: Sink>(
        &mut self,
        alloc: Global,
        site: &mut S,
        source: &mut I,
        sink: &mut O,
    ) -> Result<(), Stop>
        requires ready { IsReady S.Site self.old.hub site.old }
        requires start { Holds self.old.piece [] }
        ensures reads { ReadsAll S.Site result self.old.hub site.old (I.left source.old) (O.contents sink.old)
            self.new.hub site.new (I.left source.new) (O.contents sink.new) }
        ensures leaves { LeavesDrill S.Site result self.old.hub site.old (O.faults sink.old) self.new.hub site.new
            (O.faults sink.new) }
        ensures source_cause { HasCause (I.faults source.old) (I.faults source.new) (IsErrOf result Stop.SourceFault) }
    {
        let mut more = MOST_INPUT;
        loop {
            match self.take_some(alloc, site, source, sink, more) {
                Ok(0) => return self.finish(alloc, site, sink),
                Ok(count) => more -= count,
                Err(stop) => return Err(stop),
            }
        }
    }
}

/// Answers the lines of a source by a hub.
pub(crate) fn answer_lines<S: Site, I: Source, O: Sink>(
    alloc: Global,
    hub: Hub,
    site: &mut S,
    source: &mut I,
    sink: &mut O,
) -> Result<(), Stop>
    requires { IsReady S.Site hub site.old }
    ensures reads { (new : Hub) × ReadsAll S.Site result hub site.old (I.left source.old) (O.contents sink.old) new
        site.new (I.left source.new) (O.contents sink.new) }
    ensures site_cause { HasCause (S.faults site.old) (S.faults site.new) (IsErrOf result Stop.SiteFault) }
    ensures source_cause { HasCause (I.faults source.old) (I.faults source.new) (IsErrOf result Stop.SourceFault) }
    ensures sink_cause { HasCause (O.faults sink.old) (O.faults sink.new) (IsErrOf result Stop.SinkFault) }
{
    let piece = Piece::start(alloc);
    let mut drill = Drill { hub, piece };
    drill.answer_all(alloc, site, source, sink)
}
