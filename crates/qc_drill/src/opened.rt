// A drill over a site: it is opened, or it is told why it isn't.
ghost use Rattle.std.specs.Prelude.{◌≡◌, ◌⊎◌, ◌≤◌, IfOk, IfSome};
ghost use Rattle.std.specs.String.{string_bytes};
ghost use Rattle.qc_site.specs.Causes.{HasCause, Rose};
ghost use Rattle.qc_drill.specs.Headline.{Drills};
ghost use Rattle.qc_drill.specs.Unopened.{damage_line, HoldsLine};

use crate::drill::answer_lines;
use qc_base::NoMemory;
use qc_frame::Damage;
use qc_hub::Hub;
use qc_machine::{Limits, OpenError};
use qc_protocol::Status;
use qc_site::{Sink, Site, Source};
use std::alloc::Global;

/// The limits of the programs: 2^40 bytes of a log, and 20,000 messages.
const LIMITS: Limits = Limits {
    log_bytes: 1_099_511_627_776,
    live: 20_000,
};

// The line on damage, with its newline.
fn damage_line(alloc: Global, damage: Damage) -> Result<String, NoMemory>
    ensures { IfOk result (λ line. string_bytes line ≡ damage_line damage) }
{
    let name = damage.file.name();
    let at = damage.at;
    format!(in alloc; "damaged {name} at {at}\n").map_err(|_| NoMemory)
}

// Tells where the files stand for no history.
fn tell_damage<O: Sink>(alloc: Global, sink: &mut O, damage: Damage) -> Status
    ensures line { IfSome (O.contents sink.old) (λ held. HoldsLine held (damage_line damage) result (O.contents
        sink.new)) }
    ensures kinds { (result ≡ Status.Damaged) ⊎ ((result ≡ Status.SinkFault) ⊎ (result ≡ Status.NoMemory)) }
    ensures count { O.faults sink.old ≤ O.faults sink.new }
    ensures fault { result ≡ Status.SinkFault → Rose (O.faults sink.old) (O.faults sink.new) }
{
    let Ok(line) = damage_line(alloc, damage) else {
        return Status::NoMemory;
    };
    match sink.write_all(line.as_bytes()) {
        Ok(()) => Status::Damaged,
        Err(_) => Status::SinkFault,
    }
}

/// Opens the site, reads order lines from the source to its end, and writes the reply line of each.
pub(crate) fn drill<S: Site, I: Source, O: Sink>(
    alloc: Global,
    site: &mut S,
    source: &mut I,
    sink: &mut O,
) -> Status
    ensures drills { Drills S.Site result site.old (I.left source.old) (O.contents sink.old) site.new (I.left
        source.new) (O.contents sink.new) }
    ensures site_cause { HasCause (S.faults site.old) (S.faults site.new) (result ≡ Status.SiteFault) }
    ensures source_cause { HasCause (I.faults source.old) (I.faults source.new) (result ≡ Status.SourceFault) }
    ensures sink_cause { HasCause (O.faults sink.old) (O.faults sink.new) (result ≡ Status.SinkFault) }
{
    let hub = match Hub::open(alloc, site, LIMITS) {
        Ok(hub) => hub,
        Err(OpenError::SiteFault) => return Status::SiteFault,
        Err(OpenError::NotMade) => return Status::NotMade,
        Err(OpenError::NoCatalogue) => return Status::NoCatalogue,
        Err(OpenError::Damaged(damage)) => return tell_damage(alloc, sink, damage),
        Err(OpenError::NoMemory) => return Status::NoMemory,
    };
    match answer_lines(alloc, hub, site, source, sink) {
        Ok(()) => Status::Done,
        Err(stop) => stop.status(),
    }
}
