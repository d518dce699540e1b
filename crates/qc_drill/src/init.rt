// A site that is made from the catalogue that a source has.
ghost use Rattle.std.specs.Prelude.{◌≡◌, ◌⊎◌, ◌≤◌, ◌<◌, ◌+◌, length, IfOk, IfSome, OnErr, Err, IsErrOf};
ghost use Rattle.qc_site.specs.Causes.{HasCause, Rose};
ghost use Rattle.qc_drill.specs.Inits.{refusal_line, GivesSome, ReadsText, Inits, HoldsRefusal};

use crate::stop::Stop;
use qc_base::NoMemory;
use qc_catalogue::{CatalogueError, print_error};
use qc_hub::{CreateError, Hub, is_made};
use qc_protocol::Status;
use qc_site::{Sink, Site, Source};
use std::alloc::Global;

/// A longer text is no catalogue (docs/FORMATS.md, "Catalogue").
const LONGEST_TEXT: usize = 1_048_576;

const CHUNK: usize = 4096;

// One read of the source, and its bytes behind the text: how many it gave, 0 at the end.
fn read_some<I: Source>(source: &mut I, into: &mut [u8], text: &mut Vec<u8>) -> Result<usize, Stop>
    requires { 0 < length into.old }
    ensures gives { GivesSome (length into.old) result text.old.items (I.left source.old) text.new.items (I.left
        source.new) }
    ensures kinds { OnErr result ((result ≡ Err Stop.SourceFault) ⊎ (result ≡ Err Stop.NoMemory)) }
    ensures cause { HasCause (I.faults source.old) (I.faults source.new) (IsErrOf result Stop.SourceFault) }
{
    let Ok(count) = source.read(into) else {
        return Err(Stop::SourceFault);
    };
    match text.extend_from_slice(&into[..count]) {
        Ok(()) => Ok(count),
        Err(_) => Err(Stop::NoMemory),
    }
}

// How many bytes may be read behind a text of this length: at most as many as one read gives, and one past the longest.
fn room_behind(length: usize) -> usize
    requires { length ≤ 1048576 }
    ensures some { 0 < result }
    ensures one_read { result ≤ 4096 }
    ensures no_more { length + result ≤ 1048577 }
{
    let left = LONGEST_TEXT + 1 - length;
    if left < CHUNK { left } else { CHUNK }
}

// The text that the source has, or its first bytes up to the first past the longest.
fn read_text<I: Source>(alloc: Global, source: &mut I) -> Result<Vec<u8>, Stop>
    ensures reads { ReadsText result (I.left source.old) (I.left source.new) }
    ensures kinds { OnErr result ((result ≡ Err Stop.SourceFault) ⊎ (result ≡ Err Stop.NoMemory)) }
    ensures cause { HasCause (I.faults source.old) (I.faults source.new) (IsErrOf result Stop.SourceFault) }
{
    let mut text = Vec::new(alloc);
    let mut chunk = [0u8; CHUNK];
    while text.len() <= LONGEST_TEXT {
        let room = room_behind(text.len());
        match read_some(source, &mut chunk[..room], &mut text) {
            Ok(0) => return Ok(text),
            Ok(_) => {}
            Err(stop) => return Err(stop),
        }
    }
    Ok(text)
}

// The line on a text that is no catalogue, with its newline.
fn refusal_line(alloc: Global, error: &CatalogueError) -> Result<Vec<u8>, NoMemory>
    ensures { IfOk result (λ v. v.items ≡ refusal_line error.now) }
{
    let text = print_error(alloc, error)?;
    let mut line = Vec::new(alloc);
    line.extend_from_slice(b"bad catalogue: ")
        .map_err(|_| NoMemory)?;
    line.extend_from_slice(text.as_slice())
        .map_err(|_| NoMemory)?;
    line.push(b'\n').map_err(|_| NoMemory)?;
    Ok(line)
}

// Tells which rule the text breaks first.
fn tell_refusal<O: Sink>(alloc: Global, sink: &mut O, error: &CatalogueError) -> Status
    ensures line { IfSome (O.contents sink.old) (λ held. HoldsRefusal held (refusal_line error.now) result (O.contents
        sink.new)) }
    ensures kinds { (result ≡ Status.BadCatalogue) ⊎ ((result ≡ Status.SinkFault) ⊎ (result ≡ Status.NoMemory)) }
    ensures count { O.faults sink.old ≤ O.faults sink.new }
    ensures fault { result ≡ Status.SinkFault → Rose (O.faults sink.old) (O.faults sink.new) }
{
    let Ok(line) = refusal_line(alloc, error) else {
        return Status::NoMemory;
    };
    match sink.write_all(&line) {
        Ok(()) => Status::BadCatalogue,
        Err(_) => Status::SinkFault,
    }
}

/// Makes the site from the text that the source has, or tells why not.
pub(crate) fn init<S: Site, I: Source, O: Sink>(
    alloc: Global,
    site: &mut S,
    source: &mut I,
    sink: &mut O,
) -> Status
    ensures inits { Inits S.Site result site.old (I.left source.old) (O.contents sink.old) site.new (I.left
        source.new) (O.contents sink.new) }
    ensures site_cause { HasCause (S.faults site.old) (S.faults site.new) (result ≡ Status.SiteFault) }
    ensures source_cause { HasCause (I.faults source.old) (I.faults source.new) (result ≡ Status.SourceFault) }
    ensures sink_cause { HasCause (O.faults sink.old) (O.faults sink.new) (result ≡ Status.SinkFault) }
{
    match is_made(site) {
        Ok(true) => return Status::AlreadyMade,
        Ok(false) => {}
        Err(_) => return Status::SiteFault,
    }
    let text = match read_text(alloc, source) {
        Ok(text) => text,
        Err(stop) => return stop.status(),
    };
    match Hub::create(alloc, site, &text) {
        Ok(()) => Status::Done,
        Err(CreateError::SiteFault) => Status::SiteFault,
        Err(CreateError::AlreadyMade) => Status::AlreadyMade,
        Err(CreateError::BadCatalogue(error)) => tell_refusal(alloc, sink, &error),
        Err(CreateError::NoMemory) => Status::NoMemory,
    }
}
