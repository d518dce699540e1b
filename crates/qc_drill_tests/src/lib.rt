//! Worked drills over a site in memory: what is written, the bytes of the journal, each fault, and each image where the
//! site stops in a send.
//!
//! The functions here are what the tests do. A drill is given its words, its input and the calls that are to fail.
#![tactic(auto)]

ghost use Rattle.std.specs.Prelude.{◌≡◌, ◌∷◌, [], IfOk};
ghost use Rattle.std.specs.List.{flat_map};
ghost use Rattle.qc_base.specs.declared.fact.Fact.TheVariants.{Catalogue as InForce};
ghost use Rattle.qc_memsite.specs.Shown.{shown_by};
ghost use Rattle.qc_catalogue.specs.Sample.{sample as sample_text};
ghost use Rattle.qc_machine.specs.History.{by_text};
ghost use Rattle.qc_machine.specs.Sites.{StandsFor};

use qc_base::NoMemory;
use qc_catalogue::sample;
use qc_drill::run;
use qc_hub::{CreateError, Hub};
use qc_memsite::{CallKind, MemSink, MemSite, MemSource, Trip};
use qc_protocol::Status;
use qc_site::SiteFile;
use std::alloc::Global;

/// The file of the journal.
pub const FILE: SiteFile = SiteFile::Journal;

/// The file of the log of compensations.
pub const LOG: SiteFile = SiteFile::CrmLog;

/// What is to fail in a drill, by the numbers of the calls from 1. 0 fails none.
#[derive(Clone, Copy, Debug)]
pub struct Failing {
    /// The read of the source.
    pub read: u32,
    /// The write of the sink.
    pub write: u32,
}

/// Nothing fails.
pub const NOTHING: Failing = Failing { read: 0, write: 0 };

/// The status by which a command ends that can't make a site.
pub fn status_of(error: &CreateError) -> Status {
    match error {
        CreateError::SiteFault => Status::SiteFault,
        CreateError::AlreadyMade => Status::AlreadyMade,
        CreateError::BadCatalogue(_) => Status::BadCatalogue,
        CreateError::NoMemory => Status::NoMemory,
    }
}

/// A site that was made from the sample catalogue. The error is a fault of the site or want of memory.
pub fn new_site(alloc: Global) -> Result<MemSite, Status>
    ensures { IfOk result (λ site. StandsFor by_text (shown_by site.kept) (InForce sample_text ∷ [])) }
{
    let mut site = MemSite::make(alloc).map_err(|_| Status::NoMemory)?;
    match Hub::create(alloc, &mut site, sample().as_bytes()) {
        Ok(()) => Ok(site),
        Err(error) => Err(status_of(&error)),
    }
}

/// Words of a command line. The error is want of memory.
pub fn words_of(alloc: Global, words: &[&str]) -> Result<Vec<String>, NoMemory> {
    let mut all = Vec::new(alloc);
    for word in words {
        let word = String::from_str(alloc, word).map_err(|_| NoMemory)?;
        all.push(word).map_err(|_| NoMemory)?;
    }
    Ok(all)
}

/// The parts one behind the other.
pub fn joined(alloc: Global, parts: &[&[u8]]) -> Result<Vec<u8>, NoMemory>
    ensures { IfOk result (λ v. v.items ≡ flat_map (λ part. part.now) parts.now) }
{
    let mut all = Vec::new(alloc);
    for part in parts {
        all.extend_from_slice(part).map_err(|_| NoMemory)?;
    }
    Ok(all)
}

/// A plan of one call, from which on all calls fail where it is a stop.
pub fn trip(alloc: Global, kind: CallKind, nth: u32, stop: bool) -> Result<Vec<Trip>, NoMemory> {
    let mut plan = Vec::new(alloc);
    plan.push(Trip { kind, nth, stop }).map_err(|_| NoMemory)?;
    Ok(plan)
}

fn numbers(alloc: Global, nth: u32) -> Result<Vec<u32>, NoMemory> {
    let mut plan = Vec::new(alloc);
    plan.push(nth).map_err(|_| NoMemory)?;
    Ok(plan)
}

/// Carries out these words over this input: how it ended, and the sink.
pub fn run_words(
    alloc: Global,
    site: &mut MemSite,
    words: &[&str],
    input: Vec<u8>,
    failing: Failing,
) -> Result<(Status, MemSink), NoMemory> {
    let words = words_of(alloc, words)?;
    let mut source = MemSource::over(input, numbers(alloc, failing.read)?);
    let mut sink = MemSink::make(alloc, numbers(alloc, failing.write)?)?;
    let status = run(alloc, &words, site, &mut source, &mut sink);
    Ok((status, sink))
}

/// A drill of these pieces of input, one behind the other, in which neither stream fails.
pub fn drill(
    alloc: Global,
    site: &mut MemSite,
    input: &[&[u8]],
) -> Result<(Status, MemSink), NoMemory> {
    run_words(alloc, site, &["drill"], joined(alloc, input)?, NOTHING)
}

/// What is written where the journal is damaged at this entry. The error is want of memory.
pub fn damaged_at(alloc: Global, at: u64) -> Result<String, NoMemory> {
    format!(in alloc; "damaged journal at {at}\n").map_err(|_| NoMemory)
}

mod memory;

pub use memory::drill_in_memory;

#[cfg(test)]
mod creation;
#[cfg(test)]
mod faults;
#[cfg(test)]
mod inits;
#[cfg(test)]
mod limits;
#[cfg(test)]
mod outside;
#[cfg(test)]
mod recording;
#[cfg(test)]
mod replies;
#[cfg(test)]
mod room;
#[cfg(test)]
mod texts;
