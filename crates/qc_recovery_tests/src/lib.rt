//! A recovery over a site in memory that was made from the sample catalogue: what is told and put, which errors come
//! first, and what is recovered of an image where the site stopped in the midst of one.
//!
//! The functions here put facts and lines behind those of a site. They are proved over each site.
#![tactic(auto)]

ghost use Rattle.std.specs.Prelude.{◌≡◌, true};
ghost use Rattle.qc_base.specs.Spelling.{is_fact, is_line};

use crm_log::size_of_line;
use crm_log_tests::log_at_end;
use qc_base::{Fact, LogLine};
use qc_frame::LogError;
use qc_frame_tests::{append, journal_at_end};
use qc_site::Site;
use std::alloc::Global;

/// Adds a fact to the journal of a site.
pub fn add_fact<S: Site>(alloc: Global, site: &mut S, fact: &Fact) -> Result<(), LogError>
    requires { is_fact fact.now ≡ true }
{
    let (mut journal, _) = journal_at_end(alloc, site)?;
    append(alloc, &mut journal, site, fact)
}

/// Adds a line to the log of compensations of a site, as a group of its own.
pub fn add_line<S: Site>(alloc: Global, site: &mut S, line: &LogLine) -> Result<(), LogError>
    requires { is_line line.now ≡ true }
{
    let (mut log, _) = log_at_end(alloc, site)?;
    log.reserve(alloc, size_of_line(line) + 4)?;
    log.stage_line(line);
    log.force(site)?;
    Ok(())
}

#[cfg(test)]
mod tests;
