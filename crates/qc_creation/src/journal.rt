// A journal that has one fact.
ghost use Rattle.std.specs.Prelude.{◌≡◌, true};
ghost use Rattle.qc_base.specs.Spelling.{is_fact};
ghost use Rattle.qc_creation.specs.Parts.{unread, OpensEmpty, BeginsJournal};

use crate::error::CreateError;
use qc_base::Fact;
use qc_frame::LogError;
use qc_journal::{Journal, size_of_fact};
use qc_site::Site;
use std::alloc::Global;

// Why a journal that was just made isn't read. Where it doesn't read as it was made, somebody else is making the site.
fn unread(e: LogError) -> CreateError
    ensures { result ≡ unread e }
{
    match e {
        LogError::SiteFault => CreateError::SiteFault,
        LogError::NoMemory => CreateError::NoMemory,
        LogError::NotMade | LogError::Damaged(_) => CreateError::AlreadyMade,
    }
}

// The journal that was just made, at its end, with room for its first fact.
fn open_empty<S: Site>(alloc: Global, site: &mut S, fact: &Fact) -> Result<Journal, CreateError>
    requires { is_fact fact.now ≡ true }
    ensures { OpensEmpty S.Site fact.now result site.old site.new }
{
    let mut journal = match Journal::open(alloc, site) {
        Ok(journal) => journal,
        Err(e) => return Err(unread(e)),
    };
    match journal.next_fact(alloc, site) {
        Ok(None) => {}
        Ok(Some(_)) => return Err(CreateError::AlreadyMade),
        Err(e) => return Err(unread(e)),
    }
    let Ok(()) = journal.reserve(alloc, size_of_fact(fact) + 4) else {
        return Err(CreateError::NoMemory);
    };
    Ok(journal)
}

/// Leaves a journal that has this fact alone. Until the fact is forced the journal has none.
pub(crate) fn begin_journal<S: Site>(
    alloc: Global,
    site: &mut S,
    fact: &Fact,
) -> Result<(), CreateError>
    requires { is_fact fact.now ≡ true }
    ensures { BeginsJournal S.Site fact.now result site.old site.new }
{
    Journal::make(site)?;
    let mut journal = open_empty(alloc, site, fact)?;
    journal.append_forced(site, fact)?;
    Ok(())
}
