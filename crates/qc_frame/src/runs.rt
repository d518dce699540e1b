// A log read to its end, and a group more: what is read is what was forced, in order and whole.
ghost use Rattle.std.specs.Prelude.{◌≡◌, ◌<◌, ◌≤◌, ◌+◌, ◌-◌, ◌++◌, ℕ, List, [], ◌∷◌, true, length, take, map, IfOk, OnOk, IsErrOf, All};
ghost use Rattle.std.specs.List.{flat_map};
ghost use Rattle.qc_site.specs.Image.{bytes_of, with_bytes};
ghost use Rattle.qc_site.specs.Disk.{LeavesOnly};
ghost use Rattle.qc_site.specs.Causes.{HasCause};
ghost use Rattle.qc_frame.specs.Frame.{entry, HasHeader};
ghost use Rattle.qc_frame.specs.Log.{CanForce, DamagedBehind};
ghost use Rattle.qc_frame.specs.Calls.{LogStands, ReadsAll, ReadsOn, ReadsBack};

use crate::error::LogError;
use crate::log::{Group, Log};
use qc_base::Word;
use qc_site::Site;
use std::alloc::Global;

/// The groups that are left up to the end, in the order of the file.
///
/// `Damaged` comes exactly where the payload of one of them isn't a list of entries, with the offset in the file of the
/// first entry that doesn't fit. `SiteFault` comes only where the site's count of faults rose, and `NotMade` never.
/// After an error the log is opened again.
pub fn read_to_end<S: Site>(
    alloc: Global,
    log: &mut Log,
    site: &mut S,
) -> Result<Vec<Group>, LogError>
    requires stands { LogStands S.Site log.old site.old }
    ensures all { ReadsAll S.Site result log.old site.old log.new }
    ensures reads { ReadsOn S.Site (DamagedBehind (bytes_of log.old.file (S.shown site.old)) log.old.place)
        result log.old site.old log.new site.new }
{
    let mut read = Vec::new(alloc);
    while let Some(group) = log.next_group(alloc, site)? {
        let Ok(()) = read.push(group) else {
            return Err(LogError::NoMemory);
        };
    }
    Ok(read)
}

/// What is read is what was forced: the entries are made one group of a log that has reached its end, and the file is
/// opened again and read to its end. Read are the groups that the log had, in their order, and this one behind them,
/// each whole.
///
/// The log is one with this header that was opened behind it, and nothing waits in it. There is at least one entry, none is empty, and there is
/// room for them, within 33,554,432 bytes. On `Ok` the log is the one that was opened again, at its end. Where the
/// groups that the log had are lists of entries, an error is `SiteFault`, only where the site's count of faults rose,
/// or want of memory.
pub fn force_and_read<S: Site>(
    alloc: Global,
    log: &mut Log,
    site: &mut S,
    header: &[u8; 16],
    entries: &[Word],
) -> Result<Vec<Group>, LogError>
    requires stands { LogStands S.Site log.old site.old }
    requires header { S.told → HasHeader header.now (bytes_of log.old.file (S.shown site.old)) }
    requires can { CanForce log.old entries.now }
    ensures { ReadsBack S.Site entries.now result log.old site.old log.new site.new }
{
    stage_all(log, entries);
    log.force(site)?;
    let mut again = Log::open(alloc, site, log.file(), header)?;
    let groups = read_to_end(alloc, &mut again, site)?;
    *log = again;
    Ok(groups)
}

// Stages each of the entries.
fn stage_all(log: &mut Log, entries: &[Word])
    requires ended { log.old.ended ≡ true }
    requires some { All (λ e. 1 ≤ length e) entries.now }
    requires room { length (flat_map entry entries.now) ≤ log.old.spare }
    requires fits { length log.old.payload + length (flat_map entry entries.now) ≤ 33554432 }
    ensures { log.new ≡ record log.old { payload = log.old.payload ++ flat_map entry entries.now; spare = log.old.spare - length (flat_map entry entries.now) } }
{
    for bytes in entries {
        log.stage(bytes.as_slice());
    }
}
