// A phase is delivered to a compensator. No call takes memory.
ghost use Rattle.std.specs.Prelude.{◌≡◌, ◌+◌, ◌≤◌, ◌++◌, length, map, filter, reverse, vec_len, vec_capacity};
ghost use Rattle.qc_base.specs.declared.log_line.LogRecord.{LogRecord};
ghost use Rattle.qc_base.specs.LogLines.{prepare_heard, commit_heard, abort_heard};
ghost use Rattle.crm_driver.specs.Compensators.{hears};
ghost use Rattle.crm_driver.specs.Phases.{Delivers};

use crate::Compensator;
use qc_base::LogRecord;
use qc_site::{Failed, Site};

/// The prepare phase over these records, in written order. The answer is whether the compensator is ready. The numbers
/// of the records that it answers are to be forgotten go to the end of `forget`, in order.
///
/// `forget` has room for all of them, and the compensator for a call for each record and two more.
pub fn prepare<C: Compensator>(comp: &mut C, records: &[LogRecord], forget: &mut Vec<u32>) -> bool
    requires spare { length records.now + 2 ≤ (C.state comp.old).spare }
    requires room { vec_len forget.old + length records.now ≤ vec_capacity forget.old }
    ensures answer { result ≡ (C.state comp.old).rules.ready records.now }
    ensures heard { C.state comp.new ≡ hears
        (prepare_heard (map (C.state comp.old).rules.forgets records.now) result records.now)
        records.now (C.state comp.old) }
    ensures forgets { forget.new.items ≡ forget.old.items
        ++ map (λ (r : LogRecord). r.seq) (filter (C.state comp.old).rules.forgets records.now) }
    ensures capacity { vec_capacity forget.new ≡ vec_capacity forget.old }
{
    comp.begin_prepare();
    for record in records {
        if comp.prepare_record(record) {
            forget.push_reserved(record.seq);
        }
    }
    comp.end_prepare()
}

/// The commit phase over these records, in written order. The flag is true in a recovery.
///
/// The compensator has a call to spare for each record and two more. After Failed, which comes only where the site's
/// count rose, it was told up to the record at which the site failed, that one included.
pub fn commit<C: Compensator, S: Site>(
    comp: &mut C,
    site: &mut S,
    records: &[LogRecord],
    recovery: bool,
) -> Result<(), Failed>
    requires { length records.now + 2 ≤ (C.state comp.old).spare }
    ensures { Delivers S.Site (C.state comp.old).rules.commit_put
        (commit_heard recovery records.now) records.now
        result (C.state comp.old) (C.state comp.new) site.old site.new }
{
    comp.begin_commit(recovery);
    for record in records {
        comp.commit_record(site, record)?;
    }
    comp.end_commit();
    Ok(())
}

/// The abort phase over these records, in reverse order. The flag is true in a recovery.
///
/// The compensator has a call to spare for each record and two more. After Failed, which comes only where the site's
/// count rose, it was told down to the record at which the site failed, that one included.
pub fn abort<C: Compensator, S: Site>(
    comp: &mut C,
    site: &mut S,
    records: &[LogRecord],
    recovery: bool,
) -> Result<(), Failed>
    requires { length records.now + 2 ≤ (C.state comp.old).spare }
    ensures { Delivers S.Site (C.state comp.old).rules.abort_put
        (abort_heard recovery records.now) (reverse records.now)
        result (C.state comp.old) (C.state comp.new) site.old site.new }
{
    comp.begin_abort(recovery);
    for place in (0..records.len()).rev() {
        comp.abort_record(site, &records[place])?;
    }
    comp.end_abort();
    Ok(())
}
