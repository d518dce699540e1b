// An object that is told of the phases of an attempt.
ghost use Rattle.std.specs.Prelude.{◌≡◌, ◌<◌, [], ◌∷◌, filter_map};
ghost use Rattle.qc_base.specs.declared.log_line.Heard.TheVariants.{BeginPrepare, PrepareRecord, EndPrepare, BeginCommit, CommitRecord, EndCommit, BeginAbort, AbortRecord, EndAbort};
ghost use Rattle.crm_driver.specs.Compensators.{CompensatorState, hears_begin, hears_record, hears_end};
ghost use Rattle.crm_driver.specs.Puts.{MakesPuts};

use qc_base::LogRecord;
use qc_site::{Failed, Site};

/// What is told of the phases of an attempt, for one resource (docs/RULES.md, "Outcome" and "Phase").
///
/// Each call is an entry more of what it heard, also one that fails, and takes one of the calls that it has to spare.
/// Its rules say what it answers and which row it puts, and stay as they are. It makes no other call of the site, and
/// fails only where that put failed. The flag of a begin is true in a recovery.
pub trait Compensator {
    /// What contracts see of it.
    ghost state: { Self → CompensatorState };

    /// The prepare phase begins.
    fn begin_prepare(&mut self)
        requires { 0 < (state self.old).spare }
        ensures { state self.new ≡ hears_begin BeginPrepare (state self.old) };

    /// A record in the prepare phase, and whether it is to be forgotten.
    fn prepare_record(&mut self, rec: &LogRecord) -> bool
        requires { 0 < (state self.old).spare }
        ensures answer { result ≡ (state self.old).rules.forgets rec.now }
        ensures heard { state self.new ≡ hears_record (PrepareRecord rec.now.seq result) rec.now (state self.old) };

    /// The prepare phase ends, and it is ready or not.
    fn end_prepare(&mut self) -> bool
        requires { 0 < (state self.old).spare }
        ensures answer { result ≡ (state self.old).rules.ready (state self.old).delivered }
        ensures heard { state self.new ≡ hears_end (EndPrepare result) (state self.old) };

    /// The commit phase begins.
    fn begin_commit(&mut self, recovery: bool)
        requires { 0 < (state self.old).spare }
        ensures { state self.new ≡ hears_begin (BeginCommit recovery) (state self.old) };

    /// A record in the commit phase.
    fn commit_record<S: Site>(&mut self, site: &mut S, rec: &LogRecord) -> Result<(), Failed>
        requires { 0 < (state self.old).spare }
        ensures heard { state self.new ≡ hears_record (CommitRecord rec.now.seq) rec.now (state self.old) }
        ensures puts { MakesPuts S.Site (filter_map (state self.old).rules.commit_put (rec.now ∷ []))
            result site.old site.new };

    /// The commit phase ends.
    fn end_commit(&mut self)
        requires { 0 < (state self.old).spare }
        ensures { state self.new ≡ hears_end EndCommit (state self.old) };

    /// The abort phase begins.
    fn begin_abort(&mut self, recovery: bool)
        requires { 0 < (state self.old).spare }
        ensures { state self.new ≡ hears_begin (BeginAbort recovery) (state self.old) };

    /// A record in the abort phase.
    fn abort_record<S: Site>(&mut self, site: &mut S, rec: &LogRecord) -> Result<(), Failed>
        requires { 0 < (state self.old).spare }
        ensures heard { state self.new ≡ hears_record (AbortRecord rec.now.seq) rec.now (state self.old) }
        ensures puts { MakesPuts S.Site (filter_map (state self.old).rules.abort_put (rec.now ∷ []))
            result site.old site.new };

    /// The abort phase ends.
    fn end_abort(&mut self)
        requires { 0 < (state self.old).spare }
        ensures { state self.new ≡ hears_end EndAbort (state self.old) };
}
