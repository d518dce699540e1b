// The calls of an attempt, one after another.
ghost use Rattle.std.specs.Prelude.{◌≡◌, ◌⊎◌, drop};
ghost use Rattle.qc_base.specs.declared.log_line.Stage.TheVariants.{Ready as ready_stage, Failing as failing_stage};
ghost use Rattle.qc_txn.specs.Attempt.{PlaysBy, stage_after};
ghost use Rattle.qc_txn.specs.Ends.{PlaysAll};
ghost use Rattle.qc_txn.specs.Parts.{parts_of};

use crate::attempt::Attempt;
use qc_base::Stage;
use qc_catalogue::Catalogue;

impl Attempt {
    /// Runs the calls that are left by the catalogue that it plays by, up to the first that fails. No call has failed
    /// yet, and the end isn't decided. This takes no memory.
    pub fn run_left(&mut self, catalogue: &Catalogue)
        requires goes_on { self.old.stage ≡ stage_after self.old.calls self.old.count }
        requires plays { PlaysBy catalogue.now self.old }
        ensures ran { PlaysAll (drop self.old.calls (parts_of catalogue.now self.old.recording self.old.kind)) self.old self.new }
        ensures ended { (self.new.stage ≡ ready_stage) ⊎ (self.new.stage ≡ failing_stage) }
        ensures plays { PlaysBy catalogue.now self.new }
    {
        while matches!(self.stage(), Stage::Calls) {
            match self.run_next(catalogue) {
                Ok(_) => {}
                Err(_) => return,
            }
        }
    }
}
