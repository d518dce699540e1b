// What starts threads.
ghost use Rattle.std.specs.Prelude.{ℕ, IsErr};
ghost use Rattle.qc_site.specs.Causes.{HasCause};

use crate::Failed;

/// What a thread is to do.
pub trait Job {
    /// Does it.
    fn go(self);
}

/// What starts threads, each with a job of its own. The job's type is the trait's, and not the method's, since no
/// implementation of a method with a `'static` type parameter can be proved today.
pub trait Spawner<J: Job + Send + Drop + 'static> {
    /// How often it has failed.
    ghost faults: { Self → ℕ };

    /// Starts the job. After a failure the job was dropped and never runs.
    fn start(&mut self, job: J) -> Result<(), Failed>
        ensures { HasCause (faults self.old) (faults self.new) (IsErr result) };
}
