// The calls of a file, as the operating system makes them.
ghost use Rattle.std.specs.Prelude.{◌≡◌, ◌≤◌, ℕ, List, Option, length, IfOk, OnOk};
ghost use Rattle.std.specs.Prelude.{IfSome, IsErr, IsErrOf};
ghost use Rattle.qc_site.specs.Causes.{HasCause};
ghost use Rattle.qc_realsite.specs.Calls.{GivesSome, TakesSome, IsCut, SyncsAll};

use qc_site::Failed;

/// Why a call gave no answer.
#[derive(Clone, Copy, Debug, PartialEq, Eq)]
pub enum CallError {
    /// A signal came before anything was done.
    Interrupted,
    /// The system refused it.
    Failed,
}

impl CallError {
    /// The same again.
    pub fn copy(&self) -> CallError
        ensures { result ≡ self.now }
    {
        *self
    }
}

/// A file of the operating system, by its calls. Each may do less than it was asked for.
///
/// What the file holds is known only where it tells: each clause on bytes holds there. Lengths and places are bytes.
pub trait RawFile {
    /// What a read gives, where it tells.
    ghost holds: { Self → Option (List ℕ) };

    /// What the last sync has made sure of, where it tells.
    ghost synced: { Self → Option (List ℕ) };

    /// How many of its calls gave no answer.
    ghost troubles: { Self → ℕ };

    /// The length.
    fn len(&mut self) -> Result<u64, Failed>
        ensures size { IfOk result (λ n. IfSome (holds self.old) (λ b. n ≡ length b)) }
        ensures same { holds self.new ≡ holds self.old }
        ensures cause { HasCause (troubles self.old) (troubles self.new) (IsErr result) };

    /// Reads some of the bytes from `at` on into the front of `into`, and says how many. None is the end.
    fn read_at(&mut self, into: &mut [u8], at: u64) -> Result<usize, CallError>
        ensures count { IfOk result (λ n. n ≤ length into.old) }
        ensures size { length into.new ≡ length into.old }
        ensures given { IfOk result (λ n. IfSome (holds self.old) (GivesSome at n into.new)) }
        ensures same { holds self.new ≡ holds self.old }
        ensures cause { HasCause (troubles self.old) (troubles self.new) (IsErr result) };

    /// Writes a front of the bytes at this place, and says how many: at least one of several. What is there after a
    /// failure is open; an interrupted call has written nothing.
    fn write_at(&mut self, bytes: &[u8], at: u64) -> Result<usize, CallError>
        ensures count { IfOk result (λ n. (n ≤ length bytes.now) × (n ≡ 0 → length bytes.now ≡ 0)) }
        ensures taken { IfOk result (λ n. IfSome (holds self.old) (TakesSome at n bytes.now (holds self.new))) }
        ensures interrupted { IsErrOf result CallError.Interrupted → holds self.new ≡ holds self.old }
        ensures cause { HasCause (troubles self.old) (troubles self.new) (IsErr result) };

    /// Cuts the file to a length.
    fn set_len(&mut self, len: u64) -> Result<(), Failed>
        ensures cut { OnOk result (IfSome (holds self.old) (IsCut len (holds self.new))) }
        ensures cause { HasCause (troubles self.old) (troubles self.new) (IsErr result) };

    /// Makes sure of what a read gives. After a failure nothing is known of what the file has.
    fn sync(&mut self) -> Result<(), Failed>
        ensures sure { OnOk result (IfSome (holds self.old) (SyncsAll (holds self.new) (synced self.new))) }
        ensures cause { HasCause (troubles self.old) (troubles self.new) (IsErr result) };
}
