// A file whose calls are counted, and of which some go wrong.
ghost use Rattle.std.specs.Prelude.{◌≡◌, ◌≤◌, ◌+◌, None};
ghost use Rattle.qc_site.specs.Causes.{Rose};

use qc_realsite::{CallError, RawFile};
use qc_site::Failed;

/// The calls of a file.
#[derive(Clone, Copy, Debug, PartialEq, Eq)]
pub enum FileCall {
    Len,
    Read,
    Write,
    Cut,
    Sync,
}

/// How a call goes wrong.
#[derive(Clone, Copy, Debug, PartialEq, Eq)]
pub enum Mishap {
    /// It is refused, and the file isn't asked.
    Fails,
    /// A signal comes before a read or a write has begun. Other calls pass.
    Interrupted,
    /// A read or a write does one byte. Other calls pass.
    Short,
}

/// The nth call of this kind, counted from 1, goes wrong.
#[derive(Clone, Copy, Debug)]
pub struct Trip {
    pub call: FileCall,
    pub nth: u64,
    pub mishap: Mishap,
}

/// How often each call was made.
#[derive(Clone, Copy, Debug, PartialEq, Eq)]
pub struct Made {
    pub len: u64,
    pub read: u64,
    pub write: u64,
    pub cut: u64,
    pub sync: u64,
}

impl Made {
    /// None yet.
    pub fn none() -> Made {
        Made {
            len: 0,
            read: 0,
            write: 0,
            cut: 0,
            sync: 0,
        }
    }

    /// What came since then.
    pub fn since(&self, then: Made) -> Made {
        Made {
            len: self.len.saturating_sub(then.len),
            read: self.read.saturating_sub(then.read),
            write: self.write.saturating_sub(then.write),
            cut: self.cut.saturating_sub(then.cut),
            sync: self.sync.saturating_sub(then.sync),
        }
    }

    // One more of this kind, and how many that makes.
    fn one_more(&mut self, call: FileCall) -> u64 {
        let count = match call {
            FileCall::Len => &mut self.len,
            FileCall::Read => &mut self.read,
            FileCall::Write => &mut self.write,
            FileCall::Cut => &mut self.cut,
            FileCall::Sync => &mut self.sync,
        };
        *count = count.saturating_add(1);
        *count
    }
}

/// A file whose calls are counted, and of which those go wrong that the plan names. It tells nothing of its bytes.
#[derive(Drop)]
pub struct Planned<F> {
    file: F,
    plan: Vec<Trip>,
    made: Made,
    troubles: u64,
}

impl<F> Planned<F> {
    /// Over this file.
    pub fn over(file: F, plan: Vec<Trip>) -> Planned<F> {
        Planned {
            file,
            plan,
            made: Made::none(),
            troubles: 0,
        }
    }

    /// How often each call was made.
    pub fn made(&self) -> Made
        ensures { result ≡ self.now.made }
    {
        self.made
    }

    // Counts the call, and says what goes wrong with it.
    fn note(&mut self, call: FileCall) -> Option<Mishap>
        ensures file { self.new.file ≡ self.old.file }
        ensures troubles { self.new.troubles ≡ self.old.troubles }
    {
        let nth = self.made.one_more(call);
        for trip in self.plan.iter() {
            if trip.call == call && trip.nth == nth {
                return Some(trip.mishap);
            }
        }
        None
    }

    fn trouble(&mut self) -> Failed
        ensures file { self.new.file ≡ self.old.file }
        ensures no_fewer { self.old.troubles ≤ self.new.troubles }
        ensures rose { Rose self.old.troubles self.new.troubles }
    {
        self.troubles = self.troubles.saturating_add(1);
        Failed
    }
}

impl<F: RawFile> RawFile for Planned<F> {
    ghost holds = { λ p. None };

    ghost synced = { λ p. None };

    ghost troubles = { λ p. p.troubles + F.troubles p.file };

    fn len(&mut self) -> Result<u64, Failed> {
        match self.note(FileCall::Len) {
            Some(Mishap::Fails) => Err(self.trouble()),
            _ => self.file.len(),
        }
    }

    fn read_at(&mut self, into: &mut [u8], at: u64) -> Result<usize, CallError> {
        match self.note(FileCall::Read) {
            Some(Mishap::Fails) => {
                let Failed = self.trouble();
                Err(CallError::Failed)
            }
            Some(Mishap::Interrupted) => {
                let Failed = self.trouble();
                Err(CallError::Interrupted)
            }
            Some(Mishap::Short) => {
                let one = into.len().min(1);
                self.file.read_at(&mut into[..one], at)
            }
            None => self.file.read_at(into, at),
        }
    }

    fn write_at(&mut self, bytes: &[u8], at: u64) -> Result<usize, CallError> {
        match self.note(FileCall::Write) {
            Some(Mishap::Fails) => {
                let Failed = self.trouble();
                Err(CallError::Failed)
            }
            Some(Mishap::Interrupted) => {
                let Failed = self.trouble();
                Err(CallError::Interrupted)
            }
            Some(Mishap::Short) => {
                let one = bytes.len().min(1);
                self.file.write_at(&bytes[..one], at)
            }
            None => self.file.write_at(bytes, at),
        }
    }

    fn set_len(&mut self, len: u64) -> Result<(), Failed> {
        match self.note(FileCall::Cut) {
            Some(Mishap::Fails) => Err(self.trouble()),
            _ => self.file.set_len(len),
        }
    }

    fn sync(&mut self) -> Result<(), Failed> {
        match self.note(FileCall::Sync) {
            Some(Mishap::Fails) => Err(self.trouble()),
            _ => self.file.sync(),
        }
    }
}
