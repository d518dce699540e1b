// A file that is used whole, and not again after a sync of it failed.
ghost use Rattle.std.specs.Prelude.{◌≡◌, ◌≤◌, ◌+◌, length, IfOk, OnOk, IfSome, IsErr};
ghost use Rattle.qc_site.specs.Causes.{HasCause, Rose};
ghost use Rattle.qc_realsite.specs.Calls.{GivesSome, TakesSome};
ghost use Rattle.qc_realsite.specs.Guards.{GivesAll, IsNew, FindsLength, ReadsAll, WritesAll, CutsTo, MakesSure};

use crate::faults::Faults;
use crate::{CallError, RawFile};
use qc_site::Failed;

/// The most bytes of a file.
pub(crate) const MAX_LENGTH: u64 = 1 << 62;

/// A file of a site. A read gives all that fits and is there, a write writes all its bytes or fails, and a call that a
/// signal interrupts is made again.
///
/// After a sync that failed the system may have dropped what was to be written, and still show it, and a later sync
/// may be Ok. So the file isn't trusted from then on: each call fails, and the file isn't touched.
#[derive(Drop)]
pub(crate) struct Guarded<F> {
    pub(crate) file: F,
    pub(crate) trusted: bool,
    pub(crate) faults: Faults,
}

impl<F> Guarded<F> {
    /// Over this file, which was opened a moment ago.
    pub(crate) fn over(file: F) -> Guarded<F>
        ensures { IsNew file result }
    {
        Guarded {
            file,
            trusted: true,
            faults: Faults::none(),
        }
    }
}

// Reads until a signal doesn't interrupt it.
fn read_some<F: RawFile>(file: &mut F, into: &mut [u8], at: u64) -> Result<usize, Failed>
    ensures count { IfOk result (λ n. n ≤ length into.old) }
    ensures size { length into.new ≡ length into.old }
    ensures given { IfOk result (λ n. IfSome (F.holds file.old) (GivesSome at n into.new)) }
    ensures same { F.holds file.new ≡ F.holds file.old }
    ensures cause { HasCause (F.troubles file.old) (F.troubles file.new) (IsErr result) }
{
    for _ in 0..u64::MAX {
        match file.read_at(into, at) {
            Ok(count) => return Ok(count),
            Err(CallError::Interrupted) => {}
            Err(CallError::Failed) => return Err(Failed),
        }
    }
    Err(Failed)
}

// Writes until a signal doesn't interrupt it.
fn write_some<F: RawFile>(file: &mut F, bytes: &[u8], at: u64) -> Result<usize, Failed>
    ensures count { IfOk result (λ n. (n ≤ length bytes.now) × (n ≡ 0 → length bytes.now ≡ 0)) }
    ensures taken { IfOk result (λ n. IfSome (F.holds file.old) (TakesSome at n bytes.now (F.holds file.new))) }
    ensures cause { HasCause (F.troubles file.old) (F.troubles file.new) (IsErr result) }
{
    for _ in 0..u64::MAX {
        match file.write_at(bytes, at) {
            Ok(count) => return Ok(count),
            Err(CallError::Interrupted) => {}
            Err(CallError::Failed) => return Err(Failed),
        }
    }
    Err(Failed)
}

impl<F: RawFile> Guarded<F> {
    // One failure more.
    fn fail(&mut self) -> Failed
        ensures no_fewer { self.old.faults.count ≤ self.new.faults.count }
        ensures rose { Rose self.old.faults.count self.new.faults.count }
        ensures file { self.new.file ≡ self.old.file }
        ensures trusted { self.new.trusted ≡ self.old.trusted }
    {
        self.faults.one_more()
    }

    /// The length, at most 2^62.
    pub(crate) fn len(&mut self) -> Result<u64, Failed>
        ensures { FindsLength F.RawFile self.old self.new result }
    {
        if !self.trusted {
            return Err(self.fail());
        }
        match self.file.len() {
            Ok(length) if length <= MAX_LENGTH => Ok(length),
            Ok(_) => Err(self.fail()),
            Err(Failed) => Err(self.fail()),
        }
    }

    // Reads until the buffer is full or the file has ended.
    fn read_all(&mut self, at: u64, into: &mut [u8]) -> Result<usize, Failed>
        requires { at ≤ 4611686018427387904 }
        ensures count { IfOk result (λ n. n ≤ length into.old) }
        ensures size { length into.new ≡ length into.old }
        ensures given { IfOk result (λ n. IfSome (F.holds self.old.file) (GivesAll at (length into.old) n into.new)) }
        ensures same { F.holds self.new.file ≡ F.holds self.old.file }
        ensures kept { (self.new.faults ≡ self.old.faults) × (self.new.trusted ≡ self.old.trusted) }
        ensures cause { HasCause (F.troubles self.old.file) (F.troubles self.new.file) (IsErr result) }
    {
        let mut done = 0;
        while done < into.len() {
            let count = read_some(&mut self.file, &mut into[done..], at + done as u64)?;
            if count == 0 {
                return Ok(done);
            }
            done += count;
        }
        Ok(done)
    }

    // Writes until all is written.
    fn write_all(&mut self, at: u64, bytes: &[u8]) -> Result<(), Failed>
        requires { at + length bytes.now ≤ 4611686018427387904 }
        ensures written { OnOk result (IfSome (F.holds self.old.file)
            (TakesSome at (length bytes.now) bytes.now (F.holds self.new.file))) }
        ensures kept { (self.new.faults ≡ self.old.faults) × (self.new.trusted ≡ self.old.trusted) }
        ensures cause { HasCause (F.troubles self.old.file) (F.troubles self.new.file) (IsErr result) }
    {
        let mut done = 0;
        while done < bytes.len() {
            done += write_some(&mut self.file, &bytes[done..], at + done as u64)?;
        }
        Ok(())
    }

    /// The bytes from `at` on, as many as fit and are there, and their number. A file has no byte past 2^62.
    pub(crate) fn read(&mut self, at: u64, into: &mut [u8]) -> Result<usize, Failed>
        ensures { ReadsAll F.RawFile at into.old into.new self.old self.new result }
    {
        if !self.trusted {
            return Err(self.fail());
        }
        match self.read_all(at.min(MAX_LENGTH), into) {
            Ok(count) => Ok(count),
            Err(Failed) => Err(self.fail()),
        }
    }

    /// Writes all the bytes at this place. Past 2^62 bytes it fails. After a failure a part may be written.
    pub(crate) fn write_at(&mut self, at: u64, bytes: &[u8]) -> Result<(), Failed>
        ensures { WritesAll F.RawFile at bytes.now self.old self.new result }
    {
        if !self.trusted || bytes.len() as u64 > MAX_LENGTH {
            return Err(self.fail());
        }
        if at > MAX_LENGTH - bytes.len() as u64 {
            return Err(self.fail());
        }
        match self.write_all(at, bytes) {
            Ok(()) => Ok(()),
            Err(Failed) => Err(self.fail()),
        }
    }

    /// Cuts the file to a length. A length past 2^62 fails.
    pub(crate) fn cut(&mut self, len: u64) -> Result<(), Failed>
        ensures { CutsTo F.RawFile len self.old self.new result }
    {
        if !self.trusted || len > MAX_LENGTH {
            return Err(self.fail());
        }
        match self.file.set_len(len) {
            Ok(()) => Ok(()),
            Err(Failed) => Err(self.fail()),
        }
    }

    /// Makes sure of what a read gives. After a failure the file isn't trusted.
    pub(crate) fn sync(&mut self) -> Result<(), Failed>
        ensures { MakesSure F.RawFile self.old self.new result }
    {
        if !self.trusted {
            return Err(self.fail());
        }
        match self.file.sync() {
            Ok(()) => Ok(()),
            Err(Failed) => {
                self.trusted = false;
                Err(self.fail())
            }
        }
    }
}
