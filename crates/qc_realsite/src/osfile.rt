// A file of the operating system.
ghost use Rattle.std.specs.Prelude.{◌≡◌, ◌≤◌, None};
ghost use Rattle.qc_site.specs.Causes.{Rose};

use crate::faults::Faults;
use crate::{CallError, RawFile};
use qc_site::Failed;
use std::fs::File;
use std::io;
use std::io::ErrorKind;
use std::os::fd::AsRawFd;
use std::os::unix::fs::FileExt;

/// A file of the operating system. What it holds isn't told.
///
/// The system's calls on length and sync are made again by std where a signal interrupts them; those that read and
/// write are made again by who asks for them.
#[derive(Drop)]
pub struct OsFile {
    file: File,
    faults: Faults,
}

impl OsFile {
    pub(crate) fn over(file: File) -> OsFile
        ensures { result.faults.count ≡ 0 }
    {
        OsFile {
            file,
            faults: Faults::none(),
        }
    }

    fn trouble(&mut self, error: io::Error) -> CallError
        ensures no_fewer { self.old.faults.count ≤ self.new.faults.count }
        ensures rose { Rose self.old.faults.count self.new.faults.count }
    {
        let Failed = self.faults.one_more();
        match error.kind() {
            ErrorKind::Interrupted => CallError::Interrupted,
            _ => CallError::Failed,
        }
    }

    // Makes sure of what an earlier process left, and has the system forget its own copies of it. A sync that failed
    // there may have left copies that the disk doesn't have, and the next sync doesn't tell.
    pub(crate) fn settle(&self) -> io::Result<()> {
        self.file.sync_all()?;
        let advised = libc::posix_fadvise(self.file.as_raw_fd(), 0, 0, libc::POSIX_FADV_DONTNEED);
        if advised != 0 {
            return Err(io::Error::from_raw_os_error(advised));
        }
        Ok(())
    }
}

impl RawFile for OsFile {
    ghost holds = { λ f. None };

    ghost synced = { λ f. None };

    ghost troubles = { λ f. f.faults.count };

    fn len(&mut self) -> Result<u64, Failed> {
        match self.file.metadata() {
            Ok(found) => Ok(found.len()),
            Err(_) => Err(self.faults.one_more()),
        }
    }

    fn read_at(&mut self, into: &mut [u8], at: u64) -> Result<usize, CallError> {
        match self.file.read_at(into, at) {
            Ok(count) => Ok(count),
            Err(error) => Err(self.trouble(error)),
        }
    }

    fn write_at(&mut self, bytes: &[u8], at: u64) -> Result<usize, CallError> {
        match self.file.write_at(bytes, at) {
            Ok(0) if !bytes.is_empty() => Err(self.trouble(ErrorKind::WriteZero.into())),
            Ok(count) => Ok(count),
            Err(error) => Err(self.trouble(error)),
        }
    }

    fn set_len(&mut self, len: u64) -> Result<(), Failed> {
        match self.file.set_len(len) {
            Ok(()) => Ok(()),
            Err(_) => Err(self.faults.one_more()),
        }
    }

    fn sync(&mut self) -> Result<(), Failed> {
        match self.file.sync_data() {
            Ok(()) => Ok(()),
            Err(_) => Err(self.faults.one_more()),
        }
    }
}
