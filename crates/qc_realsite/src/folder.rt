// The folder of a site, and the lock on it.
ghost use Rattle.std.specs.Prelude.{◌≡◌};

use crate::OsFile;
use qc_base::NoMemory;
use qc_site::SiteFile;
use std::fs::{File, OpenOptions, TryLockError};
use std::io;
use std::os::fd::AsRawFd;

/// Why a folder, or a file in it, couldn't be opened.
#[derive(Clone, Copy, Debug, PartialEq, Eq)]
pub enum OpenError {
    /// Another process, or another site of this one, has the folder.
    Taken,
    /// The system refused to open, to lock or to sync.
    Failed,
    /// There is no memory for the path.
    NoMemory,
}

impl OpenError {
    /// The same again.
    pub fn copy(&self) -> OpenError
        ensures { result ≡ self.now }
    {
        *self
    }
}

impl From<io::Error> for OpenError {
    fn from(error: io::Error) -> OpenError {
        match error.kind() {
            io::ErrorKind::OutOfMemory => OpenError::NoMemory,
            _ => OpenError::Failed,
        }
    }
}

/// A folder that this process has alone. The lock is the system's, on the folder itself: it is let go where this is
/// dropped, and when the process ends, however it ends.
#[derive(Drop)]
pub struct Folder {
    handle: File,
    path: String,
}

impl Folder {
    /// Locks the folder, which must be there. Nothing in it is changed.
    pub fn lock(rt: &HostRuntime, path: &str) -> Result<Folder, OpenError> {
        let handle = above_standard_streams(open_folder(rt, path)?)?;
        match handle.try_lock() {
            Ok(()) => {}
            Err(TryLockError::WouldBlock) => return Err(OpenError::Taken),
            Err(TryLockError::Error(error)) => return Err(error.into()),
        }
        let Ok(path) = String::from_str(rt.alloc(), path) else {
            return Err(OpenError::NoMemory);
        };
        Ok(Folder { handle, path })
    }

    /// The path of what has this name in the folder.
    pub fn path_of(&self, rt: &HostRuntime, name: &str) -> Result<String, NoMemory> {
        format!(in rt.alloc(); "{}/{name}", self.path.as_str()).map_err(|_| NoMemory)
    }

    /// Opens a file, or makes it, empty. What it has was synced, and the system was advised to forget its own copies.
    /// One that was made is sure only once the folder was synced.
    pub fn open(&self, rt: &HostRuntime, file: SiteFile) -> Result<OsFile, OpenError> {
        let Ok(path) = self.path_of(rt, file.name()) else {
            return Err(OpenError::NoMemory);
        };
        let opened = OpenOptions::new()
            .read(true)
            .write(true)
            .create(true)
            .open(rt, path.as_str())?;
        let file = OsFile::over(above_standard_streams(opened)?);
        file.settle()?;
        Ok(file)
    }

    /// Makes sure that each file that was made is in the folder.
    pub fn sync(&self) -> Result<(), OpenError> {
        self.handle.sync_all()?;
        Ok(())
    }
}

/// A handle on a folder. Behind its path goes `/.`, so that the system refuses all that is none, without waiting for
/// the other end of a pipe.
pub fn open_folder(rt: &HostRuntime, path: &str) -> Result<File, OpenError> {
    if path.is_empty() {
        return Err(OpenError::Failed);
    }
    let Ok(inside) = format!(in rt.alloc(); "{path}/.") else {
        return Err(OpenError::NoMemory);
    };
    Ok(File::open(rt, inside.as_str())?)
}

// What is meant for a standard stream that was closed must not land in a file.
fn above_standard_streams(file: File) -> io::Result<File> {
    if file.as_raw_fd() <= 2 {
        return file.try_clone();
    }
    Ok(file)
}
