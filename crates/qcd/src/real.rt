// Sites as the system has them.
use crate::sites::Sites;
use qc_memsite::MemSite;
use qc_realsite::{Folder, OpenError, RealSite, open_folder};
use qc_sqlite::SqliteKeeper;
use std::fs::File;
use std::os::fd::AsRawFd;

// Makes sites in memory, and opens those in folders. It tells nothing.
#[derive(Drop)]
pub(crate) struct Real<'rt> {
    rt: &'rt HostRuntime,
    // In the places of standard streams that were closed.
    held: Vec<File>,
}

impl<'rt> Real<'rt> {
    pub(crate) fn over(rt: &'rt HostRuntime) -> Real<'rt> {
        Real {
            rt,
            held: Vec::new(rt.alloc()),
        }
    }

    // Takes the numbers of standard streams that were closed. A file of the site that got one would be read and written
    // as that stream; a folder can't be.
    fn hold_streams(&mut self, folder: &str) -> Result<(), OpenError> {
        for _ in 0..3 {
            let handle = open_folder(self.rt, folder)?;
            if handle.as_raw_fd() > 2 {
                return Ok(());
            }
            let Ok(()) = self.held.push(handle) else {
                return Err(OpenError::NoMemory);
            };
        }
        Ok(())
    }
}

impl<'rt> Sites<MemSite, RealSite<SqliteKeeper>> for Real<'rt> {
    ghost makes = { λ before answer after. Unit {0} };

    ghost opens = { λ before path answer after. Unit {0} };

    fn make(&mut self) -> Result<MemSite, OpenError> {
        match MemSite::make(self.rt.alloc()) {
            Ok(site) => Ok(site),
            Err(_) => Err(OpenError::NoMemory),
        }
    }

    // The folder is locked first, so that its database is opened by one process alone.
    fn open(&mut self, folder: &str) -> Result<RealSite<SqliteKeeper>, OpenError> {
        self.hold_streams(folder)?;
        let folder = Folder::lock(self.rt, folder)?;
        let Ok(path) = folder.path_of(self.rt, "outside.db") else {
            return Err(OpenError::NoMemory);
        };
        let Ok(keeper) = SqliteKeeper::open(self.rt, self.rt.alloc(), path.as_str()) else {
            return Err(OpenError::Failed);
        };
        RealSite::open(self.rt, folder, keeper)
    }
}
