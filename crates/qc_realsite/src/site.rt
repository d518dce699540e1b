// A site over three files and a keeper of rows.
ghost use Rattle.std.specs.Prelude.{◌≡◌, ◌≤◌, ◌+◌, [], length, None, Some, true, IfOk, OnOk, IsErr, IsErrOf};
ghost use Rattle.qc_realsite.specs.Guards.{IsNew, FindsLength, ReadsAll, WritesAll, CutsTo, MakesSure};
ghost use Rattle.qc_realsite.specs.Sites.{guarded_of, OnFile, faults_of, FailsBy, MakesRow, FindsRow, PutsRow};

use crate::guarded::Guarded;
use crate::{Folder, OpenError, OsFile, RawFile};
use qc_site::{Failed, Keeper, RowFault, Site, SiteFile};

/// A site over three files and a keeper of rows. It tells nothing of what they hold.
///
/// A file that failed to sync is not used again: each later call on it fails. Whoever goes on opens the folder anew.
#[derive(Drop)]
pub struct FileSite<F, K> {
    journal: Guarded<F>,
    crm_log: Guarded<F>,
    snap: Guarded<F>,
    keeper: K,
    // Kept for its lock.
    folder: Option<Folder>,
}

/// A site in a folder.
pub type RealSite<K> = FileSite<OsFile, K>;

impl<F, K> FileSite<F, K> {
    /// Over these files and rows.
    pub fn over(journal: F, crm_log: F, snap: F, keeper: K) -> FileSite<F, K>
        ensures journal { IsNew journal result.journal }
        ensures crm_log { IsNew crm_log result.crm_log }
        ensures snap { IsNew snap result.snap }
        ensures keeper { result.keeper ≡ keeper }
    {
        FileSite {
            journal: Guarded::over(journal),
            crm_log: Guarded::over(crm_log),
            snap: Guarded::over(snap),
            keeper,
            folder: None,
        }
    }

    /// The file itself, for who counts its calls.
    pub fn file(&self, file: SiteFile) -> &F
        ensures { result.now ≡ (guarded_of file self.now).file }
    {
        match file {
            SiteFile::Journal => &self.journal.file,
            SiteFile::CrmLog => &self.crm_log.file,
            SiteFile::Snap => &self.snap.file,
        }
    }
}

impl<K: Drop> FileSite<OsFile, K> {
    /// Opens the site in a folder, and makes the files that aren't there, empty.
    pub fn open(rt: &HostRuntime, folder: Folder, keeper: K) -> Result<RealSite<K>, OpenError>
        ensures journal { IfOk result (λ s. IsNew s.journal.file s.journal) }
        ensures crm_log { IfOk result (λ s. IsNew s.crm_log.file s.crm_log) }
        ensures snap { IfOk result (λ s. IsNew s.snap.file s.snap) }
        ensures keeper { IfOk result (λ s. s.keeper ≡ keeper) }
        ensures locked { IfOk result (λ s. s.folder ≡ Some folder) }
    {
        let journal = folder.open(rt, SiteFile::Journal)?;
        let crm_log = folder.open(rt, SiteFile::CrmLog)?;
        let snap = folder.open(rt, SiteFile::Snap)?;
        folder.sync()?;
        let mut site = FileSite::over(journal, crm_log, snap, keeper);
        site.folder = Some(folder);
        Ok(site)
    }
}

impl<F: RawFile, K: Keeper> Site for FileSite<F, K> {
    ghost told = { ⊥ };

    ghost shown = { λ s. record { journal = []; crm_log = []; snap = []; rows = λ r k. None } };

    ghost may_leave = { λ s c. ⊥ };

    ghost moment = { λ s. 0 };

    ghost left_since = { λ s t c. ⊥ };

    ghost faults = { λ s. faults_of K.Keeper s };

    ghost shows_image = { λ s told. absurd told };

    ghost counts_now = { λ s t c told le now. absurd told };

    ghost short_images = { λ s c told image. absurd told };

    ghost only_now = { λ s c told since. absurd told };

    fn len(&mut self, file: SiteFile) -> Result<u64, Failed>
        ensures bound { IfOk result (λ n. n ≤ 4611686018427387904) }
        ensures cause { FailsBy K.Keeper self.old self.new (IsErr result) }
        ensures asked { OnFile file (λ old new. FindsLength F.RawFile old new result) self.old self.new }
    {
        match file {
            SiteFile::Journal => self.journal.len(),
            SiteFile::CrmLog => self.crm_log.len(),
            SiteFile::Snap => self.snap.len(),
        }
    }

    fn read(&mut self, file: SiteFile, at: u64, into: &mut [u8]) -> Result<usize, Failed>
        ensures count { IfOk result (λ n. n ≤ length into.old) }
        ensures cause { FailsBy K.Keeper self.old self.new (IsErr result) }
        ensures asked { OnFile file (λ old new. ReadsAll F.RawFile at into.old into.new old new result)
            self.old self.new }
    {
        match file {
            SiteFile::Journal => self.journal.read(at, into),
            SiteFile::CrmLog => self.crm_log.read(at, into),
            SiteFile::Snap => self.snap.read(at, into),
        }
    }

    fn write_at(&mut self, file: SiteFile, at: u64, bytes: &[u8]) -> Result<(), Failed>
        ensures bound { OnOk result (at + length bytes.now ≤ 4611686018427387904) }
        ensures cause { FailsBy K.Keeper self.old self.new (IsErr result) }
        ensures asked { OnFile file (λ old new. WritesAll F.RawFile at bytes.now old new result) self.old self.new }
    {
        match file {
            SiteFile::Journal => self.journal.write_at(at, bytes),
            SiteFile::CrmLog => self.crm_log.write_at(at, bytes),
            SiteFile::Snap => self.snap.write_at(at, bytes),
        }
    }

    fn cut(&mut self, file: SiteFile, len: u64) -> Result<(), Failed>
        ensures cause { FailsBy K.Keeper self.old self.new (IsErr result) }
        ensures asked { OnFile file (λ old new. CutsTo F.RawFile len old new result) self.old self.new }
    {
        match file {
            SiteFile::Journal => self.journal.cut(len),
            SiteFile::CrmLog => self.crm_log.cut(len),
            SiteFile::Snap => self.snap.cut(len),
        }
    }

    fn sync(&mut self, file: SiteFile) -> Result<(), Failed>
        ensures cause { FailsBy K.Keeper self.old self.new (IsErr result) }
        ensures asked { OnFile file (λ old new. MakesSure F.RawFile old new result) self.old self.new }
    {
        match file {
            SiteFile::Journal => self.journal.sync(),
            SiteFile::CrmLog => self.crm_log.sync(),
            SiteFile::Snap => self.snap.sync(),
        }
    }

    fn row_make(&mut self, resource: &[u8], key: &[u8], amount: u64) -> Result<(), Failed>
        requires { amount ≤ 1000000000000000 }
        ensures row { MakesRow K.Keeper resource.now key.now amount self.old self.new result }
        ensures cause { FailsBy K.Keeper self.old self.new (IsErr result) }
    {
        self.keeper.make(resource, key, amount)
    }

    fn row_get(&mut self, resource: &[u8], key: &[u8]) -> Result<u64, RowFault>
        ensures row { FindsRow K.Keeper resource.now key.now self.old self.new result }
        ensures bound { IfOk result (λ n. n ≤ 1000000000000000) }
        ensures cause { FailsBy K.Keeper self.old self.new (IsErrOf result RowFault.Failed) }
    {
        match self.keeper.get(resource, key) {
            Ok(Some(amount)) => Ok(amount),
            Ok(None) => Err(RowFault::NoRow),
            Err(Failed) => Err(RowFault::Failed),
        }
    }

    fn row_put(&mut self, resource: &[u8], key: &[u8], amount: u64) -> Result<(), RowFault>
        requires { amount ≤ 1000000000000000 }
        ensures row { PutsRow K.Keeper resource.now key.now amount self.old self.new result }
        ensures cause { FailsBy K.Keeper self.old self.new (IsErrOf result RowFault.Failed) }
    {
        match self.keeper.put(resource, key, amount) {
            Ok(true) => Ok(()),
            Ok(false) => Err(RowFault::NoRow),
            Err(Failed) => Err(RowFault::Failed),
        }
    }
}
