// What a site in memory shows: three files and the rows.
ghost use Rattle.std.specs.Prelude.{◌≡◌, ◌≤◌, ℕ, List, [], length, None, Bool, IfOk, OnOk, OnErr, IfSome};
ghost use Rattle.qc_site.specs.Image.{bytes_of};

use crate::file::MemFile;
use crate::rows::RowList;
use qc_site::SiteFile;
use std::alloc::{AllocError, Global};

#[derive(Drop)]
pub(crate) struct Content {
    pub(crate) journal: MemFile,
    pub(crate) crm_log: MemFile,
    pub(crate) snap: MemFile,
    pub(crate) rows: RowList,
}

impl Content {
    ghost use Rattle.qc_memsite.specs.Call.{Wrote, CutTo, Synced, Put};
    ghost use Rattle.qc_memsite.specs.Contents.{image_of};
    ghost use Rattle.qc_memsite.specs.Left.{left_in, file_of, Same, Goes};

    pub(crate) fn empty(alloc: Global) -> Content
        ensures files { (file : SiteFile) → bytes_of file (image_of result) ≡ [] }
        ensures left { (flips : Bool) (file : SiteFile) → left_in flips (file_of file result) ≡ [] }
        ensures rows { (r k : List ℕ) → (image_of result).rows r k ≡ None }
    {
        Content {
            journal: MemFile::over(alloc, Vec::new(alloc)),
            crm_log: MemFile::over(alloc, Vec::new(alloc)),
            snap: MemFile::over(alloc, Vec::new(alloc)),
            rows: RowList::empty(alloc),
        }
    }

    pub(crate) fn file(&self, file: SiteFile) -> &MemFile
        ensures { result.now ≡ file_of file self.now }
    {
        match file {
            SiteFile::Journal => &self.journal,
            SiteFile::CrmLog => &self.crm_log,
            SiteFile::Snap => &self.snap,
        }
    }

    pub(crate) fn bytes(&self, file: SiteFile) -> &[u8]
        ensures { result.now ≡ bytes_of file (image_of self.now) }
    {
        match file {
            SiteFile::Journal => &self.journal.bytes,
            SiteFile::CrmLog => &self.crm_log.bytes,
            SiteFile::Snap => &self.snap.bytes,
        }
    }

    pub(crate) fn overwrite(
        &mut self,
        alloc: Global,
        file: SiteFile,
        at: u64,
        bytes: &[u8],
    ) -> Result<(), AllocError>
        requires { at ≤ length (bytes_of file (image_of self.old)) }
        ensures ok { OnOk result (Goes (Wrote file at bytes.now) self.old self.new) }
        ensures err { OnErr result (Same self.old self.new) }
    {
        match file {
            SiteFile::Journal => self.journal.overwrite(alloc, at, bytes),
            SiteFile::CrmLog => self.crm_log.overwrite(alloc, at, bytes),
            SiteFile::Snap => self.snap.overwrite(alloc, at, bytes),
        }
    }

    pub(crate) fn shorten(
        &mut self,
        alloc: Global,
        file: SiteFile,
        len: u64,
    ) -> Result<(), AllocError>
        requires { len ≤ length (bytes_of file (image_of self.old)) }
        ensures ok { OnOk result (Goes (CutTo file len) self.old self.new) }
        ensures err { OnErr result (Same self.old self.new) }
    {
        match file {
            SiteFile::Journal => self.journal.shorten(alloc, len),
            SiteFile::CrmLog => self.crm_log.shorten(alloc, len),
            SiteFile::Snap => self.snap.shorten(alloc, len),
        }
    }

    pub(crate) fn settle(&mut self, file: SiteFile)
        ensures { Goes (Synced file) self.old self.new }
    {
        match file {
            SiteFile::Journal => self.journal.settle(),
            SiteFile::CrmLog => self.crm_log.settle(),
            SiteFile::Snap => self.snap.settle(),
        }
    }

    pub(crate) fn put(
        &mut self,
        alloc: Global,
        resource: &[u8],
        key: &[u8],
        amount: u64,
    ) -> Result<(), AllocError>
        requires { amount ≤ 1000000000000000 }
        ensures ok { OnOk result (Goes (Put resource.now key.now amount) self.old self.new) }
        ensures err { OnErr result (Same self.old self.new) }
    {
        self.rows.set(alloc, resource, key, amount)
    }

    pub(crate) fn amount(&self, resource: &[u8], key: &[u8]) -> Option<u64>
        ensures value { result ≡ (image_of self.now).rows resource.now key.now }
        ensures bound { IfSome result (λ n. n ≤ 1000000000000000) }
    {
        self.rows.amount(resource, key)
    }
}
