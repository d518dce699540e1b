// What a site in memory keeps: its content now, with the calls that no sync has settled. The ghost fields tie both to
// all calls since its first content.
ghost use Rattle.std.specs.Prelude.{◌≡◌, ◌+◌, ◌≤◌, ◌++◌, ℕ, List, [], ◌∷◌, length, Some, None, Bool, IfOk, OnOk, OnErr, IfSome, All};
ghost use Rattle.qc_site.specs.Image.{IsShort, bytes_of};
ghost use Rattle.qc_site.specs.declared.site.SiteFile.{SiteFile};
ghost use Rattle.qc_memsite.specs.Bounds.{end_of};
ghost use Rattle.qc_memsite.specs.Call.{Wrote, CutTo, Synced, Put};
ghost use Rattle.qc_memsite.specs.Calls.{shown_after};
ghost use Rattle.qc_memsite.specs.Contents.{image_of};
ghost use Rattle.qc_memsite.specs.Left.{left_in, file_of, left_by};

use crate::content::Content;
use crate::history::{History, Note};
use qc_site::SiteFile;
use std::alloc::{AllocError, Global};

#[derive(Drop)]
pub(crate) struct Kept {
    pub(crate) alloc: Global,
    pub(crate) content: Content,
    pub(crate) history: History,
    ghost first_short: { IsShort (image_of history.first) },
    ghost ends: { All (λ x. end_of x ≤ 4611686018427387904) history.calls },
    ghost shown: { image_of content ≡ shown_after history.calls (image_of history.first) },
    ghost left: { (flips : Bool) (file : SiteFile) → left_by flips file history ≡ left_in flips (file_of file content) },
}

impl Kept {
    ghost use Rattle.qc_memsite.specs.Shown.{first_by, calls_by, shown_by, Unchanged};

    pub(crate) fn make(alloc: Global) -> Kept
        ensures calls { calls_by result ≡ [] }
        ensures files { (file : SiteFile) → bytes_of file (first_by result) ≡ [] }
        ensures rows { (r k : List ℕ) → (first_by result).rows r k ≡ None }
    {
        let content = Content::empty(alloc);
        let history = History::begin(&content);
        Kept {
            alloc,
            content,
            history,
        }
    }

    pub(crate) fn overwrite(
        &mut self,
        file: SiteFile,
        at: u64,
        bytes: &[u8],
    ) -> Result<(), AllocError>
        requires fits { at + length bytes.now ≤ 4611686018427387904 }
        requires inside { at ≤ length (bytes_of file (shown_by self.old)) }
        ensures ok { OnOk result (calls_by self.new ≡ calls_by self.old ++ Wrote file at bytes.now ∷ []) }
        ensures first { self.new.history.first ≡ self.old.history.first }
        ensures err { OnErr result (calls_by self.new ≡ calls_by self.old) }
    {
        self.content.overwrite(self.alloc, file, at, bytes)?;
        self.history = self.history.and(&Note::Wrote(file, at, bytes));
        Ok(())
    }

    pub(crate) fn shorten(&mut self, file: SiteFile, len: u64) -> Result<(), AllocError>
        requires { len ≤ length (bytes_of file (shown_by self.old)) }
        ensures ok { OnOk result (calls_by self.new ≡ calls_by self.old ++ CutTo file len ∷ []) }
        ensures first { self.new.history.first ≡ self.old.history.first }
        ensures err { OnErr result (calls_by self.new ≡ calls_by self.old) }
    {
        self.content.shorten(self.alloc, file, len)?;
        self.history = self.history.and(&Note::CutTo(file, len));
        Ok(())
    }

    pub(crate) fn sync(&mut self, file: SiteFile)
        ensures calls { calls_by self.new ≡ calls_by self.old ++ Synced file ∷ [] }
        ensures first { self.new.history.first ≡ self.old.history.first }
    {
        self.content.settle(file);
        self.history = self.history.and(&Note::Synced(file));
    }

    pub(crate) fn put(&mut self, resource: &[u8], key: &[u8], amount: u64) -> Result<(), AllocError>
        requires { amount ≤ 1000000000000000 }
        ensures ok { OnOk result (calls_by self.new ≡ calls_by self.old ++ Put resource.now key.now amount ∷ []) }
        ensures first { self.new.history.first ≡ self.old.history.first }
        ensures err { OnErr result (calls_by self.new ≡ calls_by self.old) }
    {
        self.content.put(self.alloc, resource, key, amount)?;
        self.history = self.history.and(&Note::Put(resource, key, amount));
        Ok(())
    }

    pub(crate) fn amount(&self, resource: &[u8], key: &[u8]) -> Option<u64>
        ensures value { result ≡ (shown_by self.now).rows resource.now key.now }
        ensures bound { IfSome result (λ n. n ≤ 1000000000000000) }
    {
        self.content.amount(resource, key)
    }

    pub(crate) fn bytes(&self, file: SiteFile) -> &[u8]
        ensures { result.now ≡ bytes_of file (shown_by self.now) }
    {
        self.content.bytes(file)
    }
}
