// One image of a moment, chosen among those that a crash may leave.
ghost use Rattle.std.specs.Prelude.{◌≡◌, IfOk, List, ℕ, Bool};
ghost use Rattle.qc_site.specs.Image.{Image, bytes_of};

use crate::content::Content;
use crate::file::MemFile;
use crate::history::History;
use crate::kept::Kept;
use qc_site::SiteFile;
use std::alloc::{AllocError, Global};

/// What a crash leaves of the ranges that were written since the last sync: the old bytes, the new ones, or the new
/// ones turned round. A single byte inside the file that was written stays the old one where it isn't the new one.
#[derive(Clone, Copy, Debug)]
pub enum Choice {
    Old,
    New,
    Flip,
}

impl Choice {
    ghost use Rattle.qc_memsite.specs.Contents.{image_of};
    ghost use Rattle.qc_memsite.specs.ChosenFile.{chosen};
    ghost use Rattle.qc_memsite.specs.Left.{left_in, file_of};
    ghost use Rattle.qc_memsite.specs.Shown.{shown_by, images_by};

    /// The same again.
    pub fn copy(&self) -> Choice
        ensures { result ≡ self.now }
    {
        *self
    }

    // The file in the chosen image.
    fn left_file(self, alloc: Global, kept: &Kept, file: SiteFile) -> Result<MemFile, AllocError>
        ensures bytes { IfOk result (λ f. f.bytes.items ≡ chosen self file kept.now) }
        ensures left { IfOk result (λ f. (flips : Bool) → left_in flips f ≡ chosen self file kept.now) }
    {
        let bytes = match self {
            Choice::New => kept.bytes(file).to_vec(alloc)?,
            Choice::Old => kept.content.file(file).settled(alloc)?,
            Choice::Flip => kept.content.file(file).turned(alloc)?,
        };
        Ok(MemFile::over(alloc, bytes))
    }

    fn left_content(self, alloc: Global, kept: &Kept) -> Result<Content, AllocError>
        ensures files { IfOk result (λ c. (file : SiteFile) → bytes_of file (image_of c) ≡ chosen self file kept.now) }
        ensures left { IfOk result (λ c. (flips : Bool) (file : SiteFile) → left_in flips (file_of file c) ≡ chosen self file kept.now) }
        ensures rows { IfOk result (λ c. (r k : List ℕ) → (image_of c).rows r k ≡ (shown_by kept.now).rows r k) }
    {
        let journal = self.left_file(alloc, kept, SiteFile::Journal)?;
        let crm_log = self.left_file(alloc, kept, SiteFile::CrmLog)?;
        let snap = self.left_file(alloc, kept, SiteFile::Snap)?;
        let rows = kept.content.rows.copy(alloc)?;
        Ok(Content {
            journal,
            crm_log,
            snap,
            rows,
        })
    }

    // What a site keeps that begins with the chosen image.
    pub(crate) fn image_kept(self, alloc: Global, kept: &Kept) -> Result<Kept, AllocError>
        ensures image { IfOk result (λ m. images_by kept.now (shown_by m)) }
        ensures alone { IfOk result (λ m. (c : Image) → images_by m c → c ≡ shown_by m) }
        ensures chosen { IfOk result (λ m. (file : SiteFile) → bytes_of file (shown_by m) ≡ chosen self file kept.now) }
        ensures rows { IfOk result (λ m. (r k : List ℕ) → (shown_by m).rows r k ≡ (shown_by kept.now).rows r k) }
    {
        let content = self.left_content(alloc, kept)?;
        let history = History::begin(&content);
        Ok(Kept {
            alloc,
            content,
            history,
        })
    }
}
