// What a site was at first, and the calls that have changed it since. It exists only in proofs, and takes no bytes: a
// site itself keeps no call that a sync has settled.
ghost use Rattle.std.specs.Prelude.{◌≡◌, List, [], ◌∷◌, ◌++◌};
ghost use base.Fml.{ftrue};
ghost use Rattle.qc_memsite.specs.Call.{Call, calls_code};
ghost use Rattle.qc_memsite.specs.declared.content.Content.{Content};

use crate::content::Content;
use qc_site::SiteFile;
use std::marker::Model;

#[derive(Drop)]
pub(crate) struct History {
    ghost first: { Content },
    ghost calls: { List Call } by { calls_code },
}

impl Model for History {
    ghost also_owns = { λ _. ftrue };
}

// It owns nothing, so a site may go to another thread.
unsafe impl Send for History {}

// A call that has changed a site.
#[derive(Clone, Copy, Drop)]
pub(crate) enum Note<'a> {
    Wrote(SiteFile, u64, &'a [u8]),
    CutTo(SiteFile, u64),
    Synced(SiteFile),
    Put(&'a [u8], &'a [u8], u64),
}

impl History {
    ghost use Rattle.qc_memsite.specs.Noted.{call_of};

    // It begins with this content.
    pub(crate) fn begin(_content: &Content) -> History
        ensures { (result.first ≡ _content.now) × (result.calls ≡ []) }
    {
        History {}
    }

    // One call more.
    pub(crate) fn and(&self, _note: &Note<'_>) -> History
        ensures { (result.first ≡ self.now.first) × (result.calls ≡ self.now.calls ++ call_of _note.now ∷ []) }
    {
        History {}
    }
}
