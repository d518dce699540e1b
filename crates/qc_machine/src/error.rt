// Why a site can't be opened.
ghost use Rattle.std.specs.Prelude.{◌≡◌};

use qc_frame::Damage;

/// Why a site can't be opened (docs/RULES.md, "Opening").
#[derive(Clone, Copy, Debug, PartialEq, Eq)]
pub enum OpenError {
    /// A call of the site failed, and its count of faults rose.
    SiteFault,
    /// The header of the journal or of the log of compensations differs.
    NotMade,
    /// The journal has no open group.
    NoCatalogue,
    /// The files stand for no history.
    Damaged(Damage),
    NoMemory,
}

impl OpenError {
    /// The same value again.
    pub fn copy(&self) -> OpenError
        ensures { result ≡ self.now }
    {
        *self
    }
}
