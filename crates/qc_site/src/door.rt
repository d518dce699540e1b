// A door through which connections come.
ghost use Rattle.std.specs.Prelude.{◌≡◌, ℕ, Option, IfOk, OnErr, IfSome, IsErr};
ghost use Rattle.qc_site.specs.Causes.{HasCause};
ghost use Rattle.qc_site.specs.Doors.{Comes};

use crate::{Failed, Link};

/// What a door gives.
#[derive(Debug, Drop)]
pub enum Next<L> {
    /// A connection.
    Link(L),
    /// There is none left, and none will come.
    Closed,
}

/// A door through which connections come, one after another.
pub trait Door {
    /// A connection: bytes that it has left, and bytes that were written to it.
    type Link: Link + Drop;

    /// How many links are left, where it tells.
    ghost left: { Self → Option ℕ };

    /// How often it has failed.
    ghost faults: { Self → ℕ };

    /// The next link. `Closed` comes exactly where none is left. After a failure none was taken.
    fn next(&mut self) -> Result<Next<Self::Link>, Failed>
        ensures given { IfOk result (λ next. IfSome (left self.old) (Comes next (left self.new))) }
        ensures failed { OnErr result (left self.new ≡ left self.old) }
        ensures cause { HasCause (faults self.old) (faults self.new) (IsErr result) };
}
