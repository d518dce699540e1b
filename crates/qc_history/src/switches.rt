// Applications that are switched off, as a plain list that is looked through.
ghost use Rattle.std.specs.Prelude.{◌≡◌, ◌≤◌, [], OnOk};
ghost use Rattle.std.specs.Vec.{vec_len, vec_capacity};
ghost use Rattle.qc_history.specs.Switches.{all_but, is_among, switched};

use qc_base::{Name, NoMemory};
use std::alloc::Global;
use std::marker::Model;

/// The names of the applications that are off. Contracts see them, and for how many more there is room.
#[derive(Debug, Drop)]
pub(crate) struct Switches {
    off: Vec<Name>,
}

impl Model for Switches {
    ghost use Rattle.std.specs.Prelude.{◌-◌};
    ghost use Rattle.std.specs.Vec.{vec_len, vec_capacity};
    ghost use Rattle.qc_history.specs.Switches.{OffView};

    ghost Value = { OffView };

    ghost view = { λ s. record { names = s.off.items; room = vec_capacity s.off - vec_len s.off } };
}

// Whether a name is among these.
fn is_among(names: &[Name], name: &Name) -> bool
    ensures { result ≡ is_among name.now names.now }
{
    for other in names {
        if name.as_bytes() == other.as_bytes() {
            return true;
        }
    }
    false
}

// The name goes, and its place is free.
fn take_out(names: &mut Vec<Name>, app: &Name)
    ensures items { names.new.items ≡ all_but app.now names.old.items }
    ensures len { vec_len names.new ≤ vec_len names.old }
    ensures capacity { vec_capacity names.new ≡ vec_capacity names.old }
{
    names.retain(|name| name.as_bytes() != app.as_bytes());
}

impl Switches {
    /// Each application is on.
    pub(crate) fn make(alloc: Global) -> Switches
        ensures { result.names ≡ [] }
    {
        Switches {
            off: Vec::new(alloc),
        }
    }

    pub(crate) fn is_off(&self, app: &Name) -> bool
        ensures { result ≡ is_among app.now self.now.names }
    {
        is_among(self.off.as_slice(), app)
    }

    /// There is room for one switch more. The error is want of memory.
    pub(crate) fn reserve(&mut self, _alloc: Global) -> Result<(), NoMemory>
        ensures names { self.new.names ≡ self.old.names }
        ensures room { OnOk result (1 ≤ self.new.room) }
    {
        self.off.reserve(1).map_err(|_| NoMemory)
    }

    /// The application is on or off from now on. This takes no memory.
    pub(crate) fn set(&mut self, app: Name, on: bool)
        requires { 1 ≤ self.old.room }
        ensures { self.new.names ≡ switched app on self.old.names }
    {
        take_out(&mut self.off, &app);
        if !on {
            self.off.push_reserved(app);
        }
    }
}
