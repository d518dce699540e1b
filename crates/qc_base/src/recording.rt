// Calls, and the recording of an activation.
ghost use Rattle.std.specs.Prelude.{◌≡◌, List, length, IfOk, ◌↔◌, ◌≤◌};

use crate::name::{Name, Text};
use crate::number::{Amount, NoMemory};
use std::alloc::Global;
use std::marker::Model;

/// Where a row is kept: inside rows in the tables of the catalogue, outside rows in its resources
/// (docs/RULES.md, "Rows").
#[derive(Clone, Copy, Debug, PartialEq, Eq)]
pub enum Space {
    Inside,
    Outside,
}

impl Space {
    /// The same value again.
    pub fn copy(&self) -> Space
        ensures { result ≡ self.now }
    {
        *self
    }
}

/// A row of a table or of a resource, with its key (docs/RULES.md, "Rows").
#[derive(Clone, Copy, Debug, PartialEq, Eq)]
pub struct Row {
    pub space: Space,
    /// The table of an inside row, the resource of an outside one.
    pub name: Name,
    pub key: Text,
}

impl Row {
    /// The same value again.
    pub fn copy(&self) -> Row
        ensures { result ≡ self.now }
    {
        *self
    }
}

/// What a call is given for one parameter (docs/FORMATS.md, "Recording").
#[derive(Clone, Copy, Debug, PartialEq, Eq)]
pub enum Arg {
    Text(Text),
    Whole(Amount),
}

impl Arg {
    /// The same value again.
    pub fn copy(&self) -> Arg
        ensures { result ≡ self.now }
    {
        *self
    }
}

/// The arguments of a call, in the order of the parameters.
#[derive(Debug, Drop)]
pub struct Args(Vec<Arg>);

impl Model for Args {
    ghost use Rattle.std.specs.Prelude.{List};
    ghost use Rattle.qc_base.specs.declared.recording.Arg.{Arg};

    ghost Value = { List Arg };

    ghost view = { λ a. a.0.items };
}

impl Args {
    /// The arguments of a vector. This takes no memory.
    pub fn over(items: Vec<Arg>) -> Args
        ensures { result ≡ items.items }
    {
        Args(items)
    }

    /// The items, in order.
    pub fn as_slice(&self) -> &[Arg]
        ensures { result.now ≡ self.now }
    {
        self.0.as_slice()
    }

    /// A copy, with memory of its own. The error is want of memory.
    pub fn copy(&self, alloc: Global) -> Result<Args, NoMemory>
        ensures { IfOk result (λ a. a ≡ self.now) }
    {
        let items = Vec::from_slice(alloc, self.0.as_slice()).map_err(|_| NoMemory)?;
        Ok(Args(items))
    }
}

/// One recorded call (docs/FORMATS.md, "Recording").
#[derive(Debug, Drop)]
pub struct Call {
    pub method: Name,
    /// At most 16.
    pub args: Args,
}

impl Call {
    /// A copy, with memory of its own. The error is want of memory.
    pub fn copy(&self, alloc: Global) -> Result<Call, NoMemory>
        ensures { IfOk result (λ c. c ≡ self.now) }
    {
        let args = self.args.copy(alloc)?;
        Ok(Call {
            method: self.method,
            args,
        })
    }
}

/// Calls in the order in which they were recorded.
#[derive(Debug, Drop)]
pub struct Calls(Vec<Call>);

impl Model for Calls {
    ghost use Rattle.std.specs.Prelude.{List};
    ghost use Rattle.qc_base.specs.declared.recording.Call.{Call};

    ghost Value = { List Call };

    ghost view = { λ a. a.0.items };
}

impl Calls {
    /// The calls of a vector. This takes no memory.
    pub fn over(items: Vec<Call>) -> Calls
        ensures { result ≡ items.items }
    {
        Calls(items)
    }

    /// The items, in order.
    pub fn as_slice(&self) -> &[Call]
        ensures { result.now ≡ self.now }
    {
        self.0.as_slice()
    }

    /// A copy, with memory of its own. The error is want of memory.
    pub fn copy(&self, alloc: Global) -> Result<Calls, NoMemory>
        ensures { IfOk result (λ a. a ≡ self.now) }
    {
        let mut items = Vec::with_capacity(alloc, self.0.len()).map_err(|_| NoMemory)?;
        for call in self.0.iter() {
            let copied = call.copy(alloc)?;
            items.push(copied).map_err(|_| NoMemory)?;
        }
        Ok(Calls(items))
    }
}

/// What one activation recorded, and what a message carries: 1 to 64 calls on a component of an
/// application, whose spelling has at most 16,384 bytes (docs/FORMATS.md, "Recording").
#[derive(Debug, Drop)]
pub struct Recording {
    pub app: Name,
    pub component: Name,
    pub calls: Calls,
}

impl Recording {
    /// A copy, with memory of its own. The error is want of memory.
    pub fn copy(&self, alloc: Global) -> Result<Recording, NoMemory>
        ensures { IfOk result (λ r. r ≡ self.now) }
    {
        let calls = self.calls.copy(alloc)?;
        Ok(Recording {
            app: self.app,
            component: self.component,
            calls,
        })
    }
}
