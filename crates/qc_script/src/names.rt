// What a script may name.
ghost use Rattle.std.specs.Prelude.{◌≡◌, IfOk};

use crate::lists::Entries;
use qc_base::{Name, NoMemory};
use std::alloc::Global;
use std::marker::Model;

/// Whether a parameter takes a text or an amount.
#[derive(Clone, Copy, Debug, PartialEq, Eq)]
pub enum ParamKind {
    Text,
    Whole,
}

/// A parameter of a method.
#[derive(Clone, Copy, Debug, PartialEq, Eq)]
pub struct Param {
    pub name: Name,
    pub kind: ParamKind,
}

/// The parameters of a method, in order.
#[derive(Debug, Drop)]
pub struct Params(Vec<Param>);

impl Model for Params {
    ghost use Rattle.std.specs.Prelude.{List};
    ghost use Rattle.qc_script.specs.declared.names.Param.{Param};

    ghost Value = { List Param };

    ghost view = { λ p. p.0.items };
}

impl Params {
    /// The parameters of a vector. This takes no memory.
    pub fn over(items: Vec<Param>) -> Params
        ensures { result ≡ items.items }
    {
        Params(items)
    }

    /// A copy with memory of its own.
    pub fn copy(&self, alloc: Global) -> Result<Params, NoMemory>
        ensures { IfOk result (λ copy. copy ≡ self.now) }
    {
        match Vec::from_slice(alloc, self.0.as_slice()) {
            Ok(items) => Ok(Params(items)),
            Err(_) => Err(NoMemory),
        }
    }

    /// The parameters, in order.
    pub fn as_slice(&self) -> &[Param]
        ensures { result.now ≡ self.now }
    {
        self.0.as_slice()
    }
}

/// The names that a script may use for rows: those of tables for inside rows, those of resources for outside rows.
/// One name may stand in both lists, since the place in a step tells which is meant.
#[derive(Debug, Drop)]
pub struct Names {
    pub tables: Entries<Name>,
    pub resources: Entries<Name>,
}
