// Vectors that contracts see as lists.
ghost use Rattle.std.specs.Prelude.{◌≡◌, IfOk};

use qc_base::{Amount, NoMemory, Text};
use std::alloc::Global;
use std::marker::Model;

/// Rows with their opening amounts, in byte order of the keys. Contracts see a list of pairs.
#[derive(Debug, Drop)]
pub struct AmountRows(Vec<(Text, Amount)>);

impl Model for AmountRows {
    ghost use Rattle.std.specs.Prelude.{List, ℕ};

    ghost Value = { List (List ℕ × ℕ) };

    ghost view = { λ r. r.0.items };
}

impl AmountRows {
    /// The rows of a vector. This takes no memory.
    pub fn over(items: Vec<(Text, Amount)>) -> AmountRows
        ensures { result ≡ items.items }
    {
        AmountRows(items)
    }

    /// A copy with memory of its own.
    pub fn copy(&self, alloc: Global) -> Result<AmountRows, NoMemory>
        ensures { IfOk result (λ copy. copy ≡ self.now) }
    {
        match Vec::from_slice(alloc, self.0.as_slice()) {
            Ok(items) => Ok(AmountRows(items)),
            Err(_) => Err(NoMemory),
        }
    }

    /// The rows, in order.
    pub fn as_slice(&self) -> &[(Text, Amount)]
        ensures { result.now ≡ self.now }
    {
        self.0.as_slice()
    }
}
