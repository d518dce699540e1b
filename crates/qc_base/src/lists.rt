// Vectors of numbers that contracts see as lists.
ghost use Rattle.std.specs.Prelude.{◌≡◌, List, IfOk};

use crate::number::NoMemory;
use std::alloc::Global;
use std::marker::Model;

/// Bytes.
#[derive(Debug, Drop)]
pub struct Word(Vec<u8>);

impl Model for Word {
    ghost use Rattle.std.specs.Prelude.{List, ℕ};

    ghost Value = { List ℕ };

    ghost view = { λ w. w.0.items };
}

impl Word {
    /// The bytes of a vector. This takes no memory.
    pub fn over(items: Vec<u8>) -> Word
        ensures { result ≡ items.items }
    {
        Word(items)
    }

    /// The items, in order.
    pub fn as_slice(&self) -> &[u8]
        ensures { result.now ≡ self.now }
    {
        self.0.as_slice()
    }

    /// A copy, with memory of its own. The error is want of memory.
    pub fn copy(&self, alloc: Global) -> Result<Word, NoMemory>
        ensures { IfOk result (λ w. w ≡ self.now) }
    {
        let items = Vec::from_slice(alloc, self.0.as_slice()).map_err(|_| NoMemory)?;
        Ok(Word(items))
    }
}

/// Numbers of messages.
#[derive(Debug, Drop)]
pub struct Ids(Vec<u64>);

impl Model for Ids {
    ghost use Rattle.std.specs.Prelude.{List, ℕ};

    ghost Value = { List ℕ };

    ghost view = { λ w. w.0.items };
}

impl Ids {
    /// The numbers of a vector. This takes no memory.
    pub fn over(items: Vec<u64>) -> Ids
        ensures { result ≡ items.items }
    {
        Ids(items)
    }

    /// The items, in order.
    pub fn as_slice(&self) -> &[u64]
        ensures { result.now ≡ self.now }
    {
        self.0.as_slice()
    }

    /// A copy, with memory of its own. The error is want of memory.
    pub fn copy(&self, alloc: Global) -> Result<Ids, NoMemory>
        ensures { IfOk result (λ w. w ≡ self.now) }
    {
        let items = Vec::from_slice(alloc, self.0.as_slice()).map_err(|_| NoMemory)?;
        Ok(Ids(items))
    }
}
