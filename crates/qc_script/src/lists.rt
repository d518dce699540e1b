// Vectors that contracts see as lists.
ghost use Rattle.std.specs.Prelude.{◌≡◌, ◌∷◌, ◌++◌, [], OnOk};

use qc_base::NoMemory;
use std::marker::Model;

/// A list, as a vector keeps it. Contracts see the list.
#[derive(Debug, Drop)]
pub struct Entries<T> {
    items: Vec<T>,
}

impl<T> Model for Entries<T> {
    ghost use Rattle.std.specs.Prelude.{List};

    ghost Value = { List T };

    ghost view = { λ e. e.items.items };
}

impl<T> Entries<T> {
    /// The items of a vector. This takes no memory.
    pub fn over(items: Vec<T>) -> Entries<T>
        ensures { result ≡ items.items }
    {
        Entries { items }
    }

    /// The items, in order.
    pub fn as_slice(&self) -> &[T]
        ensures { result.now ≡ self.now }
    {
        self.items.as_slice()
    }
}

/// An item more, behind the others.
pub fn put<T: Drop>(items: &mut Vec<T>, item: T) -> Result<(), NoMemory>
    ensures { OnOk result (items.new.items ≡ items.old.items ++ item ∷ []) }
{
    match items.push(item) {
        Ok(()) => Ok(()),
        Err(_) => Err(NoMemory),
    }
}
