// Why a text is no catalogue.
ghost use Rattle.std.specs.Prelude.{◌≡◌, IfOk};

use qc_base::{Name, Word};
use std::alloc::Global;

/// The first rule of a catalogue that a text breaks (docs/FORMATS.md, "Catalogue"), or want of memory.
#[derive(Debug, Drop)]
pub enum CatalogueError {
    /// The text has more than 1,048,576 bytes.
    TextTooLong,
    /// The text isn't UTF-8 or isn't TOML.
    NotToml,
    /// The path of a field that is missing, unknown, of another type or against its rule, or of a method
    /// that an exception class lacks or has with other kinds.
    BadField(Word),
    /// The path of a component's exception class that isn't there.
    UnknownName(Word),
    /// The resource that lacks a phase that it needs.
    PhaseMissing(Name),
    /// The path of a method that has an output.
    NotQueueable(Word),
    /// The path of a script and the line at fault.
    BadScript(Word, u32),
    /// There was no memory. This is no rule of the text.
    NoMemory,
}

impl CatalogueError {
    /// A copy, with memory of its own. The error is want of memory.
    pub fn copy(&self, alloc: Global) -> Result<CatalogueError, qc_base::NoMemory>
        ensures { IfOk result (λ e. e ≡ self.now) }
    {
        Ok(match self {
            CatalogueError::TextTooLong => CatalogueError::TextTooLong,
            CatalogueError::NotToml => CatalogueError::NotToml,
            CatalogueError::BadField(path) => CatalogueError::BadField(path.copy(alloc)?),
            CatalogueError::UnknownName(path) => CatalogueError::UnknownName(path.copy(alloc)?),
            CatalogueError::PhaseMissing(name) => CatalogueError::PhaseMissing(*name),
            CatalogueError::NotQueueable(path) => CatalogueError::NotQueueable(path.copy(alloc)?),
            CatalogueError::BadScript(path, line) => {
                CatalogueError::BadScript(path.copy(alloc)?, *line)
            }
            CatalogueError::NoMemory => CatalogueError::NoMemory,
        })
    }
}
