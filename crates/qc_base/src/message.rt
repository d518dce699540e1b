// Messages, as the store keeps them.
ghost use Rattle.std.specs.Prelude.{◌≡◌, IfOk};

use crate::fact::Place;
use crate::number::NoMemory;
use crate::recording::Recording;
use std::alloc::Global;

/// A message: what was recorded, and where it stands (docs/RULES.md, "Places").
#[derive(Debug, Drop)]
pub struct Message {
    /// From 1, in the order of sending.
    pub id: u64,
    pub recording: Recording,
    /// Whether its component names an exception class, which has the last attempt.
    pub final_class: bool,
    pub place: Place,
}

impl Message {
    /// A copy, with memory of its own. The error is want of memory.
    pub fn copy(&self, alloc: Global) -> Result<Message, NoMemory>
        ensures { IfOk result (λ m. m ≡ self.now) }
    {
        let recording = self.recording.copy(alloc)?;
        Ok(Message {
            id: self.id,
            recording,
            final_class: self.final_class,
            place: self.place,
        })
    }
}
