// The line that is being read.
ghost use Rattle.std.specs.Prelude.{◌≡◌, ℕ, List, [], ◌++◌, IfOk};
ghost use Rattle.qc_drill.specs.Holds.{Holds, is_empty};

use qc_base::NoMemory;
use qc_orders::is_blank;
use std::alloc::Global;

/// A longer line is refused, and not kept (docs/FORMATS.md, "Lines").
const LONGEST_LINE: usize = 65_536;

/// What was read of a line so far: its bytes while they are few enough, and whether it is blank.
#[derive(Drop)]
pub struct Piece {
    pub(crate) bytes: Vec<u8>,
    pub(crate) long: bool,
    pub(crate) blank: bool,
}

impl Piece {
    pub(crate) fn start(alloc: Global) -> Piece
        ensures { Holds result [] }
    {
        Piece {
            bytes: Vec::new(alloc),
            long: false,
            blank: true,
        }
    }

    /// More bytes of the line, none of which ends it.
    pub(crate) fn append(&mut self, bytes: &[u8]) -> Result<(), NoMemory>
        ensures { (line : List ℕ) → Holds self.old line → IfOk result (λ _. Holds self.new (line ++ bytes.now)) }
    {
        self.blank = self.blank && is_blank(bytes);
        if self.long {
            return Ok(());
        }
        if self.bytes.len().saturating_add(bytes.len()) > LONGEST_LINE {
            self.long = true;
            return Ok(());
        }
        match self.bytes.extend_from_slice(bytes) {
            Ok(()) => Ok(()),
            Err(_) => Err(NoMemory),
        }
    }

    pub(crate) fn clear(&mut self)
        ensures { Holds self.new [] }
    {
        self.bytes.clear();
        self.long = false;
        self.blank = true;
    }

    pub(crate) fn is_empty(&self) -> bool
        ensures { (line : List ℕ) → Holds self.now line → result ≡ is_empty line }
    {
        !self.long && self.bytes.is_empty()
    }
}
