// The lines that a clerk has staged. They exist only in proofs, and take no bytes: a clerk keeps what they say, and no
// line itself.
ghost use Rattle.std.specs.Prelude.{◌≡◌, List, [], ◌∷◌, ◌++◌};
ghost use base.Fml.{ftrue};
ghost use Rattle.qc_base.specs.declared.log_line.LogLine.{LogLine};

use qc_base::LogLine;
use std::marker::Model;

#[derive(Drop)]
pub(crate) struct Lines {
    ghost lines: { List LogLine },
}

impl Model for Lines {
    ghost also_owns = { λ _. ftrue };
}

// It owns nothing, so a clerk may go to another thread.
unsafe impl Send for Lines {}

impl Lines {
    pub(crate) fn none() -> Lines
        ensures { result.lines ≡ [] }
    {
        Lines {}
    }

    // One line more.
    pub(crate) fn and(&self, _line: &LogLine) -> Lines
        ensures { result.lines ≡ self.now.lines ++ _line.now ∷ [] }
    {
        Lines {}
    }
}
