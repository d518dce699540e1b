// Where the sites come from over which the words of a command line are carried out.
ghost use Rattle.std.specs.Prelude.{List, ℕ, Result};
ghost use Rattle.qc_realsite.specs.declared.folder.OpenError.{OpenError};

use qc_realsite::OpenError;

/// What makes a site in memory, or opens the one in a folder.
pub(crate) trait Sites<M, F> {
    /// What the making of a site in memory may answer, and what is left.
    ghost makes: { Self → Result M OpenError → Self → Type 0 };

    /// What the opening of the folder at this path may answer, and what is left.
    ghost opens: { Self → List ℕ → Result F OpenError → Self → Type 0 };

    /// A site in memory, which holds nothing yet.
    fn make(&mut self) -> Result<M, OpenError>
        ensures { makes self.old result self.new };

    /// The site in the folder at this path.
    fn open(&mut self, folder: &str) -> Result<F, OpenError>
        ensures { opens self.old folder.now result self.new };
}
