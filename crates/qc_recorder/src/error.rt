// Why nothing is recorded.
ghost use Rattle.std.specs.Prelude.{◌≡◌};

use qc_base::NoMemory;
use qc_protocol::Refusal;

/// Why a recorder isn't begun, or a call isn't recorded.
#[derive(Clone, Copy, Debug, PartialEq, Eq)]
pub enum RecordError {
    /// The first rule by number that refuses it: an unknown application or component for `Recorder::begin`, and one of
    /// `UnknownMethod`, `BadArguments`, `TooManyCalls` and `TooLong` for `Recorder::add` (docs/RULES.md, "Refusals").
    Refused(Refusal),
    /// Memory was wanting. This may be answered for any call.
    NoMemory,
}

impl RecordError {
    /// The same value again.
    pub fn copy(&self) -> RecordError
        ensures { result ≡ self.now }
    {
        *self
    }
}

impl From<NoMemory> for RecordError {
    ghost use Rattle.std.specs.Prelude.{◌≡◌};
    ghost use Rattle.qc_recorder.specs.declared.error.RecordError.TheVariants.{NoMemory as out_of_memory};

    ghost from_gives = { λ _ e. e ≡ out_of_memory };

    fn from(_: NoMemory) -> Self {
        RecordError::NoMemory
    }
}
